//! One flow through the whole network, as a machine that may lose, copy and overtake its packets.
//!
//! A flow is seen at once at both its ends: the numbers, answers and queue that its two IMPs hold, its two
//! hosts up or down, its mailbox, and every packet of it that is alive anywhere. A move is what an IMP, a
//! line or a host can do to it. For every list of moves, and whatever is lost, copied or overtaken on the
//! way, what the hosts see is a run of the flow's mailbox: nothing is taken twice, and an answer is true.
//!
//! The layer above shows of each of its steps that each flow makes a list of moves, and gets that its log
//! is a run for each flow. Nothing is said of room, routes, lines or the cutting of messages, and no IMP is
//! tied to the moves here. There is no code: the laws are the contracts of functions that do nothing.
//!
//! The module `counterexamples` shows that no need of a move can be dropped. The law does not rest on it.
#![tactic(auto)]

pub mod counterexamples;
pub mod law;
