//! Two programs that speak to one another of the connections on a link, each way, as two runs of the law of streams.
//!
//! The law (crate `stream_law`) is about words and one link; a program (crate `host_pairs`) queues commands for all links. Here the commands that a
//! program has said and its peer hasn't heard are the words in transit on each link, and each call of one of the two is moves that the law allows.
//! There is no code: the laws are the contracts of functions that do nothing.
#![tactic(auto)]

pub mod law;
