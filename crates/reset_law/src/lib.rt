//! Why a host takes nothing of an older contact, though an RST carries no tag.
//!
//! Two hosts are seen as far as resets go: how far each has come with the other, what it has outstanding, and
//! the mailboxes between them. For every list of contacts, messages, answers, stops and starts, however resets
//! cross, fail or are answered late, a host that is through a reset takes only what went out after its last
//! clean point. The mailboxes are all that is asked of the network.
//!
//! The crate `net_sim` ties the host program (crate `sockets`) to these phases. There is no code: the laws are the
//! contracts of functions that do nothing.
#![tactic(auto)]

pub mod law;
