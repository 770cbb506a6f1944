//! That a host's program receives and sends on a link as the law of streams has it.
//!
//! The law (crate `stream_law`) is about two hosts and a link. Here is one host with one peer, as crate `host_pairs` has it: what its
//! ends on a link take, grant, send and return is what the law's moves do there. There is no code: the laws are the contracts of functions that do
//! nothing.
#![tactic(auto)]

pub mod calls;
pub mod histories;
pub mod law;
