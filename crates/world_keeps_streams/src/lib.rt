//! The streams of a world: what a receiving socket took is a prefix of what its one partner sent, and all of it is granted.
//!
//! Two programs on a link are two runs of the law of streams (crate `pair_keeps_streams`). Here the moments of a world are their calls, and
//! the lives of its book are the connections of that law. There is no code: the laws are the contracts of functions that do nothing.
#![tactic(auto)]

pub mod calm;
pub mod law;
pub mod worked;
pub mod worked_arrived;
pub mod worked_between;
pub mod worked_ends;
pub mod worked_sent;
