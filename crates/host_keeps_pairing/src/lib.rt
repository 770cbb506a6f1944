//! A host's program, at each pair of its sockets, is one of the two hosts of the law of pairing.
//!
//! The law (crate `pairing_law`) says why no opening of a connection has two partners, for hosts that speak by certain rules.
//! Here each call of a host's program (crate `sockets`) is, for every pair of sockets with every peer, a list of that
//! law's moves: what it says it may say, and what it hears in order does to its ends what the law says.
//!
//! There is no code: the laws are the contracts of functions that do nothing.
#![tactic(auto)]

pub mod law;
