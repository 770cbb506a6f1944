//! What the users of two hosts of a world know of their open ends is so, and each end is the other's partner.
//!
//! A program notifies its user when a connection opens and when it is over (crate `host_keeps_pairing`). Here this is followed over any list of
//! moments of a world: what a user knows to be open is open, by the steps of the two hosts (crate `world_keeps_pairing`).
//!
//! There is no code: the laws are the contracts of functions that do nothing.
#![tactic(auto)]

pub mod connections;
pub mod law;
