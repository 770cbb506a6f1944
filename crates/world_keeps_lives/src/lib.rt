//! What a host's own program and its lives in the book say of each other: what was handed over, what was granted, and which end a
//! life is of.
//!
//! There is no code: the laws are the contracts of functions that do nothing.
#![tactic(auto)]

pub mod law;
