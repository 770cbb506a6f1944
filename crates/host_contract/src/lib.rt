//! The contract of a host: what it keeps toward a peer, judged from its own log only.
//!
//! An own log has what crosses between one host and its network, what its users do, and what they are notified of. No word
//! of a program's state is in it, and nothing of what other hosts do. There is no code: worked logs are the contracts of
//! functions that do nothing.
#![tactic(auto)]

pub mod law;
