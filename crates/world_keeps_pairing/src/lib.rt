//! Two hosts with their programs, and all that crosses between them, are two hosts of the law of pairing.
//!
//! The law of resets (crate `reset_law`) says of two hosts what each has heard of the other since both were through a reset; the law
//! of pairing (crate `pairing_law`) why no opening of a connection then has two partners. Here all that two hosts say and hear of
//! their connections one way, over any list of events of the law of resets, is a list of steps of the law of pairing. The lives in a
//! world's book are openings of that law, so the book is safe as far as partners go.
//!
//! There is no code: the laws are the contracts of functions that do nothing.
#![tactic(auto)]

pub mod law;
