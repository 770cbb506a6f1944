//! The numbers of a host's program stay within the fields of the commands that carry them.
//!
//! A command has fields of one, two and four octets. A program keeps sockets, links, sizes and allocations, which come from its
//! users and from its peers, and says them in commands. Here each of its calls keeps them within their fields; so whoever
//! takes a control message of a program reads just the commands that it was made of.
//!
//! There is no code: the laws are the contracts of functions that do nothing.
#![tactic(auto)]

pub mod law;
