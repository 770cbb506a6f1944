//! Which IMPs, hosts and lines a network has, and the TOML documents that say so.
//!
//! A [`Topology`] keeps the rules of a network by its type: one to 63 IMPs with at most four hosts
//! each (Heart et al. 1970), lines between IMPs that are there, one between two of them at most, and five at an
//! IMP at most, a limit of the networks here. Its strangers, which run no program, are hosts of it, in their order, and
//! a raw network has none. A document is read as the one topology that it describes, or refused.
//!
//! Nothing here knows how messages are carried.
#![tactic(auto)]

pub mod law;
mod network;
mod strangers;

pub use network::{CarrierKind, ImpHosts, LineEnds, MOST_LINES, Topology, TopologyFault};
