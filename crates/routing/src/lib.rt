//! Distances between the IMPs of a network.
//!
//! Every IMP announces to its neighbours how many lines lie between it and each IMP that there can be, itself
//! among them (Heart et al., "The interface message processor for the ARPA computer network", SJCC 1970,
//! "Routing algorithm"). Such a list of distances is a [`Vector`].
//!
//! The layers above see a [`Vector`] as a list of [`interface::MOST_IMPS`] numbers, none above [`INFINITE`], in the order
//! of the IMPs' numbers, of which the first is 1. Nothing here says that a distance is right.
#![tactic(auto)]

pub mod law;
mod route_table;
mod settling;
mod vector;

pub use route_table::{RouteTable, is_heard};
pub use settling::settle;
pub use vector::{INFINITE, Vector};
