//! Traces of subnets: what happens inside IMPs and on lines, event by event.
//!
//! The *parts* of a subnet are its IMPs and its lines. Each has a JSON text, which says all that is in it: an IMP's hosts
//! with what waits for them, its ports with their channels, what its neighbours announced, the packets that it stores, the
//! messages in reassembly and what it knows of flows; and the frames that are live on a line. An elementary event can
//! change only the parts that `parts_of` names. A [`TracedSubnet`] looks at these, and says which of them it changed.
//!
//! A calm has the calls of its quiet rounds that do something, and the takings of the hosts, as elementary events; a [`Place`]
//! is between two of them.
//!
//! A reader of traces may rely on these laws ([`law`]). A calm is its elementary events one after another; it is
//! traced up to its first still round, after which every round would be the same. An event changes no part but those
//! that it can change, and none where it is refused. Of the subnets that replays come to, those with equal texts of
//! all parts are equal, but for their logs; and the first line of a trace describes the network. So a trace leaves
//! nothing out.
#![tactic(auto)]

mod calm;
mod fates;
mod flows;
mod imp;
pub mod law;
mod lists;
mod packets;
mod parts;
mod place;
mod traced;
mod ways;
pub mod worked;

pub use parts::print_whole;
pub use place::{Place, Stage};
pub use traced::TracedSubnet;
pub use ways::Notes;
