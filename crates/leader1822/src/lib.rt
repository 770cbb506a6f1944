//! The leaders of messages between a host and its IMP (BBN Report 1822, with the 32-bit leader), and the plainest
//! carrier.
//!
//! A [`Leader`] is read and written exactly. [`PlainBoxes`] is a [`Carrier`] that is mailboxes and nothing else. The
//! words of the interface itself live in the crate `interface`, and are passed on.
#![tactic(auto)]

mod contents;
mod flows;
pub mod law;
mod leader;
mod plain_boxes;
mod queues;

pub use interface::{
    Answer, Carrier, CarrierFault, Crossing, Direction, Flow, HostAddr, HostMessage, Hosts,
    ImpNumber, Inbound, Link, MESSAGE_NUMBERS, MOST_IMPS, NetEvent, Number, Text,
};
pub use leader::{Leader, LeaderFault};
pub use plain_boxes::PlainBoxes;
