//! What crosses the interface between a host and its IMP (BBN Report 1822), and what the network promises there.
//!
//! Here live the words that all other crates speak: addresses, links, flows, messages and answers, and the crossings
//! that a log is made of. Here is also what the network promises to its hosts: one mailbox for each flow, which a log of
//! crossings has to follow, and the trait [`Carrier`], whose every implementation keeps such a log.
//!
//! The layers above rely on a carrier's log being a run of the mailboxes. Nothing here knows of leaders, packets, lines
//! or routes, nor of how a carrier does it.
#![tactic(auto)]

mod address;
mod carrier;
mod crossing;
mod event;
mod hosts;
pub mod law;
mod message;

pub use address::{
    Flow, HostAddr, ImpNumber, Link, MESSAGE_NUMBERS, MOST_HOSTS, MOST_IMPS, Number,
};
pub use carrier::{Carrier, CarrierFault, TAKINGS};
pub use crossing::{Answer, Crossing, Inbound};
pub use event::{Direction, NetEvent};
pub use hosts::Hosts;
pub use message::{HostMessage, Text};
