//! All IMPs and lines of the subnet.
//!
//! [`Subnet`] is a carrier: hosts offer messages to it and take them from it, and frames are delivered and lost,
//! and IMPs, hosts and lines stop and start as its events say. Whatever happens, its log is a run of the mailboxes.
//! The module `law` says so of its definitions, and has worked rows.
#![tactic(auto)]

mod contents;
mod events;
mod flow_events;
mod imp_call;
pub mod law;
mod line_events;
mod lines;
mod offering;
mod opening;
mod parts;
mod quiet_rounds;
mod resending;
mod seeking;
mod settled;
mod starting;
mod stops;
mod stuck;
mod subnet;
mod taking;
mod telling;
mod wire;

pub use subnet::Subnet;
pub use wire::{Ends, Wire};
