//! Hosts with their programs over a carrier, and the book of all that happens to them.
//!
//! A world runs the program of each host (crate `sockets`) over any carrier (crate `interface`). Here it is defined, with
//! its book; what is promised of that is the crate `promise`. Proved here for every carrier are that the messages of the
//! book are safe, and clean resets: the book is a run of the law of resets (crate `reset_law`), so a host that is
//! through a reset with a peer takes of it, RST and RRP aside, only what went out after its last clean point.
//!
//! A [`World`] takes events one by one and keeps a [`Book`]; each call does what the definition of its event says, and
//! its book is, at any time, one of which the laws here speak. The laws and the rows are the contracts of functions that
//! do nothing.
#![tactic(auto)]

mod asking;
mod auditing;
mod book;
mod calm;
mod crossed;
mod event;
mod events;
mod hosting;
pub mod law;
mod life;
mod lives;
mod mixed_world;
mod notes;
mod open;
mod parts;
mod seat;
mod strangers;
mod tally;
mod undo;
mod unwritten;
pub mod worked;
pub mod worked_closes;
pub mod worked_findings;
pub mod worked_formed;
pub mod worked_moments;
pub mod worked_reports;
pub mod worked_resets;
pub mod worked_rest;
pub mod worked_strangers;
mod world;

pub use auditing::{
    Audit, Finding, Part, audit, broken_grants, broken_messages, broken_partners, broken_streams,
    locate, malformed,
};
pub use book::Book;
pub use calm::OFFERS;
pub use event::{Event, WorldFault};
pub use host_services::{Report, Reported, TypedLine};
pub use mixed_world::MixedWorld;
pub use promise::{Amount, BitLog, Called, Life, Told};
pub use seat::{Seat, ServiceSeat};
pub use strangers::StrangersFault;
pub use world::World;
