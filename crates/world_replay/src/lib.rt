//! Replaying the events of a world's script over any carrier.
//!
//! [`replay_events`] lets each event happen in a world. It writes one line for each crossing of the interface between a
//! host and its IMP, one for each notice to the user of a host, one for each thing that a service of a host reports,
//! and one for each refusal. A notice is after the crossings that were before it, and a report after its notice.
//! [`replay_mixed_events`] does so in a world some of whose hosts are strangers. [`replay_in_calm`] lets one event of a
//! calm happen so, and [`replay_mixed_in_calm`] among strangers. [`print_lives`] writes the lives of connections, one
//! line each.
//!
//! A caller may rely on three things. Each event goes as the world says that its calls may go. What is written is what
//! the events showed. Where memory runs out, the output is a prefix of that. `CannotWrite` is answered where a write
//! failed, and nowhere else, and after that nothing more is printed.
//!
//! Nothing here knows what a carrier is made of, where the events come from, or who reads the output.
#![tactic(auto)]

mod events;
pub mod law;
mod lines;
mod print;
mod replayed;
mod told;
mod turning;
pub mod worked;
pub mod worked_apart;
pub mod worked_beside;
pub mod worked_drives;
pub mod worked_ends;
pub mod worked_rounds;
pub mod worked_strangers;

pub use events::{
    has_calmed, replay_events, replay_in_calm, replay_mixed_events, replay_mixed_in_calm,
};
pub use lines::LifeLine;
pub use print::print_lives;
pub use replay::{Detail, Output, ReplayFault, WriteFailed};
