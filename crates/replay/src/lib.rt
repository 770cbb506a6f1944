//! Replaying a script's events over a carrier.
//!
//! [`replay_events`] hands each event to the carrier in turn. It writes one line for each crossing of the
//! interface between a host and its IMP, and one line for each refusal.
//!
//! A caller may rely on three things. Each event goes as the carrier says that its calls may go. What is
//! written is what the events showed. Where memory runs out, the output is a prefix of that: it ends
//! after the last event that was replayed whole, or within a calm after what crossed in it.
//!
//! What is printed goes to an [`Output`], which says whether a write failed. `CannotWrite` is answered where one
//! failed, and nowhere else, and after that nothing more is printed.
//!
//! Nothing here knows what a carrier is made of, where the events come from, or who reads the output.
#![tactic(auto)]

mod calm;
mod events;
pub mod law;
mod line;
mod output;
mod print;
pub mod worked;

pub use calm::{UNSEEN_ROUNDS, hand_on_round};
pub use events::{ReplayFault, replay_events};
pub use line::Line;
pub use output::{Output, Printer, WriteFailed};
pub use print::{
    Detail, carrier_refusal, print_bits, print_crossing, print_crossing_in, print_text,
};
