//! Scripts: an input is parted into its topology and its script, and a script's lines are read as events.
//!
//! A line is read as an event exactly if it is that event's spelling, and no two events are spelled alike.
//! So a script asks for one list of events, or is refused with its first bad line.
//!
//! Nothing here replays an event.
#![tactic(auto)]

mod event;
mod events;
mod fault;
mod hexadecimal;
mod input;
pub mod law;
mod network;
pub mod reading;
mod scripts;
mod word;

pub use event::RawEvent;
pub use events::read_script;
pub use fault::LineFault;
pub use input::{MAX_INPUT, split_input};
