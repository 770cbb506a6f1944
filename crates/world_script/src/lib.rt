//! Scripts of networks whose hosts have programs: a script's lines are read as events of a world.
//!
//! A line is read as an event exactly if it is that event's spelling, and no two events are spelled alike. So
//! a script asks for one list of events, or is refused with its first bad line. Numbers fit the fields of the
//! commands that carry them; whether a host, a peer or a socket is there is seen when the event is run.
//!
//! The lines of what happens inside a network, the words of all lines and a message (`out`) are crate `script`'s. Only
//! where some hosts are strangers is a message a line here, too. Nothing here runs an event.
#![tactic(auto)]

mod event;
mod events;
pub mod law;
mod request;
mod services;
mod verb;

pub use event::WorldEvent;
pub use events::read_world_script;
