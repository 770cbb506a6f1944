//! What one pair of hosts does.
//!
//! Two hosts share a reset, over which each asks the other to forget what was between them, control commands on
//! link 0, and connections, each from an odd send socket to an even receive socket and on a link of its own (NIC
//! 8246, Host/Host Protocol for the ARPA Network). Here lives one host's side of one such pair as a machine: its
//! phase, the ends of its connections with their links and counters, the commands and bits that wait, what is
//! taken from the peer, and what goes out next.
//!
//! The layer above keeps a pair for each peer and what listens, and says which request of the user is refused.
//! Nothing here knows of other peers, or of a host's other pairs.
#![tactic(auto)]

mod bits_gone;
mod commands;
mod control;
mod data;
mod desk;
mod ends;
mod entry;
mod found;
mod gone;
mod held;
mod index;
mod listener;
mod notice;
mod outgoing;
mod pair;
mod queue;
mod requests;
mod texts;
mod turn;
mod turn_gone;

pub use control::control_octets;
pub use ends::{free_link, own_place};
pub use entry::{Closing, Entry, is_busy};
pub use held::Ends;
pub use listener::{Listener, Listeners, listens_on, stop_listening};
pub use ncp_control::Phase;
pub use notice::Notice;
pub use outgoing::Outgoing;
pub use pair::Pair;
pub use queue::Queue;
pub use requests::has_end;
pub use turn::Turn;
