//! What a log says of a book, whoever wrote it.
//!
//! A caller may rely on this: what crossed is a run of the mailboxes between some hosts (BBN Report 1822) exactly where
//! [`stray_at`] finds nothing, and else what it finds is the first crossing with which it is none. The lives are made of what
//! crossed exactly where [`unmade_at`] finds nothing, messages are kept exactly where [`broken_message`] does, of
//! [`broken_at`] each part holds that isn't named, and each life has a fate that what crossed leaves it exactly where
//! [`unsuited_at`] finds nothing. Of a network with strangers, [`untoward_at`] finds nothing exactly where its lives toward
//! these keep what may be asked of any host's program.
//!
//! Nothing here reads lines: a log is a list of crossings, the oldest first.
#![tactic(auto)]

mod allocations;
mod arrivals;
mod bits;
mod broken;
mod chains;
mod closes;
mod data;
mod fates;
mod flow_map;
mod grants;
mod indexed_log;
mod joined;
pub mod law;
mod lives;
mod mail;
mod matches;
mod messages;
mod names;
mod partners;
mod places;
mod requests;
mod runs;
mod sent;
mod sought;
mod stamps;
mod starts;
mod streams;
mod texts;
mod toward;
pub mod worked_places;

pub use broken::{Broken, broken_at, malformed_at};
pub use fates::unsuited_at;
pub use indexed_log::IndexedLog;
pub use lives::unmade_at;
pub use messages::broken_message;
pub use runs::stray_at;
pub use toward::untoward_at;
