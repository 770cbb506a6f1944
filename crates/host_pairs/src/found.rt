//! What a command or a message about a link finds among a pair's connections.

ghost use Rattle.std.specs.Prelude.{◌≡◌, ◌<◌, Some, find, length, slice_index_or};
ghost use Rattle.host_pairs.specs.Commands.{found_in};
ghost use Rattle.host_pairs.specs.Entries.{sends_on, receives_on};
ghost use Rattle.host_pairs.specs.declared.entry.Entry.{Entry};
ghost use Rattle.host_pairs.specs.Found.{IsFor};

use crate::ends::{receiver_place, sender_place};
use crate::entry::Entry;

/// What is on a link.
pub(crate) enum Found {
    /// No end, or one that isn't open yet.
    Unconnected,
    /// An end that is closing, for which nothing is done.
    Ending,
    /// An open end, at this place among the ends.
    Open(usize),
}

/// Returns what the end that sends on a link is.
pub(crate) fn sender_on(entries: &[Entry], link: u8) -> Found
    ensures { IsFor entries.now result (found_in (find (sends_on link) entries.now)) }
{
    match sender_place(entries, link) {
        Some(at) => found_at(entries, at),
        None => Found::Unconnected,
    }
}

/// Returns what the end that receives on a link is.
pub(crate) fn receiver_on(entries: &[Entry], link: u8) -> Found
    ensures { IsFor entries.now result (found_in (find (receives_on link) entries.now)) }
{
    match receiver_place(entries, link) {
        Some(at) => found_at(entries, at),
        None => Found::Unconnected,
    }
}

/// Returns what the end at a place is.
fn found_at(entries: &[Entry], at: usize) -> Found
    requires { at < length entries.now }
    ensures { (d : Entry) → IsFor entries.now result (found_in (Some (slice_index_or entries.now at d))) }
{
    let entry = &entries[at];
    if entry.is_open() {
        Found::Open(at)
    } else if entry.is_ending() {
        Found::Ending
    } else {
        Found::Unconnected
    }
}
