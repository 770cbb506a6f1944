//! The ends of a pair's connections, found and changed.

ghost use Rattle.std.specs.Prelude.{◌≡◌, ◌<◌, ℕ, Bool, true, false, OnErr, length, ◌++◌, OnOk, map, filter, position, find, not, MatchOption, Some, None, slice_index_or};
ghost use Rattle.std.specs.List.{flat_map, list_any};
ghost use Rattle.host_pairs.specs.declared.entry.Entry.{Entry};
ghost use Rattle.host_pairs.specs.Commands.{asked_on_link, asked_with_size, granted, given_back, returned};
ghost use Rattle.host_pairs.specs.Data.{spent};
ghost use Rattle.host_pairs.specs.Parcels.{asked_at, cls_sent};
ghost use Rattle.host_pairs.specs.Entries.{is_at, entry_at, sends_on, receives_on, is_mine_on, changed_first, changed_at, closed_by_partner, is_due, must_close, closed_when, cls_of, is_over, ending};
ghost use Rattle.host_pairs.specs.Entries.{free_link};
ghost use Rattle.host_pairs.specs.Inside.Clauses.{IsFoundAt};

use crate::Notice;
use crate::entry::{Closing, Entry};
use crate::queue::Queue;
use interface::HostAddr;
use ncp_control::{ByteSize, Command, ConnectionLink};
use std::alloc::{AllocError, Global};

// ---- found

/// Returns the place of the end of two sockets.
pub(crate) fn place(entries: &[Entry], own: u32, foreign: u32) -> Option<usize>
    ensures place { result ≡ position (is_at own foreign) entries.now }
    ensures found { IsFoundAt (is_at own foreign) entries.now result }
{
    first_place(entries, own, foreign)
}

/// Returns the same place, without what is found there.
fn first_place(entries: &[Entry], own: u32, foreign: u32) -> Option<usize>
    ensures { result ≡ position (is_at own foreign) entries.now }
{
    entries.iter().position(|e| e.is_at(own, foreign))
}

/// Returns the place of the end that sends on a link.
pub(crate) fn sender_place(entries: &[Entry], link: u8) -> Option<usize>
    ensures place { result ≡ position (sends_on link) entries.now }
    ensures found { IsFoundAt (sends_on link) entries.now result }
{
    first_sender(entries, link)
}

/// Returns the same place, without what is found there.
fn first_sender(entries: &[Entry], link: u8) -> Option<usize>
    ensures { result ≡ position (sends_on link) entries.now }
{
    entries.iter().position(|e| e.sends_on(link))
}

/// Returns the place of the end that receives on a link.
pub(crate) fn receiver_place(entries: &[Entry], link: u8) -> Option<usize>
    ensures place { result ≡ position (receives_on link) entries.now }
    ensures found { IsFoundAt (receives_on link) entries.now result }
{
    first_receiver(entries, link)
}

/// Returns the same place, without what is found there.
fn first_receiver(entries: &[Entry], link: u8) -> Option<usize>
    ensures { result ≡ position (receives_on link) entries.now }
{
    entries.iter().position(|e| e.receives_on(link))
}

/// Returns the place of this host's own end on a socket.
pub fn own_place(entries: &[Entry], socket: u32) -> Option<usize>
    ensures place { result ≡ position (is_mine_on socket) entries.now }
    ensures found { MatchOption result (find (is_mine_on socket) entries.now ≡ None) (λ at. (d : Entry) → find (is_mine_on socket) entries.now ≡ Some (slice_index_or entries.now at d)) }
{
    first_own(entries, socket)
}

/// Returns the same place, without what is found there.
fn first_own(entries: &[Entry], socket: u32) -> Option<usize>
    ensures { result ≡ position (is_mine_on socket) entries.now }
{
    entries.iter().position(|e| e.is_mine_on(socket))
}

/// The links that connections may have.
const CONNECTION_LINKS: [u8; 30] = [
    2, 3, 4, 5, 6, 7, 8, 9, 10, 11, 12, 13, 14, 15, 16, 17, 18, 19, 20, 21, 22, 23, 24, 25, 26, 27,
    28, 29, 30, 31,
];

/// Returns whether an end receives on a link.
fn has_receiver_on(entries: &[Entry], link: u8) -> bool
    ensures { result ≡ list_any (receives_on link) entries.now }
{
    entries.iter().any(|e| e.receives_on(link))
}

/// Returns the links after the first of these, if an end receives on that one; else these.
#[tactic(auto, using(crate::proofs::LinkLemmas::first_passed))]
fn passed_over<'a>(links: &'a [u8], entry: &Entry) -> &'a [u8]
    ensures { (is_free : ℕ → Bool) → ((link : ℕ) → receives_on link entry.now ≡ true → is_free link ≡ false) → find is_free result.now ≡ find is_free links.now }
{
    let Some((first, rest)) = links.split_first() else {
        return links;
    };
    if entry.receives_on(*first) {
        rest
    } else {
        links
    }
}

/// Returns these links without the first ones that have a receiving end each, as far as the ends are in order of
/// their links.
fn behind_ends<'a>(links: &'a [u8], entries: &[Entry]) -> &'a [u8]
    ensures { find (λ link. not (list_any (receives_on link) entries.now)) result.now ≡ find (λ link. not (list_any (receives_on link) entries.now)) links.now }
{
    let mut rest = links;
    for entry in entries {
        rest = passed_over(rest, entry);
    }
    rest
}

/// Returns the first of these links that no receiving end has.
fn first_free(links: &[u8], entries: &[Entry]) -> Option<u8>
    ensures { result ≡ find (λ link. not (list_any (receives_on link) entries.now)) links.now }
{
    links
        .iter()
        .copied()
        .find(|link| !has_receiver_on(entries, *link))
}

/// Returns the number of the lowest link that no receiving end has. Ends mostly are in order of their links, and
/// those that do are passed over at once.
fn free_number(entries: &[Entry]) -> Option<u8>
    ensures { result ≡ free_link entries.now }
{
    first_free(behind_ends(&CONNECTION_LINKS, entries), entries)
}

/// Returns the lowest link that no receiving end has.
pub fn free_link(entries: &[Entry]) -> Option<ConnectionLink>
    ensures { result ≡ free_link entries.now }
{
    ConnectionLink::new(free_number(entries)?)
}

// ---- closing

/// Returns whether an end is to be closed when what it has sent is answered.
pub(crate) fn has_due(entries: &[Entry]) -> bool
    ensures { result ≡ list_any (λ e. is_due e.closing) entries.now }
{
    entries.iter().any(|e| e.closing == Closing::Due)
}

/// Returns whether an end has to close now.
pub(crate) fn has_closing(entries: &[Entry], busy: &[u8]) -> bool
    ensures { result ≡ list_any (must_close busy.now) entries.now }
{
    entries.iter().any(|e| e.must_close(busy))
}

/// Queues the CLS of each end that has to close now.
pub(crate) fn queue_closings(
    entries: &[Entry],
    busy: &[u8],
    queue: &mut Queue,
) -> Result<(), AllocError>
    ensures state { OnOk result (queue.new ≡ queue.old ++ map cls_of (filter (must_close busy.now) entries.now)) }
    ensures memory { OnErr result (length queue.old < length (queue.old ++ map cls_of (filter (must_close busy.now) entries.now))) }
{
    for entry in entries {
        if entry.must_close(busy) {
            queue.push(Command::Cls {
                own: entry.own,
                foreign: entry.foreign,
            })?;
        }
    }
    Ok(())
}

/// Closes each end that has to close now.
pub(crate) fn close(entries: &mut [Entry], busy: &[u8])
    ensures { entries.new ≡ map (λ e. closed_when (must_close busy.now e) e) entries.old }
{
    for entry in entries.iter_mut() {
        if entry.must_close(busy) {
            entry.closing = Closing::Queued;
        }
    }
}

/// Notifies the user of each end of this host's own that is over.
pub(crate) fn tell_endings(
    entries: &[Entry],
    peer: HostAddr,
    notices: &mut Vec<Notice>,
) -> Result<(), AllocError>
    ensures state { OnOk result (notices.new.items ≡ notices.old.items ++ flat_map (ending peer) (filter is_over entries.now)) }
    ensures memory { OnErr result (length notices.old.items < length (notices.old.items ++ flat_map (ending peer) (filter is_over entries.now))) }
{
    for entry in entries {
        if entry.is_over() && entry.mine {
            notices.push(Notice::Ended {
                socket: entry.own,
                peer,
                foreign: entry.foreign,
            })?;
        }
    }
    Ok(())
}

/// Removes each end that is over.
pub(crate) fn sweep(entries: &mut Vec<Entry>)
    ensures { entries.new.items ≡ filter (λ e. not (is_over e)) entries.old.items }
{
    entries.retain(|e| !e.is_over());
}
