//! What goes out next to a peer (NIC 8246: RST and RRP each go by themselves, control messages hold 120 octets, data go
//! within the allocation).

ghost use Rattle.std.specs.Prelude.{◌≡◌, ◌==◌, ◌&&◌, not, if◌then◌else◌, length, MatchOption, IfSome, Some, None, List, filter, find, is_some, position, slice_index_or};
ghost use Rattle.std.specs.Bool.{OnFalse, OnTrue};
ghost use Rattle.host_pairs.specs.Inside.Clauses.{IsFoundAt};
ghost use Rattle.host_pairs.specs.Outgoing.{HasRoom, IsThere, parcel_of};
ghost use Rattle.host_pairs.specs.Parcels as parcels;
ghost use Rattle.host_pairs.specs.Parcels.{may_send_on};
ghost use Rattle.ncp_control.specs.declared.command.Command.{Command};
ghost use Rattle.host_pairs.specs.declared.entry.Entry.{Entry};

use crate::entry::{Entry, is_answered, is_busy};
use crate::held::Ends;
use crate::pair::Pair;
use ncp_control::{ByteSize, packed_count};

/// What goes out in one message to a peer.
#[derive(Clone, Copy, Debug)]
pub enum Outgoing {
    /// An RST, the only command in its message.
    Reset,
    /// An RRP, the only command in its message.
    Reply,
    /// This many of the commands that wait.
    Commands {
        count: usize,
    },
    /// This many bytes of the end at this place.
    Bytes {
        at: usize,
        size: ByteSize,
        count: u16,
    },
}

impl Entry {
    /// Returns how many bytes may go out now: as many as wait, as are granted, and as one message holds.
    fn sendable(&self) -> u16
        ensures { result ≡ parcels.sendable self.now }
    {
        match self.size {
            Some(size) => {
                let waiting = self.bits.len() / size.bits() as usize;
                self.allocation.may_send(size.bits(), waiting)
            }
            None => 0,
        }
    }

    /// Returns whether bits wait on it and a message of its allocation is left.
    fn has_turn(&self) -> bool
        ensures { result ≡ (not (length self.now.bits == 0) && not (self.now.allocation.messages == 0)) }
    {
        !self.bits.is_empty() && self.allocation.messages != 0
    }

    /// Returns whether something may go out now, by all that a message of data needs.
    fn has_all(&self, busy: &[u8]) -> bool
        ensures { result ≡ parcels.may_send busy.now self.now }
    {
        !self.is_receiving()
            && self.is_open()
            && self.link.is_some()
            && is_answered(busy, self.link)
            && self.sendable() > 0
    }

    /// Returns whether something may go out now on this link. The link is looked at first, since each end has one of
    /// its own.
    #[tactic(auto, using(crate::proofs::ParcelLemmas::on_its_link))]
    pub(crate) fn may_send_on(&self, busy: &[u8], link: u8) -> bool
        ensures { result ≡ may_send_on busy.now link self.now }
    {
        self.link_number() == link && self.has_all(busy)
    }
}

/// Returns the lowest link of the ends that may send now.
#[tactic(auto, using(crate::proofs::SendingLemmas::lower_step, crate::proofs::SendingLemmas::lower_end))]
pub(crate) fn lowest_link(entries: &[Entry], busy: &[u8]) -> Option<u8>
    ensures { result ≡ parcels.lowest_link (filter (parcels.may_send busy.now) entries.now) }
{
    let mut lowest = None;
    for entry in entries {
        lowest = entry.lower_link(busy, lowest);
    }
    lowest
}

impl Entry {
    /// Returns its link, if it may send now and the link is lower than this one; else this one. Most ends have no bits
    /// that wait, or wait for a grant, so that is looked at first, and all else only where the link is lower.
    #[tactic(auto, using(crate::proofs::ParcelLemmas::no_turn, crate::proofs::SendingLemmas::kept_lower))]
    fn lower_link(&self, busy: &[u8], lowest: Option<u8>) -> Option<u8>
        ensures { result ≡ (if parcels.may_send busy.now self.now then Some (parcels.lower (parcels.link_of self.now.link) lowest) else lowest) }
    {
        if !self.has_turn() {
            return lowest;
        }
        let link = self.link_number();
        if !is_lower(link, lowest) {
            return lowest;
        }
        if self.has_all(busy) {
            Some(link)
        } else {
            lowest
        }
    }
}

/// Returns whether a link is lower than another one, or there is no other.
fn is_lower(link: u8, other: Option<u8>) -> bool
    ensures lower { OnTrue result (parcels.lower link other ≡ link) }
    ensures kept { OnFalse result (Some (parcels.lower link other) ≡ other) }
{
    match other {
        Some(other) => link < other,
        None => true,
    }
}

/// The place of the end that may send now on a link.
pub(crate) fn sending_place(entries: &[Entry], busy: &[u8], link: u8) -> Option<usize>
    ensures place { result ≡ position (may_send_on busy.now link) entries.now }
    ensures found { IsFoundAt (may_send_on busy.now link) entries.now result }
{
    first_sending(entries, busy, link)
}

/// Returns the same place, without what is found there.
fn first_sending(entries: &[Entry], busy: &[u8], link: u8) -> Option<usize>
    ensures { result ≡ position (may_send_on busy.now link) entries.now }
{
    entries.iter().position(|e| e.may_send_on(busy, link))
}

/// Returns the message of the end with the lowest link among those that may send.
#[tactic(auto, using(crate::proofs::ParcelLemmas::within_message, crate::proofs::ParcelLemmas::within_bits))]
fn next_bytes(ends: &Ends, busy: &[u8]) -> Option<Outgoing>
    ensures next { MatchOption result (parcels.next_bytes busy.now ends.now ≡ None) (λ out. parcels.next_bytes busy.now ends.now ≡ Some (parcel_of ends.now out)) }
    ensures there { IfSome result (IsThere ends.now) }
    ensures room { (queue : List Command) → IfSome result (HasRoom ends.now queue) }
{
    let link = ends.lowest_link(busy)?;
    let entries = ends.as_slice();
    let at = sending_place(entries, busy, link)?;
    let entry = &entries[at];
    let size = entry.size?;
    Some(Outgoing::Bytes {
        at,
        size,
        count: entry.sendable(),
    })
}

impl Pair {
    /// Returns what goes out once the pair is ready: commands before data.
    fn next_of_ready(&self) -> Option<Outgoing>
        ensures next { MatchOption result (parcels.next_of_ready self.now ≡ None) (λ out. parcels.next_of_ready self.now ≡ Some (parcel_of self.now.entries out)) }
        ensures there { IfSome result (IsThere self.now.entries) }
        ensures room { IfSome result (HasRoom self.now.entries self.now.queue) }
    {
        if !self.queue.is_empty() && !is_busy(&self.busy, 0) {
            return Some(Outgoing::Commands {
                count: packed_count(self.queue.as_slice()),
            });
        }
        next_bytes(&self.entries, &self.busy)
    }

    /// Returns what goes out next. The RST goes first, then the RRP, each when no message to the peer is outstanding;
    /// while one of them waits nothing else goes.
    pub fn next(&self) -> Option<Outgoing>
        ensures next { MatchOption result (parcels.next_of self.now ≡ None) (λ out. parcels.next_of self.now ≡ Some (parcel_of self.now.entries out)) }
        ensures there { IfSome result (IsThere self.now.entries) }
        ensures room { IfSome result (HasRoom self.now.entries self.now.queue) }
    {
        if self.phase.is_want() {
            return self.if_silent(Outgoing::Reset);
        }
        if self.owed {
            return self.if_silent(Outgoing::Reply);
        }
        if self.phase.is_ready() {
            return self.next_of_ready();
        }
        None
    }

    /// Returns whether something goes out next once the pair is ready. How many commands have room is not counted for
    /// that.
    fn has_next_of_ready(&self) -> bool
        ensures { result ≡ is_some (parcels.next_of_ready self.now) }
    {
        if !self.queue.is_empty() && !is_busy(&self.busy, 0) {
            return true;
        }
        next_bytes(&self.entries, &self.busy).is_some()
    }

    /// Returns whether something goes out next, as [`Pair::next`] says.
    pub fn has_next(&self) -> bool
        ensures { result ≡ is_some (parcels.next_of self.now) }
    {
        if self.phase.is_want() || self.owed {
            return self.busy.is_empty();
        }
        self.phase.is_ready() && self.has_next_of_ready()
    }

    /// Returns what goes out only when no message to the peer is outstanding.
    fn if_silent(&self, out: Outgoing) -> Option<Outgoing>
        ensures { result ≡ (if length self.now.busy == 0 then Some out else None) }
    {
        if self.busy.is_empty() {
            Some(out)
        } else {
            None
        }
    }
}
