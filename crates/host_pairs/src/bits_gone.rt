//! What the going out of data changes in the connections of a pair (NIC 8246, message format; ALL).

ghost use Rattle.std.specs.Prelude.{◌≡◌, ◌<◌, ◌≤◌, IfOk, OnErr, OnOk, drop, length, take};
ghost use Rattle.host_pairs.specs.Entries.{changed_first};
ghost use Rattle.host_pairs.specs.Outgoing.{end_at};
ghost use Rattle.host_pairs.specs.Parcels as parcels;

use crate::entry::Entry;
use crate::held::Ends;
use crate::outgoing::sending_place;
use bit_messages::{BitFault, Bits};
use std::alloc::{AllocError, Global};
use std::mem;

/// Returns the bits of a range that is there.
pub(crate) fn part(alloc: Global, bits: &Bits, from: usize, to: usize) -> Result<Bits, AllocError>
    requires order { from ≤ to }
    requires there { to ≤ length bits.now }
    ensures part { IfOk result (λ part. part ≡ drop from (take to bits.now)) }
    ensures memory { OnErr result (from < to) }
{
    match bits.slice(alloc, from, to) {
        Ok(part) => Ok(part),
        Err(BitFault::OutOfMemory) => Err(AllocError),
        Err(_) => unreachable!(),
    }
}

/// Returns the first `count` of these bits, or all of them.
pub(crate) fn front(alloc: Global, bits: &Bits, count: usize) -> Result<Bits, AllocError>
    ensures { IfOk result (λ front. front ≡ take count bits.now) }
{
    part(alloc, bits, 0, count.min(bits.len()))
}

/// Returns the bits after the first `count`.
fn behind(alloc: Global, bits: &Bits, count: usize) -> Result<Bits, AllocError>
    ensures { IfOk result (λ rest. rest ≡ drop count bits.now) }
{
    part(alloc, bits, count.min(bits.len()), bits.len())
}

/// Takes the first `count` of these bits away, or all of them. All of them are not copied.
#[tactic(auto, using(crate::proofs::SendingLemmas::all_bits, crate::proofs::SendingLemmas::none_behind))]
fn take_front(alloc: Global, bits: &mut Bits, count: usize) -> Result<Bits, AllocError>
    ensures front { IfOk result (λ front. front ≡ take count bits.old) }
    ensures rest { OnOk result (bits.new ≡ drop count bits.old) }
    ensures kept { OnErr result (bits.new ≡ bits.old) }
{
    if bits.len() <= count {
        return Ok(mem::replace(bits, Bits::new(alloc)));
    }
    let front = front(alloc, bits, count)?;
    *bits = behind(alloc, bits, count)?;
    Ok(front)
}

impl Entry {
    /// Counts bits as gone out in a message. Returns them.
    pub(crate) fn send(&mut self, alloc: Global, bits: u32) -> Result<Bits, AllocError>
        ensures sent { IfOk result (λ sent. sent ≡ take bits self.old.bits) }
        ensures gone { OnOk result (self.new ≡ parcels.bits_gone bits self.old) }
        ensures kept { OnErr result (self.new ≡ self.old) }
    {
        let sent = take_front(alloc, &mut self.bits, bits as usize)?;
        self.allocation.messages = self.allocation.messages.saturating_sub(1);
        self.allocation.bits = self.allocation.bits.saturating_sub(bits);
        Ok(sent)
    }
}

/// Counts bits of the end that may send on a link as gone out. Returns as many of the end at a place, which is the same
/// one as a rule, and then they aren't copied.
pub(crate) fn send_bits(
    alloc: Global,
    ends: &mut Ends,
    busy: &[u8],
    link: u8,
    at: usize,
    bits: u32,
) -> Result<Bits, AllocError>
    requires { at < length ends.old }
    ensures sent { IfOk result (λ sent. sent ≡ take bits (end_at ends.old at).bits) }
    ensures gone { OnOk result (ends.new ≡ changed_first (parcels.may_send_on busy.now link) (parcels.bits_gone bits) ends.old) }
{
    let Some(place) = sending_place(ends.as_slice(), busy, link) else {
        return front(alloc, &ends.as_slice()[at].bits, bits as usize);
    };
    if place == at {
        let sent = ends.send(alloc, at, bits)?;
        ends.look_again();
        return Ok(sent);
    }
    let sent = front(alloc, &ends.as_slice()[at].bits, bits as usize)?;
    let _ = ends.send(alloc, place, bits)?;
    ends.look_again();
    Ok(sent)
}
