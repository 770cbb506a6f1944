//! Reassembly: pieces of messages that aren't whole yet.

ghost use Rattle.std.specs.Prelude.{◌≡◌, ◌<◌, ◌++◌, [], true, false, List, length, Option, Some, None, Err, OnErr, IfOk, is_some, option_map, slice_get};
ghost use Rattle.std.specs.List.{list_any};
ghost use Rattle.bit_messages.specs.Body.{has_mark};
ghost use Rattle.packetiser.specs.Faults.{GivesIfMemory};
ghost use Rattle.packetiser.specs.PacketFields.{IsPacket};
ghost use Rattle.packetiser.specs.Slots.{SlotState, slot_of, is_old, with_piece, is_whole_from, gathered, joined_pieces, without, outcome_of, answer_of, added, kept, grows, in_some_order, IsTable};
ghost use Rattle.packetiser.specs.Rejoining.{HasBodySize};
ghost use Rattle.packetiser.specs.declared.fault.PacketFault.TheVariants as fault;

use crate::fault::out_of_memory;
use crate::slot_table::{SlotTable, place_among};
use crate::{Packet, PacketFault, PacketKind};
use bit_messages::Bits;
use interface::{Flow, Number};
use std::alloc::{AllocError, Global};
use std::marker::Model;

/// What becomes of a piece.
#[derive(Clone, Copy, Debug, Drop, PartialEq, Eq)]
pub enum Outcome {
    /// It is held until its message is whole.
    Kept,
    /// Its message is whole.
    Whole,
    /// It is dropped, since its place is held already or it contradicts what is held.
    Old,
    /// It is dropped, since there is no slot for its message.
    Full,
}

/// What became of a piece.
#[derive(Debug, Drop)]
pub enum Added {
    /// It is held until its message is whole.
    Kept,
    /// Its message is whole, and this is the body.
    Whole(Bits),
    /// It was dropped, since its place was held already or it contradicted what was held.
    Old,
    /// It was dropped, since there was no slot for its message.
    Full,
}

/// A message in reassembly, by its flow and number.
#[derive(Clone, Copy, Debug)]
pub struct Held {
    /// The message's flow.
    pub flow: Flow,
    /// The message's number.
    pub number: Number,
}

/// The messages in reassembly at an IMP: at most eight, one for each flow.
///
/// A piece is held until all pieces of its message came. A message of one packet needs no slot.
#[derive(Debug, Drop)]
pub struct Reassembly {
    slots: SlotTable,
}

impl Model for Reassembly {
    ghost use Rattle.std.specs.Prelude.{List};
    ghost use Rattle.packetiser.specs.Slots.{SlotState, IsTable};

    ghost Value = { List SlotState };

    ghost view = { λ r. r.slots };

    ghost invariant = { λ r. IsTable r.slots };
}

impl Reassembly {
    /// Returns no message in reassembly. Room for eight is reserved, so that only their pieces take memory later.
    ///
    /// Errors: memory runs out.
    pub fn new(alloc: Global) -> Result<Reassembly, AllocError>
        ensures { IfOk result (λ reassembly. reassembly ≡ []) }
    {
        Ok(Reassembly {
            slots: SlotTable::new(alloc)?,
        })
    }

    /// Returns what `add` would answer to this piece of a message.
    pub fn outcome(&self, packet: &Packet) -> Outcome
        requires { packet.now.kind ≡ PacketKind.Data }
        ensures { result ≡ outcome_of self.now packet.now }
    {
        let kept = self.slots.kept_for(packet);
        if is_old(kept, packet) {
            Outcome::Old
        } else if completes(0, kept, packet) {
            Outcome::Whole
        } else if self.slots.has_room(&packet.flow()) {
            Outcome::Kept
        } else {
            Outcome::Full
        }
    }

    /// Returns whether a bit 1 is in this piece or in those that are held of its message. If `outcome` is Whole,
    /// this is whether the body has a mark.
    pub fn is_marked(&self, packet: &Packet) -> bool
        ensures { result ≡ has_mark (joined_pieces (gathered self.now packet.now)) }
    {
        packet.bits().has_mark() || has_mark(self.slots.kept_for(packet))
    }

    /// Returns whether pieces of a message of this flow are held.
    pub fn has_slot(&self, flow: &Flow) -> bool
        ensures { result ≡ is_some (slot_of self.now flow.now) }
    {
        self.slots.slot_of(flow).is_some()
    }

    /// Takes a piece of a message.
    ///
    /// A piece is Old where its place is held, where it lies above a last piece, and where it is a last
    /// piece below one that is held; then nothing changes. A piece of another number than its flow's slot
    /// drops the pieces there. A message is Whole with its last missing piece, and its slot is free again.
    /// A piece that finds no slot is Full.
    ///
    /// Errors: `OutOfMemory` only for a piece that would be Kept, or would make a message of several pieces
    /// Whole; then nothing changes.
    pub fn add(&mut self, alloc: Global, packet: Packet) -> Result<Added, PacketFault>
        requires { packet.kind ≡ PacketKind.Data }
        ensures exact { GivesIfMemory (λ answer. (answer ≡ answer_of self.old packet) × (self.new ≡ added self.old packet)) result }
        ensures memory { result ≡ Err fault.OutOfMemory → grows self.old packet ≡ true }
        ensures err { OnErr result (self.new ≡ self.old) }
        ensures size { IfOk result HasBodySize }
    {
        match self.outcome(&packet) {
            Outcome::Kept => {
                self.keep(alloc, packet)?;
                Ok(Added::Kept)
            }
            Outcome::Whole => {
                let flow = packet.flow();
                let body = join(alloc, self.slots.kept_for(&packet), packet)?;
                self.discard(flow);
                Ok(Added::Whole(body))
            }
            Outcome::Old => Ok(Added::Old),
            Outcome::Full => Ok(Added::Full),
        }
    }

    /// Empties the slot of this flow, if there is one.
    pub fn discard(&mut self, flow: Flow)
        ensures { self.new ≡ without self.old flow }
    {
        self.slots.clear(&flow);
    }

    /// Returns the `k`th message in reassembly, counted from 0; `None` past the last. Each message is at one
    /// `k`, in an order that isn't specified.
    #[tactic(auto, unfolding(crate::specs::Slots::in_some_order))]
    pub fn held(&self, k: usize) -> Option<Held>
        ensures message { result ≡ option_map (λ s. record { flow = s.flow; number = s.number }) (slice_get (in_some_order self.now) k) }
        ensures table { IsTable self.now }
    {
        let slot = self.slots.get(k)?;
        Some(Held {
            flow: slot.flow,
            number: slot.number,
        })
    }

    /// Returns how many messages are in reassembly: at most eight.
    pub fn count(&self) -> usize
        ensures { result ≡ length self.now }
    {
        self.slots.len()
    }

    /// Returns the pieces that are held of the message at this place of those in reassembly, 0 being the first in the
    /// order of their flows. The pieces are in order of their own places.
    pub fn pieces_at(&self, place: usize) -> &[Packet]
        requires { place < length self.now }
        ensures { option_map (λ s. s.pieces) (slice_get self.now place) ≡ Some result.now }
    {
        match self.slots.get(place) {
            Some(slot) => slot.all_pieces(),
            None => unreachable!(),
        }
    }

    /// Holds a piece for which there is a slot.
    fn keep(&mut self, alloc: Global, packet: Packet) -> Result<(), PacketFault>
        requires piece { packet.kind ≡ PacketKind.Data }
        requires format { IsPacket packet }
        requires room { outcome_of self.old packet ≡ Outcome.Kept }
        ensures kept { GivesIfMemory (λ _. self.new ≡ kept self.old packet) result }
        ensures err { OnErr result (self.new ≡ self.old) }
    {
        self.slots.keep(alloc, packet)
    }
}

/// Returns whether a piece that is held leaves no place for a packet.
fn is_old(pieces: &[Packet], packet: &Packet) -> bool
    ensures { result ≡ is_old pieces.now packet.now }
{
    pieces.iter().any(|piece| {
        piece.place() == packet.place()
            || piece.is_last() && piece.place() < packet.place()
            || packet.is_last() && packet.place() < piece.place()
    })
}

/// Returns whether a bit 1 is in pieces.
fn has_mark(pieces: &[Packet]) -> bool
    ensures { result ≡ list_any (λ q. has_mark q.bits) pieces.now }
{
    pieces.iter().any(|piece| piece.bits().has_mark())
}

/// Returns whether pieces are whole from a place on.
fn is_whole_from(place: usize, pieces: &[Packet]) -> bool
    ensures { result ≡ is_whole_from place pieces.now }
{
    match pieces {
        [] => false,
        [first, rest @ ..] => {
            first.place() as usize == place
                && if first.is_last() {
                    rest.is_empty()
                } else {
                    is_whole_from(place + 1, rest)
                }
        }
    }
}

/// Returns whether pieces are whole from a place on with this packet.
fn completes(place: usize, pieces: &[Packet], packet: &Packet) -> bool
    ensures { result ≡ is_whole_from place (with_piece packet.now pieces.now) }
{
    match pieces {
        [first, rest @ ..] if first.place() < packet.place() => {
            first.place() as usize == place
                && !first.is_last()
                && completes(place + 1, rest, packet)
        }
        _ => {
            packet.place() as usize == place
                && if packet.is_last() {
                    pieces.is_empty()
                } else {
                    is_whole_from(place + 1, pieces)
                }
        }
    }
}

/// Returns the bits of pieces and a packet, in order of their places. A packet only gives its own bits.
fn join(alloc: Global, pieces: &[Packet], packet: Packet) -> Result<Bits, PacketFault>
    ensures joined { GivesIfMemory (λ bits. bits ≡ joined_pieces (with_piece packet pieces.now)) result }
    ensures memory { result ≡ Err fault.OutOfMemory → 0 < length pieces.now }
{
    if pieces.is_empty() {
        return Ok(packet.into_bits());
    }
    let (front, back) = pieces.split_at(place_among(pieces, &packet));
    let mut bits = Bits::new(alloc);
    append_pieces(&mut bits, front)?;
    append_bits(&mut bits, packet.bits())?;
    append_pieces(&mut bits, back)?;
    Ok(bits)
}

/// Puts the bits of pieces at the end.
fn append_pieces(bits: &mut Bits, pieces: &[Packet]) -> Result<(), PacketFault>
    ensures { GivesIfMemory (λ _. bits.new ≡ bits.old ++ joined_pieces pieces.now) result }
{
    for piece in pieces {
        append_bits(bits, piece.bits())?;
    }
    Ok(())
}

/// Puts bits at the end.
fn append_bits(bits: &mut Bits, more: &Bits) -> Result<(), PacketFault>
    ensures { GivesIfMemory (λ _. bits.new ≡ bits.old ++ more.now) result }
{
    bits.append(more).map_err(out_of_memory)
}
