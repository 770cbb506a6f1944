//! The slots of reassembly: what came of each message, and the table of the slots in use.

ghost use Rattle.std.specs.Prelude.{◌≡◌, ◌<◌, ◌≤◌, ◌∷◌, [], true, not, List, length, nat_lt, Option, Some, None, OnErr, IfOk, slice_get, insert, remove, option_copied};
ghost use Rattle.std.specs.List.{position, position_or_len};
ghost use Rattle.interface.specs.Flow.{same_flow, flow_before};
ghost use Rattle.slab.specs.Slab.{get};
ghost use Rattle.packetiser.specs.Faults.{GivesIfMemory};
ghost use Rattle.packetiser.specs.Inside.{is_there_and};
ghost use Rattle.packetiser.specs.PacketFields.{flow_of};
ghost use Rattle.packetiser.specs.Slots.{SlotState, slot_of, pieces_for, kept_for, with_piece, without, has_room, kept, IsInOrder};

use crate::format::SLOTS;
use crate::{Packet, PacketFault};
use interface::{Flow, Number};
use slab::Slab;
use std::alloc::{AllocError, Global};
use std::marker::Model;

/// A message in reassembly: its pieces that came, in order of their places.
#[derive(Debug, Drop)]
pub(crate) struct Slot {
    pub(crate) flow: Flow,
    pub(crate) number: Number,
    pieces: Vec<Packet>,
}

impl Model for Slot {
    ghost use Rattle.packetiser.specs.Slots.{SlotState};

    ghost Value = { SlotState };

    ghost view = { λ s. record { flow = s.flow; number = s.number; pieces = s.pieces.items } };
}

impl Slot {
    /// Returns whether it is of this flow.
    fn is_of(&self, flow: &Flow) -> bool
        ensures { result ≡ same_flow flow.now self.now.flow }
    {
        *flow == self.flow
    }

    /// Returns whether its flow comes before this one.
    fn is_before(&self, flow: &Flow) -> bool
        ensures { result ≡ flow_before self.now.flow flow.now }
    {
        self.flow < *flow
    }

    /// Returns the pieces that it holds, in order of their places.
    pub(crate) fn all_pieces(&self) -> &[Packet]
        ensures { result.now ≡ self.now.pieces }
    {
        self.pieces.as_slice()
    }

    /// Returns what it holds of the message with this number.
    fn pieces(&self, number: Number) -> &[Packet]
        ensures { result.now ≡ pieces_for (Some self.now) number }
    {
        if self.number == number {
            self.pieces.as_slice()
        } else {
            &[]
        }
    }

    /// Takes one more piece, and drops pieces of another number.
    fn take(&mut self, alloc: Global, packet: Packet) -> Result<(), PacketFault>
        ensures taken { GivesIfMemory (λ _. self.new ≡ record { flow = self.old.flow; number = packet.number; pieces = with_piece packet (pieces_for (Some self.old) packet.number) }) result }
        ensures err { OnErr result (self.new ≡ self.old) }
    {
        let number = packet.number();
        if self.number == number {
            insert_piece(&mut self.pieces, packet)?;
        } else {
            self.pieces = one_piece(alloc, packet)?;
            self.number = number;
        }
        Ok(())
    }
}

/// The slots in use, in order of their flows.
///
/// The slots are in a slab and `order` has their keys. There is always room for [`SLOTS`] of them, so only the
/// pieces of a slot take further memory.
#[derive(Debug, Drop)]
pub(crate) struct SlotTable {
    slots: Slab<Slot>,
    order: Vec<usize>,
}

impl Model for SlotTable {
    ghost use Rattle.std.specs.Prelude.{List, vec_capacity};
    ghost use Rattle.packetiser.specs.Inside.{slots_at, IsKept};
    ghost use Rattle.packetiser.specs.Slots.{SlotState};

    ghost Value = { List SlotState };

    ghost view = { λ t. slots_at t.slots t.order.items };

    ghost invariant = { λ t. IsKept t.slots t.order.items (vec_capacity t.order) };
}

impl SlotTable {
    /// Returns a table with no slot in use.
    pub(crate) fn new(alloc: Global) -> Result<Self, AllocError>
        ensures { IfOk result (λ table. table ≡ []) }
    {
        Ok(SlotTable {
            slots: Slab::with_capacity(alloc, SLOTS)?,
            order: Vec::with_capacity(alloc, SLOTS)?,
        })
    }

    /// Returns the slot at a place of the order.
    pub(crate) fn get(&self, at: usize) -> Option<&Slot>
        ensures { option_copied result ≡ slice_get self.now at }
    {
        let key = self.order.get(at)?;
        self.slots.get(*key)
    }

    /// Returns the pieces of a packet's message that are held.
    pub(crate) fn kept_for(&self, packet: &Packet) -> &[Packet]
        ensures { result.now ≡ kept_for self.now packet.now }
    {
        match self.slot_of(&packet.flow()) {
            Some(slot) => slot.pieces(packet.number()),
            None => &[],
        }
    }

    /// Returns whether a flow has a slot, or one is free.
    pub(crate) fn has_room(&self, flow: &Flow) -> bool
        ensures { result ≡ has_room self.now flow.now }
    {
        self.place_of(flow).is_some() || self.len() < SLOTS
    }

    /// Holds a piece for which there is a slot.
    pub(crate) fn keep(&mut self, alloc: Global, packet: Packet) -> Result<(), PacketFault>
        requires order { IsInOrder self.old }
        requires room { has_room self.old (flow_of packet) ≡ true }
        ensures kept { GivesIfMemory (λ _. self.new ≡ kept self.old packet) result }
        ensures err { OnErr result (self.new ≡ self.old) }
    {
        match self.place_of(&packet.flow()) {
            Some(at) => self.fill(alloc, at, packet),
            None => self.open(alloc, packet),
        }
    }

    /// Empties the slot of a flow, if there is one.
    pub(crate) fn clear(&mut self, flow: &Flow)
        requires { IsInOrder self.old }
        ensures { self.new ≡ without self.old flow.now }
    {
        if let Some(at) = self.place_of(flow) {
            self.remove(at);
        }
    }

    /// Returns how many slots are in use.
    pub(crate) fn len(&self) -> usize
        ensures { result ≡ length self.now }
    {
        self.order.len()
    }

    /// Returns the slot of a flow.
    pub(crate) fn slot_of(&self, flow: &Flow) -> Option<&Slot>
        ensures { option_copied result ≡ slot_of self.now flow.now }
    {
        let at = self.place_of(flow)?;
        self.get(at)
    }

    /// Returns where the slot of a flow is.
    fn place_of(&self, flow: &Flow) -> Option<usize>
        ensures { result ≡ position (λ s. same_flow flow.now s.flow) self.now }
    {
        first_of(&self.slots, &self.order, flow)
    }

    /// Returns where a slot of a flow belongs.
    fn place_for(&self, flow: &Flow) -> usize
        ensures place { result ≡ position_or_len (λ s. not (flow_before s.flow flow.now)) self.now }
        ensures within { result ≤ length self.now }
    {
        first_after(&self.slots, &self.order, flow).unwrap_or(self.order.len())
    }

    /// Holds a piece in its flow's slot.
    fn fill(&mut self, alloc: Global, at: usize, packet: Packet) -> Result<(), PacketFault>
        requires order { IsInOrder self.old }
        requires place { position (λ s. same_flow (flow_of packet) s.flow) self.old ≡ Some at }
        ensures kept { GivesIfMemory (λ _. self.new ≡ kept self.old packet) result }
        ensures err { OnErr result (self.new ≡ self.old) }
    {
        let key = self.order[at];
        self.slots[key].take(alloc, packet)
    }

    /// Holds a piece whose flow has no slot.
    fn open(&mut self, alloc: Global, packet: Packet) -> Result<(), PacketFault>
        requires none { position (λ s. same_flow (flow_of packet) s.flow) self.old ≡ None }
        requires room { length self.old < 8 }
        ensures kept { GivesIfMemory (λ _. self.new ≡ kept self.old packet) result }
        ensures err { OnErr result (self.new ≡ self.old) }
    {
        let flow = packet.flow();
        let number = packet.number();
        let at = self.place_for(&flow);
        let pieces = one_piece(alloc, packet)?;
        self.insert(
            at,
            Slot {
                flow,
                number,
                pieces,
            },
        );
        Ok(())
    }

    /// Puts a slot in at a place of the order, while one is free.
    fn insert(&mut self, at: usize, slot: Slot)
        requires within { at ≤ length self.old }
        requires room { length self.old < 8 }
        ensures { self.new ≡ insert self.old at slot }
    {
        let key = self.slots.insert_reserved(slot);
        if self.order.insert(at, key).is_err() {
            unreachable!();
        }
    }

    /// Frees the slot at a place of the order.
    fn remove(&mut self, at: usize)
        requires { at < length self.old }
        ensures { self.new ≡ remove self.old at }
    {
        let key = self.order.remove(at);
        self.slots.remove(key);
    }
}

/// Returns where the key of a flow's slot is.
fn first_of(slots: &Slab<Slot>, order: &[usize], flow: &Flow) -> Option<usize>
    ensures { result ≡ position (λ key. is_there_and (λ s. same_flow flow.now s.flow) (get slots.now key)) order.now }
{
    order.iter().position(|key| is_of(slots, *key, flow))
}

/// Returns where the first key is whose slot doesn't come before a flow's.
fn first_after(slots: &Slab<Slot>, order: &[usize], flow: &Flow) -> Option<usize>
    ensures { result ≡ position (λ key. not (is_there_and (λ s. flow_before s.flow flow.now) (get slots.now key))) order.now }
{
    order.iter().position(|key| !is_before(slots, *key, flow))
}

/// Returns whether the slot at a key is of this flow.
fn is_of(slots: &Slab<Slot>, key: usize, flow: &Flow) -> bool
    ensures { result ≡ is_there_and (λ s. same_flow flow.now s.flow) (get slots.now key) }
{
    match slots.get(key) {
        Some(slot) => slot.is_of(flow),
        None => false,
    }
}

/// Returns whether the flow of the slot at a key comes before this one.
fn is_before(slots: &Slab<Slot>, key: usize, flow: &Flow) -> bool
    ensures { result ≡ is_there_and (λ s. flow_before s.flow flow.now) (get slots.now key) }
{
    match slots.get(key) {
        Some(slot) => slot.is_before(flow),
        None => false,
    }
}

/// Returns where a packet's piece belongs among pieces in order of their places.
#[tactic(auto, using(crate::proofs::Slots::position_given))]
pub(crate) fn place_among(pieces: &[Packet], packet: &Packet) -> usize
    ensures place { result ≡ position_or_len (λ q. not (nat_lt q.place packet.now.place)) pieces.now }
    ensures within { result ≤ length pieces.now }
{
    first_from(pieces, packet.place()).unwrap_or(pieces.len())
}

/// Returns where the first piece is that doesn't lie below a place.
fn first_from(pieces: &[Packet], place: u8) -> Option<usize>
    ensures { result ≡ position (λ q. not (nat_lt q.place place)) pieces.now }
{
    pieces.iter().position(|piece| piece.place() >= place)
}

/// Puts a piece among others, which are in order of their places.
fn insert_piece(pieces: &mut Vec<Packet>, packet: Packet) -> Result<(), PacketFault>
    ensures inserted { GivesIfMemory (λ _. pieces.new.items ≡ with_piece packet pieces.old.items) result }
    ensures err { OnErr result (pieces.new.items ≡ pieces.old.items) }
{
    let at = place_among(pieces, &packet);
    pieces.insert(at, packet)?;
    Ok(())
}

/// Returns a list of one piece.
fn one_piece(alloc: Global, packet: Packet) -> Result<Vec<Packet>, PacketFault>
    ensures { GivesIfMemory (λ pieces. pieces.items ≡ packet ∷ []) result }
{
    let mut pieces = Vec::new(alloc);
    pieces.push(packet)?;
    Ok(pieces)
}
