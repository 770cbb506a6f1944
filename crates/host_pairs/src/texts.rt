//! The text of what goes out.

ghost use Rattle.std.specs.Prelude.{◌≡◌, ◌*◌, ◌+◌, ◌++◌, ◌≤◌, ◌∷◌, [], IfOk, OnOk, drop, map, List, length, take, true};
ghost use Rattle.std.specs.Int.{w16, to_be_bytes};
ghost use Rattle.bit_messages.specs.Octets.{bits_of};
ghost use Rattle.ncp_control.specs.Command.{is_alone, spelling};
ghost use Rattle.ncp_control.specs.Packing.{AreRead, packed_count, spellings};
ghost use Rattle.ncp_control.specs.declared.command.Command.{Command};
ghost use Rattle.host_pairs.specs.Control as control;
ghost use Rattle.host_pairs.specs.Control.{Legal, orders_of};
ghost use Rattle.host_pairs.specs.Data as texts;
ghost use Rattle.host_pairs.specs.Allowed.{IsReadAs};
ghost use Rattle.host_pairs.specs.Outgoing.{HasRoom, IsThere, parcel_of};
ghost use Rattle.host_pairs.specs.Queue.{are_joint};
ghost use Rattle.host_pairs.specs.Parcels as parcels;

use crate::bits_gone::front;
use crate::outgoing::Outgoing;
use crate::pair::Pair;
use crate::queue::Queue;
use bit_messages::{BitFault, Bits};
use ncp_control::{Command, DataHeader, pack};
use std::alloc::{AllocError, Global};

/// Returns the bits of octets that have room in one control message, with those of its header.
#[tactic(auto, using(crate::proofs::SendingLemmas::whole_octets))]
fn whole(alloc: Global, octets: &[u8]) -> Result<Bits, AllocError>
    requires room { length octets.now ≤ 125 }
    ensures { IfOk result (λ bits. bits ≡ bits_of octets.now) }
{
    match Bits::from_octets(alloc, octets, 8 * octets.len()) {
        Ok(bits) => Ok(bits),
        Err(BitFault::OutOfMemory) => Err(AllocError),
        Err(_) => unreachable!(),
    }
}

/// The number of octets of the longest control message.
const LONGEST: usize = 125;

/// Puts octets before a place of a buffer, and returns where they begin.
fn put_before(all: &mut [u8], start: usize, octets: &[u8]) -> usize
    requires { (length octets.now ≤ start) × (start ≤ length all.old) }
    ensures place { result + length octets.now ≡ start }
    ensures length { length all.new ≡ length all.old }
    ensures written { drop result all.new ≡ octets.now ++ drop start all.old }
{
    let at = start - octets.len();
    all[at..start].copy_from_slice(octets);
    at
}

/// Puts the octets of a control message at the end of a buffer, those of its header and these after them, and returns where they
/// begin.
#[tactic(auto, using(crate::proofs::SendingLemmas::all_put))]
fn put_message(all: &mut [u8], octets: &[u8]) -> usize
    requires room { length octets.now ≤ 120 }
    requires whole { length all.old ≡ 125 }
    ensures place { result ≤ length all.new }
    ensures written { drop result all.new ≡ 0 ∷ 8 ∷ to_be_bytes w16 (length octets.now) ++ 0 ∷ octets.now }
{
    let [high, low] = (octets.len() as u16).to_be_bytes();
    let start = put_before(all, LONGEST, octets);
    put_before(all, start, &[0, 8, high, low, 0])
}

/// Returns the text of a control message with these octets, which is put together in a buffer.
#[tactic(auto, using(crate::proofs::SendingLemmas::message_bits, crate::proofs::SendingLemmas::message_room))]
fn message_text(alloc: Global, octets: &[u8]) -> Result<Bits, AllocError>
    requires room { length octets.now ≤ 120 }
    ensures { IfOk result (λ text. text ≡ control.control_text octets.now) }
{
    let mut all = [0; LONGEST];
    let start = put_message(&mut all, octets);
    whole(alloc, &all[start..])
}

/// Returns the text of a control message with these octets.
#[tactic(auto, using(crate::proofs::SendingLemmas::control_short))]
fn control_text(alloc: Global, octets: &[u8]) -> Result<Bits, AllocError>
    requires room { length octets.now ≤ 120 }
    ensures short { IfOk result (λ text. length text ≤ 8063) }
    ensures again { (commands : List Command) → AreRead octets.now commands → IfOk result (λ text. orders_of text ≡ map Legal commands) }
    ensures text { IfOk result (λ text. text ≡ control.control_text octets.now) }
{
    let text = message_text(alloc, octets)?;
    Ok(text)
}

/// Returns the octets of the message of an RST or an RRP: those of the header, and the command's.
fn signal_octets(command: Command) -> [u8; 6]
    requires alone { is_alone command ≡ true }
    ensures { bits_of result ≡ control.control_text (spelling command) }
{
    match command {
        Command::Rst => [0, 8, 0, 1, 0, 12],
        _ => [0, 8, 0, 1, 0, 13],
    }
}

/// Returns the text of the message of an RST or an RRP, which goes by itself.
#[tactic(auto, using(crate::proofs::SendingLemmas::alone_room, crate::proofs::SendingLemmas::control_short, crate::proofs::ReadLemmas::signal_again))]
fn signal_text(alloc: Global, command: Command) -> Result<Bits, AllocError>
    requires alone { is_alone command ≡ true }
    ensures short { IfOk result (λ text. length text ≤ 8063) }
    ensures again { IfOk result (λ text. orders_of text ≡ Legal command ∷ []) }
    ensures text { IfOk result (λ text. text ≡ control.control_text (spelling command)) }
{
    let octets = signal_octets(command);
    let text = whole(alloc, &octets)?;
    Ok(text)
}

/// Returns the text of a message with as many of the commands that wait as have room.
#[tactic(auto, using(crate::proofs::SendingLemmas::packed_room))]
fn commands_text(alloc: Global, queue: &Queue) -> Result<Bits, AllocError>
    ensures short { IfOk result (λ text. length text ≤ 8063) }
    ensures again { IfOk result (λ text. orders_of text ≡ map Legal (take (packed_count queue.now) queue.now)) }
    ensures joint { are_joint queue.now ≡ true }
    ensures text { IfOk result (λ text. text ≡ control.control_text (spellings (take (packed_count queue.now) queue.now))) }
{
    let Ok((octets, _)) = pack(alloc, queue.as_slice()) else {
        return Err(AllocError);
    };
    control_text(alloc, &octets)
}

/// Puts these bits at the end.
fn append_all(text: &mut Bits, bits: &Bits) -> Result<(), AllocError>
    ensures { OnOk result (text.new ≡ text.old ++ bits.now) }
{
    match text.append(bits) {
        Ok(()) => Ok(()),
        Err(_) => Err(AllocError),
    }
}

/// Puts the first `count` of these bits at the end, or all of them. All of them are not copied before.
#[tactic(auto, using(crate::proofs::SendingLemmas::all_bits))]
fn append_front(alloc: Global, text: &mut Bits, bits: &Bits, count: usize) -> Result<(), AllocError>
    ensures { OnOk result (text.new ≡ text.old ++ take count bits.now) }
{
    if bits.len() <= count {
        return append_all(text, bits);
    }
    let front = front(alloc, bits, count)?;
    append_all(text, &front)
}

/// Returns the text of a message with the first bytes of these bits.
#[tactic(auto, using(crate::proofs::SendingLemmas::data_short))]
fn data_text(alloc: Global, size: u8, count: u16, bits: &Bits) -> Result<Bits, AllocError>
    requires room { size * count ≤ 8023 }
    ensures short { IfOk result (λ text. length text ≤ 8063) }
    ensures text { IfOk result (λ text. text ≡ texts.data_text size count (take (size * count) bits.now)) }
{
    let header = DataHeader { size, count };
    let Ok(mut text) = header.write(alloc) else {
        return Err(AllocError);
    };
    append_front(alloc, &mut text, bits, size as usize * count as usize)?;
    Ok(text)
}

impl Pair {
    /// Returns the link of what goes out.
    pub fn link_for(&self, out: &Outgoing) -> u8
        requires { IsThere self.now.entries out.now }
        ensures { result ≡ parcels.link_for (parcel_of self.now.entries out.now) }
    {
        match *out {
            Outgoing::Bytes { at, .. } => self.entries.as_slice()[at].link_number(),
            Outgoing::Reset | Outgoing::Reply | Outgoing::Commands { .. } => 0,
        }
    }

    /// Returns the text of what goes out.
    pub fn text_for(&self, alloc: Global, out: &Outgoing) -> Result<Bits, AllocError>
        requires there { IsThere self.now.entries out.now }
        requires room { HasRoom self.now.entries self.now.queue out.now }
        ensures short { IfOk result (λ text. length text ≤ 8063) }
        ensures again { IfOk result (λ text. IsReadAs self.now (parcel_of self.now.entries out.now) text) }
        ensures text { IfOk result (λ text. text ≡ parcels.text_for self.now (parcel_of self.now.entries out.now)) }
    {
        match *out {
            Outgoing::Reset => signal_text(alloc, Command::Rst),
            Outgoing::Reply => signal_text(alloc, Command::Rrp),
            Outgoing::Commands { .. } => commands_text(alloc, &self.queue),
            Outgoing::Bytes { at, size, count } => {
                data_text(alloc, size.bits(), count, &self.entries.as_slice()[at].bits)
            }
        }
    }
}
