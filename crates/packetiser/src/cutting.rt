//! Cutting a message into packets.

ghost use Rattle.std.specs.Prelude.{◌≡◌, ◌+◌, ◌*◌, ◌<◌, ◌≤◌, length, IfOk};
ghost use Rattle.bit_messages.specs.Body.{body};
ghost use Rattle.packetiser.specs.Faults.{GivesIfMemory};
ghost use Rattle.packetiser.specs.Pieces.{piece_count, piece, piece_packet, packets_of, IsBodySize};

use crate::fault::out_of_memory;
use crate::format::{MAX_PACKETS, PACKET_BITS};
use crate::{Packet, PacketFault, PacketKind};
use bit_messages::Bits;
use interface::{Flow, HostMessage, Number};
use std::alloc::Global;

/// Returns the packets of a message with this number: the pieces of its body in order, the last one marked (Heart et
/// al., SJCC 1970). There are one to eight.
///
/// Errors: only `OutOfMemory`.
#[tactic(auto, using(crate::proofs::Pieces::packets_more))]
pub fn cut(alloc: Global, message: &HostMessage, number: Number) -> Result<Vec<Packet>, PacketFault>
    ensures { GivesIfMemory (λ packets. packets.items ≡ packets_of message.now.flow number (body message.now.text)) result }
{
    let body = body_of(alloc, message)?;
    let count = piece_count(&body);
    let mut packets = Vec::with_capacity(alloc, count)?;
    for place in 0..count {
        packets.push(piece_packet(alloc, message.flow, number, &body, place)?)?;
    }
    Ok(packets)
}

/// Returns the body of a message.
#[tactic(auto, using(crate::proofs::Pieces::body_sized))]
fn body_of(alloc: Global, message: &HostMessage) -> Result<Bits, PacketFault>
    ensures body { GivesIfMemory (λ bits. bits ≡ body message.now.text) result }
    ensures size { IfOk result (λ bits. IsBodySize (length bits)) }
{
    message.text.bits().pad16(alloc).map_err(out_of_memory)
}

/// Returns how many pieces a body has.
fn piece_count(body: &Bits) -> usize
    ensures { result ≡ piece_count body.now }
{
    body.len().div_ceil(PACKET_BITS)
}

/// Returns the packet with the piece at a place where there is one.
fn piece_packet(
    alloc: Global,
    flow: Flow,
    number: Number,
    body: &Bits,
    place: usize,
) -> Result<Packet, PacketFault>
    requires size { IsBodySize (length body.now) }
    requires there { place < piece_count body.now }
    ensures { GivesIfMemory (λ packet. packet ≡ piece_packet flow number body.now place) result }
{
    let last = place + 1 == piece_count(body);
    let bits = piece(alloc, body, place)?;
    Ok(Packet::new(PacketKind::Data, flow, number, place as u8, last, bits))
}

/// Returns the piece of a body at a place where there is one.
fn piece(alloc: Global, body: &Bits, place: usize) -> Result<Bits, PacketFault>
    requires few { place < MAX_PACKETS }
    requires there { place < piece_count body.now }
    ensures { GivesIfMemory (λ bits. bits ≡ piece body.now place) result }
{
    let from = PACKET_BITS * place;
    let to = (from + PACKET_BITS).min(body.len());
    body.slice(alloc, from, to).map_err(out_of_memory)
}
