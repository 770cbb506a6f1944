//! Packets and their octets.

ghost use Rattle.std.specs.Prelude.{◌≡◌, ℕ, ◌+◌, ◌<◌, ◌≤◌, Bool, List, [], length, Result, Ok, Err, IfOk, true};
ghost use Rattle.std.specs.Bool.{OnFalse};
ghost use Rattle.packetiser.specs.PacketFields.{PacketFields, flow_of, IsPacket, Carries};
ghost use Rattle.packetiser.specs.Faults.{Gives, GivesIfMemory};
ghost use Rattle.packetiser.specs.Format.{spelling, read_of, kind_octet, kind_of, host_of, is_address, is_short, is_not_canonical, is_bad_length, two_octets, bit_count, octet_count, place_octet};
ghost use Rattle.packetiser.specs.declared.fault.PacketFault.TheVariants as fault;

use crate::PacketFault;
use crate::fault::out_of_memory;
use crate::format::{
    COUNT_AT, DESTINATION_AT, HEADER_OCTETS, KIND_AT, LINK_AT, MAX_PACKETS, NUMBER_AT, PACKET_BITS,
    PLACE_AT, SOURCE_AT,
};
use bit_messages::Bits;
use interface::{Flow, HostAddr, Link, Number};
use std::alloc::{AllocError, Global};
use std::marker::Model;

/// What a packet is.
#[derive(Clone, Copy, Debug, Drop, PartialEq, Eq)]
pub enum PacketKind {
    /// A piece of a message.
    Data,
    /// Ready for next message: the destination's host took the message.
    Rfnm,
    /// The destination's host is down or not there, and did not get the message.
    Dead,
    /// A question of the source's IMP: what became of the message.
    Ask,
    /// The message never came whole to its host's IMP, and now it never will.
    Never,
}

/// A packet: a piece of a message, an answer that reports what became of one (Heart et al., SJCC 1970), or a
/// question about one.
///
/// An answer or a question names its message's source and destination as a piece of the message does. An
/// answer travels to the source, and a question to the destination. A question has the form of an answer,
/// and what is said of answers here holds of it. IMPs are numbered from 1 to [`MOST_IMPS`](interface::MOST_IMPS). A piece has a place from 0 to 7 and 16 to 1008 bits in
/// units of sixteen; each piece of a message but the last has 1008. No value of this type is outside the
/// format.
#[derive(Debug, Drop)]
pub struct Packet {
    kind: PacketKind,
    source: HostAddr,
    destination: HostAddr,
    link: Link,
    number: Number,
    place: u8,
    last: bool,
    bits: Bits,
}

impl Model for Packet {
    ghost use Rattle.packetiser.specs.PacketFields.{PacketFields, IsPacket};

    ghost Value = { PacketFields };

    ghost view = { λ p. record { kind = p.kind; source = p.source; destination = p.destination; link = p.link.0; number = p.number; place = p.place; last = p.last; bits = p.bits } };

    ghost invariant = { λ p. IsPacket (record { kind = p.kind; source = p.source; destination = p.destination; link = p.link.0; number = p.number; place = p.place; last = p.last; bits = p.bits }) };
}

impl Packet {
    /// Returns the packet with these fields. The place is 0 to 7. A piece has 16 to 1008 bits in units of sixteen, 1008
    /// if it isn't the last, and the one at place 7 is the last. An answer has place 0, the last flag and no bits.
    pub fn new(
        kind: PacketKind,
        flow: Flow,
        number: Number,
        place: u8,
        last: bool,
        bits: Bits,
    ) -> Packet
        requires place { place < 8 }
        requires body { Carries kind place last (length bits) }
        ensures { result ≡ record { kind = kind; source = flow.source; destination = flow.destination; link = flow.link.0; number = number; place = place; last = last; bits = bits } }
    {
        let Flow {
            source,
            destination,
            link,
        } = flow;
        Packet {
            kind,
            source,
            destination,
            link,
            number,
            place,
            last,
            bits,
        }
    }

    /// Returns whether it is a piece, an answer or a question, and which answer.
    pub fn kind(&self) -> PacketKind
        ensures same { result ≡ self.now.kind }
        ensures format { IsPacket self.now }
    {
        self.kind
    }

    /// Returns the flow of its message.
    pub fn flow(&self) -> Flow
        ensures { result ≡ flow_of self.now }
    {
        Flow {
            source: self.source,
            destination: self.destination,
            link: self.link,
        }
    }

    /// Returns the number of its message.
    pub fn number(&self) -> Number
        ensures { result ≡ self.now.number }
    {
        self.number
    }

    /// Returns which piece of its message it carries: 0 to 7.
    pub fn place(&self) -> u8
        ensures same { result ≡ self.now.place }
        ensures range { result ≤ 7 }
    {
        self.place
    }

    /// Returns whether it carries the last piece of its message.
    pub fn is_last(&self) -> bool
        ensures { result ≡ self.now.last }
    {
        self.last
    }

    /// Returns the bits of its piece; none of an answer.
    pub fn bits(&self) -> &Bits
        ensures { result.now ≡ self.now.bits }
    {
        &self.bits
    }

    /// Returns the bits of a packet that is no longer needed.
    pub fn into_bits(self) -> Bits
        ensures { result ≡ self.bits }
    {
        self.bits
    }

    /// Returns the packet that these octets spell.
    ///
    /// Errors: `Short` for fewer than 9 octets, or fewer than the number of bits asks for; `NotCanonical`
    /// for a kind above 4, an IMP numbered 0, a bit between place and last flag, place 7 without
    /// the last flag, an answer whose place octet isn't 128, and octets after the end; `BadLength` for an
    /// answer with bits, a piece with none, above 1008 or no multiple of 16, and a piece other than the
    /// last that hasn't 1008; `OutOfMemory` only for a packet with bits.
    pub fn read(alloc: Global, octets: &[u8]) -> Result<Packet, PacketFault>
        ensures exact { Gives (read_of octets.now) result }
        ensures memory { result ≡ Err fault.OutOfMemory → 0 < bit_count octets.now }
        ensures found { IfOk result (λ packet. octets.now ≡ spelling packet) }
    {
        if is_short(octets) {
            return Err(PacketFault::Short);
        }
        if is_not_canonical(octets) {
            return Err(PacketFault::NotCanonical);
        }
        if is_bad_length(octets) {
            return Err(PacketFault::BadLength);
        }
        let (_, body) = octets.split_at(HEADER_OCTETS);
        let bits = Bits::from_octets(alloc, body, bit_count(octets)).map_err(out_of_memory)?;
        Ok(Packet {
            kind: kind_of(octets[KIND_AT]),
            source: host_of(octets[SOURCE_AT]),
            destination: host_of(octets[DESTINATION_AT]),
            link: Link(octets[LINK_AT]),
            number: two_octets(octets, NUMBER_AT),
            place: octets[PLACE_AT] % 8,
            last: octets[PLACE_AT] >= 128,
            bits,
        })
    }

    /// Returns the octets that spell it.
    pub fn write(&self, alloc: Global) -> Result<Vec<u8>, PacketFault>
        ensures spelled { GivesIfMemory (λ octets. octets.items ≡ spelling self.now) result }
        ensures again { IfOk result (λ octets. read_of octets.items ≡ Ok self.now) }
    {
        let bits = self.bits.as_octets();
        let count = self.bits.len();
        let number = self.number;
        let mut octets = Vec::with_capacity(alloc, bits.len().saturating_add(HEADER_OCTETS))?;
        octets.extend_from_slice(&[
            kind_octet(self.kind),
            self.source.octet(),
            self.destination.octet(),
            self.link.0,
            (number / 256) as u8,
            (number % 256) as u8,
            place_octet(self.place, self.last),
            (count / 256) as u8,
            (count % 256) as u8,
        ])?;
        octets.extend_from_slice(bits)?;
        Ok(octets)
    }
}

/// A clone is the same packet. A packet with no bits is cloned without memory.
impl Clone for Packet {
    ghost use Rattle.std.specs.Prelude.{[]};

    ghost is_clone = { λ p q. q ≡ p };

    ghost is_infallible = { λ p. p.bits ≡ [] };

    fn clone(&self) -> Result<Packet, AllocError> {
        Ok(Packet {
            kind: self.kind,
            source: self.source,
            destination: self.destination,
            link: self.link,
            number: self.number,
            place: self.place,
            last: self.last,
            bits: self.bits.clone()?,
        })
    }
}

/// Returns the octet of a kind.
fn kind_octet(kind: PacketKind) -> u8
    ensures { result ≡ kind_octet kind }
{
    match kind {
        PacketKind::Data => 0,
        PacketKind::Rfnm => 1,
        PacketKind::Dead => 2,
        PacketKind::Ask => 3,
        PacketKind::Never => 4,
    }
}

/// Returns the kind with this octet, which is at most 4.
fn kind_of(octet: u8) -> PacketKind
    ensures { result ≡ kind_of octet }
{
    match octet {
        0 => PacketKind::Data,
        1 => PacketKind::Rfnm,
        2 => PacketKind::Dead,
        3 => PacketKind::Ask,
        _ => PacketKind::Never,
    }
}

/// Returns the octet of a place and a last flag.
fn place_octet(place: u8, last: bool) -> u8
    requires { place ≤ 7 }
    ensures { result ≡ place_octet place last }
{
    if last { place + 128 } else { place }
}

/// Returns whether an address octet names an IMP: its lower six bits are 1 to 63.
fn is_address(octet: u8) -> bool
    ensures { result ≡ is_address octet }
{
    1 <= octet % 64
}

/// Returns the host that such an address octet names.
fn host_of(octet: u8) -> HostAddr
    requires { is_address octet ≡ true }
    ensures { result ≡ host_of octet }
{
    HostAddr::from_octet(octet).unwrap()
}

/// Returns the number that two octets say, of which the first is the higher one.
fn two_octets(octets: &[u8], first: usize) -> u16
    requires { first + 1 < length octets.now }
    ensures { result ≡ two_octets octets.now first }
{
    256 * octets[first] as u16 + octets[first + 1] as u16
}

/// Returns how many bits a packet says that it has.
fn bit_count(octets: &[u8]) -> usize
    requires { HEADER_OCTETS ≤ length octets.now }
    ensures { result ≡ bit_count octets.now }
{
    usize::from(two_octets(octets, COUNT_AT))
}

/// Returns whether there are fewer octets than a header has, or than the number of bits asks for.
#[tactic(auto, unfolding(crate::specs::Format::is_short))]
fn is_short(octets: &[u8]) -> bool
    ensures same { result ≡ is_short octets.now }
    ensures long { OnFalse result (HEADER_OCTETS ≤ length octets.now) }
{
    octets.len() < HEADER_OCTETS || octets.len() < octet_count(bit_count(octets))
}

/// Returns how many octets a packet with this many bits has.
fn octet_count(bits: usize) -> usize
    requires { bits ≤ 65535 }
    ensures { result ≡ octet_count bits }
{
    HEADER_OCTETS + bits.div_ceil(8)
}

/// Returns whether octets with a header are refused as `NotCanonical`.
#[tactic(auto, unfolding(crate::specs::Format::is_not_canonical))]
fn is_not_canonical(octets: &[u8]) -> bool
    requires { HEADER_OCTETS ≤ length octets.now }
    ensures { result ≡ is_not_canonical octets.now }
{
    let last = octets[PLACE_AT] >= 128;
    octets[KIND_AT] > 4
        || !is_address(octets[SOURCE_AT])
        || !is_address(octets[DESTINATION_AT])
        || octets[PLACE_AT] / 8 % 16 != 0
        || !last && octets[PLACE_AT] % 8 + 1 == MAX_PACKETS
        || octets[KIND_AT] != 0 && octets[PLACE_AT] != 128
        || octets.len() > octet_count(bit_count(octets))
}

/// Returns whether octets with a header are refused as `BadLength`.
#[tactic(auto, unfolding(crate::specs::Format::is_bad_length))]
fn is_bad_length(octets: &[u8]) -> bool
    requires { HEADER_OCTETS ≤ length octets.now }
    ensures { result ≡ is_bad_length octets.now }
{
    let count = bit_count(octets);
    if octets[KIND_AT] == 0 {
        let last = octets[PLACE_AT] >= 128;
        count == 0 || count > PACKET_BITS || count % 16 != 0 || !last && count != PACKET_BITS
    } else {
        count != 0
    }
}
