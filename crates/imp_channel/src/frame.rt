//! What goes over a line.

ghost use Rattle.std.specs.Prelude.{◌≡◌, ◌<◌, ◌++◌, [], Ok, IfOk, IfErr, OnOk};
ghost use Rattle.imp_channel.specs.Holding.{bits_carried};
ghost use Rattle.imp_channel.specs.Format.{Gives, read_of, frame_in, packet_bits, packet_bits_after, packet_bits_in, spelling, after_version, content_of, kind_octet, rest_of, packet_in, routes_in};
ghost use Rattle.imp_channel.specs.Format.{channel_octet, octet_of, bits_of, bit_value};

use crate::ChannelFault;
use interface::MOST_IMPS;
use packetiser::Packet;
use routing::Vector;
use std::alloc::{AllocError, Global};
use std::marker::Model;

/// The first octet of every frame: the version of this format.
pub const VERSION: u8 = 0xF2;

/// How many channels a frame can name, and acknowledge.
pub const ACKS: usize = 8;

/// What a packet's bit is worth in the octet that also says its channel.
const BIT_VALUE: u8 = 8;

/// A frame between two neighbouring IMPs.
#[derive(Debug, Drop)]
pub struct Frame {
    /// The acknowledgement bits, that of channel 0 of the other direction first.
    pub acks: [bool; ACKS],
    /// What it brings beside them.
    pub content: Content,
}

/// What a frame brings beside acknowledgements.
#[derive(Debug, Drop)]
pub enum Content {
    /// A packet on a channel.
    Packet(Carried),
    /// Nothing: the frame is there for its acknowledgements.
    Nothing,
    /// The sender's distances.
    Routes(Vector),
}

/// A packet with the channel that it is on, at most 7, and its bit there.
#[derive(Debug, Drop)]
pub struct Carried {
    channel: u8,
    bit: bool,
    packet: Packet,
}

impl Model for Carried {
    ghost use Rattle.std.specs.Prelude.{◌<◌};
    ghost use Rattle.imp_channel.specs.declared.frame.TheConstants.{ACKS};
    ghost use Rattle.imp_channel.specs.Carriage.{Carriage};

    ghost Value = { Carriage };

    ghost view = { λ c. record { channel = c.channel; bit = c.bit; packet = c.packet } };

    ghost invariant = { λ c. c.channel < ACKS };
}

impl Carried {
    ghost use Rattle.std.specs.Prelude.{◌<◌};

    /// Puts a packet on a channel, at most 7, under this bit.
    pub fn new(channel: u8, bit: bool, packet: Packet) -> Self
        requires { channel < ACKS }
        ensures { result ≡ record { channel = channel; bit = bit; packet = packet } }
    {
        Carried {
            channel,
            bit,
            packet,
        }
    }

    /// Returns the channel, at most 7.
    pub fn channel(&self) -> u8
        ensures value { result ≡ self.now.channel }
        ensures in_range { result < ACKS }
    {
        self.channel
    }

    /// Returns the packet's bit on its channel.
    pub fn bit(&self) -> bool
        ensures { result ≡ self.now.bit }
    {
        self.bit
    }

    /// Returns the packet that the frame carries.
    pub fn packet(&self) -> &Packet
        ensures { result.now ≡ self.now.packet }
    {
        &self.packet
    }

    /// Returns the octet that says the channel and the bit.
    fn octet(&self) -> u8
        ensures value { result ≡ channel_octet self.now }
        ensures in_range { self.now.channel < ACKS }
    {
        let bit = if self.bit { BIT_VALUE } else { 0 };
        bit + self.channel
    }

    /// Returns the packet by value.
    pub fn into_packet(self) -> Packet
        ensures { result ≡ self.packet }
    {
        self.packet
    }
}

impl Frame {
    /// Returns the frame that these octets spell.
    ///
    /// Errors: `BadVersion` for a first octet that isn't [`VERSION`], whatever follows it; `Short` for fewer
    /// than three octets, a packet frame without a channel, a routes frame with fewer than [`MOST_IMPS`]
    /// distances; `NotCanonical` for a kind above 2, a bit above the channel and its bit, octets after the
    /// end, a distance above [`routing::INFINITE`]; then those of the packet. `OutOfMemory` is given only
    /// for a packet with bits.
    pub fn read(alloc: Global, octets: &[u8]) -> Result<Frame, ChannelFault>
        ensures exact { Gives (read_of octets.now) result }
        ensures found { IfOk result (λ frame. octets.now ≡ spelling frame) }
        ensures memory { IfErr result (λ fault. fault ≡ ChannelFault.OutOfMemory → 0 < packet_bits octets.now) }
    {
        let [version, rest @ ..] = octets else {
            return Err(ChannelFault::Short);
        };
        if *version != VERSION {
            return Err(ChannelFault::BadVersion);
        }
        read_frame(alloc, rest)
    }

    /// Returns the octets that spell it.
    ///
    /// Errors: only `OutOfMemory`.
    pub fn write(&self, alloc: Global) -> Result<Vec<u8>, ChannelFault>
        ensures spelled { IfOk result (λ octets. octets.items ≡ spelling self.now) }
        ensures again { IfOk result (λ octets. read_of octets.items ≡ Ok self.now) }
        ensures memory { IfErr result (λ fault. fault ≡ ChannelFault.OutOfMemory) }
    {
        let kind = kind_octet(&self.content);
        let mut octets = Vec::from_slice(alloc, &[VERSION, kind, octet_of(&self.acks)])?;
        write_rest(&self.content, alloc, &mut octets)?;
        Ok(octets)
    }
}

/// A copy of a frame is the same frame. Only the bits of its packet need memory.
impl Clone for Frame {
    ghost is_clone = { λ x y. y ≡ x };

    ghost is_infallible = { λ x. bits_carried x.content ≡ [] };

    fn clone(&self) -> Result<Frame, AllocError> {
        Ok(Frame {
            acks: self.acks,
            content: self.content.clone()?,
        })
    }
}

impl Clone for Content {
    ghost is_clone = { λ x y. y ≡ x };

    ghost is_infallible = { λ x. bits_carried x ≡ [] };

    fn clone(&self) -> Result<Content, AllocError> {
        Ok(match self {
            Content::Packet(carried) => Content::Packet(carried.clone()?),
            Content::Nothing => Content::Nothing,
            Content::Routes(vector) => Content::Routes(vector.clone()?),
        })
    }
}

impl Clone for Carried {
    ghost is_clone = { λ x y. y ≡ x };

    ghost is_infallible = { λ x. x.packet.bits ≡ [] };

    fn clone(&self) -> Result<Carried, AllocError> {
        Ok(Carried {
            channel: self.channel,
            bit: self.bit,
            packet: self.packet.clone()?,
        })
    }
}

/// Reads what follows the version octet.
fn read_frame(alloc: Global, octets: &[u8]) -> Result<Frame, ChannelFault>
    ensures exact { Gives (frame_in octets.now) result }
    ensures found { IfOk result (λ frame. octets.now ≡ after_version frame) }
    ensures memory { IfErr result (λ fault. fault ≡ ChannelFault.OutOfMemory → 0 < packet_bits_after octets.now) }
{
    let [kind, acks, rest @ ..] = octets else {
        return Err(ChannelFault::Short);
    };
    let content = read_content(alloc, *kind, rest)?;
    Ok(Frame {
        acks: bits_of(*acks),
        content,
    })
}

/// Reads what follows the acknowledgement bits in a frame of this kind.
fn read_content(alloc: Global, kind: u8, rest: &[u8]) -> Result<Content, ChannelFault>
    ensures exact { Gives (content_of kind rest.now) result }
    ensures kind { IfOk result (λ content. kind ≡ kind_octet content) }
    ensures rest { IfOk result (λ content. rest.now ≡ rest_of content) }
    ensures memory { IfErr result (λ fault. fault ≡ ChannelFault.OutOfMemory → 0 < packet_bits_in kind rest.now) }
{
    match kind {
        0 => read_packet(alloc, rest),
        1 if rest.is_empty() => Ok(Content::Nothing),
        2 => read_routes(rest),
        _ => Err(ChannelFault::NotCanonical),
    }
}

/// Reads a packet, with its channel and bit before it.
fn read_packet(alloc: Global, rest: &[u8]) -> Result<Content, ChannelFault>
    ensures exact { Gives (packet_in rest.now) result }
    ensures memory { IfErr result (λ fault. fault ≡ ChannelFault.OutOfMemory → 0 < packet_bits_in 0 rest.now) }
    ensures kind { IfOk result (λ content. kind_octet content ≡ 0) }
    ensures rest { IfOk result (λ content. rest.now ≡ rest_of content) }
{
    let [octet, body @ ..] = rest else {
        return Err(ChannelFault::Short);
    };
    if *octet >= 2 * BIT_VALUE {
        return Err(ChannelFault::NotCanonical);
    }
    let packet = Packet::read(alloc, body)?;
    Ok(Content::Packet(Carried {
        channel: *octet % BIT_VALUE,
        bit: *octet >= BIT_VALUE,
        packet,
    }))
}

/// Reads the distances of a routes frame, [`MOST_IMPS`] of them.
fn read_routes(rest: &[u8]) -> Result<Content, ChannelFault>
    ensures exact { result ≡ routes_in rest.now }
    ensures kind { IfOk result (λ content. kind_octet content ≡ 2) }
    ensures rest { IfOk result (λ content. rest.now ≡ rest_of content) }
{
    if rest.len() < MOST_IMPS {
        return Err(ChannelFault::Short);
    }
    match Vector::from_slice(rest) {
        Some(vector) => Ok(Content::Routes(vector)),
        None => Err(ChannelFault::NotCanonical),
    }
}

/// Returns which kind of frame brings this.
fn kind_octet(content: &Content) -> u8
    ensures { result ≡ kind_octet content.now }
{
    match content {
        Content::Packet(_) => 0,
        Content::Nothing => 1,
        Content::Routes(_) => 2,
    }
}

/// Puts what follows the acknowledgement bits at the end.
fn write_rest(content: &Content, alloc: Global, octets: &mut Vec<u8>) -> Result<(), ChannelFault>
    ensures spelled { OnOk result (octets.new.items ≡ octets.old.items ++ rest_of content.now) }
    ensures again { OnOk result (content_of (kind_octet content.now) (rest_of content.now) ≡ Ok content.now) }
    ensures memory { IfErr result (λ fault. fault ≡ ChannelFault.OutOfMemory) }
{
    match content {
        Content::Packet(carried) => {
            octets.push(carried.octet())?;
            octets.extend_from_slice(&carried.packet().write(alloc)?)?;
        }
        Content::Nothing => {}
        Content::Routes(vector) => octets.extend_from_slice(vector.distances())?,
    }
    Ok(())
}

/// Returns the octet of acknowledgement bits, that of channel 0 in the lowest place.
fn octet_of(acks: &[bool; ACKS]) -> u8
    ensures octet { result ≡ octet_of acks.now }
    ensures again { bits_of ACKS result ≡ acks.now }
{
    let mut octet = 0;
    for c in (0..ACKS).rev() {
        octet = 2 * octet + bit_value(acks[c]);
    }
    octet
}

/// Returns a bit as a number.
fn bit_value(bit: bool) -> u8
    ensures { result ≡ bit_value bit }
{
    u8::from(bit)
}

/// Returns the acknowledgement bits of an octet, that in the lowest place first.
fn bits_of(octet: u8) -> [bool; ACKS]
    ensures bits { result ≡ bits_of ACKS octet }
    ensures again { octet_of result ≡ octet }
{
    let mut acks = [false; ACKS];
    let mut rest = octet;
    for ack in acks.iter_mut() {
        *ack = rest % 2 == 1;
        rest /= 2;
    }
    acks
}
