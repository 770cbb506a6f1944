//! One channel of a line.

ghost use Rattle.std.specs.Prelude.{◌≡◌, ◌≤◌, ◌++◌, length, count_by, is_some, map, vec_len, vec_capacity, ◌+◌, true, if◌then◌else◌};
ghost use Rattle.imp_channel.specs.declared.frame.TheConstants.{ACKS};
ghost use Rattle.imp_channel.specs.Holding.{packets_in};
ghost use Rattle.imp_channel.specs.Line.{all_acknowledged, acknowledged, opening_channel};

use crate::ACKS;
use packetiser::Packet;

/// How many channels a line has in each direction: all that a frame can name.
pub const CHANNELS: usize = 8;

/// A sending channel: it holds at most one packet, until the other end has acknowledged it.
#[derive(Debug, Drop)]
pub struct Channel {
    /// The bit of the packet that waits here, or of the next one.
    pub bit: bool,
    /// The packet that waits for its acknowledgement.
    pub packet: Option<Packet>,
}

impl Channel {
    /// Returns a channel that has sent nothing: its first packet goes out under bit 0.
    pub(crate) fn new() -> Self
        ensures { result ≡ opening_channel }
    {
        Channel {
            bit: false,
            packet: None,
        }
    }

    /// Takes an acknowledgement bit. One that differs from the bit of the packet that waits frees the
    /// channel, and the next packet has the other bit. The call answers whether it freed the channel. The
    /// channel's own bit is given, so that a channel with that bit isn't looked at.
    fn acknowledge(&mut self, bit: bool, ack: bool) -> bool
        requires { bit ≡ self.old.bit }
        ensures channel { self.new ≡ acknowledged ack self.old }
        ensures bit { self.new.bit ≡ (if result then ack else bit) }
        ensures freed { (if is_some self.new.packet then 1 else 0) + (if result then 1 else 0) ≡ (if is_some self.old.packet then 1 else 0) }
    {
        if ack == bit || self.packet.is_none() {
            return false;
        }
        self.packet = None;
        self.bit = ack;
        true
    }
}

/// Returns whether these are the same bits. All are looked at, with no early end, so that eight of them are compared at
/// once.
pub(crate) fn are_same(acks: &[bool; ACKS], bits: &[bool; ACKS]) -> bool
    ensures { result ≡ true → acks.now ≡ bits.now }
{
    let mut same = true;
    for c in 0..ACKS {
        same = same & (acks[c] == bits[c]);
    }
    same
}

/// Takes the acknowledgement bit of each channel, and answers how many channels were freed. The channels' own bits are beside
/// them, before and after.
pub(crate) fn acknowledge_all(
    channels: &mut [Channel],
    bits: &mut [bool; ACKS],
    acks: &[bool; ACKS],
) -> usize
    requires count { length channels.old ≡ ACKS }
    requires bits { bits.old ≡ map (λ channel. channel.bit) channels.old }
    ensures channels { channels.new ≡ all_acknowledged acks.now channels.old }
    ensures bits { bits.new ≡ map (λ channel. channel.bit) channels.new }
    ensures freed { count_by (λ channel. is_some channel.packet) channels.new + result ≡ count_by (λ channel. is_some channel.packet) channels.old }
{
    let mut freed = 0;
    for (c, channel) in channels.iter_mut().enumerate() {
        if channel.acknowledge(bits[c], acks[c]) {
            bits[c] = acks[c];
            freed += 1;
        }
    }
    freed
}

/// Resets the channels, and puts the packets that waited there at the end of a list with room for them.
pub(crate) fn reset_all(channels: &mut [Channel], packets: &mut Vec<Packet>)
    requires { vec_len packets.old + length (packets_in channels.old) ≤ vec_capacity packets.old }
    ensures packets { packets.new.items ≡ packets.old.items ++ packets_in channels.old }
    ensures channels { channels.new ≡ map (λ _. opening_channel) channels.old }
{
    for channel in channels.iter_mut() {
        channel.bit = false;
        if let Some(packet) = channel.packet.take()
            && packets.push(packet).is_err()
        {
            unreachable!();
        }
    }
}
