//! One end of a line.

ghost use Rattle.std.specs.Prelude.{◌≡◌, ◌<◌, ◌≤◌, ◌+◌, ◌++◌, length, map, IfOk, IfErr, IsSome, OnOk, OnErr, Ok, Some, None, false, position, count_by, is_some, is_none, slice_index_or, slice_set};
ghost use Rattle.std.specs.Option.{option_copied, option_to_list};
ghost use Rattle.imp_channel.specs.Holding.{packets_in};
ghost use Rattle.imp_channel.specs.Line.{IsRefusal, is_free, frames_of, opening_channel, opening_end, frame_of, submitted, resent, acknowledgement, routes_frame, channel_at, is_foreign};
ghost use Rattle.imp_channel.specs.Line.{has_expected_bit, expected_after, brought, state_after, all_acknowledged, answer_to, is_fresh_answer, is_repeat_answer};

use crate::channel::{acknowledge_all, are_same, reset_all};
use crate::{ACKS, CHANNELS, Carried, Channel, Content, Frame, SubmitFault};
use packetiser::Packet;
use routing::Vector;
use std::alloc::{AllocError, Global};
use std::marker::Model;

/// What a frame brought.
#[derive(Debug, Drop)]
pub enum Received {
    /// A packet that wasn't given before.
    Fresh(Packet),
    /// An acknowledgement frame: it brought nothing else.
    AckOnly,
    /// The distances of the neighbour.
    Routes(Vector),
    /// A packet that was given before.
    Repeat,
}

/// One end of a line: its sending channels, and the bit that it expects next on each channel of the other
/// end (Heart et al., SJCC 1970: a packet is kept and sent again until the neighbour acknowledges it).
#[derive(Debug, Drop)]
pub struct Line {
    channels: Vec<Channel>,
    expected: [bool; ACKS],
    // how many channels are busy
    busy: usize,
    // the bits of the channels, beside them, so that acknowledgements are compared without a look at each channel
    bits: [bool; ACKS],
}

impl Model for Line {
    ghost use Rattle.std.specs.Prelude.{◌≡◌, length, map, count_by, is_some};
    ghost use Rattle.imp_channel.specs.declared.channel.TheConstants.{CHANNELS};
    ghost use Rattle.imp_channel.specs.Line.{End};

    ghost Value = { End };

    ghost view = { λ l. record { sending = l.channels.items; expected = l.expected } };

    ghost invariant = { λ l. (length l.channels.items ≡ CHANNELS) × (l.busy ≡ count_by (λ channel. is_some channel.packet) l.channels.items) × (l.bits ≡ map (λ channel. channel.bit) l.channels.items) };
}

impl Line {
    /// Returns an end that was just reset: all channels are free, and bit 0 comes first both ways.
    pub fn new(alloc: Global) -> Result<Self, AllocError>
        ensures { IfOk result (λ line. line ≡ opening_end) }
    {
        let mut channels = Vec::with_capacity(alloc, CHANNELS)?;
        for _ in 0..CHANNELS {
            channels.push(Channel::new())?;
        }
        Ok(Line {
            channels,
            expected: [false; ACKS],
            busy: 0,
            bits: [false; ACKS],
        })
    }

    /// Puts a packet into the lowest free channel and gives its frame. The channel keeps the packet until
    /// it is acknowledged.
    ///
    /// Errors: `AllBusy` where no channel is free, `OutOfMemory` without memory for the frame's copy of the
    /// packet's bits. Both hand the packet back, and nothing has changed.
    #[tactic(auto, using(crate::proofs::Calls::submitted_at), unfolding(crate::specs::Line::submitted))]
    pub fn submit(&mut self, packet: Packet) -> Result<Frame, SubmitFault>
        ensures ok { IfOk result (λ frame. submitted self.old packet ≡ Some (self.new, frame)) }
        ensures refusal { IfErr result (IsRefusal self.old packet) }
        ensures err { OnErr result (self.new ≡ self.old) }
    {
        let Some(at) = lowest_free(&self.channels) else {
            return Err(SubmitFault::AllBusy(packet));
        };
        let Ok(copy) = packet.clone() else {
            return Err(SubmitFault::OutOfMemory(packet));
        };
        let bit = fill(&mut self.channels, at, packet);
        self.busy += 1;
        let carried = Carried::new(at as u8, bit, copy);
        Ok(self.frame(Content::Packet(carried)))
    }

    /// Takes a frame: its acknowledgement bits free channels, and a packet with the bit that is expected on
    /// its channel is given. No frame is refused, since a line uses every channel that a frame can name.
    pub fn receive(&mut self, frame: Frame) -> Received
        ensures state { self.new ≡ state_after self.old frame }
        ensures answer { answer_to self.old frame ≡ Ok result }
    {
        channel_in_use(&frame.content);
        let Frame { acks, content } = frame;
        self.acknowledge(&acks);
        take_content(&mut self.expected, content)
    }

    /// Returns whether `receive` would answer `Fresh`. Nothing changes.
    pub fn is_fresh(&self, frame: &Frame) -> bool
        ensures { result ≡ is_fresh_answer (answer_to self.now frame.now) }
    {
        channel_in_use(&frame.content);
        match &frame.content {
            Content::Packet(carried) => has_expected_bit(&self.expected, carried),
            _ => false,
        }
    }

    /// Returns whether `receive` would answer `Repeat`. Nothing changes.
    pub fn is_repeat(&self, frame: &Frame) -> bool
        ensures { result ≡ is_repeat_answer (answer_to self.now frame.now) }
    {
        channel_in_use(&frame.content);
        match &frame.content {
            Content::Packet(carried) => !has_expected_bit(&self.expected, carried),
            _ => false,
        }
    }

    /// Returns the frames of all busy channels once more, in channel order. Only a packet's copy needs memory, so a
    /// line without a busy channel always answers.
    #[tactic(auto, using(crate::proofs::Calls::frames_more, crate::proofs::Calls::none_sent))]
    pub fn resend(&self, alloc: Global) -> Result<Vec<Frame>, AllocError>
        ensures ok { IfOk result (λ frames. frames.items ≡ resent self.now) }
        ensures memory { OnErr result (0 < length (packets_in self.now.sending)) }
    {
        let mut frames = Vec::new(alloc);
        if self.busy == 0 {
            return Ok(frames);
        }
        for (c, channel) in self.channels.iter().enumerate() {
            self.push_frame(&mut frames, c as u8, channel)?;
        }
        Ok(frames)
    }

    /// Returns the frame of a channel once more; `None` where the channel is free. Only the packet's copy needs memory.
    pub fn again(&self, channel: u8) -> Result<Option<Frame>, AllocError>
        requires { channel < ACKS }
        ensures ok { IfOk result (λ frame. option_to_list frame ≡ frames_of self.now channel (channel_at self.now channel).bit (channel_at self.now channel).packet) }
        ensures memory { OnErr result (IsSome (channel_at self.now channel).packet) }
    {
        let sending = &self.channels[channel as usize];
        match &sending.packet {
            Some(packet) => {
                let carried = Carried::new(channel, sending.bit, packet.clone()?);
                Ok(Some(self.frame(Content::Packet(carried))))
            }
            None => Ok(None),
        }
    }

    /// Returns whether no channel is free, so that `submit` would put no packet in. This takes no memory.
    #[tactic(auto, using(crate::proofs::Calls::full_told))]
    pub fn is_full(&self) -> bool
        ensures { result ≡ is_none (position is_free self.now.sending) }
    {
        self.busy == CHANNELS
    }

    /// Starts anew, as the line's other end must too, and gives back the packets of the busy channels in
    /// channel order. Memory is needed only where a channel is busy, and without it nothing has changed.
    #[tactic(auto, using(crate::proofs::Calls::packets_counted, crate::proofs::Acknowledging::reset_bits))]
    pub fn reset(&mut self, alloc: Global) -> Result<Vec<Packet>, AllocError>
        ensures packets { IfOk result (λ packets. packets.items ≡ packets_in self.old.sending) }
        ensures state { IfOk result (λ _. self.new ≡ opening_end) }
        ensures err { OnErr result (self.new ≡ self.old) }
        ensures memory { OnErr result (0 < length (packets_in self.old.sending)) }
    {
        let mut packets = Vec::with_capacity(alloc, self.busy)?;
        reset_all(&mut self.channels, &mut packets);
        self.busy = 0;
        self.bits = [false; ACKS];
        self.expected = [false; ACKS];
        Ok(packets)
    }

    /// Returns a frame that brings acknowledgements only.
    pub fn ack_frame(&self) -> Frame
        ensures { result ≡ acknowledgement self.now }
    {
        self.frame(Content::Nothing)
    }

    /// Returns a frame that brings distances, beside the acknowledgements.
    pub fn routes_frame(&self, vector: Vector) -> Frame
        ensures { result ≡ routes_frame self.now vector }
    {
        self.frame(Content::Routes(vector))
    }

    /// Returns the packet that waits in a channel; `None` where it is free or isn't in use.
    pub fn packet(&self, channel: u8) -> Option<&Packet>
        ensures { option_copied result ≡ (channel_at self.now channel).packet }
    {
        self.channels.get(channel as usize)?.packet.as_ref()
    }

    /// Returns its sending channels, in their order.
    pub fn channels(&self) -> &[Channel]
        ensures { result.now ≡ self.now.sending }
    {
        &self.channels
    }

    /// Returns the bit that it expects next on each channel of the other end, that of channel 0 first.
    pub fn expected(&self) -> &[bool; ACKS]
        ensures { result.now ≡ self.now.expected }
    {
        &self.expected
    }

    /// Returns how many channels are busy: at most eight.
    #[tactic(auto, using(crate::proofs::Calls::packets_counted))]
    pub fn busy_channels(&self) -> usize
        ensures count { result ≡ length (packets_in self.now.sending) }
        ensures most { result ≤ CHANNELS }
        ensures all { length self.now.sending ≡ CHANNELS }
    {
        self.busy
    }

    /// Takes the acknowledgement bit of each channel. They matter to a busy one only, so that without one they aren't looked
    /// at. It is all that `receive` does with a frame that brings no packet.
    #[tactic(auto, using(crate::proofs::Acknowledging::none_acknowledged))]
    #[inline(always)]
    pub fn acknowledge(&mut self, acks: &[bool; ACKS])
        ensures { self.new ≡ record self.old { sending = all_acknowledged acks.now self.old.sending } }
    {
        if self.busy > 0 {
            self.acknowledge_some(acks);
        }
    }

    /// Does the same, without a look at whether a channel is busy.
    #[tactic(auto, using(crate::proofs::Acknowledging::own_acknowledged))]
    #[inline(never)]
    fn acknowledge_some(&mut self, acks: &[bool; ACKS])
        ensures { self.new ≡ record self.old { sending = all_acknowledged acks.now self.old.sending } }
    {
        if are_same(acks, &self.bits) {
            return;
        }
        self.busy -= acknowledge_all(&mut self.channels, &mut self.bits, acks);
    }

    /// Puts the frame of a channel, if it is busy, at the end of a list.
    fn push_frame(
        &self,
        frames: &mut Vec<Frame>,
        c: u8,
        channel: &Channel,
    ) -> Result<(), AllocError>
        requires { c < ACKS }
        ensures ok { OnOk result (frames.new.items ≡ frames.old.items ++ frames_of self.now c channel.now.bit channel.now.packet) }
        ensures memory { OnErr result (IsSome channel.now.packet) }
    {
        if let Some(packet) = &channel.packet {
            let carried = Carried::new(c, channel.bit, packet.clone()?);
            frames.push(self.frame(Content::Packet(carried)))?;
        }
        Ok(())
    }

    /// Returns a frame with this content. Every frame carries the bits that are expected next.
    fn frame(&self, content: Content) -> Frame
        ensures { result ≡ frame_of self.now content }
    {
        Frame {
            acks: self.expected,
            content,
        }
    }
}

/// Puts a packet into a free channel, and answers the bit that it goes out under.
#[tactic(auto, using(crate::proofs::Calls::filled_counted, crate::proofs::Acknowledging::filled_bits))]
fn fill(channels: &mut [Channel], at: usize, packet: Packet) -> bool
    requires { position is_free channels.old ≡ Some at }
    ensures bit { result ≡ (slice_index_or channels.old at opening_channel).bit }
    ensures channels { channels.new ≡ slice_set channels.old at (record { bit = result; packet = Some packet }) }
    ensures busy { count_by (λ channel. is_some channel.packet) channels.new ≡ count_by (λ channel. is_some channel.packet) channels.old + 1 }
    ensures bits { map (λ channel. channel.bit) channels.new ≡ map (λ channel. channel.bit) channels.old }
{
    let channel = &mut channels[at];
    channel.packet = Some(packet);
    channel.bit
}

/// Returns the lowest free one of these channels.
fn lowest_free(channels: &[Channel]) -> Option<usize>
    ensures { result ≡ position is_free channels.now }
{
    channels.iter().position(|channel| channel.packet.is_none())
}

/// Proves that a frame's packet is on a channel that is in use.
///
/// It is there for the proof only, and does nothing: `Carried::channel` says that the channel is one of the eight.
fn channel_in_use(content: &Content)
    ensures { is_foreign content.now ≡ false }
{
    if let Content::Packet(carried) = content {
        let _ = carried.channel();
    }
}

/// Returns whether a packet has the bit that is expected on its channel.
fn has_expected_bit(expected: &[bool; ACKS], carried: &Carried) -> bool
    ensures { result ≡ has_expected_bit expected.now carried.now }
{
    carried.bit() == expected[carried.channel() as usize]
}

/// Takes what a frame brings: after the expected bit the other is expected.
fn take_content(expected: &mut [bool; ACKS], content: Content) -> Received
    ensures expected { expected.new ≡ expected_after expected.old content }
    ensures brought { result ≡ brought expected.old content }
{
    match content {
        Content::Packet(carried) => {
            if !has_expected_bit(expected, &carried) {
                return Received::Repeat;
            }
            expected[carried.channel() as usize] = !carried.bit();
            Received::Fresh(carried.into_packet())
        }
        Content::Nothing => Received::AckOnly,
        Content::Routes(vector) => Received::Routes(vector),
    }
}
