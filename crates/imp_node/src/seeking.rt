//! What is looked for among the packets and messages that an IMP holds.

ghost use Rattle.std.specs.Prelude.{◌≡◌, ℕ, Bool, true, false};
ghost use Rattle.std.specs.List.{list_any, flat_map};
ghost use Rattle.packetiser.specs.Slots as slots;
ghost use Rattle.imp_channel.specs.Holding as held;
ghost use Rattle.imp_node.specs.Contents.{packets_in_channels};
ghost use Rattle.imp_node.specs.Queries.{is_request};
ghost use Rattle.imp_node.specs.Inside.Seeking.{is_sought, packet_is, message_is};

use crate::host::Host;
use crate::port::Port;
use crate::waiting::Message;
use imp_channel::{Channel, Line};
use interface::{Flow, ImpNumber, Number};
use packetiser::{Packet, PacketKind, Reassembly};

/// What is looked for.
#[derive(Clone, Copy, Debug)]
pub enum Sought {
    /// A message of this flow and number, or a packet of it.
    Message(Flow, Number),
    /// A message, a piece of one or a question about one, from a host at the first IMP to a host at the
    /// second.
    Between(ImpNumber, ImpNumber),
    /// A message from or to a host at this IMP, or a packet of one.
    Touching(ImpNumber),
}

impl Sought {
    /// Returns whether a message or packet of this flow and number is sought, if it travels to the destination or not.
    /// Numbers are compared first, since most differ.
    #[tactic(auto, using(interface::proofs::lemmas::and_turned))]
    pub(crate) fn is_sought(&self, request: bool, flow: &Flow, number: Number) -> bool
        ensures { result ≡ is_sought self.now request flow.now number }
    {
        match self {
            Sought::Message(wanted, of) => number == *of && *wanted == *flow,
            Sought::Between(from, to) => {
                request
                    && flow.source.imp() == from.number()
                    && flow.destination.imp() == to.number()
            }
            Sought::Touching(imp) => flow.source.imp() == imp.number()
                || flow.destination.imp() == imp.number(),
        }
    }

    /// Returns whether this packet is sought.
    fn is_packet(&self, packet: &Packet) -> bool
        ensures { result ≡ packet_is self.now packet.now }
    {
        self.is_sought(is_request(packet.kind()), &packet.flow(), packet.number())
    }

    /// Returns whether this message is sought.
    pub(crate) fn is_message(&self, message: &Message) -> bool
        ensures { result ≡ message_is self.now message.now }
    {
        self.is_sought(true, &message.flow, message.number)
    }

    /// Returns whether one of these packets is sought.
    pub(crate) fn is_among(&self, packets: &[Packet]) -> bool
        ensures { result ≡ list_any (packet_is self.now) packets.now }
    {
        packets.iter().any(|packet| self.is_packet(packet))
    }

    /// Returns whether the packet of a channel is sought.
    fn is_in_channel(&self, channel: &Channel) -> bool
        ensures { result ≡ list_any (packet_is self.now) (held.packet_of channel.now.packet) }
    {
        match &channel.packet {
            Some(packet) => self.is_packet(packet),
            None => false,
        }
    }

    /// Returns whether the packet of one of these channels is sought.
    fn is_in_channels(&self, channels: &[Channel]) -> bool
        ensures { result ≡ list_any (λ channel. list_any (packet_is self.now) (held.packet_of channel.packet)) channels.now }
    {
        channels.iter().any(|channel| self.is_in_channel(channel))
    }

    /// Returns whether a packet in the channels of a line's end is sought. None is where no channel is busy.
    #[tactic(auto, using(crate::proofs::Searching::any_in_channels, crate::proofs::Searching::none_in_channels))]
    fn is_on_line(&self, line: &Line) -> bool
        ensures { result ≡ list_any (packet_is self.now) (held.packets_in line.now.sending) }
    {
        if line.busy_channels() == 0 {
            return false;
        }
        self.is_in_channels(line.channels())
    }

    /// Returns whether a packet in the channels of one of these ports is sought.
    fn is_at_ports(&self, ports: &[Port]) -> bool
        ensures { result ≡ list_any (λ port. list_any (packet_is self.now) (held.packets_in port.line.sending)) ports.now }
    {
        ports.iter().any(|port| self.is_on_line(&port.line))
    }

    /// Returns whether a packet in the channels of these ports is sought.
    #[tactic(auto, using(crate::proofs::Searching::any_in_ports))]
    pub(crate) fn is_on_lines(&self, ports: &[Port]) -> bool
        ensures { result ≡ list_any (packet_is self.now) (packets_in_channels ports.now) }
    {
        self.is_at_ports(ports)
    }

    /// Returns whether a piece in reassembly is sought.
    #[tactic(auto, using(crate::proofs::Searching::any_in_slots))]
    pub(crate) fn is_in_slots(&self, reassembly: &Reassembly) -> bool
        ensures { result ≡ list_any (packet_is self.now) (slots.packets_in reassembly.now) }
    {
        let mut k = 0;
        'slots: while let Some(held) = reassembly.held(k) {
            if self.is_sought(true, &held.flow, held.number) {
                return true;
            }
            k += 1;
        }
        false
    }

    /// Returns whether a message in the queue of one of these hosts is sought.
    fn is_at_hosts(&self, hosts: &[Host]) -> bool
        ensures { result ≡ list_any (λ h. list_any (message_is self.now) h.queue) hosts.now }
    {
        hosts.iter().any(|host| host.has(self))
    }

    /// Returns whether a message in the queues of these hosts is sought.
    #[tactic(auto, using(crate::proofs::Searching::any_in_queues))]
    pub(crate) fn is_in_queues(&self, hosts: &[Host]) -> bool
        ensures { result ≡ list_any (message_is self.now) (flat_map (λ h. h.queue) hosts.now) }
    {
        self.is_at_hosts(hosts)
    }
}

/// Returns whether a packet of this kind travels to the destination: a piece or a question.
fn is_request(kind: PacketKind) -> bool
    ensures { result ≡ is_request kind }
{
    match kind {
        PacketKind::Data | PacketKind::Ask => true,
        PacketKind::Rfnm | PacketKind::Dead | PacketKind::Never => false,
    }
}
