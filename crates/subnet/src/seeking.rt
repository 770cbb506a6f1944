//! What is looked for in IMPs and live frames.

ghost use Rattle.std.specs.Prelude.{◌≡◌, ◌||◌};
ghost use Rattle.std.specs.List.{list_any};
ghost use Rattle.imp_node.specs.Queries.{is_request};
ghost use Rattle.subnet.specs.Net.{frames_on};
ghost use Rattle.subnet.specs.Alive as alive;
ghost use Rattle.subnet.specs.Alive.{says, carries, is_alive, is_remembered};
ghost use Rattle.subnet.specs.Inside.Calling.{AreLive};
ghost use Rattle.subnet.specs.Inside.Seeking.{imp_has, packet_is, frame_has, found};

use crate::parts::Parts;
use crate::wire::Wire;
use imp_channel::{Content, Frame};
use imp_node::Imp;
use interface::{Direction, Flow, ImpNumber, Number};
use packetiser::{Packet, PacketKind};
use std::collections::VecDeque;

/// What is looked for.
#[derive(Clone, Copy, Debug)]
pub enum Sought {
    /// A message of this flow and number, or a packet of it.
    Message(Flow, Number),
    /// A message, a piece of one or a question about one, from a host at the first IMP to a host at the second.
    Between(ImpNumber, ImpNumber),
    /// A message from or to a host at this IMP, or a packet of one.
    Touching(ImpNumber),
}

impl Sought {
    /// Returns whether an IMP holds what is sought.
    fn is_in(&self, imp: &Imp) -> bool
        ensures { result ≡ imp_has self.now imp.now }
    {
        match self {
            Sought::Message(flow, number) => imp.holds(flow, *number),
            Sought::Between(from, to) => imp.holds_data(*from, *to),
            Sought::Touching(at) => imp.touches(*at),
        }
    }

    /// Returns whether the IMP of a place is up and holds what is sought.
    fn is_at(&self, place: &Option<Imp>) -> bool
        ensures { result ≡ says (imp_has self.now) place.now }
    {
        match place {
            Some(imp) => self.is_in(imp),
            None => false,
        }
    }

    /// Returns whether one of these IMPs holds what is sought.
    fn is_among(&self, imps: &[Option<Imp>]) -> bool
        ensures { result ≡ list_any (says (imp_has self.now)) imps.now }
    {
        imps.iter().any(|place| self.is_at(place))
    }

    /// Returns whether this packet is sought. Numbers are compared first, since most differ.
    #[tactic(auto, using(interface::proofs::lemmas::and_turned))]
    fn is_packet(&self, packet: &Packet) -> bool
        ensures { result ≡ packet_is self.now packet.now }
    {
        let flow = packet.flow();
        match self {
            Sought::Message(wanted, number) => packet.number() == *number && *wanted == flow,
            Sought::Between(from, to) => {
                is_request(packet.kind())
                    && flow.source.imp() == from.number()
                    && flow.destination.imp() == to.number()
            }
            Sought::Touching(imp) => flow.source.imp() == imp.number()
                || flow.destination.imp() == imp.number(),
        }
    }

    /// Returns whether a frame carries what is sought.
    fn is_carried(&self, frame: &Frame) -> bool
        ensures { result ≡ frame_has self.now frame.now }
    {
        match &frame.content {
            Content::Packet(carried) => self.is_packet(carried.packet()),
            Content::Nothing | Content::Routes(_) => false,
        }
    }

    /// Returns whether one of these frames carries what is sought. On most lines there is none.
    #[tactic(auto, using(crate::proofs::Calls::Carrying::none_under_way))]
    fn is_under_way(&self, frames: &VecDeque<Frame>) -> bool
        ensures { result ≡ list_any (frame_has self.now) frames.now.items }
    {
        if frames.is_empty() {
            return false;
        }
        frames.iter().any(|frame| self.is_carried(frame))
    }

    /// Returns whether a live frame of a line carries what is sought.
    #[tactic(auto, using(crate::proofs::Calls::Carrying::carries_is))]
    fn is_on(&self, wire: &Wire) -> bool
        ensures { result ≡ carries (packet_is self.now) wire.now }
    {
        self.is_under_way(wire.frames(Direction::Forward))
            || self.is_under_way(wire.frames(Direction::Back))
    }

    /// Returns whether a live frame of one of these lines carries what is sought.
    fn is_on_lines(&self, lines: &[Wire]) -> bool
        ensures { result ≡ list_any (carries (packet_is self.now)) lines.now }
    {
        lines.iter().any(|wire| self.is_on(wire))
    }
}

/// Returns whether packets of this kind travel to the destination: pieces of messages, and questions.
fn is_request(kind: PacketKind) -> bool
    ensures { result ≡ is_request kind }
{
    matches!(kind, PacketKind::Data | PacketKind::Ask)
}

impl Parts {
    /// Returns whether an IMP or a live frame holds what is sought.
    pub(crate) fn finds(&self, sought: &Sought) -> bool
        ensures { result ≡ found sought.now self.now }
    {
        sought.is_among(&self.imps) || sought.is_on_lines(self.lines.all())
    }

    /// Returns whether a packet or message of this flow and number is alive.
    pub(crate) fn is_alive(&self, flow: &Flow, number: Number) -> bool
        ensures { result ≡ is_alive self.now flow.now number }
    {
        self.finds(&Sought::Message(*flow, number))
    }
}
