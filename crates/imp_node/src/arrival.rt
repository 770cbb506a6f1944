//! A frame comes in on a line.

ghost use Rattle.std.specs.FinMap as map;
ghost use Rattle.std.specs.Prelude.{◌≡◌, ◌<◌, ◌++◌, ◌∷◌, [], true, false, length, None, Ok, IfOk, OnOk, OnErr, if◌then◌else◌};
ghost use Rattle.bit_messages.specs.Body.{has_mark, text_of};
ghost use Rattle.link_table.specs.Flows.{asked_in};
ghost use Rattle.packetiser.specs.PacketFields.{IsPacket, Carries, flow_of};
ghost use Rattle.packetiser.specs.Pieces.{IsBodySize};
ghost use Rattle.packetiser.specs.Slots.{answer_of};
ghost use Rattle.packetiser.specs.declared.packet.PacketKind.TheVariants as kind;
ghost use Rattle.imp_channel.specs.Line.{answer_to, acknowledgement};
ghost use Rattle.imp_node.specs.State.{is_up, port_at};
ghost use Rattle.imp_node.specs.Flows as flows;
ghost use Rattle.imp_node.specs.Flows.{noted, message_queued};
ghost use Rattle.imp_node.specs.Pump.{pump, stored};
ghost use Rattle.imp_node.specs.Room.{queue_has_room};
ghost use Rattle.imp_node.specs.Arrival as arrivals;
ghost use Rattle.imp_node.specs.Arrival.{arrival, arrived, data_arrival, ask_arrival, piece_arrival, arrival_has_room, acknowledged, frame_taken};
ghost use Rattle.imp_node.specs.Turns.{Turned, Takes, from_line_grows};
ghost use Rattle.imp_node.specs.Inside.Parts.{IsPacketFlow};
ghost use Rattle.imp_node.specs.Inside.Arriving.{lost_by, has_place, turned_away, asked_about, completed};

use crate::outgoing::push_frame;
use crate::pump::target;
use crate::steps::answer_packet;
use crate::waiting::Message;
use crate::{Imp, Outgoing};
use bit_messages::{BitFault, Bits};
use imp_channel::{Content, Frame, Received};
use interface::{Answer, CarrierFault, Flow, Number, Text};
use link_table::{Age, Asked, Fate};
use packetiser::{Added, Outcome, Packet, PacketFault, PacketKind};
use std::alloc::AllocError;

impl Imp {
    /// Takes a frame that comes in at a port. Where the end is down, or has no room for the packet that the frame
    /// brings, the frame counts as lost and nothing changes. Else its acknowledgement bits free channels, its packet is
    /// taken if it is fresh, and is acknowledged, and distances are noted. It answers the frames to put on lines.
    ///
    /// Errors: `NoSuch` for a port that isn't there. `OutOfMemory` only where a frame is sent, and then the
    /// IMP is spent.
    #[tactic(auto, using(crate::proofs::Spending::from_line_spent))]
    #[inline]
    pub fn from_line(&mut self, port: u8, frame: Frame) -> Result<Vec<Outgoing>, CarrierFault>
        requires { self.old.spent ≡ false }
        ensures turn { Turned (arrivals.from_line_refusal self.old port) (from_line_grows self.old port frame) (λ frames. Takes (arrivals.from_line self.old port frame) self.new frames.items) self.old self.new result }
        ensures live { OnOk result (self.new.spent ≡ false) }
    {
        if port as usize >= self.ports.len() {
            return Err(CarrierFault::NoSuch);
        }
        let Ok(frames) = self.take_frame(port, frame) else {
            return Err(self.exhaust());
        };
        Ok(frames)
    }

    /// Takes a frame, unless it counts as lost.
    #[tactic(auto, using(crate::proofs::Arrivals::from_line_fresh))]
    fn take_frame(&mut self, port: u8, frame: Frame) -> Result<Vec<Outgoing>, AllocError>
        requires { port < length self.old.ports }
        ensures ok { IfOk result (λ frames. Takes (arrivals.from_line self.old port frame) self.new frames.items) }
        ensures memory { OnErr result (from_line_grows self.old port frame ≡ true) }
    {
        if !self.is_live(port) || self.is_lost(port, &frame) {
            return Ok(Vec::new(self.alloc));
        }
        match self.receive(port, frame) {
            Received::Fresh(packet) => {
                let frames = self.acknowledge(port)?;
                self.take_packet(packet, frames)
            }
            Received::Repeat => {
                let frames = self.acknowledge(port)?;
                self.pump(frames)
            }
            Received::AckOnly => self.pump_alone(),
            Received::Routes(vector) => {
                self.routes.hear(port, vector);
                self.pump_alone()
            }
        }
    }

    /// Returns whether a frame brings a fresh packet for which there is no room.
    fn is_lost(&self, port: u8, frame: &Frame) -> bool
        requires { port < length self.now.ports }
        ensures { result ≡ lost_by (answer_to (port_at self.now.ports port).line frame.now) self.now }
    {
        match &frame.content {
            Content::Packet(carried) => {
                self.ports[port as usize].line.is_fresh(frame)
                    && !self.arrival_has_room(carried.packet())
            }
            _ => false,
        }
    }

    /// Returns whether there is room for what a fresh packet calls for.
    fn arrival_has_room(&self, packet: &Packet) -> bool
        ensures { result ≡ arrival_has_room (arrival self.now packet.now) self.now packet.now }
    {
        if target(packet) != self.number() {
            return self.has_room_to(target(packet));
        }
        match packet.kind() {
            PacketKind::Data => self.data_has_room(packet),
            PacketKind::Ask => self.ask_has_room(packet),
            PacketKind::Rfnm | PacketKind::Dead | PacketKind::Never => true,
        }
    }

    /// Returns whether there is room for what a fresh piece for this IMP calls for.
    fn data_has_room(&self, packet: &Packet) -> bool
        requires { packet.now.kind ≡ kind.Data }
        ensures { result ≡ arrival_has_room (data_arrival self.now packet.now) self.now packet.now }
    {
        let flow = packet.flow();
        if self.kept.judge(&flow, packet.number()) == Age::Old {
            return true;
        }
        let Flow {
            source,
            destination,
            ..
        } = flow;
        if !self.is_up(destination.host()) {
            return self.has_room_to(source.imp());
        }
        match self.slots.outcome(packet) {
            Outcome::Kept | Outcome::Old => true,
            Outcome::Full => false,
            Outcome::Whole => !self.slots.is_marked(packet)
                || self.queue_has_room(destination.host()),
        }
    }

    /// Returns whether there is room for the answer to a fresh question for this IMP.
    fn ask_has_room(&self, packet: &Packet) -> bool
        ensures { result ≡ arrival_has_room (ask_arrival (asked_in (map.get self.now.kept (flow_of packet.now)) packet.now.number)) self.now packet.now }
    {
        let flow = packet.flow();
        let source = flow.source;
        match self.kept.asked(&flow, packet.number()) {
            Asked::Silent => true,
            Asked::Note | Asked::Rfnm | Asked::Dead | Asked::Never => {
                self.has_room_to(source.imp())
            }
        }
    }

    /// Lets the line's end at a port take a frame.
    pub(crate) fn receive(&mut self, port: u8, frame: Frame) -> Received
        requires { port < length self.old.ports }
        ensures state { self.new ≡ frame_taken port frame self.old }
        ensures answer { answer_to (port_at self.old.ports port).line frame ≡ Ok result }
    {
        self.ports[port as usize].line.receive(frame)
    }

    /// Returns the acknowledgement that goes back at once.
    #[inline(always)]
    fn acknowledge(&mut self, port: u8) -> Result<Vec<Outgoing>, AllocError>
        requires { port < length self.old.ports }
        ensures frames { IfOk result (λ frames. frames.items ≡ acknowledged port self.old) }
        ensures unchanged { self.new ≡ self.old }
    {
        let mut frames = self.spare.take(self.alloc);
        let frame = self.ports[port as usize].line.ack_frame();
        push_frame(&mut frames, port, frame)?;
        Ok(frames)
    }

    /// Takes a fresh packet, and pumps. The frames that are there go first.
    fn take_packet(
        &mut self,
        packet: Packet,
        frames: Vec<Outgoing>,
    ) -> Result<Vec<Outgoing>, AllocError>
        requires { has_place (arrival self.old packet) self.old packet ≡ true }
        ensures { IfOk result (λ out. Takes (pump frames.items (arrived (arrival self.old packet) packet self.old)) self.new out.items) }
    {
        if target(&packet) != self.number() {
            return self.pass_on(packet, frames);
        }
        self.arrive(packet)?;
        self.pump(frames)
    }

    /// Takes a fresh packet. A message that it makes whole has a place.
    fn arrive(&mut self, packet: Packet) -> Result<(), AllocError>
        requires { has_place (arrival self.old packet) self.old packet ≡ true }
        ensures { OnOk result (self.new ≡ arrived (arrival self.old packet) packet self.old) }
    {
        if target(&packet) != self.number() {
            return self.admit(packet);
        }
        match packet.kind() {
            PacketKind::Data => self.arrive_data(packet),
            PacketKind::Rfnm => self.free(Answer::Rfnm, packet.flow(), packet.number()),
            PacketKind::Dead => self.free(Answer::Dead, packet.flow(), packet.number()),
            PacketKind::Ask => self.arrive_ask(packet.flow(), packet.number()),
            PacketKind::Never => self.free(Answer::NotTaken, packet.flow(), packet.number()),
        }
    }

    /// Takes a fresh piece for this IMP.
    fn arrive_data(&mut self, packet: Packet) -> Result<(), AllocError>
        requires data { packet.kind ≡ kind.Data }
        requires format { IsPacket packet }
        requires place { has_place (data_arrival self.old packet) self.old packet ≡ true }
        ensures { OnOk result (self.new ≡ arrived (data_arrival self.old packet) packet self.old) }
    {
        let flow = packet.flow();
        let number = packet.number();
        if self.kept.judge(&flow, number) == Age::Old {
            return Ok(());
        }
        let destination = flow.destination;
        if !self.is_up(destination.host()) {
            return self.turn_away(flow, number, Fate::Dead, PacketKind::Dead);
        }
        self.reassemble(packet)
    }

    /// Handles a question about the message of this flow and number, for this IMP: the answer to it goes to the source.
    fn arrive_ask(&mut self, flow: Flow, number: Number) -> Result<(), AllocError>
        requires { IsPacketFlow flow }
        ensures { OnOk result (self.new ≡ asked_about (asked_in (map.get self.old.kept flow) number) flow number self.old) }
    {
        match self.kept.asked(&flow, number) {
            Asked::Note => self.turn_away(flow, number, Fate::Never, PacketKind::Never),
            Asked::Silent => Ok(()),
            Asked::Rfnm => self.tell_back(flow, number, PacketKind::Rfnm),
            Asked::Dead => self.tell_back(flow, number, PacketKind::Dead),
            Asked::Never => self.tell_back(flow, number, PacketKind::Never),
        }
    }

    /// Ends a new message before it is whole: its slot is cleared, its number is noted, and its source is notified.
    fn turn_away(
        &mut self,
        flow: Flow,
        number: Number,
        fate: Fate,
        told: PacketKind,
    ) -> Result<(), AllocError>
        requires flow { IsPacketFlow flow }
        requires answer { Carries told 0 true 0 }
        ensures { OnOk result (self.new ≡ turned_away fate told flow number self.old) }
    {
        self.slots.discard(flow);
        self.note(&flow, number, fate)?;
        self.tell_back(flow, number, told)
    }

    /// Sends a packet to a message's source that says what became of it.
    fn tell_back(&mut self, flow: Flow, number: Number, told: PacketKind) -> Result<(), AllocError>
        requires flow { IsPacketFlow flow }
        requires answer { Carries told 0 true 0 }
        ensures { OnOk result (self.new ≡ stored (flows.answer_packet told flow number) self.old) }
    {
        let answer = answer_packet(self.alloc, told, flow, number);
        self.admit(answer)
    }

    /// Adds a new piece for a host that is up to the reassembly.
    fn reassemble(&mut self, packet: Packet) -> Result<(), AllocError>
        requires data { packet.kind ≡ kind.Data }
        requires format { IsPacket packet }
        requires up { is_up self.old packet.destination.host ≡ true }
        requires place { has_place (piece_arrival (answer_of self.old.slots packet)) self.old packet ≡ true }
        ensures { OnOk result (self.new ≡ arrived (piece_arrival (answer_of self.old.slots packet)) packet self.old) }
    {
        let flow = packet.flow();
        let number = packet.number();
        match self.slots.add(self.alloc, packet) {
            Ok(Added::Whole(body)) => self.complete(flow, number, body),
            Ok(Added::Kept | Added::Old | Added::Full) => Ok(()),
            Err(PacketFault::OutOfMemory) => Err(AllocError),
            Err(PacketFault::Short | PacketFault::NotCanonical | PacketFault::BadLength) => {
                unreachable!()
            }
        }
    }

    /// Handles a whole body: its text waits for the host. A body without a mark has no text.
    fn complete(&mut self, flow: Flow, number: Number, body: Bits) -> Result<(), AllocError>
        requires flow { IsPacketFlow flow }
        requires size { IsBodySize (length body) }
        requires there { flow.destination.host < length self.old.hosts }
        requires place { has_mark body ≡ true → queue_has_room self.old flow.destination.host ≡ true }
        ensures { OnOk result (self.new ≡ completed flow number body self.old) }
    {
        match body.strip(self.alloc) {
            Ok(bits) => {
                let text = Text::new(bits).unwrap();
                self.note(&flow, number, Fate::Waits)?;
                self.enqueue(Message { flow, number, text });
                Ok(())
            }
            Err(BitFault::NoMark) => self.note(&flow, number, Fate::Never),
            Err(BitFault::OutOfMemory) => Err(AllocError),
            Err(BitFault::TooLong | BitFault::Range) => unreachable!(),
        }
    }
}
