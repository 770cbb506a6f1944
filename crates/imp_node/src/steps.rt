//! The steps that calls of an IMP are made of.

ghost use Rattle.std.specs.Prelude.{◌≡◌, ◌<◌, ◌++◌, ◌∷◌, [], true, false, length, nat_lt, IfOk, OnOk, OnErr};
ghost use Rattle.packetiser.specs.PacketFields.{Carries};
ghost use Rattle.imp_node.specs.State as states;
ghost use Rattle.imp_node.specs.Room as room;
ghost use Rattle.imp_node.specs.Flows.{answer_packet, answer_queued, freed, noted, fated, message_queued};
ghost use Rattle.imp_node.specs.Pump as pumps;
ghost use Rattle.imp_node.specs.Taking.{replied, reply_has_room};
ghost use Rattle.imp_node.specs.Turns.{Takes, sends};
ghost use Rattle.imp_node.specs.Inside.Parts.{IsPacketFlow};
ghost use Rattle.interface.specs.declared.carrier.CarrierFault.TheVariants as fault;

use crate::pump::{pump, send, target};
use crate::waiting::{Message, Told};
use crate::{Imp, Outgoing};
use bit_messages::Bits;
use interface::{Answer, CarrierFault, Flow, Number};
use link_table::Fate;
use packetiser::{Packet, PacketKind};
use std::alloc::{AllocError, Global};

impl Imp {
    /// Ends every call: waiting packets go out. The frames of the call itself go first.
    #[tactic(auto, using(crate::proofs::RestingLemmas::pump_with))]
    #[inline]
    pub(crate) fn pump(&mut self, mut frames: Vec<Outgoing>) -> Result<Vec<Outgoing>, AllocError>
        ensures ok { IfOk result (λ out. Takes (pumps.pump frames.items self.old) self.new out.items) }
        ensures memory { OnErr result (sends (pumps.pump frames.items self.old) ≡ true) }
    {
        if !self.store.is_empty() {
            pump(&self.routes, &mut self.ports, &mut self.store, &mut frames)?;
        }
        Ok(frames)
    }

    /// Ends a call that answers no frames of its own. Where no packet waits, there is nothing to do.
    #[tactic(auto, using(crate::proofs::RestingLemmas::pump_rests))]
    pub(crate) fn pump_alone(&mut self) -> Result<Vec<Outgoing>, AllocError>
        ensures ok { IfOk result (λ out. Takes (pumps.pump [] self.old) self.new out.items) }
        ensures memory { OnErr result (sends (pumps.pump [] self.old) ≡ true) }
    {
        if self.store.is_empty() {
            return Ok(Vec::new(self.alloc));
        }
        let frames = self.spare.take(self.alloc);
        self.pump(frames)
    }

    /// Stores a packet for its route, and pumps. The frames that are there go first. Where no packet waits, it goes at
    /// once, and is stored only if its line has no free channel.
    #[tactic(auto, using(crate::proofs::Pumping::passed))]
    pub(crate) fn pass_on(
        &mut self,
        packet: Packet,
        mut frames: Vec<Outgoing>,
    ) -> Result<Vec<Outgoing>, AllocError>
        ensures { IfOk result (λ out. Takes (pumps.pump frames.items (pumps.stored packet self.old)) self.new out.items) }
    {
        let others_wait = !self.store.is_empty();
        if others_wait {
            self.admit(packet)?;
            return self.pump(frames);
        }
        if let Some(packet) = send(&self.routes, &mut self.ports, packet, &mut frames)? {
            self.store.push(packet)?;
        }
        Ok(frames)
    }

    /// Handles running out of memory: it is not to be used again.
    pub(crate) fn exhaust(&mut self) -> CarrierFault
        ensures state { self.new ≡ record self.old { spent = true } }
        ensures fault { result ≡ fault.OutOfMemory }
    {
        self.spent = true;
        CarrierFault::OutOfMemory
    }

    /// Queues an answer for the source of its flow. Where the source is down, the flow is idle at once.
    #[tactic(auto, using(crate::proofs::Reading::set_same))]
    pub(crate) fn tell(&mut self, kind: Answer, flow: Flow) -> Result<(), AllocError>
        ensures ok { OnOk result (self.new ≡ answer_queued kind flow self.old) }
        ensures memory { OnErr result (states.is_up self.old flow.source.host ≡ true) }
    {
        let source = flow.source;
        let host = source.host();
        if self.is_up(host) {
            self.hosts[host as usize].tell(Told { kind, flow })
        } else {
            self.sources.handed(&flow);
            Ok(())
        }
    }

    /// Applies an answer to the message of this number to its flow. With another number than the outstanding one it
    /// changes nothing.
    #[tactic(auto, using(crate::proofs::Reading::freed_with, crate::proofs::Reading::stale_with))]
    pub(crate) fn free(
        &mut self,
        kind: Answer,
        flow: Flow,
        number: Number,
    ) -> Result<(), AllocError>
        ensures { OnOk result (self.new ≡ freed kind flow number self.old) }
    {
        if self.sources.outstanding(&flow) != Some(number) {
            return Ok(());
        }
        let _ = self.sources.answer(&flow, number);
        self.tell(kind, flow)
    }

    /// Notes a number as the last of its flow, with the fate of its message.
    pub(crate) fn note(&mut self, flow: &Flow, number: Number, fate: Fate) -> Result<(), AllocError>
        ensures { OnOk result (self.new ≡ noted flow.now number fate self.old) }
    {
        self.kept.note(flow, number, fate)
    }

    /// Changes the fate of the message of this number, if the number is still its flow's last.
    pub(crate) fn end(&mut self, flow: &Flow, number: Number, fate: Fate)
        ensures { self.new ≡ fated flow.now number fate self.old }
    {
        self.kept.end(flow, number, fate);
    }

    /// Queues a whole message for its host, which is there and has room for it, after the others.
    pub(crate) fn enqueue(&mut self, message: Message)
        requires there { message.flow.destination.host < length self.old.hosts }
        requires room { room.queue_has_room self.old message.flow.destination.host ≡ true }
        requires flow { IsPacketFlow message.flow }
        ensures { self.new ≡ message_queued message self.old }
    {
        let host = message.flow.destination.host();
        self.hosts[host as usize].enqueue(message);
    }

    /// Stores a packet for its route after those that wait, or drops it if there is no live route.
    pub(crate) fn admit(&mut self, packet: Packet) -> Result<(), AllocError>
        ensures ok { OnOk result (self.new ≡ pumps.stored packet self.old) }
        ensures memory { OnErr result (room.has_route self.old (pumps.target packet) ≡ true) }
    {
        if self.has_route(target(&packet)) {
            self.store.push(packet)?;
        }
        Ok(())
    }

    /// Sends an answer to the source of a message that waited here: at once where the source is at this IMP, else as a
    /// packet.
    pub(crate) fn reply(
        &mut self,
        kind: Answer,
        packet: PacketKind,
        flow: &Flow,
        number: Number,
    ) -> Result<(), AllocError>
        requires flow { IsPacketFlow flow.now }
        requires answer { Carries packet 0 true 0 }
        ensures { OnOk result (self.new ≡ replied kind packet (record { flow = flow.now; number = number; text = [] }) self.old) }
    {
        let source = flow.source;
        if source.imp() == self.number() {
            self.free(kind, *flow, number)
        } else {
            let answer = answer_packet(self.alloc, packet, *flow, number);
            self.admit(answer)
        }
    }

    /// Returns whether there is room for such an answer to a message of this flow.
    pub(crate) fn reply_has_room(&self, flow: &Flow) -> bool
        ensures { result ≡ reply_has_room self.now (record { flow = flow.now; number = 0; text = [] }) }
    {
        let source = flow.source;
        source.imp() == self.number() || self.has_room_to(source.imp())
    }
}

/// Returns the packet that notifies a message's source of what became of it.
pub(crate) fn answer_packet(alloc: Global, kind: PacketKind, flow: Flow, number: Number) -> Packet
    requires flow { IsPacketFlow flow }
    requires answer { Carries kind 0 true 0 }
    ensures { result ≡ answer_packet kind flow number }
{
    Packet::new(kind, flow, number, 0, true, Bits::new(alloc))
}
