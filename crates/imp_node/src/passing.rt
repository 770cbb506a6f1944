//! Packets that an IMP passes on at once.

ghost use Rattle.std.specs.Prelude.{◌≡◌, ◌<◌, ◌∷◌, true, length, IfOk, OnOk, OnErr};
ghost use Rattle.std.specs.Option.{option_to_list};
ghost use Rattle.imp_channel.specs.Line.{answer_to, submitted};
ghost use Rattle.routing.specs.RouteTable.{next_of};
ghost use Rattle.imp_node.specs.Arrival.{from_line};
ghost use Rattle.imp_node.specs.Pump.{target, sent_on, packet_sent};
ghost use Rattle.imp_node.specs.Resting as resting;
ghost use Rattle.imp_node.specs.State.{port_at};
ghost use Rattle.imp_node.specs.Turns.{from_line_grows};

use crate::pump::target;
use crate::{Imp, Outgoing};
use imp_channel::{Content, Frame, Received, SubmitFault};
use packetiser::Packet;
use std::alloc::AllocError;

/// What is put on lines for a packet that an IMP passes on.
#[derive(Debug, Drop)]
pub struct Passed {
    /// The acknowledgement, for the line where the packet came in.
    pub ack: Frame,
    /// The packet's frame, for the line of its route. There is none where no route is live, or the packet waits for a channel.
    pub on: Option<Outgoing>,
}

impl Imp {
    /// Returns whether a frame brings a packet that wasn't given before, for another IMP, there is room for it, and no packet waits in
    /// the store. Nothing changes, and this takes no memory.
    pub fn passes(&self, port: u8, frame: &Frame) -> bool
        ensures answer { result ≡ resting.passes self.now port frame.now }
        ensures there { result ≡ true → port < length self.now.ports }
    {
        self.is_live(port) && self.store().is_empty() && self.can_pass(port, frame)
    }

    /// Returns whether a frame brings a packet that wasn't given before, for another IMP, and there is room for it.
    fn can_pass(&self, port: u8, frame: &Frame) -> bool
        requires { port < length self.now.ports }
        ensures { result ≡ resting.brings_passing (answer_to (port_at self.now.ports port).line frame.now) self.now }
    {
        match &frame.content {
            Content::Packet(carried) => {
                let to = target(carried.packet());
                self.ports[port as usize].line.is_fresh(frame)
                    && to != self.number()
                    && self.has_room_to(to)
            }
            _ => false,
        }
    }

    /// Takes a frame of which [`Imp::passes`] says that its packet is passed on. It answers what is put on lines.
    ///
    /// Measured: without it, messages over a chain of eight IMPs take some 5 % more instructions.
    ///
    /// Errors: memory runs out, and nothing else. No further call may be made then.
    #[tactic(auto, using(crate::proofs::PassingOn::passed_on, crate::proofs::PassingOn::passing_grows, crate::proofs::PassingOn::none_waits, crate::proofs::PassingOn::no_repeat, crate::proofs::PassingOn::no_acks, crate::proofs::PassingOn::no_routes))]
    pub fn pass(&mut self, port: u8, frame: Frame) -> Result<Passed, AllocError>
        requires there { port < length self.old.ports }
        requires passes { resting.passes self.old port frame ≡ true }
        ensures taken { IfOk result (λ passed. from_line self.old port frame ≡ record { state = self.new; frames = record { port = port; frame = passed.ack } ∷ option_to_list passed.on }) }
        ensures memory { OnErr result (from_line_grows self.old port frame ≡ true) }
        ensures live { OnOk result (self.new.spent ≡ self.old.spent) }
    {
        match self.receive(port, frame) {
            Received::Fresh(packet) => {
                let ack = self.ack_at(port);
                let on = self.forward(packet)?;
                Ok(Passed { ack, on })
            }
            Received::Repeat => unreachable!(),
            Received::AckOnly => unreachable!(),
            Received::Routes(_) => unreachable!(),
        }
    }

    /// Sends a packet on its route's line at once, where none waits before it. It waits without a free channel, and is dropped without
    /// a live route.
    #[tactic(auto, using(crate::proofs::Pumping::no_packets))]
    fn forward(&mut self, packet: Packet) -> Result<Option<Outgoing>, AllocError>
        requires none { length self.old.store ≡ 0 }
        ensures frames { IfOk result (λ on. option_to_list on ≡ (packet_sent self.old.ports packet (next_of self.old.routes (target packet))).frames) }
        ensures state { OnOk result (self.new ≡ record self.old { ports = (packet_sent self.old.ports packet (next_of self.old.routes (target packet))).ports; store = (packet_sent self.old.ports packet (next_of self.old.routes (target packet))).waits }) }
    {
        match self.routes.next(target(&packet)) {
            Some(at) => self.forward_at(at, packet),
            None => Ok(None),
        }
    }

    /// Sends a packet on the line of a port at once, where none waits before it. Without a free channel it waits.
    #[tactic(auto, using(crate::proofs::Pumping::no_packets))]
    fn forward_at(&mut self, at: usize, packet: Packet) -> Result<Option<Outgoing>, AllocError>
        requires none { length self.old.store ≡ 0 }
        requires there { at < length self.old.ports }
        ensures frames { IfOk result (λ on. option_to_list on ≡ (sent_on self.old.ports at packet (submitted (port_at self.old.ports at).line packet)).frames) }
        ensures state { OnOk result (self.new ≡ record self.old { ports = (sent_on self.old.ports at packet (submitted (port_at self.old.ports at).line packet)).ports; store = (sent_on self.old.ports at packet (submitted (port_at self.old.ports at).line packet)).waits }) }
    {
        match self.ports[at].line.submit(packet) {
            Ok(frame) => {
                let port = at as u8;
                Ok(Some(Outgoing { port, frame }))
            }
            Err(SubmitFault::AllBusy(packet)) => {
                self.store.push(packet)?;
                Ok(None)
            }
            Err(SubmitFault::OutOfMemory(_)) => Err(AllocError),
        }
    }
}
