//! A host hands a message to its IMP.

ghost use Rattle.std.specs.Prelude.{◌≡◌, ◌<◌, ◌≤◌, ◌++◌, true, false, length, None, IfOk, OnOk};
ghost use Rattle.std.specs.FinMap as map;
ghost use Rattle.bit_messages.specs.Body.{body};
ghost use Rattle.link_table.specs.Flows.{is_idle_in};
ghost use Rattle.packetiser.specs.Pieces.{piece_count};
ghost use Rattle.imp_node.specs.Room.{queue_has_room};
ghost use Rattle.imp_node.specs.Flows.{next_number, with_begun};
ghost use Rattle.imp_node.specs.Offering as offering;
ghost use Rattle.imp_node.specs.Offering.{Here, Away};
ghost use Rattle.imp_node.specs.Turns.{Turned, Takes};
ghost use Rattle.imp_node.specs.Inside.Parts.{IsPacketFlow};

use crate::waiting::Message;
use crate::{Imp, Outgoing};
use bit_messages::BODY_UNIT;
use interface::{Answer, CarrierFault, Flow, HostMessage, Number, Text};
use link_table::{Fate, FlowFault};
use packetiser::cut;
use packetiser::format::PACKET_BITS;
use std::alloc::AllocError;

impl Imp {
    /// Takes a message that a host hands over. Where no live route leads to its destination's IMP, or the destination
    /// is a host of this IMP that is down or not there, no number is begun, and Dead waits for the source at once. A
    /// message to a host of this IMP waits for that host; any other is cut, and its packets wait for lines. It answers
    /// the frames to put on lines.
    ///
    /// Errors: `NoSuch` where the source isn't one of its hosts, `IsDown` where it is down, `Blocked` while a
    /// message of the flow is outstanding or an answer about it waits, `NoRoom` where the destination's queue
    /// holds sixteen messages or the store has no room for all packets. After `OutOfMemory` the IMP is spent.
    #[tactic(auto, using(crate::proofs::Spending::from_host_spent))]
    pub fn from_host(&mut self, message: HostMessage) -> Result<Vec<Outgoing>, CarrierFault>
        requires { self.old.spent ≡ false }
        ensures turn { Turned (offering.from_host_refusal self.old message) (offering.from_host_grows self.old message) (λ frames. Takes (offering.from_host self.old message) self.new frames.items) self.old self.new result }
        ensures live { OnOk result (self.new.spent ≡ false) }
    {
        if let Some(fault) = self.from_host_refusal(&message) {
            return Err(fault);
        }
        let Ok(frames) = self.offer(message) else {
            return Err(self.exhaust());
        };
        Ok(frames)
    }

    /// Returns whether `from_host` would begin a number for a message of this flow, if there were room for it. This
    /// takes no memory.
    pub fn begins(&self, flow: &Flow) -> bool
        ensures { result ≡ offering.begins self.now flow.now }
    {
        let source = flow.source;
        self.is_own(&source) && self.is_up(source.host()) && self.is_idle(flow) && self.goes(flow)
    }

    /// Returns whether a message of this flow goes somewhere.
    fn goes(&self, flow: &Flow) -> bool
        ensures { result ≡ offering.goes (offering.way_of self.now flow.now) }
    {
        let destination = flow.destination;
        if destination.imp() == self.number() {
            self.is_up(destination.host())
        } else {
            self.has_route(destination.imp())
        }
    }

    /// Returns why [`Imp::from_host`] would refuse a message, if it would. This takes no memory.
    pub fn from_host_refusal(&self, message: &HostMessage) -> Option<CarrierFault>
        ensures { result ≡ offering.from_host_refusal self.now message.now }
    {
        let source = message.flow.source;
        if !self.is_own(&source) {
            Some(CarrierFault::NoSuch)
        } else if !self.is_up(source.host()) {
            Some(CarrierFault::IsDown)
        } else if !self.is_idle(&message.flow) {
            Some(CarrierFault::Blocked)
        } else if !self.way_has_room(message) {
            Some(CarrierFault::NoRoom)
        } else {
            None
        }
    }

    /// Returns whether there is room for what a message calls for.
    fn way_has_room(&self, message: &HostMessage) -> bool
        ensures { result ≡ offering.way_has_room (offering.way_of self.now message.now.flow) self.now message.now }
    {
        let destination = message.flow.destination;
        if destination.imp() == self.number() {
            !self.is_up(destination.host()) || self.queue_has_room(destination.host())
        } else {
            !self.has_route(destination.imp()) || self.has_room(piece_count(&message.text))
        }
    }

    /// Takes a message that isn't refused, and pumps.
    fn offer(&mut self, message: HostMessage) -> Result<Vec<Outgoing>, AllocError>
        requires { offering.from_host_refusal self.old message ≡ None }
        ensures { IfOk result (λ frames. Takes (offering.from_host self.old message) self.new frames.items) }
    {
        self.place(message)?;
        self.pump_alone()
    }

    /// Takes a message that isn't refused.
    fn place(&mut self, message: HostMessage) -> Result<(), AllocError>
        requires { offering.from_host_refusal self.old message ≡ None }
        ensures { OnOk result (self.new ≡ offering.offered (offering.way_of self.old message.flow) message self.old) }
    {
        let HostMessage { flow, text } = message;
        let destination = flow.destination;
        if destination.imp() == self.number() {
            if self.is_up(destination.host()) {
                self.place_here(flow, text)
            } else {
                self.tell(Answer::Dead, flow)
            }
        } else if self.has_route(destination.imp()) {
            self.place_away(HostMessage { flow, text })
        } else {
            self.tell(Answer::Dead, flow)
        }
    }

    /// Queues a message for a host of this IMP.
    fn place_here(&mut self, flow: Flow, text: Text) -> Result<(), AllocError>
        requires flow { IsPacketFlow flow }
        requires there { flow.destination.host < length self.old.hosts }
        requires room { queue_has_room self.old flow.destination.host ≡ true }
        requires idle { is_idle_in (map.get self.old.sources flow) ≡ true }
        ensures { OnOk result (self.new ≡ offering.offered Here (record { flow = flow; text = text }) self.old) }
    {
        let number = self.begin(&flow)?;
        self.note(&flow, number, Fate::Waits)?;
        self.enqueue(Message { flow, number, text });
        Ok(())
    }

    /// Stores the packets of a message until lines are free.
    fn place_away(&mut self, message: HostMessage) -> Result<(), AllocError>
        requires flow { IsPacketFlow message.flow }
        requires idle { is_idle_in (map.get self.old.sources message.flow) ≡ true }
        ensures { OnOk result (self.new ≡ offering.offered Away message self.old) }
    {
        let number = self.begin(&message.flow)?;
        let Ok(mut packets) = cut(self.alloc, &message, number) else {
            return Err(AllocError);
        };
        self.store.append(&mut packets)
    }

    /// Begins a message of an idle flow, and gives its number.
    fn begin(&mut self, flow: &Flow) -> Result<Number, AllocError>
        requires { is_idle_in (map.get self.old.sources flow.now) ≡ true }
        ensures number { IfOk result (λ number. number ≡ next_number self.old flow.now) }
        ensures state { OnOk result (self.new ≡ with_begun flow.now self.old) }
    {
        match self.sources.begin(flow) {
            Ok(number) => Ok(number),
            Err(FlowFault::OutOfMemory) => Err(AllocError),
            Err(FlowFault::Blocked) => unreachable!(),
        }
    }
}

/// Returns how many packets a text is cut into.
fn piece_count(text: &Text) -> usize
    ensures count { result ≡ piece_count (body text.now) }
    ensures most { result ≤ 8 }
{
    let units = (text.bits().len() + 1).div_ceil(BODY_UNIT);
    (BODY_UNIT * units).div_ceil(PACKET_BITS)
}
