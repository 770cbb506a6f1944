//! The plainest carrier: mailboxes and nothing else.

ghost use Rattle.std.specs.Prelude.{◌≡◌, false, true, length, option_copied, slice_get};
ghost use Rattle.interface.specs.Host.{InOrder};
ghost use Rattle.leader1822.specs.Answered.{AllAnswered};
ghost use Rattle.leader1822.specs.Boxes as boxes;
ghost use Rattle.leader1822.specs.Boxes.{opening_boxes};

use crate::contents::Contents;
use interface::{
    Answer, Carrier, CarrierFault, Crossing, Flow, HostAddr, HostMessage, Inbound, NetEvent,
};
use std::alloc::Global;
use std::marker::Model;

/// A network without lines: what a host offers waits for its destination at once, and what became of it waits
/// for its source. Only what is given up, and what waits for a host that stops, is lost. The queues have no limit.
#[derive(Drop)]
pub struct PlainBoxes {
    contents: Contents,
}

impl Model for PlainBoxes {
    ghost use Rattle.std.specs.Coded.{codes};
    ghost use Rattle.leader1822.specs.Boxes.{Boxes};
    ghost use Rattle.leader1822.specs.Inside.Codes.{coded_queues, coded_answers};
    ghost use Rattle.leader1822.specs.Inside.Held.{IsKept};

    ghost Value = { Boxes };

    ghost coded = { Prim.hlevel (codes, coded_queues, coded_answers) };

    ghost view = { λ b. b.contents.boxes };

    ghost invariant = { λ b. IsKept b.contents };
}

impl PlainBoxes {
    /// Returns a network of these hosts, all up, with nothing in transit.
    pub fn new(alloc: Global, hosts: Vec<HostAddr>) -> PlainBoxes
        requires { InOrder hosts.items }
        ensures { result ≡ opening_boxes hosts.items }
    {
        PlainBoxes {
            contents: Contents::new(alloc, hosts),
        }
    }

    /// Returns the hosts that are down, in the order in which they went down.
    pub fn down(&self) -> &[HostAddr]
        ensures { result.now ≡ self.now.down }
    {
        self.contents.down()
    }

    /// Returns how many messages wait for a host.
    pub fn message_count(&self, host: &HostAddr) -> usize
        ensures { result ≡ length (boxes.for_host self.now.messages host.now) }
    {
        self.contents.messages().count(host)
    }

    /// Returns the message at a place of those that wait for a host, 0 being the oldest; `None` past the newest.
    pub fn message_at(&self, host: &HostAddr, place: usize) -> Option<&HostMessage>
        ensures { option_copied result ≡ slice_get (boxes.for_host self.now.messages host.now) place }
    {
        self.contents.messages().at(host, place)
    }

    /// Returns how many answers wait for a host.
    pub fn answer_count(&self, host: &HostAddr) -> usize
        ensures { result ≡ length (boxes.for_host self.now.answers host.now) }
    {
        self.contents.answers().count(host)
    }

    /// Returns the answer at a place of those that wait for a host, 0 being the oldest, with the flow that it is about;
    /// `None` past the newest.
    pub fn answer_at(&self, host: &HostAddr, place: usize) -> Option<(Answer, Flow)>
        ensures { result ≡ slice_get (boxes.for_host self.now.answers host.now) place }
    {
        self.contents.answers().at(host, place).copied()
    }

    /// Returns whether memory has lasted and nothing waits for any host. Then each message of a host that is up was
    /// answered.
    pub fn is_empty(&self) -> bool
        ensures running { result ≡ true → self.now.stopped ≡ false }
        ensures answered { result ≡ true → AllAnswered self.now }
    {
        !self.contents.has_stopped() && self.contents.is_empty()
    }
}

impl Carrier for PlainBoxes {
    ghost calls = { boxes.plain_calls };

    /// Queues the message for its destination, or Dead for the source at once if that host is down or doesn't exist.
    ///
    /// Errors: `NoSuch` where the source isn't a host of the network, `IsDown` where it is down,
    /// `Blocked` while a message of the flow, or an answer about it, waits.
    fn offer_out(&mut self, message: HostMessage) -> Result<(), CarrierFault> {
        if let Some(fault) = self.contents.offer_refusal(&message.flow) {
            return Err(fault);
        }
        let Ok(()) = self.contents.offer(message) else {
            return Err(self.contents.halt());
        };
        Ok(())
    }

    /// Gives the host the oldest answer that waits for it, else the oldest message, else `None`. With a message, RFNM
    /// waits for its source, if that is up.
    ///
    /// Errors: `NoSuch` where it isn't a host of the network, `IsDown` where it is down. It needs memory
    /// only where something waits.
    fn take_in(&mut self, host: HostAddr) -> Result<Option<Inbound>, CarrierFault> {
        if let Some(fault) = self.contents.host_refusal(&host) {
            return Err(fault);
        }
        let Ok(inbound) = self.contents.take(&host) else {
            return Err(self.contents.halt());
        };
        Ok(inbound)
    }

    /// Lets an event happen. What is given up leaves its queue, or its RFNM is withdrawn, and Incomplete waits for the
    /// source, if that is up. Of a host that goes down all that waits for it is cleared, and each message gives its source
    /// Dead, if that is up. A host that comes up takes and offers again.
    ///
    /// Errors: of giving up `NoSuch` where the source isn't a host of the network, `NotOutstanding` where neither a message
    /// of the flow nor its RFNM waits; of going down `NoSuch` and `IsDown`; of coming up `NoSuch`, `IsUp`, and `Unsettled`
    /// while a message of the host's own waits; of every other event `NoSuch`. Giving up needs memory only where the source is
    /// up and the RFNM doesn't wait; going down and coming up do always.
    fn step(&mut self, event: NetEvent) -> Result<(), CarrierFault> {
        if let Some(fault) = self.contents.step_refusal(&event) {
            return Err(fault);
        }
        let Ok(()) = self.contents.happen(event) else {
            return Err(self.contents.halt());
        };
        Ok(())
    }

    /// Changes nothing, since nothing is in transit here, and needs no memory.
    fn quiet_round(&mut self) -> Result<(), CarrierFault> {
        if self.contents.has_stopped() {
            return Err(CarrierFault::Stopped);
        }
        Ok(())
    }

    /// Returns `true` while nothing waits for any host but these, since nothing is in transit here. It is always known.
    fn rests_beside(&self, hosts: &[HostAddr]) -> bool {
        !self.contents.has_stopped() && self.contents.is_empty_beside(hosts)
    }

    fn log(&self) -> &[Crossing] {
        self.contents.log()
    }

    fn hosts(&self) -> &[HostAddr] {
        self.contents.hosts()
    }
}
