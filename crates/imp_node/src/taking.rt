//! A host takes what waits for it.

ghost use Rattle.std.specs.Prelude.{◌≡◌, ◌<◌, ◌∷◌, true, false, length, drop, is_some, None, IfOk, OnOk, OnErr};
ghost use Rattle.link_table.specs.Flows.{handed};
ghost use Rattle.imp_node.specs.State.{host_at, with_host};
ghost use Rattle.imp_node.specs.Taking as taking;
ghost use Rattle.imp_node.specs.Turns.{Turned, Takes, to_host_grows, takes_message};

use crate::waiting::{Message, Told};
use crate::{Imp, Outgoing};
use interface::{Answer, CarrierFault, HostMessage, Inbound};
use link_table::Fate;
use packetiser::PacketKind;
use std::alloc::AllocError;

impl Imp {
    /// Gives a host the oldest answer that waits for it, else the oldest message, else nothing. With a message an RFNM
    /// goes to its source in the same step; without a live route that is dropped. It answers what the host gets, and
    /// the frames to put on lines.
    ///
    /// Errors: `NoSuch` for a host that isn't there, `IsDown` where it is down, `NoRoom` where the RFNM has no
    /// room in the store. `OutOfMemory` only where a message is taken or a frame is sent, and then the IMP is
    /// spent.
    #[tactic(auto, using(crate::proofs::Spending::to_host_spent))]
    pub fn to_host(&mut self, host: u8) -> Result<(Option<Inbound>, Vec<Outgoing>), CarrierFault>
        requires { self.old.spent ≡ false }
        ensures turn { Turned (taking.to_host_refusal self.old host) (to_host_grows self.old host) (λ given. (given.0 ≡ taking.next_for self.old host) × Takes (taking.to_host self.old host) self.new given.1.items) self.old self.new result }
        ensures live { OnOk result (self.new.spent ≡ false) }
    {
        if let Some(fault) = self.to_host_refusal(host) {
            return Err(fault);
        }
        let Ok(given) = self.give(host) else {
            return Err(self.exhaust());
        };
        Ok(given)
    }

    /// Returns whether a host gets something when it takes: nothing refuses it, and an answer or a message waits. This
    /// changes nothing, and takes no memory.
    pub fn gives(&self, host: u8) -> bool
        ensures { result ≡ taking.gives self.now host }
    {
        self.to_host_refusal(host).is_none() && self.has_waiting(host)
    }

    /// Returns whether an answer or a message waits for a host.
    fn has_waiting(&self, host: u8) -> bool
        ensures { result ≡ is_some (taking.next_for self.now host) }
    {
        self.is_there(host) && self.hosts[host as usize].has_waiting()
    }

    /// Returns why a host may not take.
    fn to_host_refusal(&self, host: u8) -> Option<CarrierFault>
        ensures { result ≡ taking.to_host_refusal self.now host }
    {
        if !self.is_there(host) {
            Some(CarrierFault::NoSuch)
        } else if !self.is_up(host) {
            Some(CarrierFault::IsDown)
        } else if !self.taking_has_room(host) {
            Some(CarrierFault::NoRoom)
        } else {
            None
        }
    }

    /// Returns whether there is room for the RFNM of the message that a host would take.
    #[tactic(auto, using(crate::proofs::Takings::room_of_answer, crate::proofs::Takings::room_of_message, crate::proofs::Takings::room_of_none))]
    fn taking_has_room(&self, host: u8) -> bool
        requires { host < length self.now.hosts }
        ensures { result ≡ taking.taking_has_room (host_at self.now host).answers (host_at self.now host).queue self.now }
    {
        let waiting = &self.hosts[host as usize];
        if waiting.has_answer() {
            return true;
        }
        match waiting.next_flow() {
            Some(flow) => self.reply_has_room(&flow),
            None => true,
        }
    }

    /// Gives a host what waits for it, and pumps.
    fn give(&mut self, host: u8) -> Result<(Option<Inbound>, Vec<Outgoing>), AllocError>
        requires { host < length self.old.hosts }
        ensures given { IfOk result (λ given. given.0 ≡ taking.next_for self.old host) }
        ensures state { IfOk result (λ given. Takes (taking.to_host self.old host) self.new given.1.items) }
        ensures memory { OnErr result (to_host_grows self.old host ≡ true) }
    {
        let given = self.take_next(host)?;
        let frames = self.pump_alone()?;
        Ok((given, frames))
    }

    /// Gives a host what waits for it.
    fn take_next(&mut self, host: u8) -> Result<Option<Inbound>, AllocError>
        requires { host < length self.old.hosts }
        ensures given { IfOk result (λ given. given ≡ taking.next_for self.old host) }
        ensures state { OnOk result (self.new ≡ taking.taken_by host (host_at self.old host).answers (host_at self.old host).queue self.old) }
        ensures memory { OnErr result (takes_message (host_at self.old host).answers (host_at self.old host).queue ≡ true) }
    {
        if self.hosts[host as usize].has_answer() {
            let Told { kind, flow } = self.take_answer(host);
            return Ok(Some(Inbound::Answer(kind, flow)));
        }
        if !self.hosts[host as usize].has_message() {
            return Ok(None);
        }
        let Message { flow, number, text } = self.hosts[host as usize].take_message();
        self.end(&flow, number, Fate::Taken);
        self.reply(Answer::Rfnm, PacketKind::Rfnm, &flow, number)?;
        Ok(Some(Inbound::Message(HostMessage { flow, text })))
    }

    /// Gives a host the oldest answer, by which its flow becomes idle.
    fn take_answer(&mut self, host: u8) -> Told
        requires there { host < length self.old.hosts }
        requires waits { 0 < length (host_at self.old host).answers }
        ensures first { (host_at self.old host).answers ≡ result ∷ drop 1 (host_at self.old host).answers }
        ensures state { self.new ≡ record (with_host self.old host (record (host_at self.old host) { answers = drop 1 (host_at self.old host).answers })) { sources = handed self.old.sources result.flow } }
    {
        let told = self.hosts[host as usize].take_answer();
        self.sources.handed(&told.flow);
        told
    }
}
