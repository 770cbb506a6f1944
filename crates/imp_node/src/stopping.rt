//! Hosts go down and come up.

ghost use Rattle.std.specs.Prelude.{◌≡◌, ◌<◌, ◌++◌, ◌∷◌, [], true, false, length, None, IfOk, OnOk, OnErr};
ghost use Rattle.link_table.specs.Flows.{has_outstanding};
ghost use Rattle.imp_node.specs.State.{host_at, with_host};
ghost use Rattle.imp_node.specs.Stopping as stopping;
ghost use Rattle.imp_node.specs.Stopping.{all_handed, all_returned, message_returned, stopped};
ghost use Rattle.imp_node.specs.Turns.{Turned, Takes, host_down_grows, host_up_grows};
ghost use Rattle.imp_node.specs.Inside.Parts.{IsPacketFlow, AreOfPackets};

use crate::waiting::{Message, Told};
use crate::{Imp, Outgoing};
use circular_buffer::HeapCircularBuffer;
use interface::{Answer, CarrierFault, Flow, HostAddr, Number};
use link_table::{Fate, SourceFlows};
use packetiser::PacketKind;
use std::alloc::AllocError;
use std::collections::VecDeque;

impl Imp {
    /// Takes a host down. The answers that wait for it are cleared, so that their flows are idle. So are the messages:
    /// each gives its source Dead where there is room for that, one after another, and the host counts as down by then.
    /// It answers the frames to put on lines.
    ///
    /// Errors: `NoSuch` for a host that isn't there, `IsDown` where it is down. `OutOfMemory` only where a
    /// message waits for the host or a frame is sent, and then the IMP is spent.
    #[tactic(auto, using(crate::proofs::Spending::host_down_spent))]
    pub fn host_down(&mut self, host: u8) -> Result<Vec<Outgoing>, CarrierFault>
        requires { self.old.spent ≡ false }
        ensures turn { Turned (stopping.host_down_refusal self.old host) (host_down_grows self.old host) (λ frames. Takes (stopping.host_down self.old host) self.new frames.items) self.old self.new result }
        ensures live { OnOk result (self.new.spent ≡ false) }
    {
        if let Some(fault) = self.host_down_refusal(host) {
            return Err(fault);
        }
        let Ok(frames) = self.stop_host(host) else {
            return Err(self.exhaust());
        };
        Ok(frames)
    }

    /// Returns why a host may not go down.
    fn host_down_refusal(&self, host: u8) -> Option<CarrierFault>
        ensures { result ≡ stopping.host_down_refusal self.now host }
    {
        if !self.is_there(host) {
            Some(CarrierFault::NoSuch)
        } else if !self.is_up(host) {
            Some(CarrierFault::IsDown)
        } else {
            None
        }
    }

    /// Takes a host down, and pumps.
    #[tactic(auto, using(crate::proofs::Stops::cleared_is))]
    fn stop_host(&mut self, host: u8) -> Result<Vec<Outgoing>, AllocError>
        requires { host < length self.old.hosts }
        ensures ok { IfOk result (λ frames. Takes (stopping.host_down self.old host) self.new frames.items) }
        ensures memory { OnErr result (host_down_grows self.old host ≡ true) }
    {
        self.drop_answers(host);
        self.return_messages(host)?;
        self.pump_alone()
    }

    /// Takes a host down and clears its answers.
    fn drop_answers(&mut self, host: u8)
        requires { host < length self.old.hosts }
        ensures { self.new ≡ record (with_host self.old host (record (host_at self.old host) { up = false; answers = [] })) { sources = all_handed (host_at self.old host).answers self.old.sources } }
    {
        let answers = self.hosts[host as usize].stop(self.alloc);
        hand_all(&mut self.sources, answers);
    }

    /// Clears a host's messages: each gives its source Dead, where there is room for that.
    #[tactic(auto, using(crate::proofs::Stops::none_returned))]
    fn return_messages(&mut self, host: u8) -> Result<(), AllocError>
        requires { host < length self.old.hosts }
        ensures state { OnOk result (self.new ≡ all_returned (host_at self.old host).queue (with_host self.old host (record (host_at self.old host) { queue = [] }))) }
        ensures memory { OnErr result (0 < length (host_at self.old host).queue) }
    {
        if !self.hosts[host as usize].has_message() {
            return Ok(());
        }
        let queue = self.hosts[host as usize].take_queue(self.alloc)?;
        self.return_all(queue)
    }

    /// Treats each message that nobody will take as dead, and sends its source Dead if there is room for that.
    fn return_all(&mut self, mut queue: HeapCircularBuffer<Message>) -> Result<(), AllocError>
        requires { AreOfPackets queue.items }
        ensures state { OnOk result (self.new ≡ all_returned queue.items self.old) }
    {
        'messages: while let Some(message) = queue.pop_front() {
            self.return_one(message)?;
        }
        Ok(())
    }

    /// Treats a message that nobody will take as dead, and sends its source Dead if there is room for that.
    fn return_one(&mut self, message: Message) -> Result<(), AllocError>
        requires { IsPacketFlow message.flow }
        ensures { OnOk result (self.new ≡ message_returned message self.old) }
    {
        let Message { flow, number, .. } = message;
        self.end(&flow, number, Fate::Dead);
        if self.reply_has_room(&flow) {
            self.reply(Answer::Dead, PacketKind::Dead, &flow, number)?;
        }
        Ok(())
    }

    /// Brings a host up. It answers the frames to put on lines.
    ///
    /// Errors: `NoSuch` for a host that isn't there, `IsUp` where it is up, `Unsettled` while a message of it
    /// is outstanding. `OutOfMemory` only where a frame is sent, and then the IMP is spent.
    pub fn host_up(&mut self, host: u8) -> Result<Vec<Outgoing>, CarrierFault>
        requires { self.old.spent ≡ false }
        ensures turn { Turned (stopping.host_up_refusal self.old host) (host_up_grows self.old host) (λ frames. Takes (stopping.host_up self.old host) self.new frames.items) self.old self.new result }
        ensures live { OnOk result (self.new.spent ≡ false) }
    {
        if let Some(fault) = self.host_up_refusal(host) {
            return Err(fault);
        }
        let Ok(frames) = self.start_host(host) else {
            return Err(self.exhaust());
        };
        Ok(frames)
    }

    /// Returns why a host may not come up.
    fn host_up_refusal(&self, host: u8) -> Option<CarrierFault>
        ensures { result ≡ stopping.host_up_refusal self.now host }
    {
        if !self.is_there(host) {
            Some(CarrierFault::NoSuch)
        } else if self.is_up(host) {
            Some(CarrierFault::IsUp)
        } else if self.has_outstanding(host) {
            Some(CarrierFault::Unsettled)
        } else {
            None
        }
    }

    /// Returns whether a message of a host is outstanding.
    fn has_outstanding(&self, host: u8) -> bool
        requires { host < length self.now.hosts }
        ensures { result ≡ has_outstanding (stopping.own_host self.now host) self.now.sources }
    {
        let address = HostAddr::new(host, self.routes.own()).unwrap();
        self.sources.has_outstanding(address)
    }

    /// Lets a host come up, and pumps.
    fn start_host(&mut self, host: u8) -> Result<Vec<Outgoing>, AllocError>
        requires { host < length self.old.hosts }
        ensures ok { IfOk result (λ frames. Takes (stopping.host_up self.old host) self.new frames.items) }
        ensures memory { OnErr result (host_up_grows self.old host ≡ true) }
    {
        self.hosts[host as usize].start();
        self.pump_alone()
    }
}

/// Makes the flows of answers that nobody will take idle.
fn hand_all(sources: &mut SourceFlows, mut answers: VecDeque<Told>)
    ensures { sources.new ≡ all_handed answers.items sources.old }
{
    'answers: while let Some(told) = answers.pop_front() {
        sources.handed(&told.flow);
    }
}
