//! What plain boxes hold, and the steps that their calls are made of.

ghost use Rattle.std.specs.Prelude.{◌≡◌, ◌++◌, [], ◌∷◌, not, true, false, reverse, OnOk, OnErr, IfOk, IsSome, None, filter, length};
ghost use Rattle.std.specs.FinMap as map;
ghost use Rattle.std.specs.List.{list_all};
ghost use Rattle.interface.specs.Host.{Host, is_host, same_host};
ghost use Rattle.leader1822.specs.Boxes as boxes;
ghost use Rattle.leader1822.specs.Boxes.{queued_if, told_dead};
ghost use Rattle.leader1822.specs.Inside.Held.{IsIndexed, IsKept, is_message, is_unanswered, put, answer_if, cleared, flows_dead, held_admitted, held_offered, held_taken, held_given_up, held_stopped};
ghost use Rattle.leader1822.specs.Inside.Held.{held_started, with_answer, with_answer_for_running, with_dead, with_message};
ghost use Rattle.leader1822.specs.Inside.Held.{without_answers, without_first_answer, without_first_message, without_message, without_rfnm};
ghost use Rattle.leader1822.specs.Inside.Named.{IsNamed};
ghost use Rattle.leader1822.specs.Inside.Quiet.{AreEmptyBeside, has_none_beside};
ghost use Rattle.leader1822.specs.Inside.Shown.{waiting_in};
ghost use Rattle.leader1822.specs.Inside.Soundness.{KeepsLog};
ghost use Rattle.interface.specs.declared.carrier.CarrierFault.TheVariants.{OutOfMemory};
ghost use Rattle.interface.specs.declared.crossing.Answer.TheVariants as answer;
ghost use Rattle.interface.specs.declared.crossing.Crossing.TheVariants as crossing;
ghost use Rattle.interface.specs.declared.crossing.Inbound.TheVariants as inbound;
ghost use Rattle.leader1822.specs.declared.flows.Pending.TheVariants as pending;

use crate::flows::{Flows, Pending};
use crate::queues::Queues;
use interface::{
    Answer, CarrierFault, Crossing, Flow, HostAddr, HostMessage, Hosts, Inbound, NetEvent,
};
use std::alloc::{AllocError, Global};
use std::collections::VecDeque;
use std::marker::Model;

/// The hosts, those of them that are down, the messages and the answers that wait for each, what waits of
/// each flow, and the log.
///
/// Any such value is allowed here. What holds of those that plain boxes come to, [`crate::PlainBoxes`]
/// keeps.
#[derive(Drop)]
pub(crate) struct Contents {
    hosts: Hosts,
    down: Vec<HostAddr>,
    messages: Queues<HostMessage>,
    answers: Queues<(Answer, Flow)>,
    flows: Flows,
    log: Vec<Crossing>,
    stopped: bool,
}

impl Model for Contents {
    ghost use Rattle.std.specs.Prelude.{reverse};
    ghost use Rattle.std.specs.Coded.{codes};
    ghost use Rattle.leader1822.specs.Inside.Held.{Held};
    ghost use Rattle.leader1822.specs.Inside.Codes.{coded_answers, coded_flows, coded_queues};

    ghost Value = { Held };

    ghost coded = { Prim.hlevel (codes, coded_queues, coded_answers, coded_flows) };

    ghost view = { λ b. record { boxes = record { hosts = b.hosts; down = b.down.items; messages = b.messages; answers = b.answers; log = reverse b.log.items; stopped = b.stopped }; flows = b.flows } };
}

impl Contents {
    /// Returns these hosts, all up, with nothing in transit.
    pub(crate) fn new(alloc: Global, hosts: Vec<HostAddr>) -> Contents
        ensures { result ≡ record { boxes = boxes.opening_boxes hosts.items; flows = map.empty } }
    {
        Contents {
            hosts: Hosts::new(hosts),
            down: Vec::new(alloc),
            messages: Queues::new(alloc),
            answers: Queues::new(alloc),
            flows: Flows::new(alloc),
            log: Vec::new(alloc),
            stopped: false,
        }
    }

    // ---- looking

    /// Returns the hosts of the network, in order.
    pub(crate) fn hosts(&self) -> &[HostAddr]
        ensures { result.now ≡ self.now.boxes.hosts }
    {
        self.hosts.all()
    }

    /// Returns the log, oldest first.
    pub(crate) fn log(&self) -> &[Crossing]
        ensures { result.now ≡ reverse self.now.boxes.log }
    {
        &self.log
    }

    /// Returns the hosts that are down, in the order in which they went down.
    pub(crate) fn down(&self) -> &[HostAddr]
        ensures { result.now ≡ self.now.boxes.down }
    {
        &self.down
    }

    /// Returns the messages that wait for each host.
    pub(crate) fn messages(&self) -> &Queues<HostMessage>
        ensures { result.now ≡ self.now.boxes.messages }
    {
        &self.messages
    }

    /// Returns the answers that wait for each host.
    pub(crate) fn answers(&self) -> &Queues<(Answer, Flow)>
        ensures { result.now ≡ self.now.boxes.answers }
    {
        &self.answers
    }

    /// Returns whether running out of memory has stopped them.
    pub(crate) fn has_stopped(&self) -> bool
        ensures { result ≡ self.now.boxes.stopped }
    {
        self.stopped
    }

    /// Returns whether this is a host of the network.
    fn is_there(&self, host: &HostAddr) -> bool
        ensures { result ≡ is_host self.now.boxes.hosts host.now }
    {
        self.hosts.contains(host)
    }

    /// Returns whether this host is down.
    fn is_down(&self, host: &HostAddr) -> bool
        ensures { result ≡ is_host self.now.boxes.down host.now }
    {
        self.down.contains(host)
    }

    /// Returns whether this is a host of the network that isn't down.
    fn is_running(&self, host: &HostAddr) -> bool
        ensures { result ≡ boxes.is_running self.now.boxes.hosts self.now.boxes.down host.now }
    {
        self.is_there(host) && !self.is_down(host)
    }

    /// Returns whether a message of the flow waits.
    fn has_message(&self, flow: &Flow) -> bool
        ensures { result ≡ is_message (map.get self.now.flows flow.now) }
    {
        matches!(self.flows.get(flow), Some(Pending::Message))
    }

    /// Returns whether a message of the flow, or an answer about it, waits.
    fn is_busy(&self, flow: &Flow) -> bool
        requires { IsIndexed self.now }
        ensures { result ≡ boxes.is_busy self.now.boxes flow.now }
    {
        self.flows.get(flow).is_some()
    }

    /// Returns whether a message of the flow, or an RFNM about it, waits.
    fn is_outstanding(&self, flow: &Flow) -> bool
        requires kept { IsKept self.now }
        requires running { self.now.boxes.stopped ≡ false }
        ensures { result ≡ boxes.is_outstanding self.now.boxes flow.now }
    {
        is_unanswered(self.flows.get(flow))
    }

    /// Returns whether a message from a host that is down waits.
    fn is_unsettled(&self, host: &HostAddr) -> bool
        requires kept { IsKept self.now }
        requires running { self.now.boxes.stopped ≡ false }
        requires down { is_host self.now.boxes.down host.now ≡ true }
        ensures { result ≡ boxes.is_unsettled self.now.boxes host.now }
    {
        self.flows.has_from(*host)
    }

    /// Returns whether nothing waits for any host.
    pub(crate) fn is_empty(&self) -> bool
        requires kept { IsKept self.now }
        requires running { self.now.boxes.stopped ≡ false }
        ensures { result ≡ true → (h : Host) → boxes.next_for self.now.boxes h ≡ None }
    {
        self.flows.is_empty()
    }

    /// Returns whether nothing waits for any host of the network but these.
    #[tactic(auto, using(crate::proofs::Resting::empty_beside, crate::proofs::Resting::all_beside))]
    pub(crate) fn is_empty_beside(&self, hosts: &[HostAddr]) -> bool
        requires kept { IsKept self.now }
        requires running { self.now.boxes.stopped ≡ false }
        ensures { result ≡ true → AreEmptyBeside self.now.boxes hosts.now }
    {
        self.is_empty() || self.all_have_none_beside(self.hosts(), hosts)
    }

    /// Returns whether nothing waits for any of `all` but for such as are among these hosts.
    fn all_have_none_beside(&self, all: &[HostAddr], hosts: &[HostAddr]) -> bool
        ensures { result ≡ list_all (has_none_beside self.now.boxes hosts.now) all.now }
    {
        all.iter().all(|host| self.has_none_beside(host, hosts))
    }

    /// Returns whether nothing waits for a host, or it is one of these.
    fn has_none_beside(&self, host: &HostAddr, hosts: &[HostAddr]) -> bool
        ensures { result ≡ has_none_beside self.now.boxes hosts.now host.now }
    {
        (self.messages.count(host) == 0 && self.answers.count(host) == 0) || hosts.contains(host)
    }

    // ---- refusing

    /// Returns why a message of this flow may not be offered.
    pub(crate) fn offer_refusal(&self, flow: &Flow) -> Option<CarrierFault>
        requires { IsKept self.now }
        ensures { result ≡ boxes.offer_refusal self.now.boxes flow.now }
    {
        if self.stopped {
            Some(CarrierFault::Stopped)
        } else if !self.is_there(&flow.source) {
            Some(CarrierFault::NoSuch)
        } else if self.is_down(&flow.source) {
            Some(CarrierFault::IsDown)
        } else if self.is_busy(flow) {
            Some(CarrierFault::Blocked)
        } else {
            None
        }
    }

    /// Returns why this host may not take, or may not go down.
    pub(crate) fn host_refusal(&self, host: &HostAddr) -> Option<CarrierFault>
        ensures { result ≡ boxes.host_refusal self.now.boxes host.now }
    {
        if self.stopped {
            Some(CarrierFault::Stopped)
        } else if !self.is_there(host) {
            Some(CarrierFault::NoSuch)
        } else if self.is_down(host) {
            Some(CarrierFault::IsDown)
        } else {
            None
        }
    }

    /// Returns why the message of this flow may not be given up.
    pub(crate) fn give_up_refusal(&self, flow: &Flow) -> Option<CarrierFault>
        requires { IsKept self.now }
        ensures { result ≡ boxes.give_up_refusal self.now.boxes flow.now }
    {
        if self.stopped {
            Some(CarrierFault::Stopped)
        } else if !self.is_there(&flow.source) {
            Some(CarrierFault::NoSuch)
        } else if !self.is_outstanding(flow) {
            Some(CarrierFault::NotOutstanding)
        } else {
            None
        }
    }

    /// Returns why this host may not come up.
    pub(crate) fn host_up_refusal(&self, host: &HostAddr) -> Option<CarrierFault>
        requires { IsKept self.now }
        ensures { result ≡ boxes.host_up_refusal self.now.boxes host.now }
    {
        if self.stopped {
            Some(CarrierFault::Stopped)
        } else if !self.is_there(host) {
            Some(CarrierFault::NoSuch)
        } else if !self.is_down(host) {
            Some(CarrierFault::IsUp)
        } else if self.is_unsettled(host) {
            Some(CarrierFault::Unsettled)
        } else {
            None
        }
    }

    /// Returns why this event may not happen.
    pub(crate) fn step_refusal(&self, event: &NetEvent) -> Option<CarrierFault>
        requires { IsKept self.now }
        ensures { result ≡ boxes.step_refusal self.now.boxes event.now }
    {
        match event {
            NetEvent::GiveUp(flow) => self.give_up_refusal(flow),
            NetEvent::HostDown(host) => self.host_refusal(host),
            NetEvent::HostUp(host) => self.host_up_refusal(host),
            _ if self.stopped => Some(CarrierFault::Stopped),
            _ => Some(CarrierFault::NoSuch),
        }
    }

    // ---- changing

    /// Puts a crossing on the log.
    fn cross(&mut self, crossing: Crossing) -> Result<(), AllocError>
        ensures ok { OnOk result (self.new ≡ record self.old { boxes = record self.old.boxes { log = crossing ∷ self.old.boxes.log } }) }
        ensures err { OnErr result (self.new ≡ self.old) }
    {
        self.log.push(crossing)?;
        Ok(())
    }

    /// Puts a message after those that wait for its destination.
    fn enqueue(&mut self, message: HostMessage) -> Result<(), AllocError>
        ensures ok { OnOk result (self.new ≡ with_message self.old message) }
        ensures err { OnErr result (KeepsLog self.old.boxes self.new.boxes) }
    {
        let flow = message.flow;
        let destination = flow.destination;
        self.flows.set(flow, Pending::Message)?;
        self.messages.push(destination, message)
    }

    /// Puts an answer after those that wait for the source of its flow.
    fn answer(&mut self, kind: Answer, flow: &Flow) -> Result<(), AllocError>
        ensures ok { OnOk result (self.new ≡ with_answer self.old kind flow.now) }
        ensures err { OnErr result (KeepsLog self.old.boxes self.new.boxes) }
    {
        self.flows.set(*flow, Pending::Answer(kind))?;
        self.answers.push_answer(kind, flow)
    }

    /// Tells the source of a flow this answer in place of whatever waits of the flow, if the source is up.
    fn tell(&mut self, kind: Answer, flow: &Flow) -> Result<(), AllocError>
        ensures ok { OnOk result (self.new ≡ with_answer_for_running self.old kind flow.now) }
        ensures err { OnErr result (KeepsLog self.old.boxes self.new.boxes) }
    {
        if self.is_running(&flow.source) {
            return self.answer(kind, flow);
        }
        self.flows.remove(flow);
        Ok(())
    }

    /// Stops them, since memory has run out.
    pub(crate) fn halt(&mut self) -> CarrierFault
        ensures state { self.new ≡ record self.old { boxes = record self.old.boxes { stopped = true } } }
        ensures fault { result ≡ OutOfMemory }
    {
        self.stopped = true;
        CarrierFault::OutOfMemory
    }

    /// Queues a message for its destination, or Dead for the source if that host is down or doesn't exist.
    fn admit(&mut self, message: HostMessage) -> Result<(), AllocError>
        ensures ok { OnOk result (self.new ≡ held_admitted self.old message) }
        ensures err { OnErr result (KeepsLog self.old.boxes self.new.boxes) }
    {
        if self.is_running(&message.flow.destination) {
            self.enqueue(message)
        } else {
            self.answer(Answer::Dead, &message.flow)
        }
    }

    /// Lets a message go out.
    pub(crate) fn offer(&mut self, message: HostMessage) -> Result<(), AllocError>
        ensures ok { OnOk result (self.new ≡ held_offered self.old message) }
        ensures err { OnErr result (KeepsLog self.old.boxes self.new.boxes) }
        ensures named { IsNamed message.flow }
    {
        let copy = message.clone()?;
        self.admit(message)?;
        self.cross(Crossing::Out(copy))
    }

    /// Takes the oldest answer that waits for the host.
    fn take_answer(&mut self, host: &HostAddr) -> Option<(Answer, Flow)>
        ensures found { result ≡ boxes.first_of_list (boxes.for_host self.old.boxes.answers host.now) }
        ensures left { self.new ≡ record self.old { boxes = without_first_answer self.old.boxes host.now } }
        ensures unchanged { result ≡ None → self.new ≡ self.old }
    {
        self.answers.pop(host)
    }

    /// Takes the oldest message that waits for the host.
    fn take_message(&mut self, host: &HostAddr) -> Option<HostMessage>
        ensures found { result ≡ boxes.first_of_list (boxes.for_host self.old.boxes.messages host.now) }
        ensures left { self.new ≡ record self.old { boxes = without_first_message self.old.boxes host.now } }
        ensures unchanged { result ≡ None → self.new ≡ self.old }
    {
        self.messages.pop(host)
    }

    /// Puts an answer that comes in on the log, and gives it.
    fn cross_answer(&mut self, kind: Answer, flow: &Flow) -> Result<Inbound, AllocError>
        ensures inbound { IfOk result (λ i. i ≡ inbound.Answer kind flow.now) }
        ensures ok { OnOk result (self.new ≡ record self.old { boxes = record self.old.boxes { log = crossing.Answer kind flow.now ∷ self.old.boxes.log } }) }
        ensures err { OnErr result (self.new ≡ self.old) }
    {
        self.cross(Crossing::Answer(kind, *flow))?;
        Ok(Inbound::Answer(kind, *flow))
    }

    /// Puts a message that comes in on the log, and gives it.
    fn cross_in(&mut self, message: HostMessage) -> Result<Inbound, AllocError>
        ensures inbound { IfOk result (λ i. i ≡ inbound.Message message) }
        ensures ok { OnOk result (self.new ≡ record self.old { boxes = record self.old.boxes { log = crossing.In message ∷ self.old.boxes.log } }) }
        ensures err { OnErr result (self.new ≡ self.old) }
    {
        let copy = message.clone()?;
        self.cross(Crossing::In(copy))?;
        Ok(Inbound::Message(message))
    }

    /// Makes a flow idle.
    fn forget(&mut self, flow: &Flow)
        ensures { self.new ≡ record self.old { flows = map.remove self.old.flows flow.now } }
    {
        self.flows.remove(flow);
    }

    /// Gives a host the oldest answer that waits for it, else the oldest message.
    pub(crate) fn take(&mut self, host: &HostAddr) -> Result<Option<Inbound>, AllocError>
        ensures next { IfOk result (λ o. o ≡ boxes.next_for self.old.boxes host.now) }
        ensures ok { OnOk result (self.new ≡ held_taken self.old host.now (boxes.next_for self.old.boxes host.now)) }
        ensures grows { OnErr result (boxes.take_grows self.old.boxes host.now ≡ true) }
        ensures err { OnErr result (KeepsLog self.old.boxes self.new.boxes) }
    {
        if let Some((kind, flow)) = self.take_answer(host) {
            self.forget(&flow);
            let inbound = self.cross_answer(kind, &flow)?;
            return Ok(Some(inbound));
        }
        let Some(message) = self.take_message(host) else {
            return Ok(None);
        };
        self.tell(Answer::Rfnm, &message.flow)?;
        let arrived = self.cross_in(message)?;
        Ok(Some(arrived))
    }

    /// Gives up the outstanding message of a flow: it and its RFNM go, and Incomplete waits for the
    /// source, if that is up.
    pub(crate) fn give_up(&mut self, flow: Flow) -> Result<(), AllocError>
        requires kept { IsKept self.old }
        requires outstanding { boxes.give_up_refusal self.old.boxes flow ≡ None }
        ensures ok { OnOk result (self.new ≡ held_given_up self.old flow) }
        ensures grows { OnErr result (boxes.give_up_grows self.old.boxes flow ≡ true) }
        ensures err { OnErr result (KeepsLog self.old.boxes self.new.boxes) }
    {
        if self.has_message(&flow) {
            return self.give_up_message(flow);
        }
        self.give_up_rfnm(flow);
        Ok(())
    }

    /// Gives up a message that waits.
    fn give_up_message(&mut self, flow: Flow) -> Result<(), AllocError>
        requires { length (filter (boxes.is_of flow) (boxes.for_host self.old.boxes.messages flow.destination)) ≡ 1 }
        ensures ok { OnOk result (self.new ≡ without_message self.old flow) }
        ensures grows { OnErr result (is_host self.old.boxes.down flow.source ≡ false) }
        ensures err { OnErr result (KeepsLog self.old.boxes self.new.boxes) }
    {
        self.messages.remove_message(&flow);
        if self.is_down(&flow.source) {
            self.answers.stays(&flow.source);
            self.flows.remove(&flow);
            return Ok(());
        }
        self.answer(Answer::Incomplete, &flow)
    }

    /// Withdraws the RFNM of a flow, and queues Incomplete in its place, after the other answers.
    fn give_up_rfnm(&mut self, flow: Flow)
        requires one { length (filter (boxes.is_rfnm_about flow) (boxes.for_host self.old.boxes.answers flow.source)) ≡ 1 }
        requires known { IsSome (map.get self.old.flows flow) }
        ensures { self.new ≡ without_rfnm self.old flow }
    {
        self.messages.stays(&flow.destination);
        self.answers.replace_rfnm(&flow);
        self.flows
            .replace(flow, Pending::Answer(Answer::Incomplete));
    }

    /// Puts a host among those that are down.
    fn take_down(&mut self, host: HostAddr) -> Result<(), AllocError>
        ensures ok { OnOk result (self.new ≡ record self.old { boxes = record self.old.boxes { down = self.old.boxes.down ++ host ∷ [] } }) }
        ensures err { OnErr result (self.new ≡ self.old) }
    {
        self.down.push(host)?;
        Ok(())
    }

    /// Clears the answers that wait for a host.
    fn drop_answers(&mut self, host: &HostAddr)
        ensures { self.new ≡ without_answers self.old host.now }
    {
        if let Some(answers) = self.answers.take(host) {
            forget_all(&mut self.flows, answers);
        }
    }

    /// Clears the messages that wait for a host, and returns them.
    fn drop_messages(&mut self, host: &HostAddr) -> Option<VecDeque<HostMessage>>
        ensures all { waiting_in result ≡ boxes.for_host self.old.boxes.messages host.now }
        ensures left { self.new ≡ record self.old { boxes = record self.old.boxes { messages = boxes.with_queue self.old.boxes.messages host.now [] } } }
    {
        self.messages.take(host)
    }

    /// Gives the sources of these messages Dead, if they are up.
    fn tell_dead(&mut self, messages: VecDeque<HostMessage>) -> Result<(), AllocError>
        ensures ok { OnOk result (self.new ≡ with_dead self.old messages.items) }
        ensures err { OnErr result (KeepsLog self.old.boxes self.new.boxes) }
    {
        let mut messages = messages;
        'messages: while let Some(message) = messages.pop_front() {
            self.tell(Answer::Dead, &message.flow)?;
        }
        Ok(())
    }

    /// Takes a host down: what waits for it is cleared, and its messages give their sources Dead.
    pub(crate) fn stop_host(&mut self, host: HostAddr) -> Result<(), AllocError>
        ensures ok { OnOk result (self.new ≡ held_stopped self.old host) }
        ensures err { OnErr result (KeepsLog self.old.boxes self.new.boxes) }
    {
        self.take_down(host)?;
        self.drop_answers(&host);
        if let Some(messages) = self.drop_messages(&host) {
            self.tell_dead(messages)?;
        }
        self.cross(Crossing::Down(host))
    }

    /// Takes a host off those that are down.
    fn take_up(&mut self, host: &HostAddr)
        ensures { self.new ≡ record self.old { boxes = record self.old.boxes { down = filter (λ g. not (same_host host.now g)) self.old.boxes.down } } }
    {
        self.down.retain(|other| *host != *other);
    }

    /// Lets a host come up.
    pub(crate) fn start_host(&mut self, host: HostAddr) -> Result<(), AllocError>
        ensures ok { OnOk result (self.new ≡ held_started self.old host) }
        ensures err { OnErr result (KeepsLog self.old.boxes self.new.boxes) }
    {
        self.take_up(&host);
        self.cross(Crossing::Up(host))
    }

    /// Lets an event happen that isn't refused.
    pub(crate) fn happen(&mut self, event: NetEvent) -> Result<(), AllocError>
        requires kept { IsKept self.old }
        requires allowed { boxes.step_refusal self.old.boxes event ≡ None }
        ensures ok { OnOk result (self.new.boxes ≡ boxes.stepped self.old.boxes event) }
        ensures kept { OnOk result (IsKept self.new) }
        ensures grows { OnErr result (boxes.step_grows self.old.boxes event ≡ true) }
        ensures err { OnErr result (KeepsLog self.old.boxes self.new.boxes) }
    {
        match event {
            NetEvent::GiveUp(flow) => self.give_up(flow),
            NetEvent::HostDown(host) => self.stop_host(host),
            NetEvent::HostUp(host) => self.start_host(host),
            _ => unreachable!(),
        }
    }
}

/// Returns whether what waits of a flow is a message, or the RFNM of one.
fn is_unanswered(pending: Option<Pending>) -> bool
    ensures { result ≡ is_unanswered pending }
{
    match pending {
        None => false,
        Some(Pending::Message) => true,
        Some(Pending::Answer(kind)) => kind == Answer::Rfnm,
    }
}

/// Makes the flows of these answers idle.
fn forget_all(flows: &mut Flows, answers: VecDeque<(Answer, Flow)>)
    ensures { flows.new ≡ cleared flows.old answers.items }
{
    let mut answers = answers;
    'answers: while let Some((_, flow)) = answers.pop_front() {
        flows.remove(&flow);
    }
}
