//! A host hands a message to the subnet.

ghost use Rattle.std.specs.Prelude.{◌≡◌, ◌∷◌, [], ◌&&◌, ◌||◌, true, Some, OnOk, OnErr};
ghost use Rattle.imp_node.specs.Offering.{begins};
ghost use Rattle.imp_node.specs.Queries as queries;
ghost use Rattle.subnet.specs.Net.{imp_at};
ghost use Rattle.subnet.specs.Events as events;
ghost use Rattle.flow_law.specs.Moves.{next_number};
ghost use Rattle.subnet.specs.Alive.{is_alive};
ghost use Rattle.subnet.specs.Events.{offer_alive, alive_behind, is_kept};
ghost use Rattle.subnet.specs.Flows.{imp_is_up};
ghost use Rattle.subnet.specs.Inside.Calling.{AreLive, CallEnds, SameLog};
ghost use Rattle.subnet.specs.Inside.Highest.{NumbersUpTo, next_at};
ghost use Rattle.subnet.specs.Sound.{IsSound};

use crate::imp_call::ImpCall;
use crate::parts::Parts;
use imp_node::Imp;
use interface::{CarrierFault, Crossing, Flow, HostMessage, Number};
use link_table::numbers::{next, oldest};

impl Parts {
    /// Lets a message go out: its source's IMP takes it. No message was begun with a number above `highest`.
    pub(crate) fn offer_out(
        &mut self,
        message: HostMessage,
        highest: Number,
    ) -> Result<(), CarrierFault>
        requires live { AreLive self.old.imps }
        requires sound { IsSound self.old }
        requires numbers { NumbersUpTo highest self.old }
        ensures call { CallEnds (events.offer_refusal self.old message) true (λ done. self.new ≡ events.offer_out self.old message) self.old self.new result }
        ensures live { OnOk result (AreLive self.new.imps) }
        ensures keeps { OnErr result (SameLog self.old self.new) }
    {
        if !self.is_there(&message.flow.source) {
            return Err(CarrierFault::NoSuch);
        }
        if self.is_in_the_way(&message.flow, highest) {
            return Err(CarrierFault::StillAlive);
        }
        let imp = message.flow.source.imp();
        let copy: Result<_, _> = message.clone();
        self.at_imp(imp, ImpCall::Offer(message))?;
        let Ok(copy) = copy else {
            return Err(CarrierFault::OutOfMemory);
        };
        if self.cross(Crossing::Out(copy)).is_err() {
            return Err(CarrierFault::OutOfMemory);
        }
        Ok(())
    }

    /// Returns why an offer of this message would be refused, if it would be. No message was begun with a number above
    /// `highest`.
    pub(crate) fn offer_refusal(
        &self,
        message: &HostMessage,
        highest: Number,
    ) -> Option<CarrierFault>
        requires sound { IsSound self.now }
        requires numbers { NumbersUpTo highest self.now }
        ensures { result ≡ events.offer_refusal self.now message.now }
    {
        let source = message.flow.source;
        if !self.is_there(&source) {
            return Some(CarrierFault::NoSuch);
        }
        if self.is_in_the_way(&message.flow, highest) {
            return Some(CarrierFault::StillAlive);
        }
        match self.imp(source.imp()) {
            Some(imp) => imp.from_host_refusal(message),
            None => Some(CarrierFault::IsDown),
        }
    }

    /// Returns whether an offer would begin a number of this flow while the number that lies too far before the last
    /// one is alive, or while the destination's IMP keeps the number that would be begun.
    fn is_in_the_way(&self, flow: &Flow, highest: Number) -> bool
        requires sound { IsSound self.now }
        requires numbers { NumbersUpTo highest self.now }
        ensures { result ≡ offer_alive self.now flow.now (imp_at self.now.imps flow.now.source.imp) }
    {
        let source = flow.source;
        match self.imp(source.imp()) {
            Some(imp) => imp.begins(flow)
                && (self.is_behind(imp, flow, highest) || self.is_next_kept(imp, flow)),
            None => false,
        }
    }

    /// Returns whether the number that lies too far before the last one of this source's IMP is alive.
    fn is_behind(&self, imp: &Imp, flow: &Flow, highest: Number) -> bool
        requires here { imp_at self.now.imps flow.now.source.imp ≡ Some imp.now }
        requires sound { IsSound self.now }
        requires numbers { NumbersUpTo highest self.now }
        ensures { result ≡ alive_behind self.now flow.now (queries.last imp.now flow.now) }
    {
        match imp.last(flow) {
            Some(number) => self.is_alive_up_to(flow, oldest(number), highest),
            None => false,
        }
    }

    /// Returns whether a number of a flow whose source's IMP is up is alive. One above `highest` isn't, and is not
    /// looked for.
    #[tactic(auto, using(crate::proofs::Calls::Highest::none_above))]
    fn is_alive_up_to(&self, flow: &Flow, number: Number, highest: Number) -> bool
        requires up { imp_is_up (imp_at self.now.imps flow.now.source.imp) ≡ true }
        requires sound { IsSound self.now }
        requires numbers { NumbersUpTo highest self.now }
        ensures { result ≡ is_alive self.now flow.now number }
    {
        if number > highest {
            return false;
        }
        self.is_alive(flow, number)
    }

    /// Returns the number that an offer of this flow would begin; 0 where its source's IMP is down.
    pub(crate) fn next_number(&self, flow: &Flow) -> Number
        ensures { result ≡ next_at (imp_at self.now.imps flow.now.source.imp) flow.now }
    {
        let source = flow.source;
        match self.imp(source.imp()) {
            Some(imp) => number_after(imp, flow),
            None => 0,
        }
    }

    /// Returns whether the destination's IMP keeps the number that this source's IMP would begin.
    fn is_next_kept(&self, imp: &Imp, flow: &Flow) -> bool
        ensures { result ≡ is_kept self.now flow.now (next_number (queries.last imp.now flow.now)) }
    {
        self.is_kept(flow, number_after(imp, flow))
    }

    /// Returns whether the destination's IMP is up and keeps this number as the flow's last one.
    fn is_kept(&self, flow: &Flow, number: Number) -> bool
        ensures { result ≡ is_kept self.now flow.now number }
    {
        let destination = flow.destination;
        match self.imp(destination.imp()) {
            Some(imp) => imp.kept(flow) == Some(number),
            None => false,
        }
    }
}

/// Returns the number after the last one that a source's IMP began of a flow: 0 where it began none.
fn number_after(imp: &Imp, flow: &Flow) -> Number
    ensures { result ≡ next_number (queries.last imp.now flow.now) }
{
    match imp.last(flow) {
        Some(last) => next(last),
        None => 0,
    }
}
