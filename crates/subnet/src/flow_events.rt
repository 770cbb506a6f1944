//! What happens to flows.

ghost use Rattle.std.specs.Prelude.{◌≡◌, OnOk};
ghost use Rattle.interface.specs.declared.event.NetEvent.TheVariants as event;
ghost use Rattle.subnet.specs.Net.{imp_at};
ghost use Rattle.subnet.specs.Alive.{is_awaited_at};
ghost use Rattle.subnet.specs.Events.{give_up_alive, outstanding_at};
ghost use Rattle.subnet.specs.Inside.Calling.{AreLive, Steps, SameLog};

use crate::imp_call::ImpCall;
use crate::parts::Parts;
use crate::seeking::Sought;
use interface::{CarrierFault, Flow, ImpNumber, Number};

impl Parts {
    /// Throws away the pieces that the destination's IMP holds of a flow's message.
    pub(crate) fn abandon(&mut self, flow: Flow) -> Result<(), CarrierFault>
        requires { AreLive self.old.imps }
        ensures step { Steps (event.Abandon flow) self.old self.new result }
        ensures live { OnOk result (AreLive self.new.imps) }
        ensures keeps { SameLog self.old self.new }
    {
        let imp = flow.destination.imp();
        if !self.is_up(imp) {
            return Err(CarrierFault::NoSuch);
        }
        self.at_imp(imp, ImpCall::Abandon(flow))
    }

    /// Gives up the outstanding message of a flow at the source's IMP.
    pub(crate) fn give_up(&mut self, flow: Flow) -> Result<(), CarrierFault>
        requires { AreLive self.old.imps }
        ensures step { Steps (event.GiveUp flow) self.old self.new result }
        ensures live { OnOk result (AreLive self.new.imps) }
        ensures keeps { SameLog self.old self.new }
    {
        let source = flow.source;
        if !self.is_there(&source) {
            return Err(CarrierFault::NoSuch);
        }
        if self.is_outstanding_alive(&flow) {
            return Err(CarrierFault::StillAlive);
        }
        self.at_imp(source.imp(), ImpCall::GiveUp(flow))
    }

    /// Asks what became of the outstanding message of a flow, from the source's IMP.
    pub(crate) fn ask(&mut self, flow: Flow) -> Result<(), CarrierFault>
        requires { AreLive self.old.imps }
        ensures step { Steps (event.Ask flow) self.old self.new result }
        ensures live { OnOk result (AreLive self.new.imps) }
        ensures keeps { SameLog self.old self.new }
    {
        let source = flow.source;
        if !self.is_there(&source) {
            return Err(CarrierFault::NoSuch);
        }
        self.at_imp(source.imp(), ImpCall::Ask(flow))
    }

    /// Returns whether the outstanding message of a flow is alive.
    fn is_outstanding_alive(&self, flow: &Flow) -> bool
        ensures { result ≡ give_up_alive self.now flow.now (outstanding_at (imp_at self.now.imps flow.now.source.imp) flow.now) }
    {
        let source = flow.source;
        match self.imp(source.imp()) {
            Some(imp) => self.is_number_alive(flow, imp.outstanding(flow)),
            None => false,
        }
    }

    /// Returns whether the message of a number, if there is one, is alive.
    fn is_number_alive(&self, flow: &Flow, number: Option<Number>) -> bool
        ensures { result ≡ give_up_alive self.now flow.now number }
    {
        match number {
            Some(number) => self.is_alive(flow, number),
            None => false,
        }
    }

    /// Drops the last numbers that an IMP keeps of flows from another IMP.
    #[tactic(auto, using(crate::proofs::Moves::Stepping::forget_step))]
    pub(crate) fn forget(&mut self, at: ImpNumber, from: ImpNumber) -> Result<(), CarrierFault>
        requires { AreLive self.old.imps }
        ensures step { Steps (event.Forget at from) self.old self.new result }
        ensures live { OnOk result (AreLive self.new.imps) }
        ensures keeps { SameLog self.old self.new }
    {
        if !self.is_imp(at.number()) || !self.is_imp(from.number()) {
            return Err(CarrierFault::NoSuch);
        }
        if at.number() == from.number() {
            return Err(CarrierFault::NoSuch);
        }
        if self.finds(&Sought::Between(from, at)) || self.is_awaiting(from, at) {
            return Err(CarrierFault::StillAlive);
        }
        self.at_imp(at.number(), ImpCall::Forget(from))
    }

    /// Returns whether a message to a host at one IMP is outstanding at another, if that is up.
    fn is_awaiting(&self, from: ImpNumber, at: ImpNumber) -> bool
        ensures { result ≡ is_awaited_at (imp_at self.now.imps from) at }
    {
        match self.imp(from.number()) {
            Some(imp) => imp.awaits(at),
            None => false,
        }
    }
}
