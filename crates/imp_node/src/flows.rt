//! Giving up, forgetting and abandoning.

ghost use Rattle.std.specs.Prelude.{◌≡◌, true, false, IfOk, OnOk, OnErr};
ghost use Rattle.imp_node.specs.Stopping as stopping;
ghost use Rattle.imp_node.specs.Turns.{Turned, Takes, give_up_grows, forget_grows, abandon_grows};

use crate::{Imp, Outgoing};
use interface::{Answer, CarrierFault, Flow, ImpNumber};
use std::alloc::AllocError;

impl Imp {
    /// Gives up the outstanding message of a flow from one of its hosts: Incomplete waits for the source, if that is
    /// up. It answers the frames to put on lines.
    ///
    /// Errors: `NoSuch` where the source isn't one of its hosts, `NotOutstanding` where no message of the flow
    /// is outstanding. `OutOfMemory` only where the source is up or a frame is sent, and then the IMP is spent.
    pub fn give_up(&mut self, flow: Flow) -> Result<Vec<Outgoing>, CarrierFault>
        requires { self.old.spent ≡ false }
        ensures turn { Turned (stopping.give_up_refusal self.old flow) (give_up_grows self.old flow) (λ frames. Takes (stopping.give_up self.old flow) self.new frames.items) self.old self.new result }
        ensures live { OnOk result (self.new.spent ≡ false) }
    {
        if let Some(fault) = self.give_up_refusal(&flow) {
            return Err(fault);
        }
        let Ok(frames) = self.given_up(flow) else {
            return Err(self.exhaust());
        };
        Ok(frames)
    }

    /// Returns why the message of a flow may not be given up.
    fn give_up_refusal(&self, flow: &Flow) -> Option<CarrierFault>
        ensures { result ≡ stopping.give_up_refusal self.now flow.now }
    {
        if !self.is_own(&flow.source) {
            Some(CarrierFault::NoSuch)
        } else if self.sources.outstanding(flow).is_none() {
            Some(CarrierFault::NotOutstanding)
        } else {
            None
        }
    }

    /// Gives up the outstanding message of a flow.
    fn given_up(&mut self, flow: Flow) -> Result<Vec<Outgoing>, AllocError>
        ensures ok { IfOk result (λ frames. Takes (stopping.give_up self.old flow) self.new frames.items) }
        ensures memory { OnErr result (give_up_grows self.old flow ≡ true) }
    {
        self.sources.give_up(&flow);
        self.tell(Answer::Incomplete, flow)?;
        self.pump_alone()
    }

    /// Drops the last numbers that it keeps of flows from another IMP. It answers the frames to put on lines.
    ///
    /// Errors: `NoSuch` for its own number. `OutOfMemory` only where a frame is sent, and then the IMP is spent.
    pub fn forget(&mut self, imp: ImpNumber) -> Result<Vec<Outgoing>, CarrierFault>
        requires { self.old.spent ≡ false }
        ensures turn { Turned (stopping.forget_refusal self.old imp) (forget_grows self.old imp) (λ frames. Takes (stopping.forget self.old imp) self.new frames.items) self.old self.new result }
        ensures live { OnOk result (self.new.spent ≡ false) }
    {
        if imp.number() == self.number() {
            return Err(CarrierFault::NoSuch);
        }
        let Ok(frames) = self.forgotten(imp) else {
            return Err(self.exhaust());
        };
        Ok(frames)
    }

    /// Drops the last numbers of flows from an IMP.
    fn forgotten(&mut self, imp: ImpNumber) -> Result<Vec<Outgoing>, AllocError>
        ensures ok { IfOk result (λ frames. Takes (stopping.forget self.old imp) self.new frames.items) }
        ensures memory { OnErr result (forget_grows self.old imp ≡ true) }
    {
        self.kept.forget(imp);
        self.pump_alone()
    }

    /// Throws away the slot of a flow, with what it holds of a message. It answers the frames to put on lines.
    ///
    /// Errors: `NoSuch` where the flow has no slot. `OutOfMemory` only where a frame is sent, and then the IMP is
    /// spent.
    pub fn abandon(&mut self, flow: Flow) -> Result<Vec<Outgoing>, CarrierFault>
        requires { self.old.spent ≡ false }
        ensures turn { Turned (stopping.abandon_refusal self.old flow) (abandon_grows self.old flow) (λ frames. Takes (stopping.abandon self.old flow) self.new frames.items) self.old self.new result }
        ensures live { OnOk result (self.new.spent ≡ false) }
    {
        if !self.slots.has_slot(&flow) {
            return Err(CarrierFault::NoSuch);
        }
        let Ok(frames) = self.abandoned(flow) else {
            return Err(self.exhaust());
        };
        Ok(frames)
    }

    /// Throws the slot of a flow away, and pumps.
    fn abandoned(&mut self, flow: Flow) -> Result<Vec<Outgoing>, AllocError>
        ensures ok { IfOk result (λ frames. Takes (stopping.abandon self.old flow) self.new frames.items) }
        ensures memory { OnErr result (abandon_grows self.old flow ≡ true) }
    {
        self.slots.discard(flow);
        self.pump_alone()
    }
}
