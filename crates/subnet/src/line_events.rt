//! What happens on lines.

ghost use Rattle.std.specs.Prelude.{◌≡◌, ◌<◌, length, slice_get, Some, None, is_some, if◌then◌else◌, true, IfSome, OnOk, OnErr};
ghost use Rattle.interface.specs.declared.carrier.CarrierFault.TheVariants as fault;
ghost use Rattle.interface.specs.declared.event.NetEvent.TheVariants as event;
ghost use Rattle.subnet.specs.Net.{wire_at, frames_on};
ghost use Rattle.subnet.specs.Events as events;
ghost use Rattle.subnet.specs.Calls.{delivered_grows};
ghost use Rattle.subnet.specs.Inside.Calling.{AreLive, Steps, SameLog};

use crate::imp_call::ImpCall;
use crate::parts::Parts;
use interface::{CarrierFault, Direction, ImpNumber};
use std::alloc::AllocError;

impl Parts {
    /// Sends again what an IMP has sent and is not acknowledged.
    pub(crate) fn resend(&mut self, imp: ImpNumber) -> Result<(), CarrierFault>
        requires { AreLive self.old.imps }
        ensures step { Steps (event.Resend imp) self.old self.new result }
        ensures live { OnOk result (AreLive self.new.imps) }
        ensures keeps { SameLog self.old self.new }
    {
        let number = imp.number();
        if !self.is_imp(number) {
            return Err(CarrierFault::NoSuch);
        }
        if !self.is_up(number) {
            return Err(CarrierFault::IsDown);
        }
        if self.send_again(number).is_err() {
            return Err(CarrierFault::OutOfMemory);
        }
        Ok(())
    }

    /// Sends an IMP's distances to its neighbours.
    pub(crate) fn route(&mut self, imp: ImpNumber) -> Result<(), CarrierFault>
        requires { AreLive self.old.imps }
        ensures step { Steps (event.Route imp) self.old self.new result }
        ensures live { OnOk result (AreLive self.new.imps) }
        ensures keeps { SameLog self.old self.new }
    {
        let number = imp.number();
        if !self.is_imp(number) {
            return Err(CarrierFault::NoSuch);
        }
        if !self.is_up(number) {
            return Err(CarrierFault::IsDown);
        }
        if self.tell(number).is_err() {
            return Err(CarrierFault::OutOfMemory);
        }
        Ok(())
    }

    /// Lets an IMP claim to be at distance 0 from every IMP.
    pub(crate) fn claim(&mut self, imp: ImpNumber) -> Result<(), CarrierFault>
        requires { AreLive self.old.imps }
        ensures step { Steps (event.Claim imp) self.old self.new result }
        ensures live { OnOk result (AreLive self.new.imps) }
        ensures keeps { SameLog self.old self.new }
    {
        let number = imp.number();
        if !self.is_imp(number) {
            return Err(CarrierFault::NoSuch);
        }
        self.at_imp(number, ImpCall::Claim)
    }

    /// Takes an IMP's end of a line down.
    pub(crate) fn end_down(&mut self, imp: ImpNumber, line: u32) -> Result<(), CarrierFault>
        requires { AreLive self.old.imps }
        ensures step { Steps (event.EndDown imp line) self.old self.new result }
        ensures live { OnOk result (AreLive self.new.imps) }
        ensures keeps { SameLog self.old self.new }
    {
        let number = imp.number();
        let at = line as usize;
        if !self.has_end(number, at) {
            return Err(CarrierFault::NoSuch);
        }
        let port = self.port(number, at);
        self.at_imp(number, ImpCall::EndDown(port))
    }

    /// Brings an IMP's end of a line up.
    pub(crate) fn end_up(&mut self, imp: ImpNumber, line: u32) -> Result<(), CarrierFault>
        requires { AreLive self.old.imps }
        ensures step { Steps (event.EndUp imp line) self.old self.new result }
        ensures live { OnOk result (AreLive self.new.imps) }
        ensures keeps { SameLog self.old self.new }
    {
        let number = imp.number();
        let at = line as usize;
        if !self.has_end(number, at) {
            return Err(CarrierFault::NoSuch);
        }
        let port = self.port(number, at);
        self.at_imp(number, ImpCall::EndUp(port))
    }

    /// Returns the line and the place of the frame that an event names, if that is there.
    fn place_of(&self, line: u32, direction: Direction, frame: u32) -> Option<(usize, usize)>
        ensures frame { events.frame_refusal self.now line direction frame ≡ (if is_some result then None else Some fault.NoSuch) }
        ensures same { IfSome result (λ at. (at.0 ≡ line) × (at.1 ≡ frame)) }
        ensures line { is_some result ≡ true → line < length self.now.lines }
        ensures place { is_some result ≡ true → frame < length (frames_on direction (wire_at self.now.lines line)) }
    {
        let at = line as usize;
        let place = frame as usize;
        if self.has_frame(at, direction, place) {
            Some((at, place))
        } else {
            None
        }
    }

    /// Loses the frame at a place of a directed line.
    pub(crate) fn drop_frame(
        &mut self,
        line: u32,
        direction: Direction,
        frame: u32,
    ) -> Result<(), CarrierFault>
        requires { AreLive self.old.imps }
        ensures step { Steps (event.Drop line direction frame) self.old self.new result }
        ensures live { OnOk result (AreLive self.new.imps) }
        ensures keeps { SameLog self.old self.new }
    {
        let Some((at, place)) = self.place_of(line, direction, frame) else {
            return Err(CarrierFault::NoSuch);
        };
        self.lose(at, direction, place);
        Ok(())
    }

    /// Delivers the frame at a place of a directed line at the far end, and keeps it on the line.
    pub(crate) fn deliver(
        &mut self,
        line: u32,
        direction: Direction,
        frame: u32,
    ) -> Result<(), CarrierFault>
        requires { AreLive self.old.imps }
        ensures step { Steps (event.Deliver line direction frame) self.old self.new result }
        ensures live { OnOk result (AreLive self.new.imps) }
        ensures keeps { SameLog self.old self.new }
    {
        let Some((at, place)) = self.place_of(line, direction, frame) else {
            return Err(CarrierFault::NoSuch);
        };
        if self.bring(at, direction, place).is_err() {
            return Err(CarrierFault::OutOfMemory);
        }
        Ok(())
    }

    /// Delivers the frame at a place of a directed line at the far end, if the IMP there is up.
    ///
    /// Errors: memory runs out, and nothing else.
    #[tactic(auto, using(crate::proofs::Calls::Delivering::not_brought, crate::proofs::Calls::Delivering::none_brought))]
    pub(crate) fn bring(
        &mut self,
        line: usize,
        direction: Direction,
        place: usize,
    ) -> Result<(), AllocError>
        requires live { AreLive self.old.imps }
        requires there { line < length self.old.lines }
        ensures ok { OnOk result (self.new ≡ events.deliver self.old line direction place) }
        ensures live { OnOk result (AreLive self.new.imps) }
        ensures memory { OnErr result (delivered_grows self.old line direction (slice_get (frames_on direction (wire_at self.old.lines line)) place) ≡ true) }
        ensures keeps { SameLog self.old self.new }
    {
        let imp = self.far_end(line, direction);
        if !self.is_up(imp) {
            return Ok(());
        }
        let port = self.far_port(line, direction);
        match self.copied_frame(line, direction, place)? {
            Some(frame) => self.attempt(imp, ImpCall::Arrive(port, frame)),
            None => Ok(()),
        }
    }
}
