//! What a subnet is made of, and what its calls do to that.

ghost use Rattle.std.specs.Prelude.{◌≡◌, ◌<◌, ◌≤◌, ◌∷◌, [], Some, None, true, false, length, OnOk, OnErr, IfOk, if◌then◌else◌, option_copied, slice_get};
ghost use Rattle.interface.specs.Host.{is_host, most_imps};
ghost use Rattle.interface.specs.declared.carrier.CarrierFault.TheVariants as fault;
ghost use Rattle.subnet.specs.Net.{imp_at, wire_at, far_end, frames_on, port_of, put_all};
ghost use Rattle.subnet.specs.Calls.{grows_at};
ghost use Rattle.subnet.specs.Flows.{imp_is_up};
ghost use Rattle.subnet.specs.Events as events;
ghost use Rattle.subnet.specs.Events.{is_imp, has_end, logging};
ghost use Rattle.subnet.specs.declared.imp_call.ImpCall.TheVariants as call;
ghost use Rattle.subnet.specs.Inside.Calling.{call_turn, call_grows, AreLive, Makes, Ignores, SameLog, runs_out, copied_grows};
ghost use Rattle.subnet.specs.Inside.Passing.{passes_at};
ghost use Rattle.subnet.specs.Inside.Taking.{frame_taken};

use crate::imp_call::{ImpCall, arrive_at_imp, call_imp, pass_at_imp, passes_at_imp, reuse};
use crate::lines::{Lines, port_of};
use imp_channel::Frame;
use imp_node::{Imp, Outgoing};
use interface::{CarrierFault, Crossing, Direction, HostAddr, Hosts};
use std::alloc::{AllocError, Global};
use std::marker::Model;

/// The hosts, the IMPs and lines, and the log.
///
/// IMPs that ran out of memory are allowed here. Calls of an IMP require that none has.
#[derive(Drop)]
pub(crate) struct Parts {
    pub(crate) hosts: Hosts,
    pub(crate) sites: Vec<Option<u8>>,
    pub(crate) imps: Vec<Option<Imp>>,
    pub(crate) lines: Lines,
    pub(crate) log: Vec<Crossing>,
    pub(crate) alloc: Global,
}

impl Model for Parts {
    ghost use Rattle.std.specs.Prelude.{reverse};
    ghost use Rattle.std.specs.Coded.{codes};
    ghost use Rattle.link_table.specs.Codes.{coded_sources, coded_destinations};
    ghost use Rattle.subnet.specs.Net.{Net};
    ghost use Rattle.subnet.specs.Inside.Calling.{AreParts};

    ghost Value = { Net };

    ghost coded = { Prim.hlevel (codes, coded_sources, coded_destinations) };

    ghost view = { λ p. record { hosts = p.hosts; sites = p.sites.items; imps = p.imps.items; lines = p.lines; log = reverse p.log.items } };

    ghost invariant = { λ p. AreParts p.imps.items p.sites.items p.lines };
}

impl Parts {
    // ---- looking

    /// Returns whether this is a host of the network.
    pub(crate) fn is_there(&self, host: &HostAddr) -> bool
        ensures { result ≡ is_host self.now.hosts host.now }
    {
        self.hosts.contains(host)
    }

    /// Returns whether there is an IMP of this number.
    pub(crate) fn is_imp(&self, imp: u8) -> bool
        ensures there { result ≡ is_imp self.now imp }
        ensures numbered { result ≡ true → (1 ≤ imp) × (imp ≤ most_imps) }
    {
        let at = imp as usize;
        at < self.sites.len() && self.sites[at].is_some()
    }

    /// Returns the IMP of this number, if it is up.
    pub(crate) fn imp(&self, imp: u8) -> Option<&Imp>
        ensures { option_copied result ≡ imp_at self.now.imps imp }
    {
        let at = imp as usize;
        if at < self.imps.len() {
            self.imps[at].as_ref()
        } else {
            None
        }
    }

    /// Returns whether the IMP of this number is up.
    pub(crate) fn is_up(&self, imp: u8) -> bool
        ensures { result ≡ imp_is_up (imp_at self.now.imps imp) }
    {
        self.imp(imp).is_some()
    }

    /// Returns whether a line has an end at an IMP that is there.
    pub(crate) fn has_end(&self, imp: u8, line: usize) -> bool
        ensures end { result ≡ has_end self.now imp line }
        ensures line { result ≡ true → line < length self.now.lines }
    {
        self.is_imp(imp) && line < self.lines.len() && self.lines.all()[line].ends_at(imp)
    }

    /// Returns the port of an IMP that is its end of a line.
    pub(crate) fn port(&self, imp: u8, line: usize) -> u8
        ensures { result ≡ port_of self.now.lines imp line }
    {
        port_of(self.lines.all(), imp, line)
    }

    /// Returns whether a directed line has a frame at this place.
    pub(crate) fn has_frame(&self, line: usize, direction: Direction, place: usize) -> bool
        ensures frame { events.frame_refusal self.now line direction place ≡ (if result then None else Some fault.NoSuch) }
        ensures line { result ≡ true → line < length self.now.lines }
        ensures place { result ≡ true → place < length (frames_on direction (wire_at self.now.lines line)) }
    {
        line < self.lines.len() && place < self.lines.all()[line].live(direction)
    }

    /// Returns the IMP that the frames of a directed line go to.
    pub(crate) fn far_end(&self, line: usize, direction: Direction) -> u8
        requires { line < length self.now.lines }
        ensures { result ≡ far_end direction (wire_at self.now.lines line) }
    {
        let wire = &self.lines.all()[line];
        wire.far_end(direction)
    }

    /// Returns the port of that IMP that is its end of the line.
    pub(crate) fn far_port(&self, line: usize, direction: Direction) -> u8
        requires { line < length self.now.lines }
        ensures { result ≡ port_of self.now.lines (far_end direction (wire_at self.now.lines line)) line }
    {
        self.lines.far_port(line, direction)
    }

    /// Returns a copy of the frame at a place of a directed line, if there is one.
    ///
    /// Errors: memory runs out, and nothing else.
    pub(crate) fn copied_frame(
        &self,
        line: usize,
        direction: Direction,
        place: usize,
    ) -> Result<Option<Frame>, AllocError>
        requires { line < length self.now.lines }
        ensures ok { IfOk result (λ frame. frame ≡ slice_get (frames_on direction (wire_at self.now.lines line)) place) }
        ensures memory { OnErr result (copied_grows (slice_get (frames_on direction (wire_at self.now.lines line)) place) ≡ true) }
    {
        let wire = &self.lines.all()[line];
        wire.copy(direction, place)
    }

    /// Takes out the oldest frame of a directed line. An empty frame is in its place.
    pub(crate) fn take_first(&mut self, line: usize, direction: Direction) -> Frame
        requires line { line < length self.old.lines }
        requires some { 0 < length (frames_on direction (wire_at self.old.lines line)) }
        ensures frame { slice_get (frames_on direction (wire_at self.old.lines line)) 0 ≡ Some result }
        ensures state { self.new ≡ frame_taken self.old line direction }
    {
        self.lines.take_first(line, direction)
    }

    /// Loses the frame at a place of a directed line.
    #[inline(always)]
    pub(crate) fn lose(&mut self, line: usize, direction: Direction, place: usize)
        requires line { line < length self.old.lines }
        requires place { place < length (frames_on direction (wire_at self.old.lines line)) }
        ensures { self.new ≡ events.drop_frame self.old line direction place }
    {
        self.lines.lose(line, direction, place);
    }

    // ---- calls of one IMP

    /// Makes a call of the IMP of this number, and puts its frames on lines.
    ///
    /// Errors: `IsDown` where it is down or not there, and then those of the call.
    pub(crate) fn at_imp(&mut self, imp: u8, call: ImpCall) -> Result<(), CarrierFault>
        requires { AreLive self.old.imps }
        ensures call { Makes imp call self.old self.new result }
        ensures live { OnOk result (AreLive self.new.imps) }
        ensures keeps { SameLog self.old self.new }
    {
        let frames = call_imp(&mut self.imps, imp, call)?;
        if self.put(imp, frames).is_err() {
            return Err(CarrierFault::OutOfMemory);
        }
        Ok(())
    }

    /// Puts the frames that an IMP's call answered on lines. Their list goes back to the IMP.
    ///
    /// Errors: memory runs out, and nothing else.
    #[inline]
    pub(crate) fn put(&mut self, imp: u8, frames: Vec<Outgoing>) -> Result<(), AllocError>
        ensures ok { OnOk result (self.new ≡ record self.old { lines = put_all self.old.lines imp frames.items }) }
        ensures imps { self.new.imps ≡ self.old.imps }
        ensures memory { OnErr result (0 < length frames.items) }
        ensures keeps { SameLog self.old self.new }
    {
        if frames.is_empty() {
            if frames.capacity() > 0 {
                reuse(&mut self.imps, imp, frames);
            }
            return Ok(());
        }
        let spare = self.lines.put_all(imp, frames)?;
        reuse(&mut self.imps, imp, spare);
        Ok(())
    }

    /// Makes a call of the IMP of this number, if it is up and doesn't refuse it.
    ///
    /// Errors: memory runs out, and nothing else.
    #[tactic(auto, using(crate::proofs::Calls::Attempting::attempted, crate::proofs::Calls::Attempting::attempt_lives, crate::proofs::Calls::Attempting::attempt_grows))]
    pub(crate) fn attempt(&mut self, imp: u8, call: ImpCall) -> Result<(), AllocError>
        requires live { AreLive self.old.imps }
        requires ignores { Ignores call }
        ensures ok { OnOk result (self.new ≡ events.at_imp (imp_at self.old.imps imp) imp (call_turn call) self.old) }
        ensures live { OnOk result (AreLive self.new.imps) }
        ensures memory { OnErr result (grows_at (imp_at self.old.imps imp) (call_grows call) ≡ true) }
        ensures keeps { SameLog self.old self.new }
    {
        let outcome = self.at_imp(imp, call);
        if runs_out(&outcome) {
            return Err(AllocError);
        }
        Ok(())
    }

    /// Lets a frame come in at a port of the IMP of this number, if it is up and has the port.
    ///
    /// Errors: memory runs out, and nothing else.
    #[tactic(auto, using(crate::proofs::Calls::Attempting::arrive_ignores, crate::proofs::Calls::Attempting::attempted, crate::proofs::Calls::Attempting::attempt_lives, crate::proofs::Calls::Attempting::attempt_grows))]
    pub(crate) fn come_in(&mut self, imp: u8, port: u8, frame: Frame) -> Result<(), AllocError>
        requires { AreLive self.old.imps }
        ensures ok { OnOk result (self.new ≡ events.at_imp (imp_at self.old.imps imp) imp (call_turn (call.Arrive port frame)) self.old) }
        ensures live { OnOk result (AreLive self.new.imps) }
        ensures memory { OnErr result (grows_at (imp_at self.old.imps imp) (call_grows (call.Arrive port frame)) ≡ true) }
        ensures keeps { SameLog self.old self.new }
    {
        if passes_at_imp(&self.imps, imp, port, &frame) {
            return self.pass(imp, port, frame);
        }
        let outcome = self.arrive(imp, port, frame);
        if runs_out(&outcome) {
            return Err(AllocError);
        }
        Ok(())
    }

    /// Lets a frame come in at a port of the IMP of this number, which passes on what it brings.
    ///
    /// Errors: memory runs out, and nothing else.
    #[tactic(auto, using(crate::proofs::Calls::Passes::passed_at))]
    fn pass(&mut self, imp: u8, port: u8, frame: Frame) -> Result<(), AllocError>
        requires live { AreLive self.old.imps }
        requires passes { passes_at port frame (imp_at self.old.imps imp) ≡ true }
        ensures ok { OnOk result (self.new ≡ events.at_imp (imp_at self.old.imps imp) imp (call_turn (call.Arrive port frame)) self.old) }
        ensures live { OnOk result (AreLive self.new.imps) }
        ensures memory { OnErr result (grows_at (imp_at self.old.imps imp) (call_grows (call.Arrive port frame)) ≡ true) }
        ensures keeps { SameLog self.old self.new }
    {
        let passed = pass_at_imp(&mut self.imps, imp, port, frame)?;
        self.lines.put_passed(imp, port, passed)
    }

    /// Lets a frame come in at a port of the IMP of this number, and puts the IMP's frames on lines.
    ///
    /// Errors: `IsDown` where it is down or not there, and then those of the call.
    fn arrive(&mut self, imp: u8, port: u8, frame: Frame) -> Result<(), CarrierFault>
        requires { AreLive self.old.imps }
        ensures call { Makes imp (call.Arrive port frame) self.old self.new result }
        ensures live { OnOk result (AreLive self.new.imps) }
        ensures keeps { SameLog self.old self.new }
    {
        let frames = arrive_at_imp(&mut self.imps, imp, port, frame)?;
        if self.put(imp, frames).is_err() {
            return Err(CarrierFault::OutOfMemory);
        }
        Ok(())
    }

    /// Puts a crossing on the log.
    pub(crate) fn cross(&mut self, crossing: Crossing) -> Result<(), AllocError>
        ensures ok { OnOk result (self.new ≡ logging (crossing ∷ []) self.old) }
        ensures err { OnErr result (self.new ≡ self.old) }
    {
        self.log.push(crossing)?;
        Ok(())
    }
}

/// Returns whether memory ran out.
pub(crate) fn runs_out(outcome: &Result<(), CarrierFault>) -> bool
    ensures { result ≡ runs_out outcome.now }
{
    matches!(outcome, Err(CarrierFault::OutOfMemory))
}
