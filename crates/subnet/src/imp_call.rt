//! Calls of one IMP, as data.

ghost use Rattle.std.specs.Prelude.{◌≡◌, ◌∷◌, [], ◌<◌, length, None, true, false, OnOk, OnErr, IfOk, IfSome};
ghost use Rattle.std.specs.Option.{option_to_list};
ghost use Rattle.imp_node.specs.Turns.{Turned, Takes};
ghost use Rattle.subnet.specs.Net.{imp_at};
ghost use Rattle.subnet.specs.Calls.{grows_at};
ghost use Rattle.subnet.specs.Inside.Passing.{passes_at};
ghost use Rattle.subnet.specs.declared.imp_call.ImpCall.TheVariants as call;
ghost use Rattle.subnet.specs.Inside.Calling.{call_refusal, call_turn, call_grows, IsLive, AreLive, MakesAt, MakesAmong, imp_by, imps_by, frames_by};

use imp_channel::Frame;
use imp_node::{Imp, Outgoing, Passed};
use interface::{CarrierFault, Flow, HostMessage, ImpNumber};
use std::alloc::AllocError;

/// A call of an IMP that answers frames for its lines and nothing else.
#[derive(Drop)]
pub enum ImpCall {
    /// A host hands over a message.
    Offer(HostMessage),
    /// A frame comes in at a port.
    Arrive(u8, Frame),
    /// What is not acknowledged is sent again.
    Resend,
    /// It sends its neighbours its distances.
    Route,
    /// It claims to be at distance 0 from every IMP.
    Claim,
    /// The end of a line at a port stops.
    EndDown(u8),
    /// The end of a line at a port starts.
    EndUp(u8),
    /// The outstanding message of a flow is given up.
    GiveUp(Flow),
    /// The last numbers of flows from an IMP are dropped.
    Forget(ImpNumber),
    /// The slot of a flow is thrown away.
    Abandon(Flow),
    /// The destination's IMP is asked what became of the outstanding message of a flow.
    Ask(Flow),
    /// One of its hosts stops.
    HostDown(u8),
    /// One of its hosts starts.
    HostUp(u8),
}

impl ImpCall {
    /// Makes the call of an IMP.
    fn make(self, imp: &mut Imp) -> Result<Vec<Outgoing>, CarrierFault>
        requires { imp.old.spent ≡ false }
        ensures turn { Turned (call_refusal self imp.old) (call_grows self imp.old) (λ frames. Takes (call_turn self imp.old) imp.new frames.items) imp.old imp.new result }
        ensures live { OnOk result (imp.new.spent ≡ false) }
    {
        match self {
            ImpCall::Offer(message) => imp.from_host(message),
            ImpCall::Arrive(port, frame) => imp.from_line(port, frame),
            ImpCall::Resend => imp.resend(),
            ImpCall::Route => imp.route(),
            ImpCall::Claim => imp.claim(),
            ImpCall::EndDown(port) => imp.end_down(port),
            ImpCall::EndUp(port) => imp.end_up(port),
            ImpCall::GiveUp(flow) => imp.give_up(flow),
            ImpCall::Forget(from) => imp.forget(from),
            ImpCall::Abandon(flow) => imp.abandon(flow),
            ImpCall::Ask(flow) => imp.ask(flow),
            ImpCall::HostDown(host) => imp.host_down(host),
            ImpCall::HostUp(host) => imp.host_up(host),
        }
    }

    /// Makes the call of the IMP at a place, if one is up there.
    #[tactic(auto, using(crate::proofs::Calls::Ending::ends_of_turned))]
    fn make_at(self, imp: &mut Option<Imp>) -> Result<Vec<Outgoing>, CarrierFault>
        requires { IfSome imp.old (λ s. s.spent ≡ false) }
        ensures call { MakesAt self (λ frames. frames.items) imp.old imp.new result }
        ensures live { OnOk result (IfSome imp.new (λ s. s.spent ≡ false)) }
    {
        match imp {
            Some(imp) => self.make(imp),
            None => Err(CarrierFault::IsDown),
        }
    }
}

/// Makes a call of the IMP of this number, if it is up.
///
/// Errors: `IsDown` where it is down or not there, and then those of the call.
pub(crate) fn call_imp(
    imps: &mut [Option<Imp>],
    imp: u8,
    call: ImpCall,
) -> Result<Vec<Outgoing>, CarrierFault>
    requires { AreLive imps.old }
    ensures call { MakesAmong imp call (λ frames. frames.items) imps.old imps.new result }
    ensures live { OnOk result (AreLive imps.new) }
{
    let at = imp as usize;
    if at >= imps.len() {
        return Err(CarrierFault::IsDown);
    }
    call.make_at(&mut imps[at])
}

/// Lets a frame come in at a port of the IMP of this number, if it is up, as [`ImpCall::Arrive`] does. The frame isn't
/// put into a call before, and so is moved less often.
///
/// Errors: `IsDown` where it is down or not there, and then those of the call.
pub(crate) fn arrive_at_imp(
    imps: &mut [Option<Imp>],
    imp: u8,
    port: u8,
    frame: Frame,
) -> Result<Vec<Outgoing>, CarrierFault>
    requires { AreLive imps.old }
    ensures call { MakesAmong imp (call.Arrive port frame) (λ frames. frames.items) imps.old imps.new result }
    ensures live { OnOk result (AreLive imps.new) }
{
    let at = imp as usize;
    if at >= imps.len() {
        return Err(CarrierFault::IsDown);
    }
    arrive_at(&mut imps[at], port, frame)
}

/// Does the same at the IMP of a place.
#[tactic(auto, using(crate::proofs::Calls::Ending::ends_of_turned))]
fn arrive_at(place: &mut Option<Imp>, port: u8, frame: Frame) -> Result<Vec<Outgoing>, CarrierFault>
    requires { IfSome place.old (λ s. s.spent ≡ false) }
    ensures call { MakesAt (call.Arrive port frame) (λ frames. frames.items) place.old place.new result }
    ensures live { OnOk result (IfSome place.new (λ s. s.spent ≡ false)) }
{
    match place {
        Some(imp) => imp.from_line(port, frame),
        None => Err(CarrierFault::IsDown),
    }
}

/// Returns whether the IMP of this number is up and passes on at once what a frame at a port brings.
pub(crate) fn passes_at_imp(imps: &[Option<Imp>], imp: u8, port: u8, frame: &Frame) -> bool
    ensures { result ≡ passes_at port frame.now (imp_at imps.now imp) }
{
    let at = imp as usize;
    at < imps.len() && passes_at(&imps[at], port, frame)
}

/// Returns the same of the IMP of a place.
fn passes_at(place: &Option<Imp>, port: u8, frame: &Frame) -> bool
    ensures { result ≡ passes_at port frame.now place.now }
{
    match place {
        Some(imp) => imp.passes(port, frame),
        None => false,
    }
}

/// Lets a frame come in at a port of the IMP of this number, which passes on what it brings. It answers what is put on lines.
///
/// Errors: memory runs out, and nothing else.
#[tactic(auto, using(crate::proofs::Calls::Passes::passes_within))]
pub(crate) fn pass_at_imp(
    imps: &mut [Option<Imp>],
    imp: u8,
    port: u8,
    frame: Frame,
) -> Result<Passed, AllocError>
    requires live { AreLive imps.old }
    requires passes { passes_at port frame (imp_at imps.old imp) ≡ true }
    ensures taken { OnOk result (imps.new ≡ imps_by imps.old imp (imp_at imps.old imp) (call_turn (call.Arrive port frame))) }
    ensures sent { IfOk result (λ passed. frames_by (imp_at imps.old imp) (call_turn (call.Arrive port frame)) ≡ record { port = port; frame = passed.ack } ∷ option_to_list passed.on) }
    ensures live { OnOk result (AreLive imps.new) }
    ensures memory { OnErr result (grows_at (imp_at imps.old imp) (call_grows (call.Arrive port frame)) ≡ true) }
{
    let at = imp as usize;
    if at >= imps.len() {
        unreachable!();
    }
    pass_at(&mut imps[at], port, frame)
}

/// Does the same at the IMP of a place.
fn pass_at(place: &mut Option<Imp>, port: u8, frame: Frame) -> Result<Passed, AllocError>
    requires live { IfSome place.old (λ s. s.spent ≡ false) }
    requires passes { passes_at port frame place.old ≡ true }
    ensures taken { OnOk result (place.new ≡ imp_by place.old (call_turn (call.Arrive port frame))) }
    ensures sent { IfOk result (λ passed. frames_by place.old (call_turn (call.Arrive port frame)) ≡ record { port = port; frame = passed.ack } ∷ option_to_list passed.on) }
    ensures live { OnOk result (IfSome place.new (λ s. s.spent ≡ false)) }
    ensures memory { OnErr result (grows_at place.old (call_grows (call.Arrive port frame)) ≡ true) }
{
    match place {
        Some(imp) => imp.pass(port, frame),
        None => unreachable!(),
    }
}

/// Takes a frame at a port of the IMP of this number, if nothing is to be sent for it, or no IMP is up there. It
/// answers whether it came in; else nothing changes.
pub(crate) fn takes_at_imp(imps: &mut [Option<Imp>], imp: u8, port: u8, frame: &Frame) -> bool
    requires { AreLive imps.old }
    ensures taken { result ≡ true → imps.new ≡ imps_by imps.old imp (imp_at imps.old imp) (call_turn (call.Arrive port frame.now)) }
    ensures silent { result ≡ true → frames_by (imp_at imps.old imp) (call_turn (call.Arrive port frame.now)) ≡ [] }
    ensures left { result ≡ false → imps.new ≡ imps.old }
    ensures live { AreLive imps.new }
{
    let at = imp as usize;
    if at >= imps.len() {
        return true;
    }
    takes_at(&mut imps[at], port, frame)
}

/// Does the same at the IMP of a place.
fn takes_at(place: &mut Option<Imp>, port: u8, frame: &Frame) -> bool
    requires { IfSome place.old (λ s. s.spent ≡ false) }
    ensures taken { result ≡ true → place.new ≡ imp_by place.old (call_turn (call.Arrive port frame.now)) }
    ensures silent { result ≡ true → frames_by place.old (call_turn (call.Arrive port frame.now)) ≡ [] }
    ensures left { result ≡ false → place.new ≡ place.old }
    ensures live { IfSome place.new (λ s. s.spent ≡ false) }
{
    match place {
        Some(imp) => imp.takes(port, frame),
        None => true,
    }
}

/// Takes a frame at a port of the IMP of this number, if it brings a packet that was given before and only its
/// acknowledgement is sent, which is returned. Else nothing changes.
pub(crate) fn answers_at_imp(
    imps: &mut [Option<Imp>],
    imp: u8,
    port: u8,
    frame: &Frame,
) -> Option<Frame>
    requires { AreLive imps.old }
    ensures taken { IfSome result (λ ack. imps.new ≡ imps_by imps.old imp (imp_at imps.old imp) (call_turn (call.Arrive port frame.now))) }
    ensures answer { IfSome result (λ ack. frames_by (imp_at imps.old imp) (call_turn (call.Arrive port frame.now)) ≡ record { port = port; frame = ack } ∷ []) }
    ensures left { result ≡ None → imps.new ≡ imps.old }
    ensures live { AreLive imps.new }
{
    let at = imp as usize;
    if at >= imps.len() {
        return None;
    }
    answers_at(&mut imps[at], port, frame)
}

/// Does the same at the IMP of a place.
fn answers_at(place: &mut Option<Imp>, port: u8, frame: &Frame) -> Option<Frame>
    requires { IfSome place.old (λ s. s.spent ≡ false) }
    ensures taken { IfSome result (λ ack. place.new ≡ imp_by place.old (call_turn (call.Arrive port frame.now))) }
    ensures answer { IfSome result (λ ack. frames_by place.old (call_turn (call.Arrive port frame.now)) ≡ record { port = port; frame = ack } ∷ []) }
    ensures left { result ≡ None → place.new ≡ place.old }
    ensures live { IfSome place.new (λ s. s.spent ≡ false) }
{
    match place {
        Some(imp) => imp.answers(port, frame),
        None => None,
    }
}

/// Hands an empty list of frames back to the IMP of this number, if it is up.
#[inline]
pub(crate) fn reuse(imps: &mut [Option<Imp>], imp: u8, spare: Vec<Outgoing>)
    requires { spare.items ≡ [] }
    ensures { imps.new ≡ imps.old }
{
    let at = imp as usize;
    if at < imps.len() {
        reuse_at(&mut imps[at], spare);
    }
}

/// Does the same at the IMP of a place.
fn reuse_at(place: &mut Option<Imp>, spare: Vec<Outgoing>)
    requires { spare.items ≡ [] }
    ensures { place.new ≡ place.old }
{
    if let Some(imp) = place {
        imp.reuse(spare);
    }
}
