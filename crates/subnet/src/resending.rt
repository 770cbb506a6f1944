//! An IMP sends again what is not acknowledged, in a quiet round.

ghost use Rattle.std.specs.Prelude.{◌≡◌, ◌<◌, true, length, map, OnOk, OnErr};
ghost use Rattle.imp_channel.specs.Line.{channel_at, frames_of};
ghost use Rattle.imp_channel.specs.declared.frame.TheConstants.{ACKS};
ghost use Rattle.imp_node.specs.Lines.{on_port, resent_by, resent_from};
ghost use Rattle.imp_node.specs.State.{port_at};
ghost use Rattle.subnet.specs.Net.{imp_at, put_all};
ghost use Rattle.subnet.specs.Calls.{grows_at};
ghost use Rattle.subnet.specs.Events as events;
ghost use Rattle.subnet.specs.declared.imp_call.ImpCall.TheVariants as call;
ghost use Rattle.subnet.specs.Inside.Calling.{AreLive, SameLog, call_turn, call_grows};
ghost use Rattle.subnet.specs.Inside.Telling.{resent};

use crate::imp_call::ImpCall;
use crate::lines::Lines;
use crate::parts::Parts;
use imp_channel::{CHANNELS, Line};
use imp_node::{Imp, Outgoing, Port};
use std::alloc::AllocError;

impl Parts {
    /// Lets the IMP of this number send again, if it is up. Where no packet waits in it, the call would do nothing
    /// else, and its frames are put on the lines one by one.
    ///
    /// Errors: memory runs out, and nothing else.
    #[tactic(auto, using(crate::proofs::Calls::Attempting::resend_ignores, crate::proofs::Calls::Resending::resent_alone, crate::proofs::Calls::Telling::told_lives, crate::proofs::Calls::Resending::resent_grows))]
    pub(crate) fn send_again(&mut self, imp: u8) -> Result<(), AllocError>
        requires { AreLive self.old.imps }
        ensures ok { OnOk result (self.new ≡ events.at_imp (imp_at self.old.imps imp) imp (call_turn call.Resend) self.old) }
        ensures live { OnOk result (AreLive self.new.imps) }
        ensures memory { OnErr result (grows_at (imp_at self.old.imps imp) (call_grows call.Resend) ≡ true) }
        ensures keeps { SameLog self.old self.new }
    {
        if !self.only_puts(imp) {
            return self.attempt(imp, ImpCall::Resend);
        }
        self.put_resent(imp)
    }

    /// Puts the frames that an IMP sends again on the lines at its ports, if it is up.
    ///
    /// Errors: memory runs out, and nothing else.
    fn put_resent(&mut self, imp: u8) -> Result<(), AllocError>
        requires { imp < length self.old.imps }
        ensures ok { OnOk result (self.new ≡ record self.old { lines = put_all self.old.lines imp (resent (imp_at self.old.imps imp)) }) }
        ensures imps { self.new.imps ≡ self.old.imps }
        ensures memory { OnErr result (0 < length (resent (imp_at self.old.imps imp))) }
        ensures keeps { SameLog self.old self.new }
    {
        resend_at(&mut self.lines, imp, &self.imps[imp as usize])
    }
}

/// Puts the frames that the IMP of a place sends again on its lines, if one is up there.
fn resend_at(lines: &mut Lines, number: u8, place: &Option<Imp>) -> Result<(), AllocError>
    ensures ok { OnOk result (lines.new ≡ put_all lines.old number (resent place.now)) }
    ensures count { length lines.new ≡ length lines.old }
    ensures memory { OnErr result (0 < length (resent place.now)) }
{
    match place {
        Some(imp) => resend_all(lines, number, imp),
        None => Ok(()),
    }
}

/// Puts the frames that an IMP sends again on the lines at its live ports.
#[tactic(auto, using(crate::proofs::Calls::Resending::port_next, crate::proofs::Calls::Resending::some_resent))]
fn resend_all(lines: &mut Lines, number: u8, imp: &Imp) -> Result<(), AllocError>
    ensures ok { OnOk result (lines.new ≡ put_all lines.old number (resent_from 0 imp.now.ports)) }
    ensures count { length lines.new ≡ length lines.old }
    ensures memory { OnErr result (0 < length (resent_from 0 imp.now.ports)) }
{
    for port in 0..imp.port_count() {
        resend_port(lines, number, port, &imp.ports()[port as usize])?;
    }
    Ok(())
}

/// Puts the frames of the busy channels of a port on the line there, if the port is live. Where the line is full, they are
/// not even made.
#[tactic(auto, using(crate::proofs::Calls::Losing::resent_lost, crate::proofs::Calls::Resending::channel_next, crate::proofs::Calls::Resending::none_busy, crate::proofs::Calls::Resending::some_busy))]
fn resend_port(lines: &mut Lines, number: u8, at: u8, port: &Port) -> Result<(), AllocError>
    ensures ok { OnOk result (lines.new ≡ put_all lines.old number (resent_by at port.now)) }
    ensures count { length lines.new ≡ length lines.old }
    ensures memory { OnErr result (0 < length (resent_by at port.now)) }
{
    if !port.up {
        return Ok(());
    }
    if port.line.busy_channels() == 0 {
        return Ok(());
    }
    if lines.is_full(number, at) {
        return Ok(());
    }
    for channel in 0..CHANNELS as u8 {
        resend_channel(lines, number, at, &port.line, channel)?;
    }
    Ok(())
}

/// Puts the frame of a channel on the line at a port, if the channel is busy.
#[tactic(auto, using(crate::proofs::Calls::Resending::one_again, crate::proofs::Calls::Resending::one_some, crate::proofs::Calls::Resending::none_again, crate::proofs::Calls::Resending::busy_some))]
fn resend_channel(
    lines: &mut Lines,
    number: u8,
    at: u8,
    line: &Line,
    channel: u8,
) -> Result<(), AllocError>
    requires { channel < ACKS }
    ensures ok { OnOk result (lines.new ≡ put_all lines.old number (map (on_port at) (frames_of line.now channel (channel_at line.now channel).bit (channel_at line.now channel).packet))) }
    ensures count { length lines.new ≡ length lines.old }
    ensures memory { OnErr result (0 < length (frames_of line.now channel (channel_at line.now channel).bit (channel_at line.now channel).packet)) }
{
    match line.again(channel)? {
        Some(frame) => lines.put_one(number, Outgoing { port: at, frame }),
        None => Ok(()),
    }
}
