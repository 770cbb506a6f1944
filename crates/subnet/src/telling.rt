//! An IMP sends its distances, in a quiet round.

ghost use Rattle.std.specs.Prelude.{◌≡◌, ◌<◌, true, length, OnOk, OnErr};
ghost use Rattle.routing.specs.RouteTable.{vector_of};
ghost use Rattle.imp_node.specs.Lines.{told_by, told_from};
ghost use Rattle.subnet.specs.Net.{imp_at, put_all};
ghost use Rattle.subnet.specs.Calls.{grows_at};
ghost use Rattle.subnet.specs.Events as events;
ghost use Rattle.subnet.specs.declared.imp_call.ImpCall.TheVariants as call;
ghost use Rattle.subnet.specs.Inside.Calling.{AreLive, SameLog, call_turn, call_grows};
ghost use Rattle.subnet.specs.Inside.Telling.{OnlyTells, OnlyResends, told};

use crate::imp_call::ImpCall;
use crate::lines::Lines;
use crate::parts::Parts;
use imp_node::{Imp, Outgoing, Port};
use routing::RouteTable;
use std::alloc::AllocError;

impl Parts {
    /// Lets the IMP of this number send its distances, if it is up. Where no packet waits in it, the call would do
    /// nothing else, and its frames are put on the lines one by one.
    ///
    /// Measured: without this, and the same for what goes again, messages over a chain of eight IMPs take some 13 %
    /// more instructions.
    ///
    /// Errors: memory runs out, and nothing else.
    #[tactic(auto, using(crate::proofs::Calls::Attempting::route_ignores, crate::proofs::Calls::Telling::told_alone, crate::proofs::Calls::Telling::told_lives, crate::proofs::Calls::Telling::told_grows))]
    pub(crate) fn tell(&mut self, imp: u8) -> Result<(), AllocError>
        requires { AreLive self.old.imps }
        ensures ok { OnOk result (self.new ≡ events.at_imp (imp_at self.old.imps imp) imp (call_turn call.Route) self.old) }
        ensures live { OnOk result (AreLive self.new.imps) }
        ensures memory { OnErr result (grows_at (imp_at self.old.imps imp) (call_grows call.Route) ≡ true) }
        ensures keeps { SameLog self.old self.new }
    {
        if !self.only_puts(imp) {
            return self.attempt(imp, ImpCall::Route);
        }
        self.put_told(imp)
    }

    /// Returns whether the IMP of this number is up and no packet waits in it: where it sends its distances, or sends
    /// again, it does nothing else.
    pub(crate) fn only_puts(&self, imp: u8) -> bool
        ensures tells { result ≡ true → OnlyTells (imp_at self.now.imps imp) }
        ensures resends { result ≡ true → OnlyResends (imp_at self.now.imps imp) }
        ensures there { result ≡ true → imp < length self.now.imps }
    {
        let at = imp as usize;
        at < self.imps.len() && only_puts(&self.imps[at])
    }

    /// Puts the frames with the distances of an IMP on the lines at its ports, if it is up.
    ///
    /// Errors: memory runs out, and nothing else.
    fn put_told(&mut self, imp: u8) -> Result<(), AllocError>
        requires { imp < length self.old.imps }
        ensures ok { OnOk result (self.new ≡ record self.old { lines = put_all self.old.lines imp (told (imp_at self.old.imps imp)) }) }
        ensures imps { self.new.imps ≡ self.old.imps }
        ensures memory { OnErr result (0 < length (told (imp_at self.old.imps imp))) }
        ensures keeps { SameLog self.old self.new }
    {
        tell_at(&mut self.lines, imp, &self.imps[imp as usize])
    }
}

/// Returns whether the IMP of a place is up and no packet waits in it.
#[tactic(auto, using(crate::proofs::Calls::Telling::tells_alone, crate::proofs::Calls::Resending::resends_alone))]
fn only_puts(place: &Option<Imp>) -> bool
    ensures tells { result ≡ true → OnlyTells place.now }
    ensures resends { result ≡ true → OnlyResends place.now }
{
    match place {
        Some(imp) => imp.store().is_empty(),
        None => false,
    }
}

/// Puts the frames with the distances of the IMP of a place on its lines, if one is up there.
fn tell_at(lines: &mut Lines, number: u8, place: &Option<Imp>) -> Result<(), AllocError>
    ensures ok { OnOk result (lines.new ≡ put_all lines.old number (told place.now)) }
    ensures count { length lines.new ≡ length lines.old }
    ensures memory { OnErr result (0 < length (told place.now)) }
{
    match place {
        Some(imp) => tell_all(lines, number, imp),
        None => Ok(()),
    }
}

/// Puts the frames with an IMP's distances on the lines at its live ports.
#[tactic(auto, using(crate::proofs::Calls::Telling::told_next, crate::proofs::Calls::Telling::some_told))]
fn tell_all(lines: &mut Lines, number: u8, imp: &Imp) -> Result<(), AllocError>
    ensures ok { OnOk result (lines.new ≡ put_all lines.old number (told_from (vector_of imp.now.routes) 0 imp.now.ports)) }
    ensures count { length lines.new ≡ length lines.old }
    ensures memory { OnErr result (0 < length (told_from (vector_of imp.now.routes) 0 imp.now.ports)) }
{
    for port in 0..imp.port_count() {
        tell_port(
            lines,
            number,
            port,
            &imp.ports()[port as usize],
            imp.routes(),
        )?;
    }
    Ok(())
}

/// Puts the frame with an IMP's distances on the line at a port, if the port is live.
#[tactic(auto, using(crate::proofs::Calls::Telling::one_told, crate::proofs::Calls::Telling::one_some, crate::proofs::Calls::Telling::none_told))]
fn tell_port(
    lines: &mut Lines,
    number: u8,
    at: u8,
    port: &Port,
    routes: &RouteTable,
) -> Result<(), AllocError>
    ensures ok { OnOk result (lines.new ≡ put_all lines.old number (told_by (vector_of routes.now) at port.now)) }
    ensures count { length lines.new ≡ length lines.old }
    ensures memory { OnErr result (0 < length (told_by (vector_of routes.now) at port.now)) }
{
    if !port.up {
        return Ok(());
    }
    let frame = port.line.routes_frame(routes.vector());
    lines.put_one(number, Outgoing { port: at, frame })
}
