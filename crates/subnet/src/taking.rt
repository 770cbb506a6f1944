//! A host takes what came for it.

ghost use Rattle.std.specs.Prelude.{◌≡◌, ◌∷◌, [], None, true, false, is_some, IfOk, IfSome, OnOk, OnErr};
ghost use Rattle.interface.specs.Calls.{crossing_of};
ghost use Rattle.imp_node.specs.Taking as taking;
ghost use Rattle.subnet.specs.Net.{imp_at};
ghost use Rattle.subnet.specs.Events as events;
ghost use Rattle.subnet.specs.Events.{at_up, logging, crossings_of};
ghost use Rattle.subnet.specs.Inside.Calling.{AreLive, SameLog};
ghost use Rattle.subnet.specs.Inside.Giving.{TakesAt, TakesAmong, TakesFrom, TakesIn};

use crate::parts::Parts;
use crate::stuck::gives_nothing;
use imp_node::{Imp, Outgoing};
use interface::{CarrierFault, Crossing, HostAddr, Inbound};
use std::alloc::AllocError;

impl Parts {
    /// Gives a host the oldest of what waits for it. What it gets is put on the log.
    pub(crate) fn take_in(&mut self, host: HostAddr) -> Result<Option<Inbound>, CarrierFault>
        requires { AreLive self.old.imps }
        ensures call { TakesIn host self.old self.new result }
        ensures live { OnOk result (AreLive self.new.imps) }
        ensures keeps { OnErr result (SameLog self.old self.new) }
    {
        if !self.is_there(&host) {
            return Err(CarrierFault::NoSuch);
        }
        let given = self.take_from(host.imp(), host.host())?;
        if self.cross_given(&given).is_err() {
            return Err(CarrierFault::OutOfMemory);
        }
        Ok(given)
    }

    /// Returns whether this is a host of the network, and a taking of it is not refused, gives nothing and changes
    /// nothing.
    #[tactic(auto, using(crate::proofs::Calls::Resting::nothing_taken))]
    pub(crate) fn has_nothing_for(&self, host: &HostAddr) -> bool
        ensures accepted { result ≡ true → events.take_refusal self.now host.now ≡ None }
        ensures nothing { result ≡ true → events.taken_by_host self.now host.now ≡ None }
        ensures unchanged { result ≡ true → events.take_in self.now host.now ≡ self.now }
    {
        self.is_there(host) && self.imp_has_nothing_for(host)
    }

    /// Returns whether a host's IMP is up and says that the host would take nothing, and that nothing would change.
    #[tactic(auto, using(crate::proofs::Calls::Resting::rests_at))]
    fn imp_has_nothing_for(&self, host: &HostAddr) -> bool
        ensures accepted { result ≡ true → at_up (imp_at self.now.imps host.now.imp) (λ s. taking.to_host_refusal s host.now.host) ≡ None }
        ensures nothing { result ≡ true → events.taken_by_host self.now host.now ≡ None }
        ensures unchanged { result ≡ true → events.at_imp (imp_at self.now.imps host.now.imp) host.now.imp (λ s. taking.to_host s host.now.host) self.now ≡ self.now }
    {
        match self.imp(host.imp()) {
            Some(imp) => gives_nothing(imp, host.host()),
            None => false,
        }
    }

    /// Gives a host of an IMP what waits for it, and puts the IMP's frames on lines.
    ///
    /// Errors: `IsDown` where the IMP is down, and then those of the IMP's call.
    fn take_from(&mut self, imp: u8, host: u8) -> Result<Option<Inbound>, CarrierFault>
        requires { AreLive self.old.imps }
        ensures call { TakesFrom imp host self.old self.new result }
        ensures live { OnOk result (AreLive self.new.imps) }
        ensures keeps { SameLog self.old self.new }
    {
        let (given, frames) = take_at_imp(&mut self.imps, imp, host)?;
        if self.put(imp, frames).is_err() {
            return Err(CarrierFault::OutOfMemory);
        }
        Ok(given)
    }

    /// Puts what a host gets on the log.
    fn cross_given(&mut self, given: &Option<Inbound>) -> Result<(), AllocError>
        ensures ok { OnOk result (self.new ≡ logging (crossings_of given.now) self.old) }
        ensures err { OnErr result (self.new ≡ self.old) }
        ensures memory { OnErr result (is_some given.now ≡ true) }
    {
        match given {
            Some(inbound) => self.cross(crossing_of(inbound)?),
            None => Ok(()),
        }
    }
}

/// Returns what a host gets, as a crossing.
fn crossing_of(inbound: &Inbound) -> Result<Crossing, AllocError>
    ensures { IfOk result (λ crossing. crossing ≡ crossing_of inbound.now) }
{
    match inbound {
        Inbound::Message(message) => Ok(Crossing::In(message.clone()?)),
        Inbound::Answer(kind, flow) => Ok(Crossing::Answer(*kind, *flow)),
    }
}

/// Gives a host what waits for it at the IMP of a place, if one is up there.
#[tactic(auto, using(crate::proofs::Calls::Ending::ends_of_turned))]
fn take_at(
    place: &mut Option<Imp>,
    host: u8,
) -> Result<(Option<Inbound>, Vec<Outgoing>), CarrierFault>
    requires { IfSome place.old (λ s. s.spent ≡ false) }
    ensures call { TakesAt host (λ frames. frames.items) place.old place.new result }
    ensures live { OnOk result (IfSome place.new (λ s. s.spent ≡ false)) }
{
    match place {
        Some(imp) => imp.to_host(host),
        None => Err(CarrierFault::IsDown),
    }
}

/// Gives a host what waits for it at the IMP of this number, if it is up.
fn take_at_imp(
    imps: &mut [Option<Imp>],
    imp: u8,
    host: u8,
) -> Result<(Option<Inbound>, Vec<Outgoing>), CarrierFault>
    requires { AreLive imps.old }
    ensures call { TakesAmong imp host (λ frames. frames.items) imps.old imps.new result }
    ensures live { OnOk result (AreLive imps.new) }
{
    let at = imp as usize;
    if at >= imps.len() {
        return Err(CarrierFault::IsDown);
    }
    take_at(&mut imps[at], host)
}
