//! An IMP starts: when it is refused, and how it begins.

ghost use Rattle.std.specs.Prelude.{◌≡◌, ◌≤◌, ◌<◌, ◌==◌, ◌&&◌, not, true, false, length, slice_set, count_by, Some, IfOk, OnOk};
ghost use Rattle.std.specs.List.{list_any};
ghost use Rattle.interface.specs.declared.event.NetEvent.TheVariants as event;
ghost use Rattle.imp_node.specs.State.{number};
ghost use Rattle.imp_node.specs.Queries as queries;
ghost use Rattle.subnet.specs.Net.{ends_at};
ghost use Rattle.subnet.specs.Alive.{says, is_remembered, is_awaited};
ghost use Rattle.subnet.specs.Events as events;
ghost use Rattle.subnet.specs.Events.{hosts_at, site_at, is_imp};
ghost use Rattle.subnet.specs.Inside.Calling.{IsLive, AreLive, Steps, SameLog};

use crate::parts::Parts;
use crate::seeking::Sought;
use imp_node::Imp;
use interface::{CarrierFault, ImpNumber};
use std::alloc::{AllocError, Global};

impl Parts {
    /// Starts an IMP, empty and with all its hosts down.
    #[tactic(auto, using(crate::proofs::Calls::Starts::started_lives))]
    pub(crate) fn imp_up(&mut self, imp: ImpNumber) -> Result<(), CarrierFault>
        requires { AreLive self.old.imps }
        ensures step { Steps (event.ImpUp imp) self.old self.new result }
        ensures live { OnOk result (AreLive self.new.imps) }
        ensures keeps { SameLog self.old self.new }
    {
        let number = imp.number();
        if !self.is_imp(number) {
            return Err(CarrierFault::NoSuch);
        }
        if self.finds(&Sought::Touching(imp)) || self.is_remembered(imp) || self.is_awaited(imp) {
            return Err(CarrierFault::StillAlive);
        }
        if self.is_up(number) {
            return Err(CarrierFault::IsUp);
        }
        let Ok(started) = self.started(imp) else {
            return Err(CarrierFault::OutOfMemory);
        };
        self.put_imp(number, started);
        Ok(())
    }

    /// Returns whether another IMP keeps the last number of a flow from this one.
    fn is_remembered(&self, imp: ImpNumber) -> bool
        requires { AreLive self.now.imps }
        ensures { result ≡ is_remembered self.now imp }
    {
        is_kept_beside(&self.imps, imp)
    }

    /// Returns whether a message to a host at this IMP is outstanding at another IMP.
    fn is_awaited(&self, imp: ImpNumber) -> bool
        requires { AreLive self.now.imps }
        ensures { result ≡ is_awaited self.now imp }
    {
        is_awaited_beside(&self.imps, imp)
    }

    /// Returns an IMP of the network as it starts.
    #[tactic(auto, using(crate::proofs::Calls::Starts::all_ports, crate::proofs::Calls::Starts::few_sites))]
    fn started(&self, imp: ImpNumber) -> Result<Imp, AllocError>
        requires { is_imp self.now imp ≡ true }
        ensures { IfOk result (λ s. s ≡ events.started_imp imp (hosts_at (site_at self.now imp)) (count_by (ends_at imp) self.now.lines)) }
    {
        let ports = self.port(imp.number(), self.lines.len());
        let hosts = self.host_count(imp.number());
        start(self.alloc, imp, hosts, ports)
    }

    /// Returns how many hosts an IMP has; none if it isn't there.
    #[tactic(auto, using(crate::proofs::Calls::Starts::few_hosts))]
    fn host_count(&self, imp: u8) -> u8
        ensures count { result ≡ hosts_at (site_at self.now imp) }
        ensures most { result ≤ 4 }
    {
        let at = imp as usize;
        if at < self.sites.len() {
            self.sites[at].unwrap_or(0)
        } else {
            0
        }
    }

    /// Puts an IMP at its place.
    fn put_imp(&mut self, imp: u8, started: Imp)
        ensures imps { self.new ≡ record self.old { imps = slice_set self.old.imps imp (Some started) } }
    {
        let at = imp as usize;
        if at < self.imps.len() {
            self.imps[at] = Some(started);
        }
    }
}

/// Returns an IMP with this many hosts, all of which are down, and this many ports.
fn start(alloc: Global, imp: ImpNumber, hosts: u8, ports: u8) -> Result<Imp, AllocError>
    requires { hosts ≤ 4 }
    ensures { IfOk result (λ s. s ≡ events.started_imp imp hosts ports) }
{
    let mut started = Imp::new(alloc, imp, hosts, ports)?;
    for host in 0..hosts {
        let Ok(_) = started.host_down(host) else {
            return Err(AllocError);
        };
    }
    Ok(started)
}

/// Returns whether the IMP of a place is up and keeps a last number of a flow from this IMP.
fn keeps(place: &Option<Imp>, imp: ImpNumber) -> bool
    ensures { result ≡ says (λ s. queries.keeps s imp) place.now }
{
    match place {
        Some(other) => other.keeps(imp),
        None => false,
    }
}

/// Returns whether the IMP of this place is another one that is up and keeps a last number of a flow from this IMP.
#[tactic(auto, using(crate::proofs::Calls::Starts::beside_same, crate::proofs::Calls::Starts::beside_other))]
fn is_kept_at(at: usize, place: &Option<Imp>, imp: ImpNumber) -> bool
    requires { IsLive at place.now }
    ensures { result ≡ says (λ s. not (number s == imp) && queries.keeps s imp) place.now }
{
    if at == imp.number() as usize {
        return false;
    }
    keeps(place, imp)
}

/// Returns whether an IMP at another place keeps a last number of a flow from this IMP.
fn is_kept_beside(imps: &[Option<Imp>], imp: ImpNumber) -> bool
    requires { AreLive imps.now }
    ensures { result ≡ list_any (says (λ s. not (number s == imp) && queries.keeps s imp)) imps.now }
{
    for (at, place) in imps.iter().enumerate() {
        if is_kept_at(at, place, imp) {
            return true;
        }
    }
    false
}

/// Returns whether the IMP of a place is up and has a message to a host at this IMP outstanding.
fn awaits(place: &Option<Imp>, imp: ImpNumber) -> bool
    ensures { result ≡ says (λ s. queries.awaits s imp) place.now }
{
    match place {
        Some(other) => other.awaits(imp),
        None => false,
    }
}

/// Returns whether the IMP of this place is another one that is up and has a message to a host at this IMP outstanding.
#[tactic(auto, using(crate::proofs::Calls::Starts::awaited_same, crate::proofs::Calls::Starts::awaited_other))]
fn is_awaited_at(at: usize, place: &Option<Imp>, imp: ImpNumber) -> bool
    requires { IsLive at place.now }
    ensures { result ≡ says (λ s. not (number s == imp) && queries.awaits s imp) place.now }
{
    if at == imp.number() as usize {
        return false;
    }
    awaits(place, imp)
}

/// Returns whether an IMP at another place has a message to a host at this IMP outstanding.
fn is_awaited_beside(imps: &[Option<Imp>], imp: ImpNumber) -> bool
    requires { AreLive imps.now }
    ensures { result ≡ list_any (says (λ s. not (number s == imp) && queries.awaits s imp)) imps.now }
{
    for (at, place) in imps.iter().enumerate() {
        if is_awaited_at(at, place, imp) {
            return true;
        }
    }
    false
}
