//! Hosts that stop and start, and IMPs that stop.

ghost use Rattle.std.specs.Prelude.{◌≡◌, ◌<◌, ◌≤◌, ◌++◌, length, None, true, reverse, slice_set, IfOk, OnOk, OnErr};
ghost use Rattle.interface.specs.declared.event.NetEvent.TheVariants as event;
ghost use Rattle.subnet.specs.Net.{imp_at};
ghost use Rattle.subnet.specs.Calls.{grows_at, has_host_up};
ghost use Rattle.subnet.specs.Events.{logging, downs_at, downs_from};
ghost use Rattle.subnet.specs.Inside.Calling.{AreLive, Steps, SameLog, down_of};
ghost use Rattle.imp_node.specs.State.{host_at};

use crate::imp_call::ImpCall;
use crate::parts::Parts;
use imp_node::Imp;
use interface::{CarrierFault, Crossing, HostAddr, ImpNumber, MOST_HOSTS};
use std::alloc::{AllocError, Global};

impl Parts {
    /// Stops a host: what waits for it is cleared, and the sources of these messages gets Dead.
    pub(crate) fn host_down(&mut self, host: HostAddr) -> Result<(), CarrierFault>
        requires { AreLive self.old.imps }
        ensures step { Steps (event.HostDown host) self.old self.new result }
        ensures live { OnOk result (AreLive self.new.imps) }
        ensures keeps { OnErr result (SameLog self.old self.new) }
    {
        if !self.is_there(&host) {
            return Err(CarrierFault::NoSuch);
        }
        self.at_imp(host.imp(), ImpCall::HostDown(host.host()))?;
        if self.cross(Crossing::Down(host)).is_err() {
            return Err(CarrierFault::OutOfMemory);
        }
        Ok(())
    }

    /// Starts a host, unless a message of it is outstanding.
    pub(crate) fn host_up(&mut self, host: HostAddr) -> Result<(), CarrierFault>
        requires { AreLive self.old.imps }
        ensures step { Steps (event.HostUp host) self.old self.new result }
        ensures live { OnOk result (AreLive self.new.imps) }
        ensures keeps { OnErr result (SameLog self.old self.new) }
    {
        if !self.is_there(&host) {
            return Err(CarrierFault::NoSuch);
        }
        self.at_imp(host.imp(), ImpCall::HostUp(host.host()))?;
        if self.cross(Crossing::Up(host)).is_err() {
            return Err(CarrierFault::OutOfMemory);
        }
        Ok(())
    }

    /// Stops an IMP, and its hosts with it. What it held is gone; frames on its lines stay.
    #[tactic(auto, using(crate::proofs::Calls::Stopping::stopped_lives))]
    pub(crate) fn imp_down(&mut self, imp: ImpNumber) -> Result<(), CarrierFault>
        requires { AreLive self.old.imps }
        ensures step { Steps (event.ImpDown imp) self.old self.new result }
        ensures live { OnOk result (AreLive self.new.imps) }
        ensures keeps { OnErr result (SameLog self.old self.new) }
    {
        let number = imp.number();
        if !self.is_imp(number) {
            return Err(CarrierFault::NoSuch);
        }
        if !self.is_up(number) {
            return Err(CarrierFault::IsDown);
        }
        if self.cross_downs(imp).is_err() {
            return Err(CarrierFault::OutOfMemory);
        }
        self.take_imp(number);
        Ok(())
    }

    /// Puts on the log that the hosts of an IMP go down, in their order.
    #[tactic(auto, using(crate::proofs::Calls::Stopping::all_crossed, crate::proofs::Calls::Stopping::crossed_up))]
    fn cross_downs(&mut self, imp: ImpNumber) -> Result<(), AllocError>
        ensures ok { OnOk result (self.new ≡ logging (downs_at imp (imp_at self.old.imps imp)) self.old) }
        ensures err { OnErr result (self.new ≡ self.old) }
        ensures memory { OnErr result (grows_at (imp_at self.old.imps imp) has_host_up ≡ true) }
    {
        let mut downs = self.downs(imp)?;
        if downs.is_empty() {
            return Ok(());
        }
        self.log.append(&mut downs)
    }

    /// Returns the crossings of an IMP's hosts that go down with it, the oldest first.
    fn downs(&self, imp: ImpNumber) -> Result<Vec<Crossing>, AllocError>
        ensures downs { IfOk result (λ downs. downs.items ≡ reverse (downs_at imp (imp_at self.now.imps imp))) }
        ensures memory { OnErr result (grows_at (imp_at self.now.imps imp) has_host_up ≡ true) }
    {
        match self.imp(imp.number()) {
            Some(up) => downs_of(self.alloc, imp, up),
            None => Ok(Vec::new(self.alloc)),
        }
    }

    /// Takes an IMP away.
    fn take_imp(&mut self, imp: u8)
        ensures { self.new ≡ record self.old { imps = slice_set self.old.imps imp None } }
    {
        let at = imp as usize;
        if at < self.imps.len() {
            self.imps[at] = None;
        }
    }
}

/// Returns the crossings of an IMP's hosts that are up, as they go down, the oldest first.
#[tactic(auto, using(crate::proofs::Calls::Stopping::in_order_is))]
fn downs_of(alloc: Global, imp: ImpNumber, up: &Imp) -> Result<Vec<Crossing>, AllocError>
    ensures downs { IfOk result (λ downs. downs.items ≡ reverse (downs_from imp 0 up.now.hosts)) }
    ensures memory { OnErr result (has_host_up up.now ≡ true) }
{
    let mut downs = Vec::new(alloc);
    for host in 0..MOST_HOSTS {
        push_down(&mut downs, imp, up, host)?;
    }
    Ok(downs)
}

/// Puts the crossing of one host after the others, if that host is up.
fn push_down(
    downs: &mut Vec<Crossing>,
    imp: ImpNumber,
    up: &Imp,
    host: u8,
) -> Result<(), AllocError>
    requires { host < 4 }
    ensures ok { OnOk result (downs.new.items ≡ downs.old.items ++ down_of imp host (host_at up.now host)) }
    ensures few { length up.now.hosts ≤ 4 }
    ensures memory { OnErr result ((host_at up.now host).up ≡ true) }
{
    if up.is_up(host) {
        downs.push(Crossing::Down(host_of(imp, host)))?;
    }
    Ok(())
}

/// Returns a host of an IMP.
fn host_of(imp: ImpNumber, host: u8) -> HostAddr
    requires { host < 4 }
    ensures { result ≡ record { imp = imp; host = host } }
{
    match HostAddr::new(host, imp.number()) {
        Some(address) => address,
        None => unreachable!(),
    }
}
