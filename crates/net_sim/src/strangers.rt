//! What strangers do, what is asked of them, and why there is no world with strangers.

ghost use Rattle.std.specs.Prelude.{◌≡◌, filter, IfOk};
ghost use Rattle.interface.specs.Host.{is_host};
ghost use Rattle.net_sim.specs.Carriers.{shown};
ghost use Rattle.net_sim.specs.Inside.Held.{among_after, among_of};
ghost use Rattle.net_sim.specs.Inside.Parts.{AreLive, world_after, world_of};
ghost use Rattle.net_sim.specs.Steps as steps;
ghost use Rattle.net_sim.specs.World.{Out, Take};
ghost use Rattle.net_sim.specs.Steps.{AskedGives, FetchGives, AmongGives, OutGives, with_programs};

use crate::events::{self, follow, refuse};
use crate::hosting::likely_place;
use crate::parts::Hosts;
use crate::{Event, WorldFault};
use interface::{Carrier, HostAddr, HostMessage};
use std::alloc::{AllocError, Global};
use thiserror::Error;

/// Why there is no world with these strangers.
#[derive(Clone, Copy, Debug, Drop, PartialEq, Eq, Error)]
pub enum StrangersFault {
    /// This host is named as a stranger, and isn't in the network: the first such host.
    #[error("NoSuch")]
    NoSuch(HostAddr),
    /// No memory was left for the hosts.
    #[error("OutOfMemory")]
    OutOfMemory,
}

/// Returns whether a host is one of these.
fn is_among(hosts: &[HostAddr], host: HostAddr) -> bool
    ensures { result ≡ is_host hosts.now host }
{
    hosts.iter().any(|other| host == *other)
}

/// Returns the first of the named hosts that isn't in the network.
pub(crate) fn absent_in(hosts: &[HostAddr], named: &[HostAddr]) -> Option<HostAddr>
    ensures { result ≡ steps.absent_in hosts.now named.now }
{
    named.iter().copied().find(|host| !is_among(hosts, *host))
}

/// Returns those of the carrier's hosts that are named as strangers.
pub(crate) fn strangers_of(
    alloc: Global,
    hosts: &[HostAddr],
    named: &[HostAddr],
) -> Result<Vec<HostAddr>, AllocError>
    ensures { IfOk result (λ found. found.items ≡ filter (λ h. is_host named.now h) hosts.now) }
{
    let mut found = Vec::new(alloc);
    for host in hosts {
        if is_among(named, *host) {
            found.push(*host)?;
        }
    }
    Ok(found)
}

/// Returns those of the carrier's hosts that run the program.
pub(crate) fn programs_of(
    alloc: Global,
    hosts: &[HostAddr],
    strangers: &[HostAddr],
) -> Result<Vec<HostAddr>, AllocError>
    ensures { IfOk result (λ found. found.items ≡ with_programs (λ h. is_host strangers.now h) hosts.now) }
{
    let mut found = Vec::new(alloc);
    for host in hosts {
        if !is_among(strangers, *host) {
            found.push(*host)?;
        }
    }
    Ok(found)
}

/// Returns the host that sends a message.
fn source_of(message: &HostMessage) -> HostAddr
    ensures { result ≡ message.now.flow.source }
{
    message.flow.source
}

/// Returns the host at which something is asked for.
fn asked_at(event: &Event) -> Option<HostAddr>
    ensures { result ≡ steps.asked_at event.now }
{
    match event {
        Event::Net(_) | Event::Quiet | Event::Take(_) | Event::Out(_) => None,
        Event::Offer(host)
        | Event::Ask(host, _)
        | Event::Server { host, .. }
        | Event::User { host, .. }
        | Event::Typed { host, .. } => Some(*host),
    }
}

/// Returns whether a stranger is asked for something.
fn asks_stranger(strangers: &[HostAddr], event: &Event) -> bool
    ensures { result ≡ steps.is_strange (λ h. is_host strangers.now h) (steps.asked_at event.now) }
{
    match asked_at(event) {
        Some(host) => is_among(strangers, host),
        None => false,
    }
}

/// Offers a stranger's message to the network as it is.
fn go_out<C: Carrier>(
    carrier: &mut C,
    hosts: &mut Hosts,
    message: HostMessage,
) -> Result<(), WorldFault>
    ensures { OutGives (shown C.calls) message (world_of carrier.old hosts.old) result (world_after carrier.new hosts.new result) }
{
    let before = carrier.log().len();
    if let Err(fault) = carrier.offer_out(message) {
        return Err(WorldFault::Carrier(fault));
    }
    hosts.change(&carrier.log()[before..])
}

/// Lets a stranger take what came for it.
fn fetch<C: Carrier>(carrier: &mut C, hosts: &mut Hosts, host: HostAddr) -> Result<(), WorldFault>
    ensures { FetchGives (shown C.calls) host (world_of carrier.old hosts.old) result (world_after carrier.new hosts.new result) }
{
    let before = carrier.log().len();
    match carrier.take_in(host) {
        Ok(Some(_)) => hosts.change(&carrier.log()[before..]),
        Ok(None) => Ok(()),
        Err(fault) => Err(WorldFault::Carrier(fault)),
    }
}

/// Offers a message of a stranger. Another host has a program, which says itself what goes out.
fn say<C: Carrier>(
    carrier: &mut C,
    hosts: &mut Hosts,
    strangers: &[HostAddr],
    message: HostMessage,
) -> Result<(), WorldFault>
    ensures { AmongGives (shown C.calls) (among_of carrier.old hosts.old strangers.now) (Out message) result (among_after carrier.new hosts.new strangers.now result) }
{
    let source = source_of(&message);
    if is_among(strangers, source) {
        return go_out(carrier, hosts, message);
    }
    refuse(carrier, hosts, &message)
}

/// Lets a host take what came for it. A stranger's taking is only written down.
fn take<C: Carrier>(
    carrier: &mut C,
    hosts: &mut Hosts,
    strangers: &[HostAddr],
    host: HostAddr,
) -> Result<(), WorldFault>
    requires live { AreLive hosts.old.seats }
    ensures { AmongGives (shown C.calls) (among_of carrier.old hosts.old strangers.now) (Take host) result (among_after carrier.new hosts.new strangers.now result) }
{
    if is_among(strangers, host) {
        return fetch(carrier, hosts, host);
    }
    let likely = likely_place(hosts.seats(), host);
    events::take(carrier, hosts, likely, host)
}

/// Lets happen what may happen in any world, unless a stranger is asked for it.
fn ask<C: Carrier>(
    carrier: &mut C,
    hosts: &mut Hosts,
    strangers: &[HostAddr],
    event: &Event,
) -> Result<(), WorldFault>
    requires live { AreLive hosts.old.seats }
    ensures { AskedGives (shown C.calls) (among_of carrier.old hosts.old strangers.now) event.now result (among_after carrier.new hosts.new strangers.now result) }
{
    if asks_stranger(strangers, event) {
        // for the proof only: the carrier is asked nothing here, and `log` says what it shows, which stays the same
        let _ = carrier.log();
        return Err(WorldFault::NoProgram);
    }
    follow(carrier, hosts, event)
}

/// Lets any event happen. A stranger takes what came for it and sends what it likes, and is asked for nothing.
pub(crate) fn follow_among<C: Carrier>(
    carrier: &mut C,
    hosts: &mut Hosts,
    strangers: &[HostAddr],
    event: Event,
) -> Result<(), WorldFault>
    requires live { AreLive hosts.old.seats }
    ensures { AmongGives (shown C.calls) (among_of carrier.old hosts.old strangers.now) event result (among_after carrier.new hosts.new strangers.now result) }
{
    match event {
        Event::Out(message) => say(carrier, hosts, strangers, message),
        Event::Take(host) => take(carrier, hosts, strangers, host),
        other => ask(carrier, hosts, strangers, &other),
    }
}
