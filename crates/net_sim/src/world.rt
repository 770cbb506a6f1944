//! Hosts with their programs over a carrier.

ghost use Rattle.std.specs.Prelude.{◌≡◌, ℕ, true, false, [], Ok, IfOk, All};
ghost use Rattle.interface.specs.Host.{IsAddress};
ghost use Rattle.net_sim.specs.Carriers.{shown};
ghost use Rattle.net_sim.specs.Clean.{IsLawful};
ghost use Rattle.net_sim.specs.Handed.{AreUnhanded};
ghost use Rattle.net_sim.specs.Inside.Parts.{IsOnce, hosts_of};
ghost use Rattle.net_sim.specs.Rest.{IsAtRest};
ghost use Rattle.net_sim.specs.Silent.{AllSilent};
ghost use Rattle.net_sim.specs.Steps.{RunGives, StepGives};
ghost use Rattle.net_sim.specs.World.{CalmGives, TurnGives, opening_world};
ghost use Rattle.promise.specs.Fates.{AreFated};

use crate::book::Book;
use crate::mixed_world::MixedWorld;
use crate::parts::Hosts;
use crate::seat::{Seat, ServiceSeat};
use crate::{Event, WorldFault};
use interface::{Carrier, HostAddr};
use promise::{BitLog, Fate};
use std::alloc::{AllocError, Global};
use std::marker::Model;

/// A carrier, the programs of its hosts, what else runs on them, and the book of all that happens to them.
///
/// A world is seen as its carrier, with no strangers, a seat and the services of each host in the carrier's order, the book with
/// what was handed over, and whether running out of memory has stopped it. An event that is refused changes nothing. One in which memory runs out leaves
/// the book as it was, and after it every event is refused as `Stopped`.
#[derive(Drop)]
pub struct World<C: Carrier> {
    core: MixedWorld<C>,
}

impl<C: Carrier> Model for World<C> {
    ghost use Rattle.std.specs.Prelude.{◌≡◌, []};
    ghost use Rattle.net_sim.specs.World.{WorldState};

    ghost Value = { WorldState C };

    ghost view = { λ w. w.core };

    ghost invariant = { λ w. w.core.strangers ≡ [] };
}

impl<C: Carrier> World<C> {
    /// Returns a world of hosts with programs that have just come up, over a carrier whose log is empty and that hasn't
    /// stopped, with an empty book.
    ///
    /// It fails only where no memory is left for the seats of the hosts.
    pub fn new(alloc: Global, carrier: C) -> Result<World<C>, AllocError>
        requires unused { (C.calls.seen carrier).log ≡ [] }
        requires running { (C.calls.seen carrier).stopped ≡ false }
        ensures { IfOk result (λ w. w ≡ opening_world (shown C.calls) carrier) }
    {
        let hosts = Hosts::new(alloc, carrier.hosts())?;
        are_addresses(carrier.hosts());
        Ok(World {
            core: MixedWorld::of_parts(carrier, hosts, Vec::new(alloc)),
        })
    }

    /// Returns what happened so far. It is that of a lawful world, of which `law::clean_resets` speaks: a host that is
    /// through a reset with a peer takes of it, RST and RRP aside, only what went out after its last clean point. And
    /// by `law::books` a message that was answered by RFNM was taken exactly once, and none was taken twice.
    pub fn book(&self) -> Book<'_>
        ensures value { result ≡ self.now.kept }
        ensures lawful { IsLawful C.calls.seen (C.calls.seen self.now.carrier).hosts self.now }
    {
        self.core.book()
    }

    /// Returns what was handed over to be sent, a list of bits for each life, in the order in which the book has the
    /// lives. For a receiving life it is empty.
    pub fn handed(&self) -> &[BitLog]
        ensures value { result.now ≡ self.now.kept.handed }
        ensures empty { AreUnhanded self.now.kept.book.lives self.now.kept.handed }
    {
        self.core.handed()
    }

    /// Returns how far each life is, and how those ended that are over, in the order in which the book has the lives.
    pub fn fates(&self) -> &[Fate]
        ensures value { result.now ≡ self.now.kept.fates }
        ensures fated { AreFated self.now.kept.book.lives self.now.kept.fates }
    {
        self.core.fates()
    }

    /// Returns the carrier.
    pub fn carrier(&self) -> &C
        ensures { result.now ≡ self.now.carrier }
    {
        self.core.carrier()
    }

    /// Returns its strangers, of which there are none.
    pub fn strangers(&self) -> &[HostAddr]
        ensures value { result.now ≡ self.now.strangers }
        ensures none { self.now.strangers ≡ [] }
    {
        self.core.strangers()
    }

    /// Returns what runs on the hosts beside their programs, in the carrier's order.
    pub fn services(&self) -> &[ServiceSeat]
        ensures { result.now ≡ self.now.services }
    {
        self.core.services()
    }

    /// Returns the hosts with their programs, in the carrier's order.
    pub fn seats(&self) -> &[Seat]
        ensures value { result.now ≡ self.now.seats }
        ensures once { self.now.stopped ≡ false → IsOnce (hosts_of self.now.seats) }
    {
        self.core.seats()
    }

    /// Lets one event happen, or refuses it.
    ///
    /// Errors: `Carrier(NoSuch)` for an event at a host that the network doesn't have and `Carrier(IsDown)` at one that is
    /// down, before anything else; what the carrier refuses; what the host's program refuses, as `Program`, and so
    /// `NotOpen` for a line where no terminal came; `HasProgram` for a message that a stranger would send, whether or not
    /// the host is up. What a server or a user asks for is never refused here: that is
    /// reported. Memory can run out only in the carrier, at an offer of something, at a taking of something, at an
    /// event by which something crosses, at a request or a line that isn't refused, and where a server or a user
    /// begins.
    pub fn step(&mut self, event: Event) -> Result<(), WorldFault>
        ensures { StepGives (shown C.calls) self.old event result self.new }
    {
        self.core.step(event)
    }

    /// Lets one event happen as those of a calm do.
    ///
    /// Errors: those of [`World::step`].
    pub fn turn(&mut self, event: &Event) -> Result<(), WorldFault>
        ensures { TurnGives (shown C.calls) self.old event.now result self.new }
    {
        self.core.turn(event)
    }

    /// Lets one event happen after the other. It continues after a refusal, and ends when memory runs out.
    pub fn run(&mut self, events: Vec<Event>) -> Result<(), WorldFault>
        ensures { RunGives (shown C.calls) self.old events.items result self.new }
    {
        self.core.run(events)
    }

    /// Passes `rounds` times: a quiet round of the network, and then each host that is up has its turn, in order of IMP
    /// and host. It takes until nothing waits for it, or 16 times; then it offers until it has nothing to say or is
    /// refused, or 32 times. It continues after refusals. It needs memory where [`World::step`] does. Rounds that would
    /// change nothing are not made once that is known.
    ///
    /// Errors: memory runs out, which ends the calm, and `Stopped` after that.
    pub fn calm(&mut self, rounds: u32) -> Result<(), WorldFault>
        ensures { CalmGives (shown C.calls) rounds self.old result self.new }
    {
        self.core.calm(rounds)
    }

    /// Returns whether more rounds of a calm are known to change nothing: the network is known to rest, and each host
    /// that is up has nothing to say, or is known to be refused what it has to say.
    pub fn rests(&self) -> bool
        ensures rest { result ≡ true → IsAtRest (shown C.calls) self.now }
        ensures unchanged { result ≡ true → (n : ℕ) → CalmGives (shown C.calls) n self.now (Ok tt) self.now }
        ensures running { result ≡ true → self.now.stopped ≡ false }
    {
        self.core.rests()
    }

    /// Returns whether it is known that no host that is up has anything to say.
    pub fn is_silent(&self) -> bool
        ensures { result ≡ true → AllSilent self.now.seats }
    {
        self.core.is_silent()
    }
}

/// Proves that each host has an address, as the type of an address promises.
///
/// It is there for the proof only, and does nothing: of each host that it looks at the prover then knows the ranges.
pub(crate) fn are_addresses(hosts: &[HostAddr])
    ensures { All (λ h. IsAddress h) hosts.now }
{
    for host in hosts {
        let _ = (host.imp(), host.host());
    }
}
