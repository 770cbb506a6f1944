//! Hosts over a carrier, some of which may be strangers.

ghost use Rattle.std.specs.Prelude.{◌≡◌, false, [], IfOk, length};
ghost use Rattle.net_sim.specs.Carriers.{shown};
ghost use Rattle.net_sim.specs.Clean.{IsLawful, IsLawfulAmong};
ghost use Rattle.net_sim.specs.Handed.{AreUnhanded};
ghost use Rattle.net_sim.specs.Inside.Held.{IsHeld, among_of};
ghost use Rattle.net_sim.specs.Inside.Parts as parts;
ghost use Rattle.net_sim.specs.Inside.Parts.{AreLive, IsOnce, hosts_of, world_after, world_of};
ghost use Rattle.net_sim.specs.Steps.{OpensAmong, RunGives, StepGives, opening_mixed, strange_in};
ghost use Rattle.net_sim.specs.World as world;
ghost use Rattle.net_sim.specs.World.{EventGives, TurnGives};
ghost use Rattle.promise.specs.Fates.{AreFated};

use crate::book::Book;
use crate::events::{follow, is_named, offer, take};
use crate::parts::Hosts;
use crate::seat::{Seat, ServiceSeat};
use crate::strangers::{StrangersFault, absent_in, follow_among, programs_of, strangers_of};
use crate::world::are_addresses;
use crate::{Event, WorldFault};
use interface::{Carrier, CarrierFault, HostAddr};
use promise::{BitLog, Fate};
use sockets::NcpFault;
use std::alloc::{AllocError, Global};
use std::marker::Model;

/// A carrier, those of its hosts that are strangers, which run anything, the programs of the others, what else runs on
/// them, and the book of all that happens to these.
///
/// A world is seen as its carrier, its strangers, a seat and the services of each other host in the carrier's order, the
/// book with what was handed over, and whether running out of memory has stopped it. A stranger says what it likes to
/// whom it likes, in its own name, and takes when it likes. An event that is refused changes nothing. One in which memory
/// runs out leaves the book as it was, and after it every event is refused as `Stopped`.
#[derive(Drop)]
pub struct MixedWorld<C: Carrier> {
    carrier: C,
    hosts: Hosts,
    strangers: Vec<HostAddr>,
    stopped: bool,
}

impl<C: Carrier> Model for MixedWorld<C> {
    ghost use Rattle.net_sim.specs.Inside.Held.{IsHeld, of_hosts};
    ghost use Rattle.net_sim.specs.World.{WorldState};

    ghost Value = { WorldState C };

    ghost view = { λ w. of_hosts w.carrier w.hosts w.strangers.items w.stopped };

    ghost invariant = { λ w. IsHeld C.calls.seen (of_hosts w.carrier w.hosts w.strangers.items w.stopped) };
}

impl<C: Carrier> MixedWorld<C> {
    /// Returns a world over a carrier whose log is empty and that hasn't stopped, with an empty book. Of the carrier's
    /// hosts those that are named here are strangers, and the others have programs that have just come up. A host may be
    /// named twice, and in any order.
    ///
    /// Errors: `NoSuch`, with the first host that is named and isn't in the network, and after that `OutOfMemory`.
    pub fn new(
        alloc: Global,
        carrier: C,
        named: &[HostAddr],
    ) -> Result<MixedWorld<C>, StrangersFault>
        requires unused { (C.calls.seen carrier).log ≡ [] }
        requires running { (C.calls.seen carrier).stopped ≡ false }
        ensures { OpensAmong (shown C.calls) carrier named.now result }
    {
        if let Some(host) = absent_in(carrier.hosts(), named) {
            return Err(StrangersFault::NoSuch(host));
        }
        match MixedWorld::beside(alloc, carrier, named) {
            Ok(world) => Ok(world),
            Err(_) => Err(StrangersFault::OutOfMemory),
        }
    }

    /// Returns such a world, in which those of the carrier's hosts that are named are strangers.
    fn beside(alloc: Global, carrier: C, named: &[HostAddr]) -> Result<MixedWorld<C>, AllocError>
        requires unused { (C.calls.seen carrier).log ≡ [] }
        requires running { (C.calls.seen carrier).stopped ≡ false }
        ensures { IfOk result (λ s. s ≡ opening_mixed (shown C.calls) carrier named.now) }
    {
        let strangers = strangers_of(alloc, carrier.hosts(), named)?;
        let programs = programs_of(alloc, carrier.hosts(), &strangers)?;
        let hosts = Hosts::new(alloc, &programs)?;
        are_addresses(carrier.hosts());
        Ok(MixedWorld::of_parts(carrier, hosts, strangers))
    }

    /// Returns a world of these parts, in which memory has lasted.
    pub(crate) fn of_parts(carrier: C, hosts: Hosts, strangers: Vec<HostAddr>) -> MixedWorld<C>
        requires { IsHeld C.calls.seen (among_of carrier hosts strangers.items) }
        ensures { result ≡ among_of carrier hosts strangers.items }
    {
        MixedWorld {
            carrier,
            hosts,
            strangers,
            stopped: false,
        }
    }

    /// Returns what happened so far. It is that of a lawful world, of which the laws speak: what is promised where every
    /// host runs the program is promised between any two that do, whatever strangers send. By `law::clean_resets` a host
    /// that is through a reset with a peer takes of it, RST and RRP aside, only what went out after its last clean point.
    /// And by `law::books` a message that was answered by RFNM was taken exactly once, and none was taken twice.
    pub fn book(&self) -> Book<'_>
        ensures value { result ≡ self.now.kept }
        ensures lawful { IsLawfulAmong (strange_in self.now) C.calls.seen (C.calls.seen self.now.carrier).hosts self.now }
        ensures alone { self.now.strangers ≡ [] → IsLawful C.calls.seen (C.calls.seen self.now.carrier).hosts self.now }
    {
        self.hosts.book(self.carrier.log())
    }

    /// Returns what was handed over to be sent, a list of bits for each life, in the order in which the book has the lives. For a
    /// receiving life it is empty.
    pub fn handed(&self) -> &[BitLog]
        ensures value { result.now ≡ self.now.kept.handed }
        ensures empty { AreUnhanded self.now.kept.book.lives self.now.kept.handed }
    {
        self.book().handed()
    }

    /// Returns how far each life is, and how those ended that are over, in the order in which the book has the lives.
    pub fn fates(&self) -> &[Fate]
        ensures value { result.now ≡ self.now.kept.fates }
        ensures fated { AreFated self.now.kept.book.lives self.now.kept.fates }
    {
        self.book().fates()
    }

    /// Returns the carrier.
    pub fn carrier(&self) -> &C
        ensures { result.now ≡ self.now.carrier }
    {
        &self.carrier
    }

    /// Returns the hosts with their programs, in the carrier's order.
    pub fn seats(&self) -> &[Seat]
        ensures value { result.now ≡ self.now.seats }
        ensures once { self.now.stopped ≡ false → IsOnce (hosts_of self.now.seats) }
    {
        self.hosts.seats()
    }

    /// Returns what runs on these hosts beside their programs, in the carrier's order.
    pub fn services(&self) -> &[ServiceSeat]
        ensures { result.now ≡ self.now.services }
    {
        self.hosts.services()
    }

    /// Returns the strangers, in the carrier's order.
    pub fn strangers(&self) -> &[HostAddr]
        ensures { result.now ≡ self.now.strangers }
    {
        &self.strangers
    }

    /// Returns how many crossings there were.
    pub(crate) fn crossed(&self) -> usize
        ensures { result ≡ length self.now.kept.book.crossings }
    {
        self.hosts.crossed()
    }

    /// Returns whether running out of memory has stopped it.
    pub(crate) fn is_stopped(&self) -> bool
        ensures { result ≡ self.now.stopped }
    {
        self.stopped
    }

    /// Lets one event happen, or refuses it.
    ///
    /// Errors: `NoProgram` for what a stranger's user or program would be asked for, and `HasProgram` where another host
    /// than a stranger is to send a message that its program doesn't say, whether or not it is up. Else `Carrier(NoSuch)`
    /// for an event at a host that the network doesn't have and `Carrier(IsDown)` at one that is down, before anything
    /// else; what the carrier refuses; what the host's program refuses, as `Program`, and so `NotOpen` for a line where no
    /// terminal came. What a server or a user asks for is never refused here: that is reported. Memory can run out only in
    /// the carrier, at an offer of something, at a taking of something, at an event by which something crosses, at a
    /// request or a line that isn't refused, and where a server or a user begins.
    pub fn step(&mut self, event: Event) -> Result<(), WorldFault>
        ensures { StepGives (shown C.calls) self.old event result self.new }
    {
        if self.stopped {
            return Err(WorldFault::Carrier(CarrierFault::Stopped));
        }
        is_named(&event);
        let done = follow_among(&mut self.carrier, &mut self.hosts, &self.strangers, event);
        // for the proof only, as in `turn_near`
        let _ = self.carrier.log();
        self.stopped = runs_out(&done);
        done
    }

    /// Lets one event happen as those of a calm do, in which no stranger has a turn: at a stranger it is refused, as at a host
    /// that the network doesn't have, and what waits for it stays.
    ///
    /// Errors: those of [`MixedWorld::step`].
    pub fn turn(&mut self, event: &Event) -> Result<(), WorldFault>
        ensures gives { TurnGives (shown C.calls) self.old event.now result self.new }
        ensures strangers { self.new.strangers ≡ self.old.strangers }
    {
        self.turn_near(None, event)
    }

    /// Lets one event happen as [`MixedWorld::turn`] does. The seat of a host that takes or offers is looked for at a likely place
    /// first, if one is given.
    pub(crate) fn turn_near(
        &mut self,
        likely: Option<usize>,
        event: &Event,
    ) -> Result<(), WorldFault>
        ensures { TurnGives (shown C.calls) self.old event.now result self.new }
    {
        is_named(event);
        if self.stopped {
            return Err(WorldFault::Carrier(CarrierFault::Stopped));
        }
        let done = follow_near(&mut self.carrier, &mut self.hosts, likely, event);
        // for the proof only: the log is a run of the mailboxes, which is a part of what a world keeps
        let _ = self.carrier.log();
        self.stopped = runs_out(&done);
        done
    }

    /// Lets one event happen after the other. It continues after a refusal, and ends when memory runs out.
    pub fn run(&mut self, events: Vec<Event>) -> Result<(), WorldFault>
        ensures { RunGives (shown C.calls) self.old events.items result self.new }
    {
        if self.stopped {
            return Err(WorldFault::Carrier(CarrierFault::Stopped));
        }
        for event in events {
            let done = self.step(event);
            if stops(&done) {
                return done;
            }
        }
        Ok(())
    }
}

/// Lets any event happen, as [`follow`] does, at a likely place if one is given.
fn follow_near<C: Carrier>(
    carrier: &mut C,
    hosts: &mut Hosts,
    likely: Option<usize>,
    event: &Event,
) -> Result<(), WorldFault>
    requires live { AreLive hosts.old.seats }
    ensures { EventGives (shown C.calls) (world_of carrier.old hosts.old) event.now result (world_after carrier.new hosts.new result) }
{
    match (likely, event) {
        (Some(at), Event::Offer(host)) => offer(carrier, hosts, at, *host),
        (Some(at), Event::Take(host)) => take(carrier, hosts, at, *host),
        _ => follow(carrier, hosts, event),
    }
}

/// Returns whether memory ran out.
fn runs_out(done: &Result<(), WorldFault>) -> bool
    ensures { result ≡ parts.runs_out done.now }
{
    matches!(
        done,
        Err(
            WorldFault::Carrier(CarrierFault::OutOfMemory)
                | WorldFault::Program(NcpFault::OutOfMemory)
        )
    )
}

/// Returns whether a list of events ends after this answer.
pub(crate) fn stops(done: &Result<(), WorldFault>) -> bool
    ensures { result ≡ world.stops done.now }
{
    matches!(
        done,
        Err(
            WorldFault::Carrier(CarrierFault::OutOfMemory | CarrierFault::Stopped)
                | WorldFault::Program(NcpFault::OutOfMemory)
        )
    )
}
