//! What a trace asks of a world, with strangers or without.

ghost use Rattle.std.specs.Prelude.{◌≡◌, List, ℕ, Err, IfSome, OnOk, Option, [], false, true};
ghost use Rattle.interface.specs.Host.{Host};
ghost use Rattle.net_sim.specs.Carriers.{shown};
ghost use Rattle.net_sim.specs.Rest.{IsAtRest};
ghost use Rattle.net_sim.specs.World.{WorldState};
ghost use Rattle.replay.specs.Failing.{TellsCannotWrite};
ghost use Rattle.replay.specs.InTurn.{Happening};
ghost use Rattle.replay.specs.declared.print.Detail.TheVariants.{Sizes};
ghost use Rattle.trace.specs.declared.element.Spot.{Spot};
ghost use Rattle.world_replay.specs.Kinds.{rounds_in};
ghost use Rattle.world_replay.specs.Output.{Writes};
ghost use Rattle.world_replay.specs.Replay.{HappensInCalm, MayStep, StopsInCalm};
ghost use Rattle.world_script.specs.declared.event.WorldEvent.{WorldEvent};
ghost use Rattle.world_trace.specs.MixedTraces.{MayTellMixed, MixedEndsAt, StopsMixed, TellsMixedAt};
ghost use Rattle.world_trace.specs.Seen.{CalmHandsOn};
ghost use Rattle.world_trace.specs.Steps.{AreTextsOf, EndsAs};
ghost use Rattle.world_trace.specs.Traces.{EndsAt, MayTell, StopsOne, TellsAt};

use crate::mixed::trace_mixed_event;
use crate::texts::Texts;
use crate::traced::trace_world_event;
use interface::Carrier;
use net_sim::{Book, Event, MixedWorld, Seat, ServiceSeat, World};
use replay::{Detail, Output, ReplayFault};
use std::alloc::Global;
use trace::{Inspect, Spot};
use world_replay::{has_calmed, replay_in_calm, replay_mixed_in_calm};
use world_script::WorldEvent;

/// A world that is traced: what is shown of it, and how a calm passes in it.
pub(crate) trait Traced<C: Inspect> {
    /// The world of its hosts with programs.
    ghost state: { Self → WorldState C };

    /// Its strangers.
    ghost strangers: { Self → List Host };

    /// Returns its carrier.
    fn carrier(&self) -> &C
        ensures { result.now ≡ (state self.now).carrier };

    /// Returns the hosts with their programs.
    fn seats(&self) -> &[Seat]
        ensures { result.now ≡ (state self.now).seats };

    /// Returns what runs on these hosts beside their programs.
    fn services(&self) -> &[ServiceSeat]
        ensures { result.now ≡ (state self.now).services };

    /// Returns what happened so far.
    fn book(&self) -> Book<'_>
        ensures { result ≡ (state self.now).kept };

    /// Lets one event happen as an event of a calm, and prints what it shows.
    ///
    /// Errors: as in [`replay_in_calm`].
    fn replay_in_calm<W: Output>(&mut self, event: Event, writer: &mut W) -> Result<(), ReplayFault>
        requires { W.failed writer.old ≡ false }
        ensures replayed { OnOk result (Writes Sizes (HappensInCalm (shown C.calls) (state self.old) event (state self.new)) (W.contents writer.old) (W.contents writer.new)) }
        ensures memory { result ≡ Err ReplayFault.OutOfMemory → Writes Sizes (StopsInCalm (shown C.calls) (state self.old) event (state self.new)) (W.contents writer.old) (W.contents writer.new) }
        ensures failed { TellsCannotWrite result (W.failed writer.new) }
        ensures cannot_write { result ≡ Err ReplayFault.CannotWrite → MayStep (shown C.calls) (state self.old) event (state self.new) }
        ensures strangers { strangers self.new ≡ strangers self.old };

    /// Returns whether more rounds of a calm are known to change nothing: nothing has crossed since the book had this
    /// many crossings, and the world rests. This takes no memory.
    fn has_calmed(&self, before: usize) -> bool
        ensures { result ≡ true → IsAtRest (shown C.calls) (state self.now) };
}

impl<C: Inspect> Traced<C> for World<C> {
    ghost state = { λ w. w };

    ghost strangers = { λ w. [] };

    fn carrier(&self) -> &C {
        World::carrier(self)
    }

    fn seats(&self) -> &[Seat] {
        World::seats(self)
    }

    fn services(&self) -> &[ServiceSeat] {
        World::services(self)
    }

    fn book(&self) -> Book<'_> {
        World::book(self)
    }

    fn replay_in_calm<W: Output>(
        &mut self,
        event: Event,
        writer: &mut W,
    ) -> Result<(), ReplayFault> {
        replay_in_calm(self, event, Detail::Sizes, writer)
    }

    fn has_calmed(&self, before: usize) -> bool {
        has_calmed(self, before)
    }
}

impl<C: Inspect> Traced<C> for MixedWorld<C> {
    ghost state = { λ w. w };

    ghost strangers = { λ w. w.strangers };

    fn carrier(&self) -> &C {
        MixedWorld::carrier(self)
    }

    fn seats(&self) -> &[Seat] {
        MixedWorld::seats(self)
    }

    fn services(&self) -> &[ServiceSeat] {
        MixedWorld::services(self)
    }

    fn book(&self) -> Book<'_> {
        MixedWorld::book(self)
    }

    fn replay_in_calm<W: Output>(
        &mut self,
        event: Event,
        writer: &mut W,
    ) -> Result<(), ReplayFault> {
        replay_mixed_in_calm(self, event, Detail::Sizes, writer)
    }

    fn has_calmed(&self, before: usize) -> bool {
        MixedWorld::book(self).crossings().len() == before && self.rests()
    }
}

/// A world whose script is traced.
pub(crate) trait Scripted<C: Inspect>: Traced<C> {
    /// How an event may go, which is at this spot, and which lines it has.
    ghost tells: { Spot → Happening Self WorldEvent (List ℕ) };

    /// The same where memory runs out in it, and where a write fails.
    ghost stops: { Spot → Happening Self WorldEvent (List ℕ) };

    ghost fails: { Spot → Happening Self WorldEvent (List ℕ) };

    /// Traces one event, which is at this spot of a script. The texts of the state may be known.
    fn trace_event<W: Output>(
        &mut self,
        alloc: Global,
        spot: Spot,
        event: WorldEvent,
        known: &mut Option<Texts>,
        notes: &mut C::Notes,
        writer: &mut W,
    ) -> Result<(), ReplayFault>
        requires whole { W.failed writer.old ≡ false }
        requires known { IfSome known.old (AreTextsOf C.inside.members (Self.state self.old)) }
        ensures ends { EndsAs (tells spot) (stops spot) (fails spot) self.old event result self.new (W.contents writer.old) (W.contents writer.new) }
        ensures seen { OnOk result (CalmHandsOn (shown C.calls) C.inside.members W.contents W.flushed spot (rounds_in event) (Self.state self.old, writer.old) (Self.state self.new, writer.new)) }
        ensures known { OnOk result (IfSome known.new (AreTextsOf C.inside.members (Self.state self.new))) }
        ensures failed { TellsCannotWrite result (W.failed writer.new) };
}

impl<C: Inspect> Scripted<C> for World<C> {
    ghost tells = { TellsAt (shown C.calls) C.inside.members };

    ghost stops = { EndsAt (shown C.calls) C.inside.members (StopsOne (shown C.calls)) };

    ghost fails = { EndsAt (shown C.calls) C.inside.members (MayTell (shown C.calls)) };

    fn trace_event<W: Output>(
        &mut self,
        alloc: Global,
        spot: Spot,
        event: WorldEvent,
        known: &mut Option<Texts>,
        notes: &mut C::Notes,
        writer: &mut W,
    ) -> Result<(), ReplayFault> {
        trace_world_event(alloc, self, spot, event, known, notes, writer)
    }
}

impl<C: Inspect> Scripted<C> for MixedWorld<C> {
    ghost tells = { TellsMixedAt (shown C.calls) C.inside.members };

    ghost stops = { MixedEndsAt (shown C.calls) C.inside.members (StopsOne (shown C.calls)) (StopsMixed (shown C.calls)) };

    ghost fails = { MixedEndsAt (shown C.calls) C.inside.members (MayTell (shown C.calls)) (MayTellMixed (shown C.calls)) };

    fn trace_event<W: Output>(
        &mut self,
        alloc: Global,
        spot: Spot,
        event: WorldEvent,
        known: &mut Option<Texts>,
        notes: &mut C::Notes,
        writer: &mut W,
    ) -> Result<(), ReplayFault> {
        trace_mixed_event(alloc, self, spot, event, known, notes, writer)
    }
}
