//! What a replay asks of a world, with strangers or without.

ghost use Rattle.std.specs.Prelude.{◌≡◌, ℕ, Ok, true};
ghost use Rattle.net_sim.specs.Carriers.{shown};
ghost use Rattle.world_replay.specs.Kinds.{Kind};
ghost use Rattle.world_replay.specs.Replay.{world_kind};
ghost use Rattle.world_replay.specs.Steps.{IsReplayable};

use interface::Carrier;
use net_sim::{Book, MixedWorld, World, WorldFault};
use world_script::WorldEvent;

/// A world whose scripts are replayed.
pub(crate) trait Replayed {
    /// What is kept of it, and how the events of its scripts may go.
    ghost kind: { Kind Self };

    /// Returns what happened so far.
    fn book(&self) -> Book<'_>
        ensures { result ≡ kind.kept self.now };

    /// Lets one event happen, or refuses it.
    ///
    /// Errors: memory runs out, or why it is refused.
    fn happen(&mut self, event: WorldEvent) -> Result<(), WorldFault>
        ensures { kind.gives self.old event result self.new };

    /// Returns whether more rounds of a calm are known to change nothing. This takes no memory.
    fn rests(&self) -> bool
        ensures rest { result ≡ true → kind.rests self.now }
        ensures unchanged { result ≡ true → (n : ℕ) → kind.gives self.now (WorldEvent.Calm n) (Ok tt) self.now };

    /// Proves what a replay needs of such worlds.
    ///
    /// It is there for the proof only, and does nothing.
    fn is_replayable()
        ensures { IsReplayable kind };
}

impl<C: Carrier> Replayed for World<C> {
    ghost kind = { world_kind (shown C.calls) };

    fn book(&self) -> Book<'_> {
        World::book(self)
    }

    fn happen(&mut self, event: WorldEvent) -> Result<(), WorldFault> {
        match event {
            WorldEvent::Happen(event) => World::step(self, event),
            WorldEvent::Calm(rounds) => World::calm(self, rounds),
        }
    }

    fn rests(&self) -> bool {
        World::rests(self)
    }

    fn is_replayable() {}
}

impl<C: Carrier> Replayed for MixedWorld<C> {
    ghost kind = { world_kind (shown C.calls) };

    fn book(&self) -> Book<'_> {
        MixedWorld::book(self)
    }

    fn happen(&mut self, event: WorldEvent) -> Result<(), WorldFault> {
        match event {
            WorldEvent::Happen(event) => MixedWorld::step(self, event),
            WorldEvent::Calm(rounds) => MixedWorld::calm(self, rounds),
        }
    }

    fn rests(&self) -> bool {
        MixedWorld::rests(self)
    }

    fn is_replayable() {}
}
