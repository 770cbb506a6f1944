//! What an event of a calm asks of a world, with strangers or without.

ghost use Rattle.std.specs.Prelude.{◌≡◌, List};
ghost use Rattle.interface.specs.Host.{Host};
ghost use Rattle.net_sim.specs.Carriers.{shown};
ghost use Rattle.net_sim.specs.World.{TurnGives, WorldState};

use interface::Carrier;
use net_sim::{Book, Event, MixedWorld, World, WorldFault};

/// A world in a calm, in which only hosts with programs have turns.
pub(crate) trait Turning<C: Carrier> {
    /// The world of its hosts with programs.
    ghost state: { Self → WorldState C };

    /// Its strangers.
    ghost strangers: { Self → List Host };

    /// Returns what happened so far.
    fn book(&self) -> Book<'_>
        ensures { result ≡ (state self.now).kept };

    /// Lets one event happen as one of a calm, or refuses it: strangers have no turn.
    ///
    /// Errors: memory runs out, or why it is refused.
    fn turn(&mut self, event: Event) -> Result<(), WorldFault>
        ensures gives { TurnGives (shown C.calls) (state self.old) event result (state self.new) }
        ensures strangers { strangers self.new ≡ strangers self.old };
}

impl<C: Carrier> Turning<C> for World<C> {
    ghost use Rattle.std.specs.Prelude.{[]};

    ghost state = { λ w. w };

    ghost strangers = { λ w. [] };

    fn book(&self) -> Book<'_> {
        World::book(self)
    }

    fn turn(&mut self, event: Event) -> Result<(), WorldFault> {
        World::turn(self, &event)
    }
}

impl<C: Carrier> Turning<C> for MixedWorld<C> {
    ghost state = { λ w. w };

    ghost strangers = { λ w. w.strangers };

    fn book(&self) -> Book<'_> {
        MixedWorld::book(self)
    }

    fn turn(&mut self, event: Event) -> Result<(), WorldFault> {
        MixedWorld::turn(self, &event)
    }
}
