//! Networks on which the events of a session happen: one whose hosts have programs, with strangers or without, and one
//! without host programs.

ghost use Rattle.std.specs.Prelude.{◌≡◌, Err, List, OnOk, false, ℕ};
ghost use Rattle.std.specs.Io.KnownBytes.{Appends};
ghost use Rattle.headline.specs.Promise.{WorldKeeps};
ghost use Rattle.replay.specs.Failing.{TellsCannotWrite};
ghost use Rattle.session.specs.Networks.{ReplaysBare, ReplaysMixed, ReplaysWorld};
ghost use Rattle.session.specs.Turns.{Writes};

use crate::stage::Stage;
use headline::book_of;
use interface::Carrier;
use mixed_worlds::book_among;
use net_sim::{MixedWorld, World};
use replay::{Detail, Output, ReplayFault};
use script::RawEvent;
use world_replay::{replay_events, replay_mixed_events};
use world_script::WorldEvent;

/// A network without host programs.
#[derive(Drop)]
pub struct Bare<C> {
    /// Its carrier.
    pub carrier: C,
}

impl<C: Carrier, W: Output> Stage<RawEvent, W> for Bare<C> {
    ghost replays = { λ old events new said. ReplaysBare C.calls old.carrier events new.carrier said };

    fn replay(&mut self, events: Vec<RawEvent>, writer: &mut W) -> Result<(), ReplayFault>
        requires { W.failed writer.old ≡ false }
        ensures part { result ≡ Err ReplayFault.OutOfMemory → (said : List ℕ) × Appends (W.contents writer.old) (W.contents writer.new) said }
        ensures replayed { OnOk result (Writes (ReplaysBare C.calls) self.old.carrier events.items self.new.carrier (W.contents writer.old) (W.contents writer.new)) }
        ensures failed { TellsCannotWrite result (W.failed writer.new) }
    {
        replay::replay_events(&mut self.carrier, &events, Detail::Texts, writer)
    }

    fn opens(&self) {
        let _log = self.carrier.log();
    }

    fn goes_on() {}
}

impl<C: Carrier, W: Output> Stage<WorldEvent, W> for World<C> {
    ghost replays = { ReplaysWorld C.calls };

    fn replay(&mut self, events: Vec<WorldEvent>, writer: &mut W) -> Result<(), ReplayFault>
        requires { W.failed writer.old ≡ false }
        ensures part { result ≡ Err ReplayFault.OutOfMemory → (said : List ℕ) × Appends (W.contents writer.old) (W.contents writer.new) said }
        ensures replayed { OnOk result (Writes (ReplaysWorld C.calls) self.old events.items self.new (W.contents writer.old) (W.contents writer.new)) }
        ensures failed { TellsCannotWrite result (W.failed writer.new) }
    {
        let outcome = replay_events(self, events, Detail::Texts, writer);
        keeps_promise(self);
        outcome
    }

    fn opens(&self) {
        keeps_promise(self);
    }

    fn goes_on() {}
}

impl<C: Carrier, W: Output> Stage<WorldEvent, W> for MixedWorld<C> {
    ghost replays = { ReplaysMixed C.calls };

    fn replay(&mut self, events: Vec<WorldEvent>, writer: &mut W) -> Result<(), ReplayFault>
        requires { W.failed writer.old ≡ false }
        ensures part { result ≡ Err ReplayFault.OutOfMemory → (said : List ℕ) × Appends (W.contents writer.old) (W.contents writer.new) said }
        ensures replayed { OnOk result (Writes (ReplaysMixed C.calls) self.old events.items self.new (W.contents writer.old) (W.contents writer.new)) }
        ensures failed { TellsCannotWrite result (W.failed writer.new) }
    {
        let outcome = replay_mixed_events(self, events, Detail::Texts, writer);
        // for the proof only: the book keeps what is promised where there are strangers, after each line
        let _book = book_among(self);
        outcome
    }

    fn opens(&self) {
        let _book = book_among(self);
    }

    fn goes_on() {}
}

/// Proves that the book of a world keeps the promise. It is there for the proof only.
fn keeps_promise<C: Carrier>(world: &World<C>)
    ensures { WorldKeeps C.calls.seen world.now }
{
    let _kept = book_of(world);
}
