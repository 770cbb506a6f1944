//! What a session asks of a network.

ghost use Rattle.std.specs.Prelude.{◌≡◌, [], Err, List, OnOk, false, ℕ};
ghost use Rattle.std.specs.Io.KnownBytes.{Appends};
ghost use Rattle.replay.specs.Failing.{TellsCannotWrite};
ghost use Rattle.session.specs.Turns.{GoesOn, Writes};

use replay::{Output, ReplayFault};
use script::reading::ScriptEvent;

/// A network on which the events of a script happen as they come.
pub trait Stage<E: ScriptEvent, W: Output> {
    /// How events may be replayed: the network before, the events, the network after, and what is printed of them.
    ghost replays: { Self → List E → Self → List ℕ → Type 0 };

    /// Replays events, and prints what they show.
    ///
    /// Errors: `CannotWrite`; `OutOfMemory`, after which a part of that is written.
    fn replay(&mut self, events: Vec<E>, writer: &mut W) -> Result<(), ReplayFault>
        requires { W.failed writer.old ≡ false }
        ensures part { result ≡ Err ReplayFault.OutOfMemory → (said : List ℕ) × Appends (W.contents writer.old) (W.contents writer.new) said }
        ensures replayed { OnOk result (Writes replays self.old events.items self.new (W.contents writer.old) (W.contents writer.new)) }
        ensures failed { TellsCannotWrite result (W.failed writer.new) };

    /// Proves that no event leads to no change. It is there for the proof only.
    fn opens(&self)
        ensures { replays self.now [] self.now [] };

    /// Proves that events can be replayed in parts. It is there for the proof only.
    fn goes_on()
        ensures { GoesOn replays };
}
