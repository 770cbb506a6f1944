//! Lists of what is inside a subnet.

ghost use Rattle.std.specs.Prelude.{◌≡◌, List, OnOk, false, ℕ};
ghost use Rattle.std.specs.Io.KnownBytes.{Appends};
ghost use Rattle.replay.specs.Failing.{TellsFailure};

use replay::{Output, WriteFailed};
use std::collections::VecDeque;
use trace::json::Listed;

/// What is inside a subnet and has a JSON text. (`trace::json::Item` is of another crate, as the types are.)
pub(crate) trait Held {
    /// Its text.
    ghost text: { Self → List ℕ };

    /// Prints its text.
    fn print<W: Output>(&self, writer: &mut W) -> Result<(), WriteFailed>
        requires { W.failed writer.old ≡ false }
        ensures written { OnOk result (Appends (W.contents writer.old) (W.contents writer.new) (text self.now)) }
        ensures failed { TellsFailure result (W.failed writer.new) };
}

/// A list of them.
#[derive(Drop)]
pub(crate) struct All<'a, T>(pub &'a [T]);

impl<T: Held> Listed for All<'_, T> {
    ghost use Rattle.std.specs.Prelude.{map};

    ghost texts = { λ items. map T.text items.0.now };

    fn count(&self) -> usize {
        self.0.len()
    }

    fn print_at<W: Output>(&self, place: usize, writer: &mut W) -> Result<(), WriteFailed> {
        self.0[place].print(writer)
    }
}

/// A queue of them, the oldest first.
#[derive(Drop)]
pub(crate) struct InLine<'a, T>(pub &'a VecDeque<T>);

impl<T: Held> Listed for InLine<'_, T> {
    ghost use Rattle.std.specs.Prelude.{map};

    ghost texts = { λ items. map T.text items.0.now.items };

    fn count(&self) -> usize {
        self.0.len()
    }

    fn print_at<W: Output>(&self, place: usize, writer: &mut W) -> Result<(), WriteFailed> {
        self.0[place].print(writer)
    }
}
