//! Where a replay prints: a writer that says whether a write failed.

ghost use Rattle.std.specs.Prelude.{◌≡◌, Bool, IfSome, List, OnOk, Option, false, true, ℕ};
ghost use Rattle.std.specs.Io.KnownBytes.{Appends, Keeps};
ghost use Rattle.replay.specs.Failing.{TellsFailure};

use std::fmt::Display;
use std::io;
use std::io::Write;
use thiserror::Error;

/// A write or a flush failed.
#[derive(Clone, Copy, Debug, Drop, PartialEq, Eq, Error)]
#[error("cannot write")]
pub struct WriteFailed;

/// Where a replay prints. It says whether a write or a flush has failed, which the contract of the standard
/// library's writers doesn't.
///
/// Each call requires that none has failed. So after its first failure nothing more is asked of the writer.
pub trait Output {
    /// The octets that were printed, where they are known.
    ghost contents: { Self → Option (List ℕ) };

    /// Whether a write or a flush has failed.
    ghost failed: { Self → Bool };

    /// Whether the last thing that was asked of it was a flush.
    ghost flushed: { Self → Bool };

    /// Prints a text, as `write!` and `writeln!` ask for it.
    ///
    /// Errors: `WriteFailed`. Then only the writer knows how much of the text was written.
    fn write_fmt<D: Display>(&mut self, text: D) -> Result<(), WriteFailed>
    where
        D: Drop,
        requires { failed self.old ≡ false }
        ensures failed { TellsFailure result (failed self.new) }
        ensures flushed { flushed self.new ≡ false }
        ensures written { OnOk result (IfSome (D.output text) (Appends (contents self.old) (contents self.new))) };

    /// Prints octets.
    ///
    /// Errors: `WriteFailed`, as above.
    fn write_all(&mut self, octets: &[u8]) -> Result<(), WriteFailed>
        requires { failed self.old ≡ false }
        ensures failed { TellsFailure result (failed self.new) }
        ensures flushed { flushed self.new ≡ false }
        ensures written { OnOk result (Appends (contents self.old) (contents self.new) octets.now) };

    /// Hands on all that was printed and is still held back.
    ///
    /// Errors: `WriteFailed`.
    fn flush(&mut self) -> Result<(), WriteFailed>
        requires { failed self.old ≡ false }
        ensures failed { TellsFailure result (failed self.new) }
        ensures flushed { flushed self.new ≡ true }
        ensures kept { Keeps (contents self.old) (contents self.new) };
}

/// A writer of the standard library as an [`Output`]: each call is passed on to the writer, and what it answers
/// is kept.
#[derive(Drop)]
pub struct Printer<W> {
    /// The writer.
    writer: W,
    /// Whether a write or a flush has failed.
    failed: bool,
    /// Whether the last call was a flush.
    flushed: bool,
}

impl<W: Write> Printer<W> {
    /// Returns an output over a writer, of which no write has failed.
    pub fn new(writer: W) -> Printer<W>
        ensures contents { ⟦<Printer<W> as Output>⟧.contents result ≡ W.contents writer }
        ensures failed { ⟦<Printer<W> as Output>⟧.failed result ≡ false }
    {
        Printer {
            writer,
            failed: false,
            flushed: false,
        }
    }

    /// Returns the writer.
    pub fn into_inner(self) -> W
        ensures { W.contents result ≡ ⟦<Printer<W> as Output>⟧.contents self }
    {
        self.writer
    }

    /// Keeps and says whether a write or a flush failed.
    fn tell(&mut self, outcome: io::Result<()>) -> Result<(), WriteFailed>
        ensures answer { TellsFailure outcome self.new.failed }
        ensures failed { TellsFailure result self.new.failed }
        ensures flushed { self.new.flushed ≡ self.old.flushed }
        ensures writer { self.new.writer ≡ self.old.writer }
    {
        self.failed = outcome.is_err();
        outcome.map_err(|_| WriteFailed)
    }
}

impl<W: Write> Output for Printer<W> {
    ghost contents = { λ p. W.contents p.writer };

    ghost failed = { λ p. p.failed };

    ghost flushed = { λ p. p.flushed };

    fn write_fmt<D: Display>(&mut self, text: D) -> Result<(), WriteFailed>
    where
        D: Drop,
    {
        self.flushed = false;
        let outcome = self.writer.write_fmt(text);
        self.tell(outcome)
    }

    fn write_all(&mut self, octets: &[u8]) -> Result<(), WriteFailed> {
        self.flushed = false;
        let outcome = self.writer.write_all(octets);
        self.tell(outcome)
    }

    fn flush(&mut self) -> Result<(), WriteFailed> {
        self.flushed = true;
        let outcome = self.writer.flush();
        self.tell(outcome)
    }
}
