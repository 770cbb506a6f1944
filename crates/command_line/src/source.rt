//! Where an input is read from: a reader that says whether a read failed.

ghost use Rattle.std.specs.Prelude.{◌≡◌, ◌<◌, Bool, List, Option, false, length, true, ℕ};
ghost use Rattle.std.specs.Io.{ReadsAtMost};
ghost use Rattle.std.specs.Io.KnownBytes.{Keeps, ReadConsumes};
ghost use Rattle.replay.specs.Failing.{TellsFailure};
ghost use Rattle.command_line.specs.Reading.{TellsEnd};

use std::io;
use std::io::{ErrorKind, Read};
use thiserror::Error;

/// A read failed.
#[derive(Clone, Copy, Debug, Drop, PartialEq, Eq, Error)]
#[error("cannot read")]
pub struct ReadFailed;

/// Where an input is read from. It says whether a read has failed, which the contract of the standard library's
/// readers doesn't, and whether one has come to the end.
///
/// Each read requires that none has failed and that the last one gave something. So nothing more is asked of a reader
/// after its first failure, nor after its end: at a terminal one end of input is enough.
pub trait Source {
    /// The octets that are left, where they are known.
    ghost remaining: { Self → Option (List ℕ) };

    /// Whether a read has failed.
    ghost failed: { Self → Bool };

    /// Whether the last read gave nothing, and so came to the end.
    ghost ended: { Self → Bool };

    /// Reads octets into a buffer that has room, and answers how many. There are none only at the end.
    ///
    /// Errors: `ReadFailed`.
    fn read(&mut self, buf: &mut [u8]) -> Result<usize, ReadFailed>
        requires whole { failed self.old ≡ false }
        requires more { ended self.old ≡ false }
        requires room { 0 < length buf.old }
        ensures ended { TellsEnd result (ended self.new) }
        ensures failed { TellsFailure result (failed self.new) }
        ensures bound { ReadsAtMost result buf.new }
        ensures octets { ReadConsumes (remaining self.old) (remaining self.new) result buf.new };
}

/// A reader of the standard library as a [`Source`]: each read is passed on to the reader, and whether it failed is
/// kept. One that was interrupted is repeated.
#[derive(Drop)]
pub struct Reader<R> {
    /// The reader.
    reader: R,
    /// Whether a read has failed.
    failed: bool,
    /// Whether the last read gave nothing.
    ended: bool,
}

impl<R: Read> Reader<R> {
    /// Returns a source over a reader, of which no read has failed or come to the end.
    pub fn new(reader: R) -> Reader<R>
        ensures remaining { ⟦<Reader<R> as Source>⟧.remaining result ≡ R.remaining reader }
        ensures failed { ⟦<Reader<R> as Source>⟧.failed result ≡ false }
        ensures ended { ⟦<Reader<R> as Source>⟧.ended result ≡ false }
    {
        Reader {
            reader,
            failed: false,
            ended: false,
        }
    }

    /// Returns the reader.
    pub fn into_inner(self) -> R
        ensures { R.remaining result ≡ ⟦<Reader<R> as Source>⟧.remaining self }
    {
        self.reader
    }
}

impl<R: Read> Source for Reader<R> {
    ghost remaining = { λ r. R.remaining r.reader };

    ghost failed = { λ r. r.failed };

    ghost ended = { λ r. r.ended };

    fn read(&mut self, buf: &mut [u8]) -> Result<usize, ReadFailed> {
        match read_again(&mut self.reader, buf) {
            Ok(count) => {
                self.ended = count == 0;
                Ok(count)
            }
            Err(_) => {
                self.failed = true;
                Err(ReadFailed)
            }
        }
    }
}

/// Reads, and reads again where a read was interrupted.
///
/// Errors: the reader's.
fn read_again<R: Read>(reader: &mut R, buf: &mut [u8]) -> io::Result<usize>
    ensures bound { ReadsAtMost result buf.new }
    ensures octets { ReadConsumes (R.remaining reader.old) (R.remaining reader.new) result buf.new }
{
    for _ in 0..u64::MAX {
        match reader.read(buf) {
            Err(error) if error.kind() == ErrorKind::Interrupted => {}
            outcome => return outcome,
        }
    }
    Err(io::Error::from(ErrorKind::Interrupted))
}
