//! Why the simulator ends with a fault.

ghost use Rattle.std.specs.Prelude.{◌≡◌};
ghost use Rattle.command_line.specs.Faults.{status_of};

use crate::source::ReadFailed;
use replay::{ReplayFault, WriteFailed};
use std::alloc::{AllocError, AllocFailed};
use std::fmt;
use thiserror::Error;

/// Why the simulator ends with a fault. Where several apply, the first one of this list is given. Only
/// `OutOfMemory` may come in place of any other.
///
/// A user can't distinguish `OutOfMemory` from `CannotWrite`: text and status are the same. A caller can, and knows
/// more of the output after `OutOfMemory`.
#[derive(Clone, Copy, Debug, Drop, PartialEq, Eq, Error)]
pub enum ScriptFault {
    /// A word that is no option, or an option given twice.
    BadOptions,
    /// The input could not be read.
    CannotRead,
    /// The input has more than 268,435,456 octets.
    TooLong,
    /// The input has no line `%`, or begins with no topology that can be replayed.
    BadTopology,
    /// This line of the script, counted from 1, is no event. Nothing was replayed.
    BadLine(usize),
    /// No memory was left. The output is a prefix of what the replay would have written.
    OutOfMemory,
    /// The output could not be written.
    CannotWrite,
}

/// Prints what standard error says of a fault.
impl fmt::Display for ScriptFault {
    ghost use Rattle.std.specs.Prelude.{Some};
    ghost use Rattle.command_line.specs.Faults.{script_text};

    ghost output = { λ fault. Some (script_text fault) };

    fn fmt<W: fmt::Write>(&self, f: &mut fmt::Formatter<W>) -> fmt::Result {
        match self {
            ScriptFault::BadOptions => f.write_str("arpasim: bad arguments"),
            ScriptFault::CannotRead => f.write_str("arpasim: cannot read"),
            ScriptFault::TooLong => f.write_str("arpasim: input too long"),
            ScriptFault::BadTopology => f.write_str("arpasim: bad topology"),
            ScriptFault::BadLine(number) => write!(f, "arpasim: bad script line {number}"),
            ScriptFault::OutOfMemory | ScriptFault::CannotWrite => f.write_str("arpasim: stopped"),
        }
    }
}

impl ScriptFault {
    /// Returns the exit status: 1 for options, reading, topology and a network without traces, 2 for a line of the
    /// script, 3 when memory runs out or a write fails.
    pub fn status(&self) -> u8
        ensures { result ≡ status_of self.now }
    {
        match self {
            ScriptFault::BadOptions
            | ScriptFault::CannotRead
            | ScriptFault::TooLong
            | ScriptFault::BadTopology => 1,
            ScriptFault::BadLine(_) => 2,
            ScriptFault::OutOfMemory | ScriptFault::CannotWrite => 3,
        }
    }
}

impl From<AllocError> for ScriptFault {
    ghost use Rattle.command_line.specs.declared.fault.ScriptFault.TheVariants.{OutOfMemory};

    ghost from_gives = { λ _ e. e ≡ OutOfMemory };

    fn from(_error: AllocError) -> ScriptFault {
        ScriptFault::OutOfMemory
    }
}

impl<T: Drop> From<AllocFailed<T>> for ScriptFault {
    ghost use Rattle.command_line.specs.declared.fault.ScriptFault.TheVariants.{OutOfMemory};

    ghost from_gives = { λ _ e. e ≡ OutOfMemory };

    fn from(_error: AllocFailed<T>) -> ScriptFault {
        ScriptFault::OutOfMemory
    }
}

impl From<ReplayFault> for ScriptFault {
    ghost use Rattle.command_line.specs.Faults.{told_as};

    ghost from_gives = { λ fault e. e ≡ told_as fault };

    fn from(fault: ReplayFault) -> ScriptFault {
        match fault {
            ReplayFault::OutOfMemory => ScriptFault::OutOfMemory,
            ReplayFault::CannotWrite => ScriptFault::CannotWrite,
        }
    }
}

impl From<ReadFailed> for ScriptFault {
    ghost use Rattle.command_line.specs.declared.fault.ScriptFault.TheVariants.{CannotRead};

    ghost from_gives = { λ _ e. e ≡ CannotRead };

    fn from(_error: ReadFailed) -> ScriptFault {
        ScriptFault::CannotRead
    }
}

impl From<WriteFailed> for ScriptFault {
    ghost use Rattle.command_line.specs.declared.fault.ScriptFault.TheVariants.{CannotWrite};

    ghost from_gives = { λ _ e. e ≡ CannotWrite };

    fn from(_error: WriteFailed) -> ScriptFault {
        ScriptFault::CannotWrite
    }
}
