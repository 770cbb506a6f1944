//! Why a line can't be typed.

ghost use Rattle.std.specs.Prelude.{◌≡◌};
ghost use Rattle.terminal.specs.declared.fault.TerminalFault.TheVariants.{OutOfMemory};

use std::alloc::{AllocError, AllocFailed};
use thiserror::Error;

/// Why a line can't be typed. Where both apply, the first one here is given.
#[derive(Clone, Copy, Debug, Drop, PartialEq, Eq, Error)]
pub enum TerminalFault {
    /// An octet of the text isn't from 32 to 126.
    #[error("not printable")]
    NotPrintable,
    /// No memory was left.
    #[error("out of memory")]
    OutOfMemory,
}

impl From<AllocError> for TerminalFault {
    ghost from_gives = { λ _ e. e ≡ OutOfMemory };

    fn from(_error: AllocError) -> TerminalFault {
        TerminalFault::OutOfMemory
    }
}

impl<T: Drop> From<AllocFailed<T>> for TerminalFault {
    ghost from_gives = { λ _ e. e ≡ OutOfMemory };

    fn from(_error: AllocFailed<T>) -> TerminalFault {
        TerminalFault::OutOfMemory
    }
}
