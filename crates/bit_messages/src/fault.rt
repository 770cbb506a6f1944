//! Why a call on bits is refused.

ghost use Rattle.std.specs.Prelude.{◌≡◌};
ghost use Rattle.bit_messages.specs.declared.fault.BitFault.TheVariants.{OutOfMemory};

use std::alloc::{AllocError, AllocFailed};
use thiserror::Error;

/// Why a call on bits is refused. Where several apply, the first one here is given.
#[derive(Clone, Copy, Debug, Drop, PartialEq, Eq, Error)]
pub enum BitFault {
    /// No bit of the list is a 1, so nothing marks where a text ends.
    #[error("no mark")]
    NoMark,
    /// The text has more than 8063 bits.
    #[error("text too long")]
    TooLong,
    /// Bounds that pass the end or each other, or a body that isn't a multiple of sixteen bits.
    #[error("out of range")]
    Range,
    /// No memory was left.
    #[error("out of memory")]
    OutOfMemory,
}

impl From<AllocError> for BitFault {
    ghost from_gives = { λ _ e. e ≡ OutOfMemory };

    fn from(_error: AllocError) -> BitFault {
        BitFault::OutOfMemory
    }
}

impl<T: Drop> From<AllocFailed<T>> for BitFault {
    ghost from_gives = { λ _ e. e ≡ OutOfMemory };

    fn from(_error: AllocFailed<T>) -> BitFault {
        BitFault::OutOfMemory
    }
}
