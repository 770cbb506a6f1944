//! Why a machine can't begin.

ghost use Rattle.std.specs.Prelude.{◌≡◌};
ghost use Rattle.icp.specs.declared.fault.StartFault.TheVariants.{OutOfMemory};

use std::alloc::{AllocError, AllocFailed};
use thiserror::Error;

/// Why a machine can't begin. Where both apply, the first one here is given.
#[derive(Clone, Copy, Debug, Drop, PartialEq, Eq, Error)]
pub enum StartFault {
    /// A socket has the wrong parity, or the user's last socket would have more than 32 bits.
    #[error("bad socket")]
    BadSocket,
    /// No memory was left.
    #[error("out of memory")]
    OutOfMemory,
}

impl From<AllocError> for StartFault {
    ghost from_gives = { λ _ e. e ≡ OutOfMemory };

    fn from(_error: AllocError) -> StartFault {
        StartFault::OutOfMemory
    }
}

impl<T: Drop> From<AllocFailed<T>> for StartFault {
    ghost from_gives = { λ _ e. e ≡ OutOfMemory };

    fn from(_error: AllocFailed<T>) -> StartFault {
        StartFault::OutOfMemory
    }
}
