//! Why a call on flows is refused.

ghost use Rattle.std.specs.Prelude.{◌≡◌};
ghost use Rattle.link_table.specs.declared.fault.FlowFault.TheVariants.{OutOfMemory};

use std::alloc::{AllocError, AllocFailed};
use thiserror::Error;

/// Why a call on flows is refused. Where several apply, the first one here is given.
#[derive(Clone, Copy, Debug, Drop, PartialEq, Eq, Error)]
pub enum FlowFault {
    /// The flow isn't idle: a message of it is outstanding, or the answer to one waits for the host.
    #[error("blocked")]
    Blocked,
    /// No memory was left.
    #[error("out of memory")]
    OutOfMemory,
}

impl From<AllocError> for FlowFault {
    ghost from_gives = { λ _ e. e ≡ OutOfMemory };

    fn from(_error: AllocError) -> FlowFault {
        FlowFault::OutOfMemory
    }
}

impl<T: Drop> From<AllocFailed<T>> for FlowFault {
    ghost from_gives = { λ _ e. e ≡ OutOfMemory };

    fn from(_error: AllocFailed<T>) -> FlowFault {
        FlowFault::OutOfMemory
    }
}
