//! Why octets are no command.

ghost use Rattle.std.specs.Prelude.{◌≡◌};
ghost use Rattle.ncp_control.specs.declared.fault.ControlFault.TheVariants.{OutOfMemory};

use std::alloc::{AllocError, AllocFailed};
use thiserror::Error;

/// Why octets are no command, or why a command could not be written. Where several faults apply, the
/// first one of this list is given. `quoted` is how many octets an ERR about the fault quotes, counted
/// from the code octet.
#[derive(Clone, Copy, Debug, Drop, PartialEq, Eq, Error)]
pub enum ControlFault {
    /// The code octet is above 13. The ERR quotes all octets that are left, at most 10.
    #[error("illegal code")]
    IllegalCode { quoted: usize },
    /// The octets end before the command does. The ERR quotes all octets that are left, at most 10.
    #[error("short")]
    Short { quoted: usize },
    /// A field of an RTS or an STR is outside its range. The ERR quotes the command's own octets, and
    /// reading may continue after them.
    #[error("erroneous")]
    Erroneous { quoted: usize },
    /// No memory was left.
    #[error("out of memory")]
    OutOfMemory,
}

impl From<AllocError> for ControlFault {
    ghost from_gives = { λ _ e. e ≡ OutOfMemory };

    fn from(_error: AllocError) -> ControlFault {
        ControlFault::OutOfMemory
    }
}

impl<T: Drop> From<AllocFailed<T>> for ControlFault {
    ghost from_gives = { λ _ e. e ≡ OutOfMemory };

    fn from(_error: AllocFailed<T>) -> ControlFault {
        ControlFault::OutOfMemory
    }
}
