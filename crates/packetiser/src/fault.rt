//! Why a call on packets is refused.

ghost use Rattle.std.specs.Prelude.{◌≡◌};
ghost use Rattle.bit_messages.specs.declared.fault.BitFault.TheVariants as bit_fault;
ghost use Rattle.packetiser.specs.declared.fault.PacketFault.TheVariants.{OutOfMemory};

use bit_messages::BitFault;
use std::alloc::{AllocError, AllocFailed};
use thiserror::Error;

/// Why a call on packets is refused. Where several faults apply, the first one of this list is given.
#[derive(Clone, Copy, Debug, Drop, PartialEq, Eq, Error)]
pub enum PacketFault {
    /// There are fewer octets than a header has, or than the number of bits asks for.
    #[error("short packet")]
    Short,
    /// The octets are no packet's spelling, or octets follow a packet's end.
    #[error("packet not canonical")]
    NotCanonical,
    /// No packet of this kind, place and last flag has this number of bits.
    #[error("bad packet length")]
    BadLength,
    /// No memory was left.
    #[error("out of memory")]
    OutOfMemory,
}

impl From<AllocError> for PacketFault {
    ghost from_gives = { λ _ e. e ≡ OutOfMemory };

    fn from(_error: AllocError) -> PacketFault {
        PacketFault::OutOfMemory
    }
}

impl<T: Drop> From<AllocFailed<T>> for PacketFault {
    ghost from_gives = { λ _ e. e ≡ OutOfMemory };

    fn from(_error: AllocFailed<T>) -> PacketFault {
        PacketFault::OutOfMemory
    }
}

/// Returns the fault of a call on bits that can only have found no memory.
pub(crate) fn out_of_memory(fault: BitFault) -> PacketFault
    requires { fault ≡ bit_fault.OutOfMemory }
    ensures { result ≡ OutOfMemory }
{
    match fault {
        BitFault::OutOfMemory => PacketFault::OutOfMemory,
        BitFault::NoMark | BitFault::TooLong | BitFault::Range => unreachable!(),
    }
}
