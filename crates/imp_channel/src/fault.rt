//! Why a call on frames or a line is refused.

ghost use Rattle.std.specs.Prelude.{◌≡◌};
ghost use Rattle.imp_channel.specs.Format.{fault_of};
ghost use Rattle.imp_channel.specs.declared.fault.ChannelFault.TheVariants.{OutOfMemory};

use packetiser::{Packet, PacketFault};
use std::alloc::{AllocError, AllocFailed};
use thiserror::Error;

/// Why octets are no frame. Where several apply, the first one here is given, with one exception:
/// `BadVersion`, the last, is looked for before all others.
#[derive(Clone, Copy, Debug, Drop, PartialEq, Eq, Error)]
pub enum ChannelFault {
    /// Fewer octets than the frame needs.
    #[error("short")]
    Short,
    /// A spelling that no frame has.
    #[error("not canonical")]
    NotCanonical,
    /// A packet whose number of bits isn't one that it can have.
    #[error("bad length")]
    BadLength,
    /// No memory was left.
    #[error("out of memory")]
    OutOfMemory,
    /// The first octet isn't [`VERSION`](crate::VERSION).
    #[error("bad version")]
    BadVersion,
}

impl From<PacketFault> for ChannelFault {
    ghost from_gives = { λ packet e. e ≡ fault_of packet };

    fn from(fault: PacketFault) -> ChannelFault {
        match fault {
            PacketFault::Short => ChannelFault::Short,
            PacketFault::NotCanonical => ChannelFault::NotCanonical,
            PacketFault::BadLength => ChannelFault::BadLength,
            PacketFault::OutOfMemory => ChannelFault::OutOfMemory,
        }
    }
}

impl From<AllocError> for ChannelFault {
    ghost from_gives = { λ _ e. e ≡ OutOfMemory };

    fn from(_error: AllocError) -> ChannelFault {
        ChannelFault::OutOfMemory
    }
}

impl<T: Drop> From<AllocFailed<T>> for ChannelFault {
    ghost from_gives = { λ _ e. e ≡ OutOfMemory };

    fn from(_error: AllocFailed<T>) -> ChannelFault {
        ChannelFault::OutOfMemory
    }
}

/// Why a packet isn't put on a line. It is handed back.
#[derive(Debug, Drop)]
pub enum SubmitFault {
    /// All channels are busy.
    AllBusy(Packet),
    /// No memory was left for a copy of its bits.
    OutOfMemory(Packet),
}
