//! Why a call on a host's network control program is refused.

use thiserror::Error;

/// Why a user call is refused. Where several apply, the first one here is given.
#[derive(Clone, Copy, Debug, Drop, PartialEq, Eq, Error)]
pub enum NcpFault {
    /// The two hosts aren't both through a reset, so there can be no connection between them.
    #[error("not contacted")]
    NotContacted,
    /// A receiving end's socket is odd, or a sending end's is even.
    #[error("wrong end")]
    WrongEnd,
    /// The own socket listens or has a connection, or the two sockets have one with this host.
    #[error("in use")]
    InUse,
    /// The socket has no connection, and, where it is to be closed, doesn't listen either.
    #[error("no such socket")]
    NoSuchSocket,
    /// The socket's connection isn't open.
    #[error("not open")]
    NotOpen,
    /// A byte of no bits, or bits that are no whole bytes.
    #[error("bad size")]
    BadSize,
    /// The connection was closed before, at this end or at the other.
    #[error("closing")]
    Closing,
    /// All links that a receiving end may have are in use.
    #[error("no link")]
    NoLink,
    /// More would be granted than the counters can hold.
    #[error("over grant")]
    OverGrant,
    /// No memory was left.
    #[error("out of memory")]
    OutOfMemory,
}
