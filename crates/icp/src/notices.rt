//! What a notice says of one socket, or of one host.

ghost use Rattle.std.specs.Prelude.{◌≡◌, Some, None, MatchOption};
ghost use Rattle.icp.specs.Notices as notices;

use bit_messages::Bits;
use interface::HostAddr;
use sockets::Notice;

/// The far end of a connection: a socket at a host.
#[derive(Clone, Copy, Debug, PartialEq, Eq)]
pub struct Partner {
    /// The host at the far end.
    pub peer: HostAddr,
    /// The socket at that host.
    pub socket: u32,
}

impl Partner {
    /// Returns whether it is this socket at this host.
    pub(crate) fn is(&self, peer: HostAddr, socket: u32) -> bool
        ensures { result ≡ notices.is_partner peer socket self.now }
    {
        self.peer == peer && self.socket == socket
    }
}

/// Returns the far end, if a connection of this socket was opened.
pub(crate) fn opened_on(socket: u32, notice: &Notice) -> Option<Partner>
    ensures { result ≡ notices.opened_on socket notice.now }
{
    match notice {
        Notice::Opened {
            socket: own,
            peer,
            foreign,
            ..
        } if *own == socket => Some(Partner {
            peer: *peer,
            socket: *foreign,
        }),
        _ => None,
    }
}

/// Returns whether the connection of this socket with that partner was opened.
pub(crate) fn is_opened(socket: u32, peer: HostAddr, foreign: u32, notice: &Notice) -> bool
    ensures { result ≡ notices.is_opened socket peer foreign notice.now }
{
    match opened_on(socket, notice) {
        Some(partner) => partner.is(peer, foreign),
        None => false,
    }
}

/// Returns the bits that arrived, if they arrived on this socket.
pub(crate) fn arrived_on(own: u32, notice: &Notice) -> Option<&Bits>
    ensures { MatchOption result (notices.arrived_on own notice.now ≡ None) (λ bits. notices.arrived_on own notice.now ≡ Some bits.now) }
{
    match notice {
        Notice::Arrived { socket, bits } if *socket == own => Some(bits),
        _ => None,
    }
}

/// Returns whether a connection of this socket has ended.
pub(crate) fn has_ended(own: u32, notice: &Notice) -> bool
    ensures { result ≡ notices.has_ended own notice.now }
{
    match notice {
        Notice::Ended { socket, .. } => *socket == own,
        _ => false,
    }
}

/// Returns whether all connections with this host are gone.
pub(crate) fn is_reset(host: HostAddr, notice: &Notice) -> bool
    ensures { result ≡ notices.is_reset host notice.now }
{
    match notice {
        Notice::PairReset { peer } => *peer == host,
        _ => false,
    }
}

/// Returns whether all connections with the host of a partner are gone.
pub(crate) fn is_reset_of(partner: Option<Partner>, notice: &Notice) -> bool
    ensures { result ≡ notices.is_reset_of partner notice.now }
{
    match partner {
        Some(partner) => is_reset(partner.peer, notice),
        None => false,
    }
}
