//! What the network control program reports to its user.

use bit_messages::Bits;
use interface::HostAddr;
use ncp_control::MAX_QUOTED;

/// Something that happened to a peer or a socket of this host. Stamps are places in the log.
#[derive(Debug, Drop)]
pub enum Notice {
    /// The reset with this peer is done, and connections may be asked for.
    Ready {
        peer: HostAddr,
    },
    /// The peer didn't answer a contact.
    ContactFailed {
        peer: HostAddr,
    },
    /// All connections with this peer are gone.
    PairReset {
        peer: HostAddr,
    },
    /// A connection is open: this host's request went out and the peer's was taken.
    Opened {
        socket: u32,
        peer: HostAddr,
        foreign: u32,
        own_stamp: usize,
        partner_stamp: usize,
    },
    /// Both ends of a connection were closed.
    Ended {
        socket: u32,
        peer: HostAddr,
        foreign: u32,
    },
    /// These bits went out.
    Sent {
        socket: u32,
        bits: Bits,
    },
    /// These bits came in.
    Arrived {
        socket: u32,
        bits: Bits,
    },
    /// The sender gave this many messages and bits of its allocation back.
    Returned {
        socket: u32,
        messages: u16,
        bits: u32,
    },
    /// The other end interrupts.
    Interrupt {
        socket: u32,
    },
    /// The peer sent an octet back.
    Echoed {
        peer: HostAddr,
        octet: u8,
    },
    /// The peer reports an error in what this host sent.
    RemoteError {
        peer: HostAddr,
        code: u8,
        detail: [u8; MAX_QUOTED],
    },
}
