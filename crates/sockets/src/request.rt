//! What a user may ask of the network control program.

use bit_messages::Bits;
use interface::HostAddr;

/// A user call with its arguments (NIC 8246 leaves them to each host). Programs above the sockets make
/// these.
#[derive(Debug, Drop)]
pub enum Request {
    /// Reset everything between this host and the peer.
    Contact {
        peer: HostAddr,
    },
    /// Wait on a socket for any host's request. A sending socket will send bytes of this size.
    Listen {
        socket: u32,
        size: u8,
    },
    /// Ask for a connection from an own odd socket to a foreign even one, with bytes of this size.
    OpenSend {
        peer: HostAddr,
        own: u32,
        foreign: u32,
        size: u8,
    },
    /// Ask for a connection to an own even socket from a foreign odd one.
    OpenReceive {
        peer: HostAddr,
        own: u32,
        foreign: u32,
    },
    /// Queue bits of whole bytes on an open sending socket.
    Send {
        socket: u32,
        bits: Bits,
    },
    /// Grant the sender of an open receiving socket this many messages and bits more.
    Grant {
        socket: u32,
        messages: u16,
        bits: u32,
    },
    /// Ask the sender of an open receiving socket for parts of its allocation, in 128ths.
    AskBack {
        socket: u32,
        messages: u8,
        bits: u8,
    },
    /// Interrupt the other end of an open connection.
    Interrupt {
        socket: u32,
    },
    /// Close a connection, or stop listening.
    Close {
        socket: u32,
    },
    /// Ask a peer to send an octet back.
    Echo {
        peer: HostAddr,
        octet: u8,
    },
}
