//! Lives of connections: each opened end, from its opening on.

use crate::bit_log::BitLog;
use interface::HostAddr;

/// This many messages, and this many bits in all.
#[derive(Clone, Copy, Debug, PartialEq, Eq)]
pub struct Amount {
    /// How many messages.
    pub messages: u128,
    /// How many bits.
    pub bits: u128,
}

/// One end of a connection from its opening on (NIC 8246). It begins where the user of its host is informed that the
/// end is open, and ends where that user is informed that the end is over, or that all connections with its peer are
/// gone, or where its host stops. Stamps are places in the log.
#[derive(Debug, Drop)]
pub struct Life {
    /// The host whose end it is.
    pub host: HostAddr,
    /// Its socket: an even one receives, an odd one sends.
    pub socket: u32,
    /// The host of its partner.
    pub peer: HostAddr,
    /// The socket of its partner.
    pub foreign: u32,
    /// Where its own request went out.
    pub own_stamp: usize,
    /// Where the request of its partner was taken.
    pub partner_stamp: usize,
    /// What it has sent, or taken, in order.
    pub bits: BitLog,
    /// How many messages that was.
    pub messages: u128,
    /// What the user of a receiving end granted to its sender.
    pub granted: Amount,
    /// What was returned of that.
    pub returned: Amount,
    /// Whether it has ended.
    pub ended: bool,
}

/// How far a life is, and if it is over, how it ended. A life is over by CLS where the user of its host was informed that the
/// end is over.
#[derive(Clone, Copy, Debug, PartialEq, Eq)]
pub enum Fate {
    /// It continues, and no user or service of its host has closed its end.
    Open,
    /// It continues, and a user or service of its host has closed its end.
    Closing,
    /// It is over by CLS, and a user or service of its host had closed its end while it continued.
    Closed,
    /// It is over by CLS, and nobody at its host had closed its end: its partner did.
    Ended,
    /// All connections with its peer were gone.
    Reset,
    /// Its host stopped.
    Stopped,
}
