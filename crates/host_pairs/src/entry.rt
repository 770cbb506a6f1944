//! One end of a connection.

ghost use Rattle.std.specs.Prelude.{◌≡◌};
ghost use Rattle.host_pairs.specs.Entries as entries;

use bit_messages::Bits;
use ncp_control::{Allocation, ByteSize, ConnectionLink};
use std::alloc::Global;

/// How far this host's closing of a connection has come.
#[derive(Clone, Copy, Debug, PartialEq, Eq)]
pub enum Closing {
    /// It isn't to be closed.
    No,
    /// It is to be closed when what it has sent is answered.
    Due,
    /// Its CLS waits to go out.
    Queued,
    /// Its CLS has gone out.
    Sent,
}

/// One end of a connection, from the first request that was sent or taken until both CLS have passed.
#[derive(Debug, Drop)]
pub struct Entry {
    /// The socket at this host: an even one receives, an odd one sends.
    pub own: u32,
    /// The socket at the peer.
    pub foreign: u32,
    /// Whether this host opened it or listened for it. The end of a request that was refused is not its own.
    pub mine: bool,
    /// Where this host's request is in the log, once it has gone out.
    pub asked: Option<usize>,
    /// Where the peer's request is in the log, once it was taken.
    pub partner: Option<usize>,
    /// How far this host's closing has come.
    pub closing: Closing,
    /// Whether the peer's CLS was taken.
    pub partner_closed: bool,
    /// The link of its messages: chosen by a receiving end, a sending end learns it.
    pub link: Option<ConnectionLink>,
    /// The size of its bytes; a receiving end learns it by the sender's request.
    pub size: Option<ByteSize>,
    /// What may still be sent, or what may still come.
    pub allocation: Allocation,
    /// What waits to be sent.
    pub bits: Bits,
}

impl Closing {
    /// Returns whether a CLS waits to go out or has gone out.
    fn has_cls(self) -> bool
        ensures { result ≡ entries.has_cls self }
    {
        matches!(self, Closing::Queued | Closing::Sent)
    }

    /// Returns whether the connection is to be closed, whether or not the CLS is queued.
    fn is_called_off(self) -> bool
        ensures { result ≡ entries.is_called_off self }
    {
        !matches!(self, Closing::No)
    }

    /// Returns the partner's CLS, or the user's wish: this end is to be closed.
    fn due(self) -> Closing
        ensures { result ≡ entries.close_due self }
    {
        match self {
            Closing::No => Closing::Due,
            other => other,
        }
    }
}

impl Entry {
    /// Returns a new end: nothing is asked for, granted or queued on it.
    fn new(alloc: Global, own: u32, foreign: u32) -> Entry
        ensures { result ≡ entries.new_entry own foreign }
    {
        Entry {
            own,
            foreign,
            mine: true,
            asked: None,
            partner: None,
            closing: Closing::No,
            partner_closed: false,
            link: None,
            size: None,
            allocation: Allocation::new(),
            bits: Bits::new(alloc),
        }
    }

    /// Returns a sending end, with bytes of this size.
    pub fn sending(alloc: Global, own: u32, foreign: u32, size: ByteSize) -> Entry
        ensures { result ≡ entries.sending_end own foreign size }
    {
        let mut entry = Entry::new(alloc, own, foreign);
        entry.size = Some(size);
        entry
    }

    /// Returns a receiving end, on this link.
    pub fn receiving(alloc: Global, own: u32, foreign: u32, link: ConnectionLink) -> Entry
        ensures { result ≡ entries.receiving_end own foreign link }
    {
        let mut entry = Entry::new(alloc, own, foreign);
        entry.link = Some(link);
        entry
    }

    /// Returns the end of a request that is refused.
    pub(crate) fn refused(alloc: Global, own: u32, foreign: u32, stamp: usize) -> Entry
        ensures { result ≡ entries.refused_end own foreign stamp }
    {
        let mut entry = Entry::new(alloc, own, foreign);
        entry.mine = false;
        entry.partner = Some(stamp);
        entry.closing = Closing::Queued;
        entry
    }

    /// Returns whether it receives: its socket is even.
    pub fn is_receiving(&self) -> bool
        ensures { result ≡ entries.is_receiving self.now }
    {
        self.own % 2 == 0
    }

    /// Returns whether it is the end of these two sockets.
    pub(crate) fn is_at(&self, own: u32, foreign: u32) -> bool
        ensures { result ≡ entries.is_at own foreign self.now }
    {
        self.own == own && self.foreign == foreign
    }

    /// Returns whether it has this link.
    fn has_link(&self, link: u8) -> bool
        ensures { result ≡ entries.is_link link self.now.link }
    {
        self.link.is_some_and(|l| l.number() == link)
    }

    /// Returns whether it is this host's own on this socket. The socket is looked at first, since few ends have it.
    #[tactic(auto, using(interface::proofs::lemmas::and_turned))]
    pub(crate) fn is_mine_on(&self, socket: u32) -> bool
        ensures { result ≡ entries.is_mine_on socket self.now }
    {
        self.own == socket && self.mine
    }

    /// Returns whether it sends on this link.
    pub(crate) fn sends_on(&self, link: u8) -> bool
        ensures { result ≡ entries.sends_on link self.now }
    {
        !self.is_receiving() && self.has_link(link)
    }

    /// Returns whether it receives on this link.
    pub(crate) fn receives_on(&self, link: u8) -> bool
        ensures { result ≡ entries.receives_on link self.now }
    {
        self.is_receiving() && self.has_link(link)
    }

    /// Returns whether a CLS was queued or taken.
    pub(crate) fn is_ending(&self) -> bool
        ensures { result ≡ entries.is_ending self.now }
    {
        self.closing.has_cls() || self.partner_closed
    }

    /// Returns whether it is open: its own request has gone out, the partner's was taken, and no CLS was queued or
    /// taken.
    pub fn is_open(&self) -> bool
        ensures { result ≡ entries.is_open self.now }
    {
        self.asked.is_some() && self.partner.is_some() && !self.is_ending()
    }

    /// Returns whether it was closed at this end or at the other.
    pub fn was_closed(&self) -> bool
        ensures { result ≡ entries.was_closed self.now }
    {
        self.closing.is_called_off() || self.partner_closed
    }

    /// Returns whether both CLS have passed.
    pub(crate) fn is_over(&self) -> bool
        ensures { result ≡ entries.is_over self.now }
    {
        self.closing == Closing::Sent && self.partner_closed
    }

    /// Returns whether all that it has sent is answered and nothing waits to be sent.
    fn is_drained(&self, busy: &[u8]) -> bool
        ensures { result ≡ entries.is_drained busy.now self.now }
    {
        self.is_receiving() || self.bits.is_empty() && is_answered(busy, self.link)
    }

    /// Returns whether its CLS is queued now.
    pub(crate) fn must_close(&self, busy: &[u8]) -> bool
        ensures { result ≡ entries.must_close busy.now self.now }
    {
        self.closing == Closing::Due && self.is_drained(busy)
    }

    /// Marks the end to be closed by its user.
    pub(crate) fn call_off(&mut self)
        ensures { self.new ≡ entries.called_off self.old }
    {
        self.closing = self.closing.due();
    }

    /// Records the partner's CLS.
    pub(crate) fn close_by_partner(&mut self, alloc: Global)
        ensures { self.new ≡ entries.closed_by_partner self.old }
    {
        self.closing = self.closing.due();
        self.partner_closed = true;
        self.bits = Bits::new(alloc);
    }
}

/// Returns whether a message on this link has no answer yet.
pub fn is_busy(busy: &[u8], link: u8) -> bool
    ensures { result ≡ entries.is_busy busy.now link }
{
    busy.iter().any(|l| *l == link)
}

/// Returns whether all messages on a link, where it is known, are answered.
pub(crate) fn is_answered(busy: &[u8], link: Option<ConnectionLink>) -> bool
    ensures { result ≡ entries.is_answered busy.now link }
{
    match link {
        Some(link) => !is_busy(busy, link.number()),
        None => true,
    }
}
