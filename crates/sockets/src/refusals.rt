//! Why a request of the user is refused.

ghost use Rattle.std.specs.Prelude.{◌≡◌, MatchResult, Option, Some, None, is_some, ℕ, IfOk, false, true};
ghost use Rattle.sockets.specs.Checks.{Checked, IsFreeFor, IsNotOpen, IsOpenAt, IsOwner, IsOwnerOnLink, IsOwnerSaying};
ghost use Rattle.sockets.specs.Others.{owner_host};
ghost use Rattle.sockets.specs.Pairs.{pair_with, owner_of};
ghost use Rattle.sockets.specs.Peers.{AreInOrder};
ghost use Rattle.ncp_control.specs.Phases.{is_ready};
ghost use Rattle.sockets.specs.Requests as requests;
ghost use Rattle.sockets.specs.Requests.{at_owner, with_peer};
ghost use Rattle.host_pairs.specs.Asked.{interrupt_of};
ghost use Rattle.host_pairs.specs.Parcels.{link_of};
ghost use Rattle.host_pairs.specs.Pair.{PairState};
ghost use Rattle.host_pairs.specs.Entries.{entry_at, free_link};
ghost use Rattle.ncp_control.specs.Command.{is_alone};
ghost use Rattle.ncp_control.specs.declared.command.Command.{Command};
ghost use Rattle.host_pairs.specs.declared.entry.Entry.{Entry};
ghost use Rattle.sockets.specs.declared.fault.NcpFault.{NcpFault};

use crate::ncp::Ncp;
use crate::{NcpFault, Request};
use host_pairs::{Entry, free_link, has_end, listens_on};
use interface::HostAddr;
use ncp_control::{Allocation, ByteSize, Command, ConnectionLink, ReceiveSocket, SendSocket};

impl Ncp {
    /// Returns why a request would be refused now: the first fault that applies, and none where the request would be
    /// served. Nothing changes, and no memory is needed.
    #[tactic(auto, unfolding(crate::specs::Requests::refusal))]
    pub fn refusal(&self, request: &Request) -> Option<NcpFault>
        ensures { result ≡ requests.refusal self.now request.now }
    {
        match request {
            Request::Contact { .. } => None,
            Request::Listen { socket, size } => self.check_listen(*socket, *size).err(),
            Request::OpenSend {
                peer,
                own,
                foreign,
                size,
            } => self.check_open_send(*peer, *own, *foreign, *size).err(),
            Request::OpenReceive { peer, own, foreign } => {
                self.check_open_receive(*peer, *own, *foreign).err()
            }
            Request::Send { socket, bits } => self.check_send(*socket, bits.len()).err(),
            Request::Grant {
                socket,
                messages,
                bits,
            } => self.check_grant(*socket, *messages, *bits).err(),
            Request::AskBack { socket, .. } => self.check_ask_back(*socket).err(),
            Request::Interrupt { socket } => self.check_interrupt(*socket).err(),
            Request::Close { socket } if listens_on(&self.listening, *socket) => None,
            Request::Close { socket } => self.check_close(*socket).err(),
            Request::Echo { peer, .. } if self.is_ready(*peer) => None,
            Request::Echo { .. } => Some(NcpFault::NotContacted),
        }
    }

    /// Returns why this many bits would be refused to be sent on a socket now: the first fault that applies. Nothing
    /// changes, and no memory is needed.
    pub fn send_refusal(&self, socket: u32, bits: usize) -> Option<NcpFault>
        ensures { result ≡ requests.send_refusal self.now socket bits }
    {
        self.check_send(socket, bits).err()
    }

    /// Returns whether the reset with a peer is done.
    pub(crate) fn is_ready(&self, peer: HostAddr) -> bool
        ensures { result ≡ is_ready (pair_with peer self.now.peers).phase }
    {
        match self.peers.pair(peer) {
            Some(pair) => pair.phase.is_ready(),
            None => false,
        }
    }

    /// Returns the ends of the connections with a peer.
    fn entries(&self, peer: HostAddr) -> &[Entry]
        ensures { result.now ≡ (pair_with peer self.now.peers).entries }
    {
        match self.peers.pair(peer) {
            Some(pair) => pair.entries.as_slice(),
            None => &[],
        }
    }

    /// Returns whether a socket listens, or has an end that this host opened or listened for.
    fn is_used(&self, socket: u32) -> bool
        ensures { result ≡ requests.is_used self.now socket }
    {
        listens_on(&self.listening, socket) || self.peers.owner(socket).is_some()
    }

    /// Returns whether a socket is used, or has an end with this foreign socket.
    #[tactic(auto, using(crate::proofs::OwnedLemmas::no_end, crate::proofs::OwnedLemmas::no_owner))]
    fn is_taken(&self, peer: HostAddr, own: u32, foreign: u32) -> bool
        ensures { result ≡ requests.is_taken self.now peer own foreign }
    {
        if listens_on(&self.listening, own) {
            return true;
        }
        if self.peers.lacks(own) {
            return false;
        }
        self.peers.owner(own).is_some() || has_end(self.entries(peer), own, foreign)
    }

    /// Returns a socket that may listen, with a size that isn't 0.
    pub(crate) fn check_listen(&self, socket: u32, size: u8) -> Result<ByteSize, NcpFault>
        ensures { MatchResult result (λ checked. (requests.listen_refusal self.now socket size ≡ None) × (checked ≡ size)) (λ f. requests.listen_refusal self.now socket size ≡ Some f) }
    {
        if self.is_used(socket) {
            return Err(NcpFault::InUse);
        }
        ByteSize::new(size).ok_or(NcpFault::BadSize)
    }

    /// Returns the sockets and the size of a sending end that may be opened.
    pub(crate) fn check_open_send(
        &self,
        peer: HostAddr,
        own: u32,
        foreign: u32,
        size: u8,
    ) -> Result<(SendSocket, ReceiveSocket, ByteSize), NcpFault>
        ensures ready { IfOk result (λ checked. is_ready (pair_with peer self.now.peers).phase ≡ true) }
        ensures checked { Checked (requests.open_send_refusal self.now peer own foreign size) (λ checked. checked ≡ (own, foreign, size)) result }
    {
        if !self.is_ready(peer) {
            return Err(NcpFault::NotContacted);
        }
        let (Some(send), Some(receive)) = (SendSocket::new(own), ReceiveSocket::new(foreign)) else {
            return Err(NcpFault::WrongEnd);
        };
        if self.is_taken(peer, own, foreign) {
            return Err(NcpFault::InUse);
        }
        let Some(size) = ByteSize::new(size) else {
            return Err(NcpFault::BadSize);
        };
        Ok((send, receive, size))
    }

    /// Returns the sockets of a receiving end that may be opened, and its link.
    pub(crate) fn check_open_receive(
        &self,
        peer: HostAddr,
        own: u32,
        foreign: u32,
    ) -> Result<(ReceiveSocket, SendSocket, ConnectionLink), NcpFault>
        ensures ready { IfOk result (λ checked. is_ready (pair_with peer self.now.peers).phase ≡ true) }
        ensures checked { Checked (requests.open_receive_refusal self.now peer own foreign) (λ c. IsFreeFor self.now peer own foreign c.0 c.1 c.2) result }
    {
        if !self.is_ready(peer) {
            return Err(NcpFault::NotContacted);
        }
        let (Some(receive), Some(send)) = (ReceiveSocket::new(own), SendSocket::new(foreign)) else {
            return Err(NcpFault::WrongEnd);
        };
        if self.is_taken(peer, own, foreign) {
            return Err(NcpFault::InUse);
        }
        let Some(link) = free_link(self.entries(peer)) else {
            return Err(NcpFault::NoLink);
        };
        Ok((receive, send, link))
    }

    /// Returns the open end on a socket, and its peer.
    fn open_end(&self, socket: u32) -> Result<(HostAddr, &Entry), NcpFault>
        ensures order { IfOk result (λ found. AreInOrder self.now.peers) }
        ensures open { MatchResult result (λ found. IsOpenAt self.now socket found.0 found.1.now) (IsNotOpen self.now socket) }
    {
        let Some((peer, entry)) = self.peers.owner(socket) else {
            return Err(NcpFault::NoSuchSocket);
        };
        if !entry.is_open() {
            return Err(NcpFault::NotOpen);
        }
        Ok((peer, entry))
    }

    /// Returns the peer to which bits of a socket go.
    pub(crate) fn check_send(&self, socket: u32, bits: usize) -> Result<HostAddr, NcpFault>
        ensures order { IfOk result (λ peer. AreInOrder self.now.peers) }
        ensures checked { Checked (requests.send_refusal self.now socket bits) (IsOwner self.now socket) result }
    {
        if socket % 2 == 0 {
            return Err(NcpFault::WrongEnd);
        }
        let (peer, entry) = match self.open_end(socket) {
            Ok(found) => found,
            Err(fault) => return Err(fault),
        };
        if !entry.has_bytes(bits) {
            return Err(NcpFault::BadSize);
        }
        if entry.was_closed() {
            return Err(NcpFault::Closing);
        }
        Ok(peer)
    }

    /// Returns the peer that is granted more, and the link.
    pub(crate) fn check_grant(
        &self,
        socket: u32,
        messages: u16,
        bits: u32,
    ) -> Result<(HostAddr, u8), NcpFault>
        ensures { Checked (requests.grant_refusal self.now socket messages bits) (λ found. IsOwnerOnLink self.now socket found.0 found.1) result }
    {
        if socket % 2 != 0 {
            return Err(NcpFault::WrongEnd);
        }
        let (peer, entry) = match self.open_end(socket) {
            Ok(found) => found,
            Err(fault) => return Err(fault),
        };
        if entry.was_closed() {
            return Err(NcpFault::Closing);
        }
        if entry.would_pass(messages, bits) {
            return Err(NcpFault::OverGrant);
        }
        Ok((peer, entry.link_number()))
    }

    /// Returns the peer that is asked for allocation, and the link.
    pub(crate) fn check_ask_back(&self, socket: u32) -> Result<(HostAddr, u8), NcpFault>
        ensures { Checked (requests.ask_back_refusal self.now socket) (λ found. IsOwnerOnLink self.now socket found.0 found.1) result }
    {
        if socket % 2 != 0 {
            return Err(NcpFault::WrongEnd);
        }
        let (peer, entry) = match self.open_end(socket) {
            Ok(found) => found,
            Err(fault) => return Err(fault),
        };
        if entry.was_closed() {
            return Err(NcpFault::Closing);
        }
        Ok((peer, entry.link_number()))
    }

    /// Returns the peer that is interrupted, and the command that does it.
    pub(crate) fn check_interrupt(&self, socket: u32) -> Result<(HostAddr, Command), NcpFault>
        ensures joint { IfOk result (λ found. is_alone found.1 ≡ false) }
        ensures checked { Checked (requests.interrupt_refusal self.now socket) (λ found. IsOwnerSaying self.now socket found.0 found.1) result }
    {
        let (peer, entry) = match self.open_end(socket) {
            Ok(found) => found,
            Err(fault) => return Err(fault),
        };
        if entry.was_closed() {
            return Err(NcpFault::Closing);
        }
        Ok((peer, entry.interrupt()))
    }

    /// Returns the peer of a connection that may be closed. What listens may always be closed, and is seen to before.
    pub(crate) fn check_close(&self, socket: u32) -> Result<HostAddr, NcpFault>
        ensures host { IfOk result (λ peer. owner_host (owner_of socket self.now.peers) ≡ Some peer) }
        ensures order { IfOk result (λ peer. AreInOrder self.now.peers) }
        ensures checked { Checked (requests.close_fault (owner_of socket self.now.peers)) (IsOwner self.now socket) result }
    {
        let Some((peer, entry)) = self.peers.owner(socket) else {
            return Err(NcpFault::NoSuchSocket);
        };
        if entry.was_closed() {
            return Err(NcpFault::Closing);
        }
        Ok(peer)
    }
}
