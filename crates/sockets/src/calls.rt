//! What a user may ask of the network control program (NIC 8246 leaves the calls to each host; RTS, STR, CLS,
//! ALL, GVB, INR, INS, ECO and RST go out by them).

ghost use Rattle.std.specs.Prelude.{◌≡◌, ◌+◌, ◌<◌, ◌++◌, ◌∷◌, [], false, IfErr, IfOk, None, OnErr, OnOk, Some, length, true};
ghost use Rattle.ncp_control.specs.Command.{is_alone};
ghost use Rattle.sockets.specs.Calls.{IsRefused, IsServed};
ghost use Rattle.host_pairs.specs.Commands.{granted};
ghost use Rattle.ncp_control.specs.Phases.{is_ready};
ghost use Rattle.sockets.specs.Memory.{newly_kept, newly_known, queued_by_closing};
ghost use Rattle.sockets.specs.Others.{owner_host};
ghost use Rattle.sockets.specs.Pairs.{owner_of, pair_with};
ghost use Rattle.host_pairs.specs.Asked as asked;
ghost use Rattle.sockets.specs.Requests as requests;
ghost use Rattle.host_pairs.specs.Asked.{with_end, with_more_bits};
ghost use Rattle.sockets.specs.Requests.{with_peer};
ghost use Rattle.sockets.specs.declared.request.Request.TheVariants as request;

use crate::ncp::Ncp;
use crate::{NcpFault, Notice, Request};
use bit_messages::Bits;
use host_pairs::{Entry, Listener, listens_on, stop_listening};
use interface::HostAddr;
use ncp_control::Command;
use std::alloc::AllocError;

// ---- what is done to a peer

impl Ncp {
    /// Forgets all that there was with a peer, and makes an RST go out.
    fn reset(&mut self, peer: HostAddr) -> Result<Vec<Notice>, AllocError>
        ensures state { OnOk result (self.new ≡ with_peer self.old peer asked.contacted) }
        ensures notices { IfOk result (λ notices. notices.items ≡ asked.contact_notices peer (pair_with peer self.old.peers).phase) }
        ensures memory { OnErr result (0 < length (asked.contact_notices peer (pair_with peer self.old.peers).phase) + newly_known self.old (with_peer self.old peer asked.contacted)) }
    {
        let mut notices = Vec::new(self.alloc);
        let mut pair = self.peers.take(self.alloc, peer);
        if pair.phase.is_ready() {
            notices.push(Notice::PairReset { peer })?;
        }
        pair.contact(self.alloc);
        self.peers.put(peer, pair)?;
        Ok(notices)
    }

    /// Adds a new end with a peer, and queues its request.
    #[tactic(auto, using(crate::proofs::OwnedLemmas::known_but))]
    fn request(&mut self, peer: HostAddr, entry: Entry, command: Command) -> Result<(), AllocError>
        requires joint { is_alone command ≡ false }
        requires ready { is_ready (pair_with peer self.old.peers).phase ≡ true }
        ensures { OnOk result (self.new ≡ with_peer self.old peer (asked.requested entry command)) }
    {
        let own = entry.own;
        let owned = self.peers.take_owned();
        self.peers.request(peer, entry, command)?;
        self.peers.learn(self.alloc, owned, own)
    }

    /// Queues a command for a peer.
    fn command(&mut self, peer: HostAddr, command: Command) -> Result<(), AllocError>
        requires joint { is_alone command ≡ false }
        ensures { OnOk result (self.new ≡ with_peer self.old peer (asked.commanded command)) }
    {
        self.peers.command(self.alloc, peer, command)
    }

    /// Queues bits of a socket to be sent to a peer.
    fn add_bits(&mut self, peer: HostAddr, socket: u32, bits: &Bits) -> Result<(), AllocError>
        ensures state { OnOk result (self.new ≡ with_peer self.old peer (with_end socket (with_more_bits bits.now))) }
        ensures memory { OnErr result (0 < length bits.now + newly_known self.old (with_peer self.old peer (with_end socket (with_more_bits bits.now)))) }
    {
        if let Some(done) = self.peers.add_bits(peer, socket, bits) {
            return done;
        }
        let mut pair = self.peers.take(self.alloc, peer);
        pair.add_bits(socket, bits)?;
        self.peers.put(peer, pair)
    }

    /// Grants the peer more.
    fn grant_more(
        &mut self,
        peer: HostAddr,
        socket: u32,
        messages: u16,
        bits: u32,
        command: Command,
    ) -> Result<(), AllocError>
        requires joint { is_alone command ≡ false }
        ensures { OnOk result (self.new ≡ with_peer self.old peer (λ q. asked.commanded command (with_end socket (granted messages bits) q))) }
    {
        let alloc = self.alloc;
        self.peers
            .grant(alloc, peer, socket, messages, bits, command)
    }

    /// Closes the connection of a socket with a peer, at once or when it is drained.
    fn close_end(&mut self, peer: HostAddr, socket: u32) -> Result<(), AllocError>
        ensures state { OnOk result (self.new ≡ with_peer self.old peer (asked.closed_end socket)) }
        ensures memory { OnErr result (0 < queued_by_closing self.old socket (Some peer) + newly_known self.old (with_peer self.old peer (asked.closed_end socket))) }
    {
        let mut pair = self.peers.take(self.alloc, peer);
        pair.close(socket)?;
        self.peers.put(peer, pair)
    }

    /// Adds a listening socket after the others.
    fn add_listener(&mut self, listener: Listener) -> Result<(), AllocError>
        ensures { OnOk result (self.new ≡ record self.old { listening = self.old.listening ++ listener ∷ [] }) }
    {
        self.listening.push(listener)?;
        Ok(())
    }
}

// ---- what the user asks for

impl Ncp {
    /// Resets everything between this host and a peer: all connections with it are gone, and nothing can be
    /// said to it but RST and RRP until the notice `Ready`. Returns `PairReset` where the pair was ready.
    ///
    /// Errors: `OutOfMemory`, only where the pair was ready or the peer comes to be known.
    #[tactic(auto, unfolding(crate::specs::Requests::refusal, crate::specs::Requests::served, crate::specs::Requests::served_notices))]
    pub fn contact(&mut self, peer: HostAddr) -> Result<Vec<Notice>, NcpFault>
        requires live { self.old.spent ≡ false }
        ensures refused { IsRefused self.old (request.Contact peer) result self.new }
        ensures served { IsServed (λ notices. notices.items) self.old (request.Contact peer) result self.new }
        ensures memory { IfErr result (λ f. 0 < length (asked.contact_notices peer (pair_with peer self.old.peers).phase) + newly_known self.old (requests.served self.old (request.Contact peer))) }
    {
        let done = self.reset(peer);
        self.end(done)
    }

    /// Waits on a socket for any host's request. An odd socket will send bytes of this size; at an even one
    /// the size is only checked.
    ///
    /// Errors: `InUse` where the socket listens or has an end, `BadSize` for size 0, `OutOfMemory`.
    #[tactic(auto, unfolding(crate::specs::Requests::refusal, crate::specs::Requests::served, crate::specs::Requests::served_notices))]
    pub fn listen(&mut self, socket: u32, size: u8) -> Result<(), NcpFault>
        requires live { self.old.spent ≡ false }
        ensures refused { IsRefused self.old (request.Listen socket size) result self.new }
        ensures served { IsServed (λ _. []) self.old (request.Listen socket size) result self.new }
    {
        let size = self.check_listen(socket, size)?;
        let done = self.add_listener(Listener { socket, size });
        self.end(done)
    }

    /// Asks for a connection from an own odd socket to a foreign even one, with bytes of this size (STR).
    ///
    /// Errors, the first that applies: `NotContacted` where the reset with the peer isn't done, `WrongEnd`
    /// where a socket has the wrong parity, `InUse` where the own socket listens or has an end or the two
    /// sockets have one with this peer, `BadSize` for size 0, `OutOfMemory`.
    #[tactic(auto, unfolding(crate::specs::Requests::refusal, crate::specs::Requests::served, crate::specs::Requests::served_notices))]
    pub fn open_send(
        &mut self,
        peer: HostAddr,
        own: u32,
        foreign: u32,
        size: u8,
    ) -> Result<(), NcpFault>
        requires live { self.old.spent ≡ false }
        ensures refused { IsRefused self.old (request.OpenSend peer own foreign size) result self.new }
        ensures served { IsServed (λ _. []) self.old (request.OpenSend peer own foreign size) result self.new }
    {
        let (send, receive, size) = self.check_open_send(peer, own, foreign, size)?;
        let entry = Entry::sending(self.alloc, own, foreign, size);
        let done = self.request(
            peer,
            entry,
            Command::Str {
                send,
                receive,
                size,
            },
        );
        self.end(done)
    }

    /// Asks for a connection to an own even socket from a foreign odd one, on the lowest link that no
    /// receiving end of the pair has (RTS).
    ///
    /// Errors, the first that applies: `NotContacted` where the reset with the peer isn't done, `WrongEnd`
    /// where a socket has the wrong parity, `InUse` where the own socket listens or has an end or the two
    /// sockets have one with this peer, `NoLink` where all thirty links are taken, `OutOfMemory`.
    #[tactic(auto, unfolding(crate::specs::Requests::refusal, crate::specs::Requests::served, crate::specs::Requests::served_notices))]
    pub fn open_receive(&mut self, peer: HostAddr, own: u32, foreign: u32) -> Result<(), NcpFault>
        requires live { self.old.spent ≡ false }
        ensures refused { IsRefused self.old (request.OpenReceive peer own foreign) result self.new }
        ensures served { IsServed (λ _. []) self.old (request.OpenReceive peer own foreign) result self.new }
    {
        let (receive, send, link) = self.check_open_receive(peer, own, foreign)?;
        let entry = Entry::receiving(self.alloc, own, foreign, link);
        let done = self.request(
            peer,
            entry,
            Command::Rts {
                receive,
                send,
                link,
            },
        );
        self.end(done)
    }

    /// Queues bits of whole bytes on an open sending socket. They go out as the receiver grants.
    ///
    /// Errors, the first that applies: `WrongEnd` for an even socket, `NoSuchSocket` where it has no own
    /// end, `NotOpen`, `BadSize` for bits that aren't whole bytes, `Closing` where this host has closed the
    /// connection and it drains, `OutOfMemory` only where there are bits.
    pub fn send(&mut self, socket: u32, bits: Bits) -> Result<(), NcpFault>
        requires live { self.old.spent ≡ false }
        ensures refused { IsRefused self.old (request.Send socket bits) result self.new }
        ensures served { IsServed (λ _. []) self.old (request.Send socket bits) result self.new }
        ensures memory { requests.refusal self.old (request.Send socket bits) ≡ None → IfErr result (λ f. 0 < length bits) }
    {
        self.send_bits(socket, &bits)
    }

    /// Does the same, with bits that stay with the caller.
    #[tactic(auto, unfolding(crate::specs::Requests::refusal, crate::specs::Requests::served, crate::specs::Requests::served_notices))]
    fn send_bits(&mut self, socket: u32, bits: &Bits) -> Result<(), NcpFault>
        requires live { self.old.spent ≡ false }
        ensures refused { IsRefused self.old (request.Send socket bits.now) result self.new }
        ensures served { IsServed (λ _. []) self.old (request.Send socket bits.now) result self.new }
        ensures memory { requests.refusal self.old (request.Send socket bits.now) ≡ None → IfErr result (λ f. 0 < length bits.now) }
    {
        let peer = self.check_send(socket, bits.len())?;
        let done = self.add_bits(peer, socket, bits);
        self.end(done)
    }

    /// Grants the sender to an open receiving socket this many messages and bits more (ALL).
    ///
    /// Errors, the first that applies: `WrongEnd` for an odd socket, `NoSuchSocket` where it has no own end,
    /// `NotOpen`, `Closing`, `OverGrant` where what is open would pass 65535 messages or 4294967295 bits,
    /// `OutOfMemory`.
    #[tactic(auto, unfolding(crate::specs::Requests::refusal, crate::specs::Requests::served, crate::specs::Requests::served_notices))]
    pub fn grant(&mut self, socket: u32, messages: u16, bits: u32) -> Result<(), NcpFault>
        requires live { self.old.spent ≡ false }
        ensures refused { IsRefused self.old (request.Grant socket messages bits) result self.new }
        ensures served { IsServed (λ _. []) self.old (request.Grant socket messages bits) result self.new }
    {
        let (peer, link) = self.check_grant(socket, messages, bits)?;
        let command = Command::All {
            link,
            messages,
            bits,
        };
        let done = self.grant_more(peer, socket, messages, bits, command);
        self.end(done)
    }

    /// Asks the sender to an open receiving socket for parts of its allocation, in 128ths (GVB).
    ///
    /// Errors, the first that applies: `WrongEnd` for an odd socket, `NoSuchSocket` where it has no own end,
    /// `NotOpen`, `Closing`, `OutOfMemory`.
    #[tactic(auto, unfolding(crate::specs::Requests::refusal, crate::specs::Requests::served, crate::specs::Requests::served_notices))]
    pub fn ask_back(&mut self, socket: u32, messages: u8, bits: u8) -> Result<(), NcpFault>
        requires live { self.old.spent ≡ false }
        ensures refused { IsRefused self.old (request.AskBack socket messages bits) result self.new }
        ensures served { IsServed (λ _. []) self.old (request.AskBack socket messages bits) result self.new }
    {
        let (peer, link) = self.check_ask_back(socket)?;
        let done = self.command(
            peer,
            Command::Gvb {
                link,
                messages,
                bits,
            },
        );
        self.end(done)
    }

    /// Interrupts the other end of an open connection (INR from its receiver, INS from its sender).
    ///
    /// Errors, the first that applies: `NoSuchSocket` where the socket has no own end, `NotOpen`, `Closing`
    /// where this host has closed the connection and it drains, `OutOfMemory`.
    #[tactic(auto, unfolding(crate::specs::Requests::refusal, crate::specs::Requests::served, crate::specs::Requests::served_notices))]
    pub fn interrupt(&mut self, socket: u32) -> Result<(), NcpFault>
        requires live { self.old.spent ≡ false }
        ensures refused { IsRefused self.old (request.Interrupt socket) result self.new }
        ensures served { IsServed (λ _. []) self.old (request.Interrupt socket) result self.new }
    {
        let (peer, command) = self.check_interrupt(socket)?;
        let done = self.command(peer, command);
        self.end(done)
    }

    /// Stops listening on a socket, or closes its connection: at once, or when all that waits to be sent has
    /// been sent and answered (CLS).
    ///
    /// Errors, the first that applies: `NoSuchSocket` where the socket has no own end and doesn't listen,
    /// `Closing` where the connection was closed before, at this end or at the other, `OutOfMemory` only where
    /// its CLS is queued at once.
    #[tactic(auto, unfolding(crate::specs::Requests::refusal, crate::specs::Requests::served, crate::specs::Requests::served_notices))]
    pub fn close(&mut self, socket: u32) -> Result<(), NcpFault>
        requires live { self.old.spent ≡ false }
        ensures refused { IsRefused self.old (request.Close socket) result self.new }
        ensures served { IsServed (λ _. []) self.old (request.Close socket) result self.new }
        ensures memory { requests.refusal self.old (request.Close socket) ≡ None → IfErr result (λ f. 0 < queued_by_closing self.old socket (owner_host (owner_of socket self.old.peers))) }
    {
        if listens_on(&self.listening, socket) {
            stop_listening(&mut self.listening, socket);
            return Ok(());
        }
        let peer = self.check_close(socket)?;
        let done = self.close_end(peer, socket);
        self.end(done)
    }

    /// Asks a peer to send an octet back (ECO).
    ///
    /// Errors: `NotContacted` where the reset with the peer isn't done, `OutOfMemory`.
    #[tactic(auto, unfolding(crate::specs::Requests::refusal, crate::specs::Requests::served, crate::specs::Requests::served_notices))]
    pub fn echo(&mut self, peer: HostAddr, octet: u8) -> Result<(), NcpFault>
        requires live { self.old.spent ≡ false }
        ensures refused { IsRefused self.old (request.Echo peer octet) result self.new }
        ensures served { IsServed (λ _. []) self.old (request.Echo peer octet) result self.new }
    {
        if !self.is_ready(peer) {
            return Err(NcpFault::NotContacted);
        }
        let done = self.command(peer, Command::Eco { octet });
        self.end(done)
    }

    /// Runs a request, as the programs above the sockets make them, and returns what is notified of it.
    ///
    /// Errors: those of the request's own call, `OutOfMemory` only where something more is kept once it is served.
    pub fn ask(&mut self, request: Request) -> Result<Vec<Notice>, NcpFault>
        requires live { self.old.spent ≡ false }
        ensures refused { IsRefused self.old request result self.new }
        ensures served { IsServed (λ notices. notices.items) self.old request result self.new }
        ensures memory { requests.refusal self.old request ≡ None → IfErr result (λ f. 0 < newly_kept self.old request) }
    {
        self.serve(&request)
    }

    /// Runs a request as [`Ncp::ask`] does. The request stays with the caller, and no copy of it is made.
    ///
    /// Errors: those of the request's own call, `OutOfMemory` only where something more is kept once it is served.
    #[tactic(auto, unfolding(crate::specs::Requests::served_notices))]
    pub fn serve(&mut self, request: &Request) -> Result<Vec<Notice>, NcpFault>
        requires live { self.old.spent ≡ false }
        ensures refused { IsRefused self.old request.now result self.new }
        ensures served { IsServed (λ notices. notices.items) self.old request.now result self.new }
        ensures memory { requests.refusal self.old request.now ≡ None → IfErr result (λ f. 0 < newly_kept self.old request.now) }
    {
        match request {
            Request::Contact { peer } => return self.contact(*peer),
            Request::Listen { socket, size } => self.listen(*socket, *size)?,
            Request::OpenSend {
                peer,
                own,
                foreign,
                size,
            } => self.open_send(*peer, *own, *foreign, *size)?,
            Request::OpenReceive { peer, own, foreign } => {
                self.open_receive(*peer, *own, *foreign)?;
            }
            Request::Send { socket, bits } => self.send_bits(*socket, bits)?,
            Request::Grant {
                socket,
                messages,
                bits,
            } => self.grant(*socket, *messages, *bits)?,
            Request::AskBack {
                socket,
                messages,
                bits,
            } => self.ask_back(*socket, *messages, *bits)?,
            Request::Interrupt { socket } => self.interrupt(*socket)?,
            Request::Close { socket } => self.close(*socket)?,
            Request::Echo { peer, octet } => self.echo(*peer, *octet)?,
        }
        Ok(Vec::new(self.alloc))
    }
}
