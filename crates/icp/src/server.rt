//! The server's part of an initial connection.

ghost use Rattle.std.specs.Prelude.{◌≡◌, ◌==◌, ◌+◌, ◌<◌, ◌&&◌, is_some, true, false, [], ◌∷◌, length, MatchResult, IfOk, OnErr, Err, Ok, None, Some};
ghost use Rattle.icp.specs.Notices as notices;
ghost use Rattle.icp.specs.Server as servers;
ghost use Rattle.icp.specs.Outcomes as outcomes;
ghost use Rattle.icp.specs.Sockets.{server_fault};
ghost use Rattle.sockets.specs.declared.request.Request.TheVariants as request;

use crate::notices::{Partner, has_ended, is_reset_of, opened_on};
use crate::outcome::local;
use crate::sockets_said::{SOCKET_BITS, socket_bits};
use crate::{Failure, Outcome, Said, StartFault};
use ncp_control::{ReceiveSocket, SendSocket};
use sockets::{NcpFault, Notice, Request};
use std::alloc::{AllocError, Global};
use std::marker::Model;

/// The size of the bytes in which the base is said: one byte for all of it.
const BASE_SIZE: u8 = SOCKET_BITS as u8;

/// The size of the bytes on the two connections.
pub(crate) const OCTET_SIZE: u8 = 8;

/// How far above the asking socket the user's receiving one lies.
pub(crate) const RECEIVE_STEP: u32 = 2;

/// How far above the asking socket the user's sending one lies.
pub(crate) const SEND_STEP: u32 = 3;

/// A server that waits for one user (RFC 165). It listens on an odd socket, on its base, which is even, and
/// on the socket above that; it sends the base to the first user who comes, and is done when that user has
/// opened both.
///
/// A call that runs out of memory leaves it spent, and no call may follow.
#[derive(Drop)]
pub struct Server {
    listen: SendSocket,
    receive: ReceiveSocket,
    send: SendSocket,
    user: Option<Partner>,
    receiving: Option<Partner>,
    sending: Option<Partner>,
    over: bool,
    spent: bool,
    alloc: Global,
}

impl Model for Server {
    ghost use Rattle.icp.specs.Server.{ServerState};

    ghost Value = { ServerState };

    ghost view = { λ s. record { listen = s.listen; receive = s.receive; send = s.send; user = s.user; receiving = s.receiving; sending = s.sending; over = s.over; spent = s.spent } };
}

/// Returns whether a socket lies so far above another one.
fn is_step(from: u32, step: u32, socket: u32) -> bool
    ensures { result ≡ (socket == from + step) }
{
    match from.checked_add(step) {
        Some(above) => socket == above,
        None => false,
    }
}

/// Returns whether a partner is the socket so far above this one, at the same host.
fn is_above(user: &Partner, step: u32, partner: &Partner) -> bool
    ensures { result ≡ notices.is_partner user.now.peer (user.now.socket + step) partner.now }
{
    partner.peer == user.peer && is_step(user.socket, step, partner.socket)
}

/// Returns whether the partners of the two ends are the user's sockets.
fn are_of(user: Option<Partner>, receiving: &Partner, sending: &Partner) -> bool
    ensures { result ≡ servers.are_of user receiving.now sending.now }
{
    match user {
        Some(user) => {
            is_above(&user, SEND_STEP, receiving) && is_above(&user, RECEIVE_STEP, sending)
        }
        None => false,
    }
}

/// Returns what a server asks for first: it listens on its three sockets.
fn listens(alloc: Global, listen: u32, receive: u32, send: u32) -> Result<Vec<Request>, AllocError>
    ensures { IfOk result (λ requests. requests.items ≡ request.Listen listen 32 ∷ request.Listen receive 8 ∷ request.Listen send 8 ∷ []) }
{
    let mut requests = Vec::new(alloc);
    requests.push(Request::Listen {
        socket: listen,
        size: BASE_SIZE,
    })?;
    requests.push(Request::Listen {
        socket: receive,
        size: OCTET_SIZE,
    })?;
    requests.push(Request::Listen {
        socket: send,
        size: OCTET_SIZE,
    })?;
    Ok(requests)
}

impl Server {
    /// Starts a server on the odd socket `listen`, with an even base, and returns it with its first requests: it
    /// listens on `listen` with bytes of 32 bits, and on the base and the socket above it with octets.
    ///
    /// Errors: `BadSocket` where `listen` is even or the base odd, then `OutOfMemory`.
    pub fn start(
        alloc: Global,
        listen: u32,
        base: u32,
    ) -> Result<(Server, Vec<Request>), StartFault>
        ensures { outcomes.Decided (server_fault listen base) (λ started. (started.0 ≡ servers.opening_server listen base) × (started.1.items ≡ servers.server_requests listen base)) result }
    {
        let (Some(socket), Some(receive)) = (SendSocket::new(listen), ReceiveSocket::new(base))
        else {
            return Err(StartFault::BadSocket);
        };
        let Some(send) = SendSocket::new(base + 1) else {
            return Err(StartFault::BadSocket);
        };
        let requests = listens(alloc, listen, base, base + 1)?;
        let server = Server {
            listen: socket,
            receive,
            send,
            user: None,
            receiving: None,
            sending: None,
            over: false,
            spent: false,
            alloc,
        };
        Ok((server, requests))
    }

    /// Returns whether it has had its outcome.
    pub fn is_over(&self) -> bool
        ensures { result ≡ self.now.over }
    {
        self.over
    }

    /// Returns the socket on which users ask.
    pub fn listen(&self) -> SendSocket
        ensures { result ≡ self.now.listen }
    {
        self.listen
    }

    /// Returns the socket on which it serves and receives.
    pub fn receive(&self) -> ReceiveSocket
        ensures { result ≡ self.now.receive }
    {
        self.receive
    }

    /// Returns the socket on which it serves and sends.
    pub fn send(&self) -> SendSocket
        ensures { result ≡ self.now.send }
    {
        self.send
    }

    /// Returns the far end of the connection on which a user asked, once one was opened.
    pub fn user(&self) -> Option<Partner>
        ensures { result ≡ self.now.user }
    {
        self.user
    }

    /// Returns the far end of the connection on which it receives, once that was opened.
    pub fn receiving(&self) -> Option<Partner>
        ensures { result ≡ self.now.receiving }
    {
        self.receiving
    }

    /// Returns the far end of the connection on which it sends, once that was opened.
    pub fn sending(&self) -> Option<Partner>
        ensures { result ≡ self.now.sending }
    {
        self.sending
    }

    /// Returns whether both ends on which it serves were opened.
    pub fn is_open(&self) -> bool
        ensures { result ≡ (is_some self.now.receiving && is_some self.now.sending) }
    {
        self.receiving.is_some() && self.sending.is_some()
    }

    /// Returns whether running out of memory has made it useless.
    pub fn is_spent(&self) -> bool
        ensures { result ≡ self.now.spent }
    {
        self.spent
    }

    /// Returns whether one of its connections ended before it was used.
    fn is_refused(&self, notice: &Notice) -> bool
        ensures { result ≡ servers.server_refused self.now notice.now }
    {
        has_ended(self.receive.number(), notice)
            || has_ended(self.send.number(), notice)
            || self.user.is_none() && has_ended(self.listen.number(), notice)
    }

    /// Returns whether the notice says that all connections are gone with a host with which one of its own was opened.
    fn is_reset(&self, notice: &Notice) -> bool
        ensures { result ≡ servers.server_reset self.now notice.now }
    {
        is_reset_of(self.user, notice)
            || is_reset_of(self.receiving, notice)
            || is_reset_of(self.sending, notice)
    }

    /// Returns why it fails at a notice.
    fn failure(&self, notice: &Notice) -> Option<Failure>
        ensures { result ≡ servers.server_failure self.now notice.now }
    {
        if self.is_refused(notice) {
            Some(Failure::Refused)
        } else if self.is_reset(notice) {
            Some(Failure::Reset)
        } else {
            None
        }
    }

    /// Records the first opening of each of its sockets.
    fn meet(&mut self, notice: &Notice)
        ensures { self.new ≡ servers.server_met self.old notice.now }
    {
        self.user = self.user.or(opened_on(self.listen.number(), notice));
        self.receiving = self.receiving.or(opened_on(self.receive.number(), notice));
        self.sending = self.sending.or(opened_on(self.send.number(), notice));
    }

    /// Returns what it asks for: the first user who comes learns the base, and that connection is closed.
    fn requests(&self, notice: &Notice) -> Result<Vec<Request>, AllocError>
        ensures requests { IfOk result (λ requests. requests.items ≡ servers.server_says self.now notice.now) }
        ensures memory { OnErr result (0 < length (servers.server_says self.now notice.now)) }
    {
        let mut requests = Vec::new(self.alloc);
        let socket = self.listen.number();
        if self.user.is_none() && opened_on(socket, notice).is_some() {
            let bits = socket_bits(self.alloc, self.receive.number())?;
            requests.push(Request::Send { socket, bits })?;
            requests.push(Request::Close { socket })?;
        }
        Ok(requests)
    }

    /// Returns its outcome, once both ends are open.
    fn verdict(&self) -> Option<Outcome>
        ensures { result ≡ servers.server_verdict self.now self.now.receiving self.now.sending }
    {
        let (Some(receiving), Some(sending)) = (self.receiving, self.sending) else {
            return None;
        };
        if are_of(self.user, &receiving, &sending) {
            Some(Outcome::Done {
                receive: self.receive,
                send: self.send,
            })
        } else {
            Some(Outcome::Failed(Failure::Stranger))
        }
    }

    /// Takes its turn at a notice.
    #[tactic(auto, unfolding(crate::specs::Server::server_turn))]
    fn hear(&mut self, notice: &Notice) -> Result<Said, AllocError>
        ensures turn { IfOk result (λ said. servers.server_turn self.old notice.now ≡ (self.new, said.requests.items, said.outcome)) }
        ensures memory { OnErr result (0 < length (servers.server_turn self.old notice.now).1) }
    {
        if self.over {
            return Ok(Said::only(self.alloc, None));
        }
        if let Some(failure) = self.failure(notice) {
            self.over = true;
            return Ok(Said::failed(self.alloc, failure));
        }
        let requests = self.requests(notice)?;
        self.meet(notice);
        let outcome = self.verdict();
        self.over = outcome.is_some();
        Ok(Said { requests, outcome })
    }

    /// Tells it of something that happened to its host. Returns what it asks for, in order, and its outcome
    /// where it has come to its end; after that it asks for nothing more.
    ///
    /// Errors: `AllocError` when memory runs out, only where it asks for something, and then it is spent.
    pub fn notice(&mut self, notice: &Notice) -> Result<Said, AllocError>
        requires live { self.old.spent ≡ false }
        ensures turn { MatchResult result (λ said. servers.server_turn self.old notice.now ≡ (self.new, said.requests.items, said.outcome)) (λ _. self.new.spent ≡ true) }
        ensures memory { OnErr result (0 < length (servers.server_turn self.old notice.now).1) }
    {
        let done = self.hear(notice);
        if done.is_err() {
            self.spent = true;
        }
        done
    }

    /// Tells it that a request of it was refused: it fails with `Local`, unless it has had its outcome.
    pub fn refused(&mut self, fault: NcpFault) -> Option<Outcome>
        requires live { self.old.spent ≡ false }
        ensures { servers.server_local self.old fault ≡ (self.new, result) }
    {
        local(&mut self.over, fault)
    }
}
