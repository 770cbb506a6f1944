//! The user's part of an initial connection.

ghost use Rattle.std.specs.Prelude.{◌≡◌, ◌+◌, ◌<◌, ◌≤◌, ◌&&◌, nat_lt, true, false, [], ◌∷◌, ◌++◌, length, take, MatchOption, MatchResult, IfOk, OnErr, Err, Ok, None, Some};
ghost use Rattle.icp.specs.Outcomes as outcomes;
ghost use Rattle.icp.specs.Sockets.{user_fault, socket_of};
ghost use Rattle.icp.specs.Notices.{arrived_on, brings_bits};
ghost use Rattle.icp.specs.User as users;
ghost use Rattle.icp.specs.declared.fault.StartFault.TheVariants as fault;
ghost use Rattle.ncp_control.specs.Numbers.{is_receive_socket};
ghost use Rattle.sockets.specs.declared.request.Request.TheVariants as request;

use crate::notices::{arrived_on, has_ended, is_opened, is_reset};
use crate::outcome::local;
use crate::server::{OCTET_SIZE, RECEIVE_STEP, SEND_STEP};
use crate::sockets_said::{SOCKET_BITS, join, socket_of};
use crate::{Failure, Outcome, Said, StartFault};
use bit_messages::Bits;
use interface::HostAddr;
use ncp_control::{ReceiveSocket, SendSocket};
use sockets::{NcpFault, Notice, Request};
use std::alloc::{AllocError, Global};
use std::marker::Model;

/// A user who asks a server's socket (RFC 165). It opens a connection from there to an even socket of its
/// own, reads the server's base on it in 32 bits and closes it, and then opens the two connections: it
/// receives on the socket two above its own and sends on the one three above.
///
/// A call that runs out of memory leaves it spent, and no call may follow.
#[derive(Drop)]
pub struct User {
    peer: HostAddr,
    listen: SendSocket,
    own: ReceiveSocket,
    receive: ReceiveSocket,
    send: SendSocket,
    opened: bool,
    bits: Bits,
    base: Option<ReceiveSocket>,
    receiving: bool,
    sending: bool,
    over: bool,
    spent: bool,
    alloc: Global,
}

impl Model for User {
    ghost use Rattle.icp.specs.User.{UserState};

    ghost Value = { UserState };

    ghost view = { λ u. record { peer = u.peer; listen = u.listen; own = u.own; receive = u.receive; send = u.send; opened = u.opened; bits = u.bits; base = u.base; receiving = u.receiving; sending = u.sending; over = u.over; spent = u.spent } };
}

impl User {
    /// Starts a user at the host's even socket `own` who asks the odd socket `listen` of a peer, and returns it with
    /// its first request.
    ///
    /// Errors: `BadSocket` where `listen` is even, `own` is odd or the socket three above it has more than 32
    /// bits, then `OutOfMemory`.
    pub fn start(
        alloc: Global,
        peer: HostAddr,
        listen: u32,
        own: u32,
    ) -> Result<(User, Vec<Request>), StartFault>
        ensures { outcomes.Decided (user_fault listen own) (λ started. (started.0 ≡ users.opening_user peer listen own) × (started.1.items ≡ users.user_requests peer listen own)) result }
    {
        let Some(user) = User::new(alloc, peer, listen, own) else {
            return Err(StartFault::BadSocket);
        };
        let mut requests = Vec::new(alloc);
        requests.push(Request::OpenReceive {
            peer,
            own,
            foreign: listen,
        })?;
        Ok((user, requests))
    }

    /// Returns a user before its first request; `None` where a socket is bad.
    fn new(alloc: Global, peer: HostAddr, listen: u32, own: u32) -> Option<User>
        ensures { MatchOption result (user_fault listen own ≡ Some fault.BadSocket) (λ user. (user_fault listen own ≡ None) × (user ≡ users.opening_user peer listen own)) }
    {
        let last = own.checked_add(SEND_STEP)?;
        Some(User {
            peer,
            listen: SendSocket::new(listen)?,
            own: ReceiveSocket::new(own)?,
            receive: ReceiveSocket::new(own + RECEIVE_STEP)?,
            send: SendSocket::new(last)?,
            opened: false,
            bits: Bits::new(alloc),
            base: None,
            receiving: false,
            sending: false,
            over: false,
            spent: false,
            alloc,
        })
    }

    /// Returns whether it has had its outcome.
    pub fn is_over(&self) -> bool
        ensures { result ≡ self.now.over }
    {
        self.over
    }

    /// Returns the server's host.
    pub fn peer(&self) -> HostAddr
        ensures { result ≡ self.now.peer }
    {
        self.peer
    }

    /// Returns the server's socket that is asked.
    pub fn listen(&self) -> SendSocket
        ensures { result ≡ self.now.listen }
    {
        self.listen
    }

    /// Returns whether the connection on which it asks was opened.
    pub fn has_asked(&self) -> bool
        ensures { result ≡ self.now.opened }
    {
        self.opened
    }

    /// Returns the bits that came on it so far.
    pub fn bits(&self) -> &Bits
        ensures { result.now ≡ self.now.bits }
    {
        &self.bits
    }

    /// Returns the server's base, once the bits said it.
    pub fn base(&self) -> Option<ReceiveSocket>
        ensures { result ≡ self.now.base }
    {
        self.base
    }

    /// Returns whether the connection was opened on which it is to receive.
    pub fn is_receiving(&self) -> bool
        ensures { result ≡ self.now.receiving }
    {
        self.receiving
    }

    /// Returns whether the connection was opened on which it is to send.
    pub fn is_sending(&self) -> bool
        ensures { result ≡ self.now.sending }
    {
        self.sending
    }

    /// Returns its socket that asks.
    pub fn own(&self) -> ReceiveSocket
        ensures { result ≡ self.now.own }
    {
        self.own
    }

    /// Returns the socket on which it is to receive.
    pub fn receive(&self) -> ReceiveSocket
        ensures { result ≡ self.now.receive }
    {
        self.receive
    }

    /// Returns the socket on which it is to send.
    pub fn send(&self) -> SendSocket
        ensures { result ≡ self.now.send }
    {
        self.send
    }

    /// Returns whether both connections were opened that are to be used.
    pub fn is_open(&self) -> bool
        ensures { result ≡ (self.now.receiving && self.now.sending) }
    {
        self.receiving && self.sending
    }

    /// Returns whether running out of memory has made it useless.
    pub fn is_spent(&self) -> bool
        ensures { result ≡ self.now.spent }
    {
        self.spent
    }

    /// Returns whether a connection that it has asked for has ended, save the first one once the base is known.
    fn is_refused(&self, notice: &Notice) -> bool
        ensures { result ≡ users.user_refused self.now notice.now }
    {
        match self.base {
            None => has_ended(self.own.number(), notice),
            Some(_) => {
                has_ended(self.receive.number(), notice) || has_ended(self.send.number(), notice)
            }
        }
    }

    /// Returns why it fails at a notice.
    fn failure(&self, notice: &Notice) -> Option<Failure>
        ensures { result ≡ users.user_failure self.now notice.now }
    {
        if self.is_refused(notice) {
            Some(Failure::Refused)
        } else if is_reset(self.peer, notice) {
            Some(Failure::Reset)
        } else {
            None
        }
    }

    /// Waits for the first connection: once that is open, 32 bits are granted.
    fn first(&mut self, notice: &Notice) -> Result<Said, AllocError>
        ensures turn { IfOk result (λ said. users.user_opened self.old notice.now ≡ (self.new, said.requests.items, said.outcome)) }
        ensures memory { OnErr result (0 < length (users.user_opened self.old notice.now).1) }
    {
        let own = self.own.number();
        let mut requests = Vec::new(self.alloc);
        if is_opened(own, self.peer, self.listen.number(), notice) {
            requests.push(Request::Grant {
                socket: own,
                messages: 1,
                bits: SOCKET_BITS as u32,
            })?;
            self.opened = true;
        }
        Ok(Said {
            requests,
            outcome: None,
        })
    }

    /// Returns what it asks for when it knows the base: the first connection is closed, and the two are asked for.
    fn asks(&self, base: ReceiveSocket) -> Result<Vec<Request>, AllocError>
        ensures { IfOk result (λ requests. requests.items ≡ request.Close self.now.own ∷ request.OpenReceive self.now.peer self.now.receive (base + 1) ∷ request.OpenSend self.now.peer self.now.send base 8 ∷ []) }
    {
        let mut requests = Vec::new(self.alloc);
        requests.push(Request::Close {
            socket: self.own.number(),
        })?;
        requests.push(Request::OpenReceive {
            peer: self.peer,
            own: self.receive.number(),
            foreign: base.number() + 1,
        })?;
        requests.push(Request::OpenSend {
            peer: self.peer,
            own: self.send.number(),
            foreign: base.number(),
            size: OCTET_SIZE,
        })?;
        Ok(requests)
    }

    /// Handles the base, which is known now.
    fn learn(&mut self, base: u32) -> Result<Said, AllocError>
        ensures { IfOk result (λ said. users.user_told self.old base ≡ (self.new, said.requests.items, said.outcome)) }
    {
        if let Some(base) = ReceiveSocket::new(base) {
            self.base = Some(base);
            return Ok(Said {
                requests: self.asks(base)?,
                outcome: None,
            });
        }
        let mut requests = Vec::new(self.alloc);
        requests.push(Request::Close {
            socket: self.own.number(),
        })?;
        self.over = true;
        Ok(Said {
            requests,
            outcome: Some(Outcome::Failed(Failure::BadSocket)),
        })
    }

    /// Adds bits of the base that came.
    #[tactic(auto, using(crate::proofs::UserLemmas::joined_asks))]
    fn join(&mut self, bits: &Bits) -> Result<Said, AllocError>
        ensures turn { IfOk result (λ said. users.user_joined self.old (self.old.bits ++ bits.now) ≡ (self.new, said.requests.items, said.outcome)) }
        ensures memory { OnErr result (nat_lt 0 (length bits.now) ≡ false → 0 < length (users.user_joined self.old (self.old.bits ++ bits.now)).1) }
    {
        join(&mut self.bits, bits)?;
        if self.bits.len() < SOCKET_BITS {
            return Ok(Said::only(self.alloc, None));
        }
        let base = socket_of(self.alloc, &self.bits)?;
        self.bits = Bits::new(self.alloc);
        self.learn(base)
    }

    /// Waits for the base.
    fn read(&mut self, notice: &Notice) -> Result<Said, AllocError>
        ensures turn { IfOk result (λ said. users.user_heard self.old (arrived_on self.old.own notice.now) ≡ (self.new, said.requests.items, said.outcome)) }
        ensures memory { OnErr result (brings_bits self.old.own notice.now ≡ false → 0 < length (users.user_heard self.old (arrived_on self.old.own notice.now)).1) }
    {
        match arrived_on(self.own.number(), notice) {
            Some(bits) => self.join(bits),
            None => Ok(Said::only(self.alloc, None)),
        }
    }

    /// Waits for the two connections.
    fn meet(&mut self, base: ReceiveSocket, notice: &Notice) -> Said
        ensures { users.user_judged (users.user_met self.old base notice.now) ≡ (self.new, result.requests.items, result.outcome) }
    {
        let peer = self.peer;
        let base = base.number();
        if is_opened(self.receive.number(), peer, base + 1, notice) {
            self.receiving = true;
        }
        if is_opened(self.send.number(), peer, base, notice) {
            self.sending = true;
        }
        if !(self.receiving && self.sending) {
            return Said::only(self.alloc, None);
        }
        self.over = true;
        Said::only(
            self.alloc,
            Some(Outcome::Done {
                receive: self.receive,
                send: self.send,
            }),
        )
    }

    /// Takes its turn at a notice that isn't its failure.
    fn go_on(&mut self, notice: &Notice) -> Result<Said, AllocError>
        ensures turn { IfOk result (λ said. users.user_stage self.old notice.now self.old.base ≡ (self.new, said.requests.items, said.outcome)) }
        ensures memory { OnErr result (users.user_reads self.old notice.now ≡ false → 0 < length (users.user_stage self.old notice.now self.old.base).1) }
    {
        match self.base {
            Some(base) => Ok(self.meet(base, notice)),
            None if self.opened => self.read(notice),
            None => self.first(notice),
        }
    }

    /// Takes its turn at a notice.
    #[tactic(auto, unfolding(crate::specs::User::user_turn))]
    fn hear(&mut self, notice: &Notice) -> Result<Said, AllocError>
        ensures turn { IfOk result (λ said. users.user_turn self.old notice.now ≡ (self.new, said.requests.items, said.outcome)) }
        ensures memory { OnErr result (users.user_reads self.old notice.now ≡ false → 0 < length (users.user_turn self.old notice.now).1) }
    {
        if self.over {
            return Ok(Said::only(self.alloc, None));
        }
        if let Some(failure) = self.failure(notice) {
            self.over = true;
            return Ok(Said::failed(self.alloc, failure));
        }
        self.go_on(notice)
    }

    /// Tells it of something that happened to its host. Returns what it asks for, in order, and its outcome
    /// where it has come to its end; after that it asks for nothing more.
    ///
    /// Errors: `AllocError` when memory runs out, only where it asks for something or keeps bits of the base, and
    /// then it is spent.
    pub fn notice(&mut self, notice: &Notice) -> Result<Said, AllocError>
        requires live { self.old.spent ≡ false }
        ensures turn { MatchResult result (λ said. users.user_turn self.old notice.now ≡ (self.new, said.requests.items, said.outcome)) (λ _. self.new.spent ≡ true) }
        ensures memory { OnErr result (users.user_reads self.old notice.now ≡ false → 0 < length (users.user_turn self.old notice.now).1) }
    {
        let done = self.hear(notice);
        if done.is_err() {
            self.spent = true;
        }
        done
    }

    /// Tells it that a request of it was refused: it fails with `Local`, unless it has had its outcome.
    pub fn refused(&mut self, fault: NcpFault) -> Option<Outcome>
        requires live { self.old.spent ≡ false }
        ensures { users.user_local self.old fault ≡ (self.new, result) }
    {
        local(&mut self.over, fault)
    }
}
