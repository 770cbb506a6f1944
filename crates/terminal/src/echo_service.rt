//! The echo service: it sends back what it receives.

ghost use Rattle.std.specs.Prelude.{◌≡◌, ◌<◌, true, false, length, Err, MatchResult, Ok, IfOk, OnErr};
ghost use Rattle.terminal.specs.Ends as ends;
ghost use Rattle.terminal.specs.Machines as machines;

use crate::ends::{arrived_on, closed_by, ended, first_requests, granted_again};
use bit_messages::Bits;
use ncp_control::{ReceiveSocket, SendSocket};
use sockets::{Notice, Request};
use std::alloc::{AllocError, Global};
use std::marker::Model;

/// A program that sends back what arrives: at each arrival all its bits, whatever the size of the bytes.
///
/// A call that runs out of memory leaves it spent, and no call may follow.
#[derive(Drop)]
pub struct EchoService {
    receive: ReceiveSocket,
    send: SendSocket,
    spent: bool,
    alloc: Global,
}

impl Model for EchoService {
    ghost use Rattle.terminal.specs.Machines.{EchoState};

    ghost Value = { EchoState };

    ghost view = { λ e. record { receive = e.receive; send = e.send; spent = e.spent } };
}

impl EchoService {
    /// Starts the service on two open connections, and returns it with its first grant: 4 messages and 4096 bits.
    ///
    /// Errors: `AllocError` when there is no memory for the request.
    pub fn start(
        alloc: Global,
        receive: ReceiveSocket,
        send: SendSocket,
    ) -> Result<(EchoService, Vec<Request>), AllocError>
        ensures { IfOk result (λ started. (started.0 ≡ machines.opening_echo receive send) × (started.1.items ≡ ends.first_requests receive)) }
    {
        let requests = first_requests(alloc, receive.number())?;
        let service = EchoService {
            receive,
            send,
            spent: false,
            alloc,
        };
        Ok((service, requests))
    }

    /// Returns the socket on which it receives.
    pub fn receive(&self) -> ReceiveSocket
        ensures { result ≡ self.now.receive }
    {
        self.receive
    }

    /// Returns the socket on which it sends.
    pub fn send(&self) -> SendSocket
        ensures { result ≡ self.now.send }
    {
        self.send
    }

    /// Returns whether running out of memory has made it useless.
    pub fn is_spent(&self) -> bool
        ensures { result ≡ self.now.spent }
    {
        self.spent
    }

    /// Takes bits that arrived: they are granted again, and go back.
    fn arrived(&self, bits: &Bits) -> Result<Vec<Request>, AllocError>
        ensures { IfOk result (λ requests. requests.items ≡ machines.echo_heard self.now bits.now) }
    {
        let mut requests = Vec::new(self.alloc);
        requests.push(granted_again(self.receive.number(), bits))?;
        if !bits.is_empty() {
            requests.push(Request::Send {
                socket: self.send.number(),
                bits: bits.clone()?,
            })?;
        }
        Ok(requests)
    }

    /// Tells it of something that happened to its host. Returns what it asks for, in order: at an arrival on
    /// its receive socket a grant, and the bits that go back; at the end of one of its connections that the
    /// other be closed; at any other notice nothing.
    ///
    /// Errors: `AllocError` when memory runs out, only where it asks for something, and then it is spent.
    #[tactic(auto, unfolding(crate::specs::Machines::echo_turn))]
    pub fn notice(&mut self, notice: &Notice) -> Result<Vec<Request>, AllocError>
        requires live { self.old.spent ≡ false }
        ensures turn { MatchResult result (λ requests. machines.echo_turn self.old notice.now ≡ (self.new, requests.items)) (λ _. self.new.spent ≡ true) }
        ensures memory { OnErr result (0 < length (machines.echo_turn self.old notice.now).1) }
    {
        let done = match arrived_on(self.receive.number(), notice) {
            Some(bits) => self.arrived(bits),
            None => closed_by(
                self.alloc,
                self.receive.number(),
                self.send.number(),
                notice,
            ),
        };
        ended(done, &mut self.spent)
    }
}
