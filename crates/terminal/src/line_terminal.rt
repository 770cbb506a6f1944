//! The line terminal: it sends typed lines, and reports the lines that arrive.

ghost use Rattle.std.specs.Prelude.{◌≡◌, ◌<◌, [], ◌∷◌, true, false, length, MatchResult, IfOk, Err, OnErr, Ok};
ghost use Rattle.terminal.specs.Ends as ends;
ghost use Rattle.terminal.specs.Lines as lines;
ghost use Rattle.terminal.specs.Machines as machines;

use crate::TerminalFault;
use crate::ends::{arrived_on, closed_by, ended, first_requests, granted_again};
use crate::line::{Line, hear, typed};
use crate::octets::join;
use bit_messages::Bits;
use ncp_control::{ReceiveSocket, SendSocket};
use sockets::{Notice, Request};
use std::alloc::{AllocError, Global};
use std::marker::Model;

/// A terminal at which a user types lines, and which reports the lines that come in.
///
/// A call that runs out of memory leaves it spent, and no call may follow.
#[derive(Drop)]
pub struct LineTerminal {
    receive: ReceiveSocket,
    send: SendSocket,
    part: Bits,
    rest: Vec<u8>,
    spent: bool,
    alloc: Global,
}

impl Model for LineTerminal {
    ghost use Rattle.std.specs.Prelude.{◌<◌, length};
    ghost use Rattle.terminal.specs.Machines.{TerminalState};

    ghost Value = { TerminalState };

    ghost view = { λ t. record { receive = t.receive; send = t.send; part = t.part; rest = t.rest.items; spent = t.spent } };

    ghost invariant = { λ t. length t.part < 8 };
}

/// What a terminal says of a notice.
#[derive(Debug, Drop)]
pub struct Told {
    /// What it asks for, in order.
    pub requests: Vec<Request>,
    /// The lines that have ended, in order.
    pub lines: Vec<Line>,
}

impl LineTerminal {
    /// Starts the terminal on two open connections, and returns it with its first grant: 4 messages and 4096 bits.
    ///
    /// Errors: `AllocError` when there is no memory for the request.
    pub fn start(
        alloc: Global,
        receive: ReceiveSocket,
        send: SendSocket,
    ) -> Result<(LineTerminal, Vec<Request>), AllocError>
        ensures { IfOk result (λ started. (started.0 ≡ machines.opening_terminal receive send) × (started.1.items ≡ ends.first_requests receive)) }
    {
        let requests = first_requests(alloc, receive.number())?;
        let terminal = LineTerminal {
            receive,
            send,
            part: Bits::new(alloc),
            rest: Vec::new(alloc),
            spent: false,
            alloc,
        };
        Ok((terminal, requests))
    }

    /// Returns the socket on which it receives.
    pub fn receive(&self) -> ReceiveSocket
        ensures { result ≡ self.now.receive }
    {
        self.receive
    }

    /// Returns the socket on which lines are to be sent.
    pub fn send(&self) -> SendSocket
        ensures { result ≡ self.now.send }
    {
        self.send
    }

    /// Returns the bits that came and are no whole octet yet.
    pub fn part(&self) -> &Bits
        ensures { result.now ≡ self.now.part }
    {
        &self.part
    }

    /// Returns the octets that came since the end of the last line.
    pub fn rest(&self) -> &[u8]
        ensures { result.now ≡ self.now.rest }
    {
        &self.rest
    }

    /// Returns whether running out of memory has made it useless.
    pub fn is_spent(&self) -> bool
        ensures { result ≡ self.now.spent }
    {
        self.spent
    }

    /// Returns the octets of a line with this text: the text, 13 and 10. It changes nothing.
    ///
    /// Errors: `NotPrintable` where an octet of the text isn't from 32 to 126, then `OutOfMemory`.
    pub fn line(&self, text: &[u8]) -> Result<Vec<u8>, TerminalFault>
        ensures { lines.Decided (lines.line_fault text.now) (λ octets. octets.items ≡ lines.spelled text.now) result }
    {
        typed(self.alloc, text)
    }

    /// Takes these bits: with those that were kept they are octets, and the octets are lines.
    #[tactic(auto, using(crate::proofs::OctetLemmas::heard_nothing), unfolding(crate::specs::Machines::terminal_heard))]
    fn join(&mut self, bits: &Bits) -> Result<Vec<Line>, AllocError>
        ensures lines { IfOk result (λ told. machines.terminal_heard self.old bits.now ≡ (self.new, told.items)) }
        ensures memory { OnErr result (0 < length bits.now) }
    {
        if bits.is_empty() {
            return Ok(Vec::new(self.alloc));
        }
        let octets = join(self.alloc, &mut self.part, bits)?;
        hear(self.alloc, &mut self.rest, octets.as_octets())
    }

    /// Takes bits that came for it. Returns the lines that have ended, in order, each without its end. Bits that
    /// aren't a whole octet are kept until more come, and so are octets that aren't a whole line.
    ///
    /// Errors: `AllocError` when memory runs out, only where there are bits, and then it is spent.
    pub fn arrived(&mut self, bits: &Bits) -> Result<Vec<Line>, AllocError>
        requires live { self.old.spent ≡ false }
        ensures lines { MatchResult result (λ told. machines.terminal_heard self.old bits.now ≡ (self.new, told.items)) (λ _. self.new.spent ≡ true) }
        ensures memory { OnErr result (0 < length bits.now) }
    {
        let done = self.join(bits);
        ended(done, &mut self.spent)
    }

    /// Takes bits that arrived on its socket: they are granted again, and lines may have ended.
    fn hear(&mut self, bits: &Bits) -> Result<Told, AllocError>
        ensures { IfOk result (λ told. (machines.terminal_heard self.old bits.now ≡ (self.new, told.lines.items)) × (told.requests.items ≡ ends.granted_again self.old.receive bits.now ∷ [])) }
    {
        let mut requests = Vec::new(self.alloc);
        requests.push(granted_again(self.receive.number(), bits))?;
        let lines = self.join(bits)?;
        Ok(Told { requests, lines })
    }

    /// Takes a notice that brings no bits.
    fn pass(&self, notice: &Notice) -> Result<Told, AllocError>
        ensures told { IfOk result (λ told. (told.lines.items ≡ []) × (told.requests.items ≡ ends.closed_by self.now.receive self.now.send notice.now)) }
        ensures memory { OnErr result (0 < length (ends.closed_by self.now.receive self.now.send notice.now)) }
    {
        let requests = closed_by(
            self.alloc,
            self.receive.number(),
            self.send.number(),
            notice,
        )?;
        Ok(Told {
            requests,
            lines: Vec::new(self.alloc),
        })
    }

    /// Tells it of something that happened to its host. Returns what it asks for and the lines that have
    /// ended: at an arrival on its receive socket a grant, and the lines; at the end of one of its
    /// connections that the other be closed; at any other notice nothing.
    ///
    /// Errors: `AllocError` when memory runs out, only where it asks for something, and then it is spent.
    #[tactic(auto, unfolding(crate::specs::Machines::terminal_turn))]
    pub fn notice(&mut self, notice: &Notice) -> Result<Told, AllocError>
        requires live { self.old.spent ≡ false }
        ensures turn { MatchResult result (λ told. machines.terminal_turn self.old notice.now ≡ machines.turn self.new told.requests.items told.lines.items) (λ _. self.new.spent ≡ true) }
        ensures memory { OnErr result (0 < length (machines.terminal_turn self.old notice.now).requests) }
    {
        let done = match arrived_on(self.receive.number(), notice) {
            Some(bits) => self.hear(bits),
            None => self.pass(notice),
        };
        ended(done, &mut self.spent)
    }
}
