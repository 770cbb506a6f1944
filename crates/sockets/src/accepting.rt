//! What comes in from the IMP: messages of peers, and answers to what this host has sent.

ghost use Rattle.std.specs.Prelude.{◌≡◌, ◌+◌, ◌<◌, [], false, IfErr, IfOk, OnErr, length};
ghost use Rattle.interface.specs.declared.crossing.Inbound.TheVariants as inbound;
ghost use Rattle.sockets.specs.Accepting as accepting;
ghost use Rattle.host_pairs.specs.Turn.{TurnState, answered_turn};
ghost use Rattle.std.specs.Bool.{OnFalse, OnTrue};
ghost use Rattle.sockets.specs.Calls.{Turns};
ghost use Rattle.host_pairs.specs.Entries.{is_busy};
ghost use Rattle.sockets.specs.Memory.{newly_known, said_by_inbound};
ghost use Rattle.host_pairs.specs.Pair.{PairState};
ghost use Rattle.sockets.specs.Pairs.{pair_with, with_pair};

use crate::ncp::Ncp;
use crate::{NcpFault, Notice};
use host_pairs::{Listeners, Turn, is_busy};
use interface::{Answer, Flow, HostAddr, HostMessage, Inbound};
use std::alloc::AllocError;
use std::mem;

impl Ncp {
    /// Takes what is known of a peer out, to be worked on.
    pub(crate) fn begin(&mut self, peer: HostAddr) -> Turn
        ensures turn { result ≡ accepting.turn_of self.old peer }
        ensures known { length self.new.peers ≡ length self.old.peers }
        ensures again { (pair : PairState) → with_pair peer pair self.new.peers ≡ with_pair peer pair self.old.peers }
        ensures rest { (turn : TurnState) → accepting.after_turn self.new peer turn ≡ accepting.after_turn self.old peer turn }
    {
        Turn {
            pair: self.peers.take(self.alloc, peer),
            listening: mem::replace(&mut self.listening, Listeners::new(self.alloc)),
            notices: Vec::new(self.alloc),
        }
    }

    /// Puts what is known of a peer back, and returns the notices.
    pub(crate) fn finish(&mut self, peer: HostAddr, turn: Turn) -> Result<Vec<Notice>, AllocError>
        ensures state { IfOk result (λ notices. accepting.after_turn self.old peer turn ≡ (self.new, notices.items)) }
        ensures memory { OnErr result (length self.old.peers < length (with_pair peer turn.pair self.old.peers)) }
    {
        let Turn {
            pair,
            listening,
            notices,
        } = turn;
        self.listening = listening;
        self.peers.put(peer, pair)?;
        Ok(notices)
    }

    /// Takes a message that comes in.
    fn accept_message(
        &mut self,
        message: &HostMessage,
        stamp: usize,
    ) -> Result<Vec<Notice>, AllocError>
        ensures state { IfOk result (λ notices. accepting.accepted_message self.old message.now stamp ≡ (self.new, notices.items)) }
        ensures memory { OnErr result (0 < said_by_inbound self.old (inbound.Message message.now) stamp + newly_known self.old (accepting.accepted_message self.old message.now stamp).0) }
    {
        let Flow {
            source,
            destination,
            link,
        } = message.flow;
        if self.own != destination {
            return Ok(Vec::new(self.alloc));
        }
        let mut turn = self.begin(source);
        turn.take_message(self.alloc, source, stamp, link.0, message.text.bits())?;
        self.finish(source, turn)
    }

    /// Returns whether a message to a peer has no answer yet.
    fn is_busy(&self, peer: HostAddr, link: u8) -> bool
        ensures { result ≡ is_busy (pair_with peer self.now.peers).busy link }
    {
        match self.peers.pair(peer) {
            Some(pair) => is_busy(&pair.busy, link),
            None => false,
        }
    }

    /// Takes an RFNM in place, if it frees its link and nothing else comes of it; else changes nothing.
    #[tactic(auto, using(crate::proofs::CallLemmas::freed_quietly))]
    fn free(&mut self, kind: Answer, peer: HostAddr, link: u8) -> bool
        ensures state { OnTrue result (accepting.after_turn self.old peer (answered_turn peer kind link (accepting.turn_of self.old peer)) ≡ (self.new, [])) }
        ensures kept { OnFalse result (self.new ≡ self.old) }
    {
        match kind {
            Answer::Rfnm => self.peers.free(peer, link),
            Answer::Incomplete | Answer::Dead | Answer::NotTaken => false,
        }
    }

    /// Takes an answer that comes in.
    fn accept_answer(&mut self, kind: Answer, flow: Flow) -> Result<Vec<Notice>, AllocError>
        ensures state { IfOk result (λ notices. accepting.accepted_answer self.old kind flow ≡ (self.new, notices.items)) }
        ensures memory { OnErr result (0 < said_by_inbound self.old (inbound.Answer kind flow) 0 + newly_known self.old (accepting.accepted_answer self.old kind flow).0) }
    {
        let Flow {
            source,
            destination,
            link,
        } = flow;
        if self.own != source || !self.is_busy(destination, link.0) {
            return Ok(Vec::new(self.alloc));
        }
        if self.free(kind, destination, link.0) {
            return Ok(Vec::new(self.alloc));
        }
        let mut turn = self.begin(destination);
        turn.take_answer(self.alloc, destination, kind, link.0)?;
        self.finish(destination, turn)
    }

    /// Takes what comes in from the IMP, with its place in the log, and returns what is notified of it.
    ///
    /// A message for another host, and an answer to a message that isn't out, change nothing.
    ///
    /// Errors: `OutOfMemory`, only where more is to be said than before, to a peer or to the user, or where a
    /// host comes to be known.
    #[tactic(auto, unfolding(crate::specs::Accepting::accepted))]
    pub fn accept(&mut self, inbound: Inbound, stamp: usize) -> Result<Vec<Notice>, NcpFault>
        requires live { self.old.spent ≡ false }
        ensures turn { Turns (λ notices. notices.items) (accepting.accepted self.old inbound stamp) result self.new }
        ensures memory { IfErr result (λ f. 0 < said_by_inbound self.old inbound stamp + newly_known self.old (accepting.accepted self.old inbound stamp).0) }
    {
        let done = match inbound {
            Inbound::Message(message) => self.accept_message(&message, stamp),
            Inbound::Answer(kind, flow) => self.accept_answer(kind, flow),
        };
        self.end(done)
    }
}
