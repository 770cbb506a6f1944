//! A pair of hosts while something of the peer is taken: its reset and its connections.

ghost use Rattle.host_pairs.specs.Said.{newly_said, said_by_answer};
ghost use Rattle.std.specs.Prelude.{◌≡◌, ◌<◌, OnErr, length, ◌++◌, ◌∷◌, [], OnOk, not, ◌==◌, filter};
ghost use Rattle.host_pairs.specs.Turn as turns;
ghost use Rattle.host_pairs.specs.Commands.{desk_taken};
ghost use Rattle.host_pairs.specs.Data.{data_taken};
ghost use Rattle.host_pairs.specs.Desk.{command_queued, desk_of, desk_told};
ghost use Rattle.host_pairs.specs.declared.notice.Notice.TheVariants as notice;
ghost use Rattle.ncp_control.specs.declared.command.Command.TheVariants as command;

use crate::Notice;
use crate::desk::Desk;
use crate::held::Ends;
use crate::listener::Listeners;
use crate::pair::Pair;
use crate::queue::Queue;
use bit_messages::Bits;
use interface::{Answer, HostAddr};
use ncp_control::{Command, Phase};
use std::alloc::{AllocError, Global};
use std::marker::Model;
use std::mem;

/// A pair, what listens, and the notices to the user.
#[derive(Drop)]
pub struct Turn {
    /// The pair that is worked on.
    pub pair: Pair,
    /// The host's sockets that listen.
    pub listening: Listeners,
    /// The notices to the user, the oldest first.
    pub notices: Vec<Notice>,
}

impl Model for Turn {
    ghost use Rattle.host_pairs.specs.Turn.{TurnState};

    ghost Value = { TurnState };

    ghost view = { λ t. record { pair = t.pair; listening = t.listening; notices = t.notices.items } };
}

// ---- the connections

impl Turn {
    /// Tells the user something.
    pub(crate) fn tell(&mut self, notice: Notice) -> Result<(), AllocError>
        ensures { OnOk result (self.new ≡ record self.old { notices = self.old.notices ++ notice ∷ [] }) }
    {
        self.notices.push(notice)?;
        Ok(())
    }

    /// Takes the pair's connections out, to be worked on.
    pub(crate) fn desk(&mut self, alloc: Global) -> Desk
        ensures desk { result ≡ desk_of self.old.pair self.old.listening }
        ensures rest { self.new ≡ record { pair = record self.old.pair { entries = []; queue = [] }; listening = []; notices = self.old.notices } }
    {
        Desk {
            entries: mem::replace(&mut self.pair.entries, Ends::new(alloc)),
            queue: mem::replace(&mut self.pair.queue, Queue::new(alloc)),
            listening: mem::replace(&mut self.listening, Listeners::new(alloc)),
            notices: Vec::new(alloc),
        }
    }

    /// Puts the pair's connections back, and reports the notices of them.
    #[tactic(auto, using(crate::proofs::TurnLemmas::told_first))]
    pub(crate) fn restore(&mut self, desk: Desk) -> Result<(), AllocError>
        ensures state { OnOk result (self.new ≡ turns.with_desk self.old desk) }
        ensures memory { OnErr result (0 < length desk.notices) }
    {
        let Desk {
            entries,
            queue,
            listening,
            mut notices,
        } = desk;
        self.pair.entries = entries;
        self.pair.queue = queue;
        self.listening = listening;
        if self.notices.is_empty() {
            self.notices = notices;
            return Ok(());
        }
        self.notices.append(&mut notices)
    }

    /// Answers the peer, which asks for an octet back: an ERP waits to go out.
    #[tactic(auto, using(crate::proofs::TurnLemmas::queued_turn))]
    fn echo(&mut self, octet: u8) -> Result<(), AllocError>
        ensures state { OnOk result (self.new ≡ turns.with_desk self.old (command_queued (command.Erp octet) (desk_of self.old.pair self.old.listening))) }
        ensures memory { OnErr result (0 < newly_said self.old (turns.with_desk self.old (command_queued (command.Erp octet) (desk_of self.old.pair self.old.listening)))) }
    {
        self.pair.queue.push(Command::Erp { octet })
    }

    /// Takes an octet that came back.
    fn hear_echo(&mut self, peer: HostAddr, octet: u8) -> Result<(), AllocError>
        ensures state { OnOk result (self.new ≡ turns.with_desk self.old (desk_told (notice.Echoed peer octet ∷ []) (desk_of self.old.pair self.old.listening))) }
        ensures memory { OnErr result (0 < newly_said self.old (turns.with_desk self.old (desk_told (notice.Echoed peer octet ∷ []) (desk_of self.old.pair self.old.listening)))) }
    {
        self.tell(Notice::Echoed { peer, octet })
    }

    /// Takes a command among the pair's connections.
    fn hear_at_desk(
        &mut self,
        alloc: Global,
        peer: HostAddr,
        stamp: usize,
        command: Command,
    ) -> Result<(), AllocError>
        ensures state { OnOk result (self.new ≡ turns.with_desk self.old (desk_taken peer self.old.pair.busy stamp command (desk_of self.old.pair self.old.listening))) }
        ensures memory { OnErr result (0 < newly_said self.old (turns.with_desk self.old (desk_taken peer self.old.pair.busy stamp command (desk_of self.old.pair self.old.listening)))) }
    {
        let mut desk = self.desk(alloc);
        desk.take(alloc, peer, &self.pair.busy, stamp, command)?;
        self.restore(desk)
    }

    /// Takes a command about connections, while the pair is open. An ECO and an ERP are no matter of any of them.
    fn hear(
        &mut self,
        alloc: Global,
        peer: HostAddr,
        stamp: usize,
        command: Command,
    ) -> Result<(), AllocError>
        ensures state { OnOk result (self.new ≡ turns.if_ready (desk_taken peer self.old.pair.busy stamp command) self.old) }
        ensures memory { OnErr result (0 < newly_said self.old (turns.if_ready (desk_taken peer self.old.pair.busy stamp command) self.old)) }
    {
        if !self.pair.phase.is_ready() {
            return Ok(());
        }
        match command {
            Command::Eco { octet } => self.echo(octet),
            Command::Erp { octet } => self.hear_echo(peer, octet),
            other => self.hear_at_desk(alloc, peer, stamp, other),
        }
    }

    /// Takes a message of data, while the pair is open.
    pub(crate) fn hear_data(
        &mut self,
        alloc: Global,
        link: u8,
        text: &Bits,
    ) -> Result<(), AllocError>
        ensures state { OnOk result (self.new ≡ turns.if_ready (data_taken link text.now) self.old) }
        ensures memory { OnErr result (0 < newly_said self.old (turns.if_ready (data_taken link text.now) self.old)) }
    {
        if !self.pair.phase.is_ready() {
            return Ok(());
        }
        self.take_data(alloc, link, text)
    }

    /// Closes each end that waited for an answer and has it now. Mostly there is none.
    #[tactic(auto, using(crate::proofs::TurnLemmas::none_settles))]
    fn settle(&mut self, alloc: Global) -> Result<(), AllocError>
        ensures state { OnOk result (self.new ≡ turns.settled_turn self.old) }
        ensures memory { OnErr result (0 < newly_said self.old (turns.settled_turn self.old)) }
    {
        if !self.pair.entries.has_closing(&self.pair.busy) {
            return Ok(());
        }
        let mut desk = self.desk(alloc);
        desk.settle(&self.pair.busy)?;
        self.restore(desk)
    }
}

// ---- the reset

impl Turn {
    /// Forgets all of the pair's connections, and what waits to be said.
    fn forget(&mut self, alloc: Global)
        ensures { self.new ≡ record self.old { pair = record self.old.pair { entries = []; queue = [] } } }
    {
        self.pair.entries = Ends::new(alloc);
        self.pair.queue = Queue::new(alloc);
    }

    /// Takes an RST of the peer: all of the pair's connections are gone, and an RRP is owed.
    fn take_reset(&mut self, alloc: Global, peer: HostAddr) -> Result<(), AllocError>
        ensures state { OnOk result (self.new ≡ turns.reset_taken peer self.old) }
        ensures memory { OnErr result (0 < newly_said self.old (turns.reset_taken peer self.old)) }
    {
        let before = self.pair.phase;
        self.pair.phase = before.after_reset();
        self.pair.owed = true;
        self.forget(alloc);
        match before {
            Phase::Closed => self.tell(Notice::Ready { peer }),
            Phase::Ready => self.tell(Notice::PairReset { peer }),
            _ => Ok(()),
        }
    }

    /// Takes an RRP of the peer.
    fn take_reply(&mut self, peer: HostAddr) -> Result<(), AllocError>
        ensures state { OnOk result (self.new ≡ turns.reply_taken peer self.old) }
        ensures memory { OnErr result (0 < newly_said self.old (turns.reply_taken peer self.old)) }
    {
        let before = self.pair.phase;
        self.pair.phase = before.after_reply();
        match before {
            Phase::Heard => self.tell(Notice::Ready { peer }),
            _ => Ok(()),
        }
    }

    /// Takes a command of the peer.
    pub(crate) fn take_command(
        &mut self,
        alloc: Global,
        peer: HostAddr,
        stamp: usize,
        command: Command,
    ) -> Result<(), AllocError>
        ensures state { OnOk result (self.new ≡ turns.command_taken peer stamp command self.old) }
        ensures memory { OnErr result (0 < newly_said self.old (turns.command_taken peer stamp command self.old)) }
    {
        match command {
            Command::Rst => self.take_reset(alloc, peer),
            Command::Rrp => self.take_reply(peer),
            other => self.hear(alloc, peer, stamp, other),
        }
    }
}

// ---- answers

/// Marks a link as free of outstanding messages.
fn free(busy: &mut Vec<u8>, link: u8)
    ensures { busy.new.items ≡ filter (λ l. not (l == link)) busy.old.items }
{
    busy.retain(|l| *l != link);
}

impl Pair {
    /// Returns whether an RFNM frees its link and nothing else comes of it: the pair is ready, and no end waits to
    /// close.
    pub fn is_quiet(&self) -> bool
        ensures { result ≡ turns.is_quiet self.now }
    {
        self.phase.is_ready() && !self.entries.has_due()
    }

    /// Marks a link as free of outstanding messages.
    pub fn free(&mut self, link: u8)
        ensures { self.new ≡ turns.freed link self.old }
    {
        free(&mut self.busy, link);
    }
}

impl Turn {
    /// Closes the pair: its connections and what waits to be said are gone, and the user is informed why.
    fn close(&mut self, alloc: Global, notice: Notice) -> Result<(), AllocError>
        ensures state { OnOk result (self.new ≡ turns.closed (notice ∷ []) self.old) }
        ensures memory { OnErr result (0 < newly_said self.old (turns.closed (notice ∷ []) self.old)) }
    {
        self.pair.phase = Phase::Closed;
        self.forget(alloc);
        self.tell(notice)
    }

    /// Handles a lost message or a dead peer: what that means by the phase.
    fn fail_by_phase(&mut self, alloc: Global, peer: HostAddr) -> Result<(), AllocError>
        ensures state { OnOk result (self.new ≡ turns.failed_by peer self.old.pair.phase self.old) }
        ensures memory { OnErr result (0 < newly_said self.old (turns.failed_by peer self.old.pair.phase self.old)) }
    {
        match self.pair.phase {
            Phase::Closed | Phase::Want => Ok(()),
            Phase::Gone { .. } | Phase::Heard => self.close(alloc, Notice::ContactFailed { peer }),
            Phase::Ready => self.close(alloc, Notice::PairReset { peer }),
        }
    }

    /// Handles a lost message or a dead peer. An RST that failed ends the contact in any case; any other message's
    /// failure is ignored while an RRP is owed.
    fn fail(&mut self, alloc: Global, peer: HostAddr) -> Result<(), AllocError>
        ensures state { OnOk result (self.new ≡ turns.failed peer self.old) }
        ensures memory { OnErr result (0 < newly_said self.old (turns.failed peer self.old)) }
    {
        let is_gone = matches!(self.pair.phase, Phase::Gone { .. });
        if is_gone || !self.pair.owed {
            self.fail_by_phase(alloc, peer)
        } else {
            self.settle(alloc)
        }
    }

    /// Takes an RFNM: the peer has the message.
    fn take_rfnm(&mut self, alloc: Global, link: u8) -> Result<(), AllocError>
        ensures state { OnOk result (self.new ≡ turns.rfnm_taken link self.old) }
        ensures memory { OnErr result (0 < newly_said self.old (turns.rfnm_taken link self.old)) }
    {
        self.pair.phase = self.pair.phase.after_rfnm(link);
        self.settle(alloc)
    }

    /// Handles an answer, once its link is free.
    fn hear_answer(
        &mut self,
        alloc: Global,
        peer: HostAddr,
        kind: Answer,
        link: u8,
    ) -> Result<(), AllocError>
        ensures state { OnOk result (self.new ≡ turns.answer_taken peer kind link self.old) }
        ensures memory { OnErr result (0 < newly_said self.old (turns.answer_taken peer kind link self.old)) }
    {
        match kind {
            Answer::Rfnm => self.take_rfnm(alloc, link),
            Answer::Incomplete | Answer::Dead | Answer::NotTaken => self.fail(alloc, peer),
        }
    }

    /// Marks a link as free of outstanding messages.
    fn free(&mut self, link: u8)
        ensures { self.new ≡ record self.old { pair = turns.freed link self.old.pair } }
    {
        self.pair.free(link);
    }

    /// Takes an answer about a message that this host has outstanding: the link is free, and what follows by its kind
    /// (BBN Report 1822, RFNM, Incomplete Transmission, Destination Dead). `NotTaken` is treated as
    /// `Incomplete`, since it crosses the interface as that.
    pub fn take_answer(
        &mut self,
        alloc: Global,
        peer: HostAddr,
        kind: Answer,
        link: u8,
    ) -> Result<(), AllocError>
        ensures state { OnOk result (self.new ≡ turns.answered_turn peer kind link self.old) }
        ensures memory { OnErr result (0 < said_by_answer peer kind link self.old) }
    {
        self.free(link);
        self.hear_answer(alloc, peer, kind, link)
    }
}
