//! Control messages of a peer, read command by command (NIC 8246, the control link and ERR).

ghost use Rattle.host_pairs.specs.Said.{newly_said, said_by, said_by_message};
ghost use Rattle.std.specs.Prelude.{◌≡◌, OnErr, ◌+◌, ◌<◌, ◌≤◌, ◌∷◌, [], OnOk, IfOk, MatchOption, ℕ, drop, length};
ghost use Rattle.bit_messages.specs.Octets.{octets_of};
ghost use Rattle.host_pairs.specs.Turn as turns;
ghost use Rattle.host_pairs.specs.Control.{Wrong, error, orders_in, orders_of, orders_within};
ghost use Rattle.host_pairs.specs.Control as errors;
ghost use Rattle.host_pairs.specs.Desk.{command_queued};
ghost use Rattle.host_pairs.specs.Inside.Clauses.{LeavesOrders};

use crate::commands::ERRONEOUS;
use crate::turn::Turn;
use bit_messages::Bits;
use interface::HostAddr;
use ncp_control::{Command, ControlFault, DataHeader, HEADER_BITS, MAX_CONTROL_OCTETS, read_one};
use std::alloc::{AllocError, Global};

/// The code of an ERR about a command that doesn't exist (NIC 8246, ERR).
const ILLEGAL_CODE: u8 = 1;

/// The code of an ERR about a command that ends too soon.
const SHORT: u8 = 2;

/// The size of a control message's bytes.
const OCTET_BITS: u8 = 8;

/// Returns the octets of the commands in a text; `None` where the text is no control message.
#[tactic(auto, unfolding(crate::specs::Control::orders_of))]
pub fn control_octets(text: &Bits) -> Option<&[u8]>
    ensures { MatchOption result (orders_of text.now ≡ Wrong errors.ERRONEOUS (octets_of text.now) ∷ []) (λ octets. orders_of text.now ≡ orders_in octets.now) }
{
    let header = DataHeader::read(text)?;
    let count = header.count as usize;
    if header.size != OCTET_BITS || count > MAX_CONTROL_OCTETS {
        return None;
    }
    let (_, behind) = text.as_octets().split_at(HEADER_BITS / 8);
    let (octets, _) = behind.split_at(count);
    Some(octets)
}

impl Turn {
    /// Answers what can't be read by an ERR that quotes it, while the pair is open.
    fn answer_wrong(&mut self, code: u8, octets: &[u8]) -> Result<(), AllocError>
        ensures state { OnOk result (self.new ≡ turns.if_ready (command_queued (error code octets.now)) self.old) }
        ensures memory { OnErr result (0 < newly_said self.old (turns.if_ready (command_queued (error code octets.now)) self.old)) }
    {
        if self.pair.phase.is_ready() {
            self.pair.queue.push(Command::error(code, octets))?;
        }
        Ok(())
    }

    /// Takes the command that the octets begin with, or the error in its place. Returns how many octets are read by it:
    /// all of them, where the reading ends.
    #[tactic(auto, using(crate::proofs::ControlLemmas::orders_of_none))]
    fn take_first(
        &mut self,
        alloc: Global,
        peer: HostAddr,
        stamp: usize,
        octets: &[u8],
    ) -> Result<usize, AllocError>
        requires { 0 < length octets.now }
        ensures first { IfOk result (LeavesOrders peer stamp octets.now self.old self.new) }
        ensures said { IfOk result (λ read. (more : ℕ) → said_by peer stamp (orders_within more (drop read octets.now)) self.new ≤ said_by peer stamp (orders_within (1 + more) octets.now) self.old) }
        ensures memory { OnErr result ((more : ℕ) → 0 < said_by peer stamp (orders_within (1 + more) octets.now) self.old) }
        ensures some { IfOk result (λ read. 0 < read) }
        ensures there { IfOk result (λ read. read ≤ length octets.now) }
    {
        match read_one(octets) {
            Ok((command, used)) => {
                self.take_command(alloc, peer, stamp, command)?;
                Ok(used)
            }
            Err(ControlFault::Erroneous { quoted }) => {
                let (wrong, _) = octets.split_at(quoted);
                self.answer_wrong(ERRONEOUS, wrong)?;
                Ok(quoted)
            }
            Err(ControlFault::IllegalCode { quoted }) => {
                let (wrong, _) = octets.split_at(quoted);
                self.answer_wrong(ILLEGAL_CODE, wrong)?;
                Ok(octets.len())
            }
            Err(ControlFault::Short { quoted }) => {
                let (wrong, _) = octets.split_at(quoted);
                self.answer_wrong(SHORT, wrong)?;
                Ok(octets.len())
            }
            Err(ControlFault::OutOfMemory) => unreachable!(),
        }
    }

    /// Takes the commands and errors in these octets, one after another.
    fn take_orders(
        &mut self,
        alloc: Global,
        peer: HostAddr,
        stamp: usize,
        octets: &[u8],
    ) -> Result<(), AllocError>
        ensures state { OnOk result (self.new ≡ turns.orders_taken peer stamp (orders_in octets.now) self.old) }
        ensures memory { OnErr result (0 < said_by peer stamp (orders_in octets.now) self.old) }
    {
        let mut rest = octets;
        'orders: while !rest.is_empty() {
            let read = self.take_first(alloc, peer, stamp, rest)?;
            (_, rest) = rest.split_at(read);
        }
        Ok(())
    }

    /// Takes a message on the control link. One that is no control message is one error.
    fn take_control(
        &mut self,
        alloc: Global,
        peer: HostAddr,
        stamp: usize,
        text: &Bits,
    ) -> Result<(), AllocError>
        ensures state { OnOk result (self.new ≡ turns.orders_taken peer stamp (orders_of text.now) self.old) }
        ensures memory { OnErr result (0 < said_by peer stamp (orders_of text.now) self.old) }
    {
        match control_octets(text) {
            Some(octets) => self.take_orders(alloc, peer, stamp, octets),
            None => self.answer_wrong(ERRONEOUS, text.as_octets()),
        }
    }

    /// Takes a message of the peer: commands on link 0, data on any other (NIC 8246, links).
    pub fn take_message(
        &mut self,
        alloc: Global,
        peer: HostAddr,
        stamp: usize,
        link: u8,
        text: &Bits,
    ) -> Result<(), AllocError>
        ensures state { OnOk result (self.new ≡ turns.message_taken peer stamp link text.now self.old) }
        ensures memory { OnErr result (0 < said_by_message peer stamp link text.now self.old) }
    {
        if link == 0 {
            self.take_control(alloc, peer, stamp, text)
        } else {
            self.hear_data(alloc, link, text)
        }
    }
}
