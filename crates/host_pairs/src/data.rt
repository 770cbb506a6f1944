//! A message of data on a connection's link (NIC 8246, message format).

ghost use Rattle.std.specs.Prelude.{◌≡◌, ◌+◌, ◌≤◌, OnOk, length, ◌<◌, OnErr};
ghost use Rattle.host_pairs.specs.Said.{newly_said};
ghost use Rattle.host_pairs.specs.Data as texts;
ghost use Rattle.host_pairs.specs.Desk.{desk_of};
ghost use Rattle.host_pairs.specs.Inside.Clauses.{data_arrived};
ghost use Rattle.host_pairs.specs.Turn as turns;

use crate::Notice;
use crate::bits_gone::part;
use crate::commands::{ERRONEOUS, NOT_CONNECTED};
use crate::entry::Entry;
use crate::found::{Found, receiver_on};
use crate::turn::Turn;
use bit_messages::Bits;
use ncp_control::{Command, DataHeader, HEADER_BITS};
use std::alloc::{AllocError, Global};

impl Entry {
    /// Returns whether a message with this header is acceptable: its bytes have the connection's size, and what was
    /// granted covers it.
    fn accepts(&self, header: &DataHeader) -> bool
        ensures { result ≡ texts.is_acceptable self.now header.now }
    {
        let has_size = self.size.is_some_and(|size| size.bits() == header.size);
        has_size && self.allocation.messages > 0 && header.data_bits() <= self.allocation.bits
    }
}

impl Turn {
    /// Queues an ERR about a whole message. It quotes the message's text.
    #[tactic(auto, using(crate::proofs::TurnLemmas::queued_turn))]
    fn fault_text(&mut self, code: u8, text: &Bits) -> Result<(), AllocError>
        ensures state { OnOk result (self.new ≡ turns.with_desk self.old (texts.text_faulted code text.now (desk_of self.old.pair self.old.listening))) }
        ensures memory { OnErr result (0 < newly_said self.old (turns.with_desk self.old (texts.text_faulted code text.now (desk_of self.old.pair self.old.listening)))) }
    {
        let command = Command::error(code, text.as_octets());
        self.pair.queue.push(command)
    }

    /// Takes a message of data on a link. The connections stay where they are.
    #[tactic(auto, using(crate::proofs::TurnLemmas::same_turn))]
    pub(crate) fn take_data(
        &mut self,
        alloc: Global,
        link: u8,
        text: &Bits,
    ) -> Result<(), AllocError>
        ensures state { OnOk result (self.new ≡ turns.with_desk self.old (texts.data_taken link text.now (desk_of self.old.pair self.old.listening))) }
        ensures memory { OnErr result (0 < newly_said self.old (turns.with_desk self.old (texts.data_taken link text.now (desk_of self.old.pair self.old.listening)))) }
    {
        let at = match receiver_on(self.pair.entries.as_slice(), link) {
            Found::Open(at) => at,
            Found::Ending => return Ok(()),
            Found::Unconnected => return self.fault_text(NOT_CONNECTED, text),
        };
        let entry = &self.pair.entries.as_slice()[at];
        match DataHeader::read(text) {
            Some(header) if entry.accepts(&header) => {
                let socket = entry.own;
                self.arrive(alloc, socket, link, text, header.data_bits())
            }
            _ => self.fault_text(ERRONEOUS, text),
        }
    }

    /// Hands the first bits of a text's data to a socket, and subtracts them from its allocation.
    fn arrive(
        &mut self,
        alloc: Global,
        socket: u32,
        link: u8,
        text: &Bits,
        bits: u32,
    ) -> Result<(), AllocError>
        requires { 40 + bits ≤ length text.now }
        ensures state { OnOk result (self.new ≡ data_arrived socket link bits text.now self.old) }
        ensures memory { OnErr result (0 < newly_said self.old (data_arrived socket link bits text.now self.old)) }
    {
        let arrived = part(alloc, text, HEADER_BITS, HEADER_BITS + bits as usize)?;
        self.pair.entries.spend(link, bits);
        self.tell(Notice::Arrived {
            socket,
            bits: arrived,
        })
    }
}
