//! What a request of the user does to a pair of hosts.

ghost use Rattle.std.specs.Prelude.{◌≡◌, ◌<◌, OnErr, OnOk, false, is_some, length};
ghost use Rattle.ncp_control.specs.Command.{is_alone};
ghost use Rattle.host_pairs.specs.Commands.{granted};
ghost use Rattle.host_pairs.specs.Entries.{called_off, changed_first, entry_at, is_mine_on};
ghost use Rattle.host_pairs.specs.Asked as asked;
ghost use Rattle.host_pairs.specs.Asked.{interrupt_of, with_end, with_more_bits};
ghost use Rattle.host_pairs.specs.Parcels.{link_of};

use crate::ends::place;
use crate::entry::Entry;
use crate::held::Ends;
use crate::pair::Pair;
use crate::queue::Queue;
use bit_messages::Bits;
use ncp_control::{Allocation, Command, Phase};
use std::alloc::{AllocError, Global};

// ---- the pair

impl Pair {
    /// Forgets all that there was with the peer, and makes an RST go out.
    pub fn contact(&mut self, alloc: Global)
        ensures { self.new ≡ asked.contacted self.old }
    {
        self.phase = Phase::Want;
        self.entries = Ends::new(alloc);
        self.queue = Queue::new(alloc);
    }

    /// Adds a new end, and queues its request.
    pub fn request(&mut self, entry: Entry, command: Command) -> Result<(), AllocError>
        requires joint { is_alone command ≡ false }
        ensures { OnOk result (self.new ≡ asked.requested entry command self.old) }
    {
        self.entries.push(entry)?;
        self.queue.push(command)
    }

    /// Queues a command.
    pub fn command(&mut self, command: Command) -> Result<(), AllocError>
        requires joint { is_alone command ≡ false }
        ensures { OnOk result (self.new ≡ asked.commanded command self.old) }
    {
        self.queue.push(command)
    }

    /// Queues bits of a socket to be sent.
    pub fn add_bits(&mut self, socket: u32, bits: &Bits) -> Result<(), AllocError>
        ensures state { OnOk result (self.new ≡ with_end socket (with_more_bits bits.now) self.old) }
        ensures memory { OnErr result (0 < length bits.now) }
    {
        self.entries.add_bits(socket, bits)
    }

    /// Grants the sender to a socket more, and queues the ALL that says so.
    pub fn grant(
        &mut self,
        socket: u32,
        messages: u16,
        bits: u32,
        command: Command,
    ) -> Result<(), AllocError>
        requires joint { is_alone command ≡ false }
        ensures { OnOk result (self.new ≡ asked.commanded command (with_end socket (granted messages bits) self.old)) }
    {
        self.entries.grant_more(socket, messages, bits);
        self.command(command)
    }

    /// Closes the connection of a socket, at once or when it is drained.
    pub fn close(&mut self, socket: u32) -> Result<(), AllocError>
        ensures state { OnOk result (self.new ≡ asked.closed_end socket self.old) }
        ensures memory { OnErr result (length self.old.queue < length (asked.closed_end socket self.old).queue) }
    {
        self.entries.call_off(socket);
        self.entries.settle(&self.busy, &mut self.queue)
    }
}

// ---- what a request finds

/// Returns whether two sockets have an end.
pub fn has_end(entries: &[Entry], own: u32, foreign: u32) -> bool
    ensures { result ≡ is_some (entry_at own foreign entries.now) }
{
    place(entries, own, foreign).is_some()
}

impl Entry {
    /// Returns whether this many bits are whole bytes of the connection.
    pub fn has_bytes(&self, bits: usize) -> bool
        ensures { result ≡ asked.are_bytes bits self.now.size }
    {
        self.size
            .is_some_and(|size| bits % size.bits() as usize == 0)
    }

    /// Returns whether what is granted would pass what the counters can hold.
    pub fn would_pass(&self, messages: u16, bits: u32) -> bool
        ensures { result ≡ asked.passes self.now.allocation messages bits }
    {
        let Allocation {
            messages: open_messages,
            bits: open_bits,
        } = self.allocation;
        messages > u16::MAX - open_messages || bits > u32::MAX - open_bits
    }

    /// Returns the number of its link; 0 where it isn't known yet.
    pub fn link_number(&self) -> u8
        ensures { result ≡ link_of self.now.link }
    {
        match self.link {
            Some(link) => link.number(),
            None => 0,
        }
    }

    /// Returns the command that interrupts the other end.
    pub fn interrupt(&self) -> Command
        ensures command { result ≡ interrupt_of self.now }
        ensures joint { is_alone result ≡ false }
    {
        let link = self.link_number();
        if self.is_receiving() {
            Command::Inr { link }
        } else {
            Command::Ins { link }
        }
    }
}
