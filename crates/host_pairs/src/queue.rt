//! The commands that wait to go out to a peer.

ghost use Rattle.std.specs.Prelude.{◌≡◌, ◌++◌, ◌∷◌, ◌==◌, [], OnOk, drop, false, true, length};
ghost use Rattle.ncp_control.specs.Command.{is_alone};
ghost use Rattle.host_pairs.specs.Queue.{are_joint};

use ncp_control::Command;
use std::alloc::{AllocError, Global};
use std::marker::Model;

/// The commands that wait to go out to a peer, the oldest first. RST and RRP aren't among them: each goes
/// by itself in its message, and a pair of hosts keeps them as its phase and as what it owes (NIC 8246, RST and
/// RRP).
///
/// Those that have gone out are before the others until they are more than half, and go all at once then. So each command is
/// moved at most once more on average, however many wait.
#[derive(Drop)]
pub struct Queue {
    commands: Vec<Command>,
    gone: usize,
}

impl Model for Queue {
    ghost use Rattle.std.specs.Prelude.{◌≡◌, ◌≤◌, List, true, drop, length};
    ghost use Rattle.ncp_control.specs.declared.command.Command.{Command};
    ghost use Rattle.host_pairs.specs.Queue.{are_joint};

    ghost Value = { List Command };

    ghost view = { λ q. drop q.gone q.commands.items };

    ghost invariant = { λ q. (q.gone ≤ length q.commands.items) × (are_joint (drop q.gone q.commands.items) ≡ true) };
}

impl Queue {
    /// Returns a queue in which no command waits.
    pub(crate) fn new(alloc: Global) -> Queue
        ensures { result ≡ [] }
    {
        Queue {
            commands: Vec::new(alloc),
            gone: 0,
        }
    }

    /// Returns the commands, the oldest first.
    pub fn as_slice(&self) -> &[Command]
        ensures value { result.now ≡ self.now }
        ensures joint { are_joint self.now ≡ true }
    {
        &self.commands[self.gone..]
    }

    /// Returns how many there are.
    #[tactic(auto, using(crate::proofs::QueueLemmas::length_behind))]
    pub(crate) fn len(&self) -> usize
        ensures { result ≡ length self.now }
    {
        self.commands.len() - self.gone
    }

    /// Returns whether there are none.
    pub(crate) fn is_empty(&self) -> bool
        ensures { result ≡ (length self.now == 0) }
    {
        self.len() == 0
    }

    /// Puts a command after the others.
    #[tactic(auto, using(crate::proofs::QueueLemmas::joint_pushed, crate::proofs::QueueLemmas::one_more, crate::proofs::QueueLemmas::within_more))]
    pub(crate) fn push(&mut self, command: Command) -> Result<(), AllocError>
        requires joint { is_alone command ≡ false }
        ensures { OnOk result (self.new ≡ self.old ++ command ∷ []) }
    {
        self.commands.push(command)?;
        Ok(())
    }

    /// Drops the first commands, or all of them.
    #[tactic(auto, using(crate::proofs::QueueLemmas::joint_further, crate::proofs::QueueLemmas::further, crate::proofs::QueueLemmas::within_further))]
    pub(crate) fn drop_front(&mut self, count: usize)
        ensures { self.new ≡ drop count self.old }
    {
        self.gone += count.min(self.len());
        self.make_room();
    }

    /// Removes the commands that have gone out, if they are more than half of all.
    fn make_room(&mut self)
        ensures { self.new ≡ self.old }
    {
        if self.gone > self.commands.len() / 2 {
            self.commands.drain(..self.gone);
            self.gone = 0;
        }
    }
}
