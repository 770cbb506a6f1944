//! The connections of an opened pair, while something of the peer or of the user is done to them.

ghost use Rattle.std.specs.Prelude.{◌≡◌, ◌++◌, ◌∷◌, [], OnOk, ◌<◌, OnErr, false};
ghost use Rattle.host_pairs.specs.Said.{said};
ghost use Rattle.ncp_control.specs.Command.{is_alone, spelling};
ghost use Rattle.host_pairs.specs.Control.{error};
ghost use Rattle.host_pairs.specs.Commands.{faulted, entry_joined};
ghost use Rattle.host_pairs.specs.Desk.{command_queued, desk_told};

use crate::Notice;
use crate::entry::Entry;
use crate::held::Ends;
use crate::listener::Listeners;
use crate::queue::Queue;
use ncp_control::Command;
use std::alloc::{AllocError, Global};
use std::marker::Model;

/// The ends of a pair's connections, the commands that wait to go out to the peer, what listens, and what
/// the user is notified.
#[derive(Drop)]
pub(crate) struct Desk {
    pub entries: Ends,
    pub queue: Queue,
    pub listening: Listeners,
    pub notices: Vec<Notice>,
}

impl Model for Desk {
    ghost use Rattle.host_pairs.specs.Desk.{DeskState};

    ghost Value = { DeskState };

    ghost view = { λ d. record { entries = d.entries; queue = d.queue; listening = d.listening; notices = d.notices.items } };
}

impl Desk {
    /// Puts a command after those that wait.
    pub(crate) fn queue(&mut self, command: Command) -> Result<(), AllocError>
        requires joint { is_alone command ≡ false }
        ensures state { OnOk result (self.new ≡ command_queued command self.old) }
        ensures memory { OnErr result (said self.old < said (command_queued command self.old)) }
    {
        self.queue.push(command)
    }

    /// Tells the user something.
    pub(crate) fn tell(&mut self, notice: Notice) -> Result<(), AllocError>
        ensures state { OnOk result (self.new ≡ desk_told (notice ∷ []) self.old) }
        ensures memory { OnErr result (said self.old < said (desk_told (notice ∷ []) self.old)) }
    {
        self.notices.push(notice)?;
        Ok(())
    }

    /// Adds an end after the others.
    pub(crate) fn join(&mut self, entry: Entry) -> Result<(), AllocError>
        ensures { OnOk result (self.new ≡ entry_joined entry self.old) }
    {
        self.entries.push(entry)
    }

    /// Queues an ERR about a command.
    pub(crate) fn fault(
        &mut self,
        alloc: Global,
        code: u8,
        command: &Command,
    ) -> Result<(), AllocError>
        ensures state { OnOk result (self.new ≡ faulted code command.now self.old) }
        ensures memory { OnErr result (said self.old < said (faulted code command.now self.old)) }
    {
        let Ok(octets) = command.write(alloc) else {
            return Err(AllocError);
        };
        self.queue(Command::error(code, octets.as_slice()))
    }
}
