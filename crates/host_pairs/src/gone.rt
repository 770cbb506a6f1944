//! What the going out of a parcel changes in the connections of a pair (NIC 8246, RTS, STR and CLS).

ghost use Rattle.std.specs.Prelude.{◌≡◌, ◌≤◌, ◌<◌, OnOk, OnErr, length, take};
ghost use Rattle.ncp_control.specs.declared.command.Command.TheVariants as command;
ghost use Rattle.host_pairs.specs.Parcels as parcels;

use crate::desk::Desk;
use interface::HostAddr;
use ncp_control::Command;
use std::alloc::AllocError;

impl Desk {
    /// Records that a request of this host has gone out, which may open the connection.
    fn request_gone(
        &mut self,
        peer: HostAddr,
        stamp: usize,
        own: u32,
        foreign: u32,
    ) -> Result<(), AllocError>
        ensures state { OnOk result (self.new ≡ parcels.request_gone peer stamp own foreign self.old) }
        ensures memory { OnErr result (length self.old.notices < length (parcels.request_gone peer stamp own foreign self.old).notices) }
    {
        self.entries.ask(own, foreign, stamp);
        self.tell_opening(peer, own, foreign)
    }

    /// Records that a CLS of this host has gone out, and removes the end if the peer's was taken.
    fn cls_gone(&mut self, peer: HostAddr, own: u32, foreign: u32) -> Result<(), AllocError>
        ensures state { OnOk result (self.new ≡ parcels.command_gone peer 0 (command.Cls own foreign) self.old) }
        ensures memory { OnErr result (length self.old.notices < length (parcels.command_gone peer 0 (command.Cls own foreign) self.old).notices) }
    {
        self.entries.send_cls(own, foreign);
        self.sweep(peer)
    }

    /// Records that a command has gone out.
    fn command_gone(
        &mut self,
        peer: HostAddr,
        stamp: usize,
        command: Command,
    ) -> Result<(), AllocError>
        ensures state { OnOk result (self.new ≡ parcels.command_gone peer stamp command self.old) }
        ensures queue { OnOk result (self.new.queue ≡ self.old.queue) }
        ensures listening { OnOk result (self.new.listening ≡ self.old.listening) }
        ensures memory { OnErr result (length self.old.notices < length (parcels.command_gone peer stamp command self.old).notices) }
    {
        match command {
            Command::Rts { receive, send, .. } => {
                self.request_gone(peer, stamp, receive.number(), send.number())
            }
            Command::Str { send, receive, .. } => {
                self.request_gone(peer, stamp, send.number(), receive.number())
            }
            Command::Cls { own, foreign } => self.cls_gone(peer, own, foreign),
            _ => Ok(()),
        }
    }

    /// Records that the first `count` of the commands that wait, or all of them, have gone out in one message.
    #[tactic(auto, using(crate::proofs::GoneLemmas::none_behind))]
    pub fn commands_gone(
        &mut self,
        peer: HostAddr,
        stamp: usize,
        count: usize,
    ) -> Result<(), AllocError>
        ensures state { OnOk result (self.new ≡ parcels.unqueued count (parcels.commands_gone peer stamp (take count self.old.queue) self.old)) }
        ensures listening { OnOk result (self.new.listening ≡ self.old.listening) }
    {
        for at in 0..count.min(self.queue.len()) {
            let command = self.queue.as_slice()[at];
            self.command_gone(peer, stamp, command)?;
        }
        self.queue.drop_front(count);
        Ok(())
    }
}
