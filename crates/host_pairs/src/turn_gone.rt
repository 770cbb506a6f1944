//! What the going out of a parcel changes in a pair.

ghost use Rattle.std.specs.Prelude.{◌≡◌, ◌++◌, ◌<◌, ◌∷◌, ◌*◌, OnOk, length};
ghost use Rattle.host_pairs.specs.Gone.{desk_after, gone_with, left_with};
ghost use Rattle.host_pairs.specs.Inside.Clauses.{bytes_left};
ghost use Rattle.host_pairs.specs.Outgoing.{IsThere, parcel_of};
ghost use Rattle.host_pairs.specs.Parcels as parcels;

use crate::Notice;
use crate::bits_gone::send_bits;
use crate::outgoing::Outgoing;
use crate::turn::Turn;
use interface::HostAddr;
use ncp_control::Phase;
use std::alloc::{AllocError, Global};

impl Turn {
    /// Records that commands have gone out.
    fn commands_gone(
        &mut self,
        alloc: Global,
        peer: HostAddr,
        stamp: usize,
        count: usize,
    ) -> Result<(), AllocError>
        ensures { OnOk result (self.new ≡ left_with (parcels.Commands count) self.old (desk_after peer stamp (parcels.Commands count) self.old)) }
    {
        let mut desk = self.desk(alloc);
        desk.commands_gone(peer, stamp, count)?;
        self.restore(desk)
    }

    /// Records that bytes of the end at a place have gone out, and notifies the user.
    fn bytes_gone(
        &mut self,
        alloc: Global,
        peer: HostAddr,
        stamp: usize,
        at: usize,
        size: u8,
        count: u16,
    ) -> Result<(), AllocError>
        requires { at < length self.old.pair.entries }
        ensures { OnOk result (self.new ≡ bytes_left peer stamp at size count self.old) }
    {
        let entry = &self.pair.entries.as_slice()[at];
        let (socket, link) = (entry.own, entry.link_number());
        let bits = size as u32 * count as u32;
        let (ends, busy) = (&mut self.pair.entries, &self.pair.busy);
        let sent = send_bits(alloc, ends, busy, link, at, bits)?;
        self.tell(Notice::Sent { socket, bits: sent })
    }

    /// Records what has gone out, except for its link.
    fn leave(
        &mut self,
        alloc: Global,
        peer: HostAddr,
        stamp: usize,
        out: Outgoing,
    ) -> Result<(), AllocError>
        requires { IsThere self.old.pair.entries out }
        ensures { OnOk result (self.new ≡ left_with (parcel_of self.old.pair.entries out) self.old (desk_after peer stamp (parcel_of self.old.pair.entries out) self.old)) }
    {
        match out {
            Outgoing::Reset => {
                self.pair.phase = Phase::Gone { early: false };
                Ok(())
            }
            Outgoing::Reply => {
                self.pair.owed = false;
                Ok(())
            }
            Outgoing::Commands { count } => self.commands_gone(alloc, peer, stamp, count),
            Outgoing::Bytes { at, size, count } => {
                self.bytes_gone(alloc, peer, stamp, at, size.bits(), count)
            }
        }
    }

    /// Marks a link as having a message outstanding.
    fn busy(&mut self, link: u8) -> Result<(), AllocError>
        ensures { OnOk result (self.new ≡ record self.old { pair = parcels.busied link self.old.pair }) }
    {
        self.pair.busy.insert(0, link)?;
        Ok(())
    }

    /// Records what has gone out: it leaves the pair, its link has a message outstanding, and the user is notified of what
    /// it opens, ends or sends.
    pub fn gone(
        &mut self,
        alloc: Global,
        peer: HostAddr,
        stamp: usize,
        out: Outgoing,
    ) -> Result<(), AllocError>
        requires { IsThere self.old.pair.entries out }
        ensures { OnOk result (self.new ≡ gone_with (parcel_of self.old.pair.entries out) self.old (desk_after peer stamp (parcel_of self.old.pair.entries out) self.old)) }
    {
        let link = self.pair.link_for(&out);
        self.leave(alloc, peer, stamp, out)?;
        self.busy(link)
    }
}
