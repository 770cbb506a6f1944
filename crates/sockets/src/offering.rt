//! What changes once the carrier has taken the message that goes out next.

ghost use Rattle.std.specs.Prelude.{◌≡◌, false, true, is_some, IfErr, IfOk, OnErr, IfSome, MatchOption, None, Some};
ghost use Rattle.sockets.specs.Calls.{Turns};
ghost use Rattle.sockets.specs.Checks.{IsNext};
ghost use Rattle.host_pairs.specs.Outgoing.{IsThere};
ghost use Rattle.sockets.specs.Pairs.{pair_with};
ghost use Rattle.sockets.specs.Sending as sending;

use crate::ncp::Ncp;
use crate::peers::Peers;
use crate::{NcpFault, Notice};
use host_pairs::Outgoing;
use interface::HostAddr;
use std::alloc::AllocError;

impl Peers {
    /// Returns the first peer that something goes to, and what.
    fn next(&self) -> Option<(HostAddr, Outgoing)>
        ensures next { MatchOption result (sending.next_in self.now ≡ None) (λ found. IsNext self.now found.0 found.1) }
        ensures there { IfSome result (λ found. IsThere (pair_with found.0 self.now).entries found.1) }
    {
        let Some((peer, out)) = self.first() else {
            return None;
        };
        let host = peer.host;
        Some((host, out))
    }
}

impl Ncp {
    /// Records that what goes out next has gone out.
    #[tactic(auto, unfolding(crate::specs::Sending::offered))]
    fn leave(&mut self, stamp: usize) -> Result<Vec<Notice>, AllocError>
        ensures state { IfOk result (λ notices. sending.offered self.old stamp ≡ (self.new, notices.items)) }
        ensures memory { OnErr result (is_some (sending.next_in self.old.peers) ≡ true) }
    {
        let Some((host, out)) = self.peers.next() else {
            return Ok(Vec::new(self.alloc));
        };
        let mut turn = self.begin(host);
        turn.gone(self.alloc, host, stamp, out)?;
        self.finish(host, turn)
    }

    /// Tells the program that the carrier has taken the message of [`Ncp::next_out`], with its place in the log:
    /// the link has a message outstanding, and what went out waits no longer. Returns what is notified of it.
    ///
    /// Errors: `OutOfMemory`, only where something goes out, and then the program is spent.
    pub fn offered(&mut self, stamp: usize) -> Result<Vec<Notice>, NcpFault>
        requires live { self.old.spent ≡ false }
        ensures turn { Turns (λ notices. notices.items) (sending.offered self.old stamp) result self.new }
        ensures memory { IfErr result (λ f. is_some (sending.next_in self.old.peers) ≡ true) }
    {
        let done = self.leave(stamp);
        self.end(done)
    }
}
