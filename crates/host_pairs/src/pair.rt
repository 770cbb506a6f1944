//! What a host knows of one other host.

ghost use Rattle.std.specs.Prelude.{◌≡◌};
ghost use Rattle.host_pairs.specs.Pair.{opening_pair, is_opening};

use crate::held::Ends;
use crate::queue::Queue;
use ncp_control::Phase;
use std::alloc::Global;
use std::marker::Model;

/// This host and one peer: how far the reset has come, whether an RRP is owed, the links on which a message
/// has no answer yet, the ends of their connections, and the commands that wait to go out.
#[derive(Drop)]
pub struct Pair {
    /// How far the reset has come.
    pub phase: Phase,
    /// Whether an RRP is owed to the peer.
    pub owed: bool,
    /// The links on which a message of this host has no answer yet.
    pub busy: Vec<u8>,
    /// The ends of connections with the peer, the oldest first.
    pub entries: Ends,
    /// The commands that wait to go out, the oldest first.
    pub queue: Queue,
}

impl Model for Pair {
    ghost use Rattle.host_pairs.specs.Pair.{PairState};

    ghost Value = { PairState };

    ghost view = { λ p. record { phase = p.phase; owed = p.owed; busy = p.busy.items; entries = p.entries; queue = p.queue } };
}

impl Pair {
    /// Returns a pair of hosts that never spoke to each other.
    pub fn new(alloc: Global) -> Pair
        ensures { result ≡ opening_pair }
    {
        Pair {
            phase: Phase::Closed,
            owed: false,
            busy: Vec::new(alloc),
            entries: Ends::new(alloc),
            queue: Queue::new(alloc),
        }
    }

    /// Returns whether it is in the initial state.
    pub fn is_opening(&self) -> bool
        ensures { result ≡ is_opening self.now }
    {
        self.phase == Phase::Closed
            && !self.owed
            && self.busy.is_empty()
            && self.entries.as_slice().is_empty()
            && self.queue.is_empty()
    }
}
