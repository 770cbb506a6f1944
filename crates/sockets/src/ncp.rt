//! One host's network control program.

ghost use Rattle.std.specs.Prelude.{◌≡◌, false, true, MatchResult, Ok, Err};
ghost use Rattle.sockets.specs.Calls.{IsSpent};
ghost use Rattle.sockets.specs.Pairs as pairs;
ghost use Rattle.sockets.specs.declared.fault.NcpFault.TheVariants as fault;

use crate::peers::Peers;
use crate::{NcpFault, Peer};
use host_pairs::{Listener, Listeners};
use interface::HostAddr;
use std::alloc::{AllocError, Global};
use std::marker::Model;

/// A host's network control program: its peers, and the sockets that listen (NIC 8246, Host/Host Protocol
/// for the ARPA Network).
///
/// A call that runs out of memory leaves it spent: what it knows of its peers is lost, and no call may
/// follow.
#[derive(Drop)]
pub struct Ncp {
    pub(crate) own: HostAddr,
    pub(crate) peers: Peers,
    pub(crate) listening: Listeners,
    pub(crate) spent: bool,
    pub(crate) alloc: Global,
}

impl Model for Ncp {
    ghost use Rattle.sockets.specs.Pairs.{NcpState};

    ghost Value = { NcpState };

    ghost view = { λ n. record { own = n.own; peers = n.peers; listening = n.listening; spent = n.spent } };
}

impl Ncp {
    /// Returns the program of a host that has just come up: it has spoken to nobody, and nothing listens.
    pub fn new(alloc: Global, own: HostAddr) -> Ncp
        ensures { result ≡ pairs.opening_state own }
    {
        Ncp {
            own,
            peers: Peers::new(alloc),
            listening: Listeners::new(alloc),
            spent: false,
            alloc,
        }
    }

    /// Returns the host's own address.
    pub fn own(&self) -> HostAddr
        ensures { result ≡ self.now.own }
    {
        self.own
    }

    /// Returns the other hosts that it has to do with, in order of their address octets.
    pub fn peers(&self) -> &[Peer]
        ensures { result.now ≡ self.now.peers }
    {
        self.peers.as_slice()
    }

    /// Returns the sockets that listen, the oldest first.
    pub fn listening(&self) -> &[Listener]
        ensures { result.now ≡ self.now.listening }
    {
        self.listening.as_slice()
    }

    /// Returns whether running out of memory has made it useless.
    pub fn is_spent(&self) -> bool
        ensures { result ≡ self.now.spent }
    {
        self.spent
    }

    /// Ends a call: the program is spent where memory ran out.
    pub(crate) fn end<T: Drop>(&mut self, done: Result<T, AllocError>) -> Result<T, NcpFault>
        ensures { MatchResult done (λ x. (result ≡ Ok x) × (self.new ≡ self.old)) (λ e. (result ≡ Err fault.OutOfMemory) × (self.new.spent ≡ true)) }
    {
        match done {
            Ok(x) => Ok(x),
            Err(_) => {
                self.spent = true;
                Err(NcpFault::OutOfMemory)
            }
        }
    }
}
