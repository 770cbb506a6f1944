//! A host that this one speaks to.

ghost use Rattle.std.specs.Prelude.{◌≡◌, MatchOption, IfSome, Some, None};
ghost use Rattle.std.specs.Fn.{FnOnceReturnsAtMut};
ghost use Rattle.host_pairs.specs.Outgoing.{HasRoom, IsThere, parcel_of};
ghost use Rattle.host_pairs.specs.Pair.{opening_pair};
ghost use Rattle.host_pairs.specs.Parcels.{next_of};
ghost use Rattle.sockets.specs.Peers.{has_parcel};

use crate::due::Due;
use host_pairs::{Outgoing, Pair};
use interface::HostAddr;
use std::marker::Model;
use std::mem;

/// Another host, and what this one knows of it.
///
/// What goes to it next is kept with it. So its connections are looked through once for each change.
#[derive(Drop)]
pub struct Peer {
    /// The host's address.
    pub host: HostAddr,
    /// How far the two hosts have come.
    pub pair: Pair,
    due: Due,
}

impl Model for Peer {
    ghost use Rattle.sockets.specs.Due.{GoesNext};
    ghost use Rattle.sockets.specs.Peer.{PeerState};

    ghost Value = { PeerState };

    ghost view = { λ p. record { host = p.host; pair = p.pair } };

    ghost invariant = { λ p. GoesNext p.pair p.due };
}

impl Peer {
    /// Returns a host with this pair.
    pub(crate) fn new(host: HostAddr, pair: Pair) -> Peer
        ensures { result ≡ record { host = host; pair = pair } }
    {
        let next = pair.next();
        let due = Due::exact(&pair, next);
        Peer { host, pair, due }
    }

    /// Returns whether something goes to it.
    pub(crate) fn is_due(&self) -> bool
        ensures { result ≡ has_parcel self.now }
    {
        self.due.is_due()
    }

    /// Returns what goes to it next.
    pub(crate) fn next(&self) -> Option<Outgoing>
        ensures next { MatchOption result (next_of self.now.pair ≡ None) (λ out. next_of self.now.pair ≡ Some (parcel_of self.now.pair.entries out)) }
        ensures there { IfSome result (IsThere self.now.pair.entries) }
        ensures room { IfSome result (HasRoom self.now.pair.entries self.now.pair.queue) }
    {
        match self.due {
            Due::Nothing => None,
            Due::Something => self.pair.next(),
            Due::Known(out) => Some(out),
        }
    }

    /// Changes its pair.
    pub(crate) fn change<R, F: FnOnce(&mut Pair) -> R>(&mut self, change: F) -> R
        requires { F.IsAlwaysCallable change }
        ensures host { self.new.host ≡ self.old.host }
        ensures pair { FnOnceReturnsAtMut F.FnOnce change self.old.pair result self.new.pair }
    {
        let done = change(&mut self.pair);
        self.due = Due::of(&self.pair);
        done
    }

    /// Takes its pair out, and leaves one in the initial state.
    pub(crate) fn take(&mut self, opening: Pair) -> Pair
        requires { opening ≡ opening_pair }
        ensures pair { result ≡ self.old.pair }
        ensures left { self.new ≡ record { host = self.old.host; pair = opening } }
    {
        self.due = Due::Nothing;
        mem::replace(&mut self.pair, opening)
    }
}
