//! Which sockets may have an end, so that a socket without one is found without a look at the ends.

ghost use Rattle.std.specs.Prelude.{◌≡◌, ◌==◌, ◌||◌, ℕ, List, false, IfOk, OnOk};
ghost use Rattle.std.specs.Bool.{OnTrue};
ghost use Rattle.std.specs.BTreeSet.{contains};
ghost use Rattle.std.specs.Ordering.{nat_cmp};
ghost use Rattle.sockets.specs.Owned.{AreKnown, AreKnownBut, has_own, some_own};
ghost use Rattle.sockets.specs.declared.peer.Peer.{Peer};

use crate::peer::Peer;
use host_pairs::Entry;
use std::alloc::{AllocError, Global};
use std::collections::BTreeSet;

/// The sockets of the ends with all peers, so far as they are known.
///
/// Ends that are requested one after another teach them: once there were many, all ends are looked through, and each further one adds
/// its own. Whatever else changes a peer makes them unknown, so no set is made for a few ends that are requested in a row.
#[derive(Drop)]
pub(crate) enum Owned {
    /// Nothing is known.
    Unknown,
    /// Nothing is known, and ends were requested last.
    Asked,
    /// The socket of each end is one of these.
    Known(BTreeSet<u32>),
}

/// Adds the sockets of these ends.
fn add_each(sockets: &mut BTreeSet<u32>, entries: &[Entry]) -> Result<(), AllocError>
    ensures { OnOk result ((socket : ℕ) → contains nat_cmp sockets.new socket ≡ (contains nat_cmp sockets.old socket || has_own socket entries.now)) }
{
    for entry in entries {
        sockets.insert(entry.own)?;
    }
    Ok(())
}

/// Returns the sockets of all ends.
fn owned_by(alloc: Global, peers: &[Peer]) -> Result<BTreeSet<u32>, AllocError>
    ensures { IfOk result (λ sockets. (socket : ℕ) → contains nat_cmp sockets socket ≡ some_own socket peers.now) }
{
    let mut sockets = BTreeSet::new(alloc);
    for peer in peers {
        add_each(&mut sockets, peer.pair.entries.as_slice())?;
    }
    Ok(sockets)
}

/// Returns whether a number is greater than all of these. Sockets often come in order of their numbers, and then none
/// is searched for.
#[tactic(auto, using(crate::proofs::OwnedLemmas::beyond_all))]
fn is_beyond(sockets: &BTreeSet<u32>, socket: u32) -> bool
    ensures { OnTrue result (contains nat_cmp sockets.now socket ≡ false) }
{
    match sockets.last() {
        Some(last) => *last < socket,
        None => false,
    }
}

/// Returns the sockets with one more.
fn with_socket(mut sockets: BTreeSet<u32>, own: u32) -> Result<BTreeSet<u32>, AllocError>
    ensures { IfOk result (λ more. (socket : ℕ) → contains nat_cmp more socket ≡ false → (contains nat_cmp sockets socket ≡ false) × ((own == socket) ≡ false)) }
{
    sockets.insert(own)?;
    Ok(sockets)
}

impl Owned {
    /// Returns whether it is known that no end is on this socket.
    pub(crate) fn lacks(&self, socket: u32) -> bool
        ensures { OnTrue result ((peers : List Peer) → AreKnown self.now peers → some_own socket peers ≡ false) }
    {
        match self {
            Owned::Known(sockets) => is_beyond(sockets, socket) || !sockets.contains(&socket),
            Owned::Unknown | Owned::Asked => false,
        }
    }

    /// Returns what is known once one more end was requested, on this socket. All ends are looked through if many were
    /// requested in a row.
    pub(crate) fn learnt(
        self,
        alloc: Global,
        own: u32,
        peers: &[Peer],
        many: bool,
    ) -> Result<Owned, AllocError>
        requires { AreKnownBut own self peers.now }
        ensures { IfOk result (λ owned. AreKnown owned peers.now) }
    {
        match self {
            Owned::Unknown => Ok(Owned::Asked),
            Owned::Asked if many => Ok(Owned::Known(owned_by(alloc, peers)?)),
            Owned::Asked => Ok(Owned::Asked),
            Owned::Known(sockets) => Ok(Owned::Known(with_socket(sockets, own)?)),
        }
    }
}
