//! What a host knows of the others.

ghost use Rattle.std.specs.Prelude.{◌≡◌, ◌<◌, ◌≤◌, [], OnOk, OnErr, MatchResult, MatchOption, IfSome, IfNone, Some, None, length, position, true, false, nat_lt, slice_index_or};
ghost use Rattle.std.specs.Bool.{OnTrue, OnFalse};
ghost use Rattle.std.specs.Fn.{FnOnceReturnsAtMut};
ghost use Rattle.std.specs.List.Sorted.{IsPartitionPoint};
ghost use Rattle.interface.specs.Host.{address_octet, same_host};
ghost use Rattle.ncp_control.specs.Command.{is_alone};
ghost use Rattle.host_pairs.specs.Asked.{commanded, requested, with_end, with_more_bits};
ghost use Rattle.host_pairs.specs.Commands.{granted};
ghost use Rattle.host_pairs.specs.Outgoing.{HasRoom, IsThere, parcel_of};
ghost use Rattle.host_pairs.specs.Pair.{PairState, opening_pair};
ghost use Rattle.ncp_control.specs.Phases.{is_ready};
ghost use Rattle.host_pairs.specs.Turn.{freed, is_quiet};
ghost use Rattle.sockets.specs.Owned.{AreKnown, AreKnownBut, some_own};
ghost use Rattle.sockets.specs.Pairs.{owner_of, pair_with, with_pair, placed, without_peer};
ghost use Rattle.sockets.specs.Peers.{AreInOrder, IsMissing, PairChanges, StandsAt, has_parcel};
ghost use Rattle.sockets.specs.Sending.{next_in};
ghost use Rattle.sockets.specs.declared.peer.Peer.{Peer};

use crate::owned::Owned;
use crate::peer::Peer;
use bit_messages::Bits;
use host_pairs::{Entry, Outgoing, Pair, own_place};
use interface::HostAddr;
use ncp_control::Command;
use std::alloc::{AllocError, Global};
use std::marker::Model;
use std::mem;

/// How many ends are requested in a row before it is learnt which sockets have an end. To learn it costs as much as this
/// many looks at all ends.
const MANY: usize = 32;

/// The other hosts that this one has to do with, in order of their address octets. A host that isn't here has
/// a pair in the initial state.
///
/// The first place of one that something goes to is kept, so the next message is found without a look at the others.
/// And so far as it is known which sockets have an end, one without an end is found without a look at all ends; that is
/// learnt once many ends were requested in a row. The place of the peer that was changed last is where one is looked for
/// first.
#[derive(Drop)]
pub(crate) struct Peers {
    peers: Vec<Peer>,
    first: Option<usize>,
    recent: usize,
    owned: Owned,
    in_a_row: usize,
}

impl Model for Peers {
    ghost use Rattle.std.specs.Prelude.{◌≡◌, List, position};
    ghost use Rattle.sockets.specs.Owned.{AreKnown};
    ghost use Rattle.sockets.specs.Peers.{AreInOrder, has_parcel};
    ghost use Rattle.sockets.specs.declared.peer.Peer.{Peer};

    ghost Value = { List Peer };

    ghost view = { λ p. p.peers.items };

    ghost invariant = { λ p. AreInOrder p.peers.items × AreKnown p.owned p.peers.items × (p.first ≡ position has_parcel p.peers.items) };
}

impl Peers {
    /// Returns a list without peers.
    pub fn new(alloc: Global) -> Peers
        ensures { result ≡ [] }
    {
        Peers {
            peers: Vec::new(alloc),
            first: None,
            recent: 0,
            owned: Owned::Unknown,
            in_a_row: 0,
        }
    }

    /// Returns the place of a host among the peers, or the place where it would be inserted. It is looked for where the
    /// last one was first.
    fn place(&self, host: HostAddr) -> Result<usize, usize>
        ensures { MatchResult result (StandsAt host self.now) (IsMissing host self.now) }
    {
        if stands_at(&self.peers, self.recent, host) {
            return Ok(self.recent);
        }
        let at = first_from(&self.peers, host);
        if stands_at(&self.peers, at, host) {
            Ok(at)
        } else {
            Err(at)
        }
    }

    /// Returns what is known of a peer; `None` if that is the initial state.
    pub fn pair(&self, host: HostAddr) -> Option<&Pair>
        ensures { MatchOption result (pair_with host self.now ≡ opening_pair) (λ pair. pair_with host self.now ≡ pair.now) }
    {
        match self.place(host) {
            Ok(at) => {
                let peer = &self.peers[at];
                Some(&peer.pair)
            }
            Err(_) => None,
        }
    }

    /// Returns the peers, in order of their address octets.
    pub fn as_slice(&self) -> &[Peer]
        ensures value { result.now ≡ self.now }
        ensures order { AreInOrder self.now }
    {
        &self.peers
    }

    /// Returns whether it is known that no end is on this socket.
    pub fn lacks(&self, socket: u32) -> bool
        ensures { OnTrue result (some_own socket self.now ≡ false) }
    {
        self.owned.lacks(socket)
    }

    /// Takes out what is known of the sockets with an end, to be kept past the request of one more end.
    pub fn take_owned(&mut self) -> Owned
        ensures known { AreKnown result self.old }
        ensures kept { self.new ≡ self.old }
    {
        mem::replace(&mut self.owned, Owned::Unknown)
    }

    /// Records that one more end was requested on this socket since the set was computed.
    pub fn learn(&mut self, alloc: Global, owned: Owned, own: u32) -> Result<(), AllocError>
        requires { AreKnownBut own owned self.old }
        ensures { self.new ≡ self.old }
    {
        if matches!(owned, Owned::Unknown) {
            self.in_a_row = 0;
        }
        self.in_a_row = self.in_a_row.saturating_add(1);
        let many = self.in_a_row >= MANY;
        self.owned = owned.learnt(alloc, own, &self.peers, many)?;
        Ok(())
    }

    /// Returns this host's own end on a socket, and its peer.
    #[tactic(auto, using(crate::proofs::OwnedLemmas::no_owner))]
    pub fn owner(&self, socket: u32) -> Option<(HostAddr, &Entry)>
        ensures found { MatchOption result (owner_of socket self.now ≡ None) (λ found. owner_of socket self.now ≡ Some (found.0, found.1.now)) }
        ensures order { AreInOrder self.now }
    {
        let peers = self.as_slice();
        if self.lacks(socket) {
            return None;
        }
        for peer in peers {
            let entries = peer.pair.entries.as_slice();
            if let Some(at) = own_place(entries, socket) {
                return Some((peer.host, &entries[at]));
            }
        }
        None
    }

    /// Returns the first peer that something goes to, and what.
    pub fn first(&self) -> Option<(&Peer, Outgoing)>
        ensures next { MatchOption result (next_in self.now ≡ None) (λ found. next_in self.now ≡ Some (found.0.now, parcel_of found.0.now.pair.entries found.1)) }
        ensures there { IfSome result (λ found. IsThere found.0.now.pair.entries found.1) }
        ensures room { IfSome result (λ found. HasRoom found.0.now.pair.entries found.0.now.pair.queue found.1) }
        ensures order { AreInOrder self.now }
    {
        let at = self.first?;
        let peer = &self.peers[at];
        Some((peer, peer.next()?))
    }

    /// Takes what is known of a peer out, to be changed and put back: its place is kept, so a peer that was
    /// known is put back without memory.
    pub fn take(&mut self, alloc: Global, host: HostAddr) -> Pair
        ensures pair { result ≡ pair_with host self.old }
        ensures known { length self.new ≡ length self.old }
        ensures again { (pair : PairState) → with_pair host pair self.new ≡ with_pair host pair self.old }
    {
        self.owned = Owned::Unknown;
        let opening = Pair::new(alloc);
        let Ok(at) = self.place(host) else {
            return opening;
        };
        self.recent = at;
        let pair = self.peers[at].take(opening);
        self.first = first_due(&self.peers);
        pair
    }

    /// Changes the pair of the peer at a place where it is.
    fn change<R, F: FnOnce(&mut Pair) -> R>(&mut self, at: usize, host: HostAddr, change: F) -> R
        requires callable { F.IsAlwaysCallable change }
        requires there { StandsAt host self.old at }
        ensures { PairChanges host (λ old new. FnOnceReturnsAtMut F.FnOnce change old result new) self.old self.new }
    {
        self.recent = at;
        self.owned = Owned::Unknown;
        let done = self.peers[at].change(change);
        self.first = first_due(&self.peers);
        done
    }

    /// Inserts a host that isn't known, at this place.
    fn insert(&mut self, at: usize, host: HostAddr, pair: Pair) -> Result<(), AllocError>
        requires { IsMissing host self.old at }
        ensures { OnOk result (self.new ≡ placed (record { host = host; pair = pair }) self.old) }
    {
        self.owned = Owned::Unknown;
        self.peers.insert(at, Peer::new(host, pair))?;
        self.first = first_due(&self.peers);
        Ok(())
    }

    /// Removes a host.
    fn remove(&mut self, host: HostAddr)
        ensures { self.new ≡ without_peer host self.old }
    {
        let Ok(at) = self.place(host) else {
            return;
        };
        self.owned = Owned::Unknown;
        let _ = self.peers.remove(at);
        self.first = first_due(&self.peers);
    }

    /// Takes an RFNM on a link of a peer in place, if it frees the link and nothing else comes of it; else changes
    /// nothing.
    pub fn free(&mut self, host: HostAddr, link: u8) -> bool
        ensures quiet { OnTrue result (is_quiet (pair_with host self.old) ≡ true) }
        ensures freed { OnTrue result (self.new ≡ with_pair host (freed link (pair_with host self.old)) self.old) }
        ensures kept { OnFalse result (self.new ≡ self.old) }
    {
        let Ok(at) = self.place(host) else {
            return false;
        };
        let peer = &self.peers[at];
        if !peer.pair.is_quiet() {
            return false;
        }
        self.change(at, host, |pair| pair.free(link));
        true
    }

    /// Queues a command for a peer, and changes its pair in place.
    pub fn command(
        &mut self,
        alloc: Global,
        host: HostAddr,
        command: Command,
    ) -> Result<(), AllocError>
        requires joint { is_alone command ≡ false }
        ensures { OnOk result (self.new ≡ with_pair host (commanded command (pair_with host self.old)) self.old) }
    {
        match self.place(host) {
            Ok(at) => self.change(at, host, |pair| pair.command(command)),
            Err(_) => {
                let mut pair = Pair::new(alloc);
                pair.command(command)?;
                self.put(host, pair)
            }
        }
    }

    /// Adds a new end with a peer, and queues its request, in place.
    pub fn request(
        &mut self,
        host: HostAddr,
        entry: Entry,
        command: Command,
    ) -> Result<(), AllocError>
        requires joint { is_alone command ≡ false }
        requires ready { is_ready (pair_with host self.old).phase ≡ true }
        ensures { OnOk result (self.new ≡ with_pair host (requested entry command (pair_with host self.old)) self.old) }
    {
        let Ok(at) = self.place(host) else {
            unreachable!();
        };
        self.change(at, host, |pair| pair.request(entry, command))
    }

    /// Grants a peer more, and changes its pair in place.
    pub fn grant(
        &mut self,
        alloc: Global,
        host: HostAddr,
        socket: u32,
        messages: u16,
        bits: u32,
        command: Command,
    ) -> Result<(), AllocError>
        requires joint { is_alone command ≡ false }
        ensures { OnOk result (self.new ≡ with_pair host (commanded command (with_end socket (granted messages bits) (pair_with host self.old))) self.old) }
    {
        match self.place(host) {
            Ok(at) => self.change(at, host, |pair| pair.grant(socket, messages, bits, command)),
            Err(_) => {
                let mut pair = Pair::new(alloc);
                pair.grant(socket, messages, bits, command)?;
                self.put(host, pair)
            }
        }
    }

    /// Queues bits of a socket to be sent to a peer, in place; `None` if the peer isn't known or its pair is in the
    /// initial state, and then nothing changes.
    pub fn add_bits(
        &mut self,
        host: HostAddr,
        socket: u32,
        bits: &Bits,
    ) -> Option<Result<(), AllocError>>
        ensures added { IfSome result (λ done. OnOk done (self.new ≡ with_pair host (with_end socket (with_more_bits bits.now) (pair_with host self.old)) self.old)) }
        ensures memory { IfSome result (λ done. OnErr done (0 < length bits.now)) }
        ensures kept { IfNone result (self.new ≡ self.old) }
    {
        let Ok(at) = self.place(host) else {
            return None;
        };
        let peer = &self.peers[at];
        if peer.pair.is_opening() {
            return None;
        }
        Some(self.change(at, host, |pair| pair.add_bits(socket, bits)))
    }

    /// Puts what is known of a peer in. One with a pair in the initial state isn't kept.
    pub fn put(&mut self, host: HostAddr, pair: Pair) -> Result<(), AllocError>
        ensures state { OnOk result (self.new ≡ with_pair host pair self.old) }
        ensures memory { OnErr result (length self.old < length (with_pair host pair self.old)) }
    {
        if pair.is_opening() {
            self.remove(host);
            return Ok(());
        }
        match self.place(host) {
            Ok(at) => {
                self.change(at, host, |old| *old = pair);
                Ok(())
            }
            Err(at) => self.insert(at, host, pair),
        }
    }
}

/// Returns the first place of a peer that something goes to.
fn first_due(peers: &[Peer]) -> Option<usize>
    ensures { result ≡ position has_parcel peers.now }
{
    peers.iter().position(|peer| peer.is_due())
}

/// Returns whether a host is at this place.
fn stands_at(peers: &[Peer], at: usize, host: HostAddr) -> bool
    ensures yes { OnTrue result ((at < length peers.now) × ((d : Peer) → same_host host (slice_index_or peers.now at d).host ≡ true)) }
    ensures no { OnFalse result (at < length peers.now → (d : Peer) → same_host host (slice_index_or peers.now at d).host ≡ false) }
{
    if at >= peers.len() {
        return false;
    }
    let peer = &peers[at];
    host == peer.host
}

/// Returns how many of the peers come before a host.
fn first_from(peers: &[Peer], host: HostAddr) -> usize
    requires { AreInOrder peers.now }
    ensures bound { result ≤ length peers.now }
    ensures parts { IsPartitionPoint (λ p. nat_lt (address_octet p.host) (address_octet host) ≡ true) (λ p. nat_lt (address_octet p.host) (address_octet host) ≡ false) peers.now result }
{
    let octet = host.octet();
    peers.partition_point(|p| p.host.octet() < octet)
}
