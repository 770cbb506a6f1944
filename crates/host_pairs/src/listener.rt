//! Sockets that listen: each waits for anybody's request.

ghost use Rattle.std.specs.Prelude.{◌≡◌, ◌++◌, ◌∷◌, ◌-◌, ◌<◌, ◌≤◌, ℕ, [], OnOk, OnErr, IfOk, length, slice_index_or, nat_lt, false, true};
ghost use Rattle.std.specs.BTreeSet.{contains};
ghost use Rattle.std.specs.Bool.{OnFalse, OnTrue};
ghost use Rattle.std.specs.List.Sorted.{IsPartitionPoint};
ghost use Rattle.std.specs.Ordering.{nat_cmp};
ghost use Rattle.host_pairs.specs.Desk.{listener_on, listens_on, without_listener};
ghost use Rattle.host_pairs.specs.Inside.Listening.{AreAscending, AreThese, AreTold};
ghost use Rattle.host_pairs.specs.declared.listener.Listener.{Listener};

use ncp_control::ByteSize;
use std::alloc::{AllocError, Global};
use std::collections::BTreeSet;
use std::marker::Model;

/// A socket that waits for any host's request.
#[derive(Clone, Copy, Debug, PartialEq, Eq)]
pub struct Listener {
    /// The socket that listens.
    pub socket: u32,
    /// The byte size with which it would send.
    pub size: ByteSize,
}

/// The sockets of a host that listen, the oldest first.
///
/// While they come in order of their numbers, one is searched for among them by halves. Once one comes that is lower than the last, a
/// set of their numbers says whether one listens. So that is found quickly however many there are.
#[derive(Drop)]
pub struct Listeners {
    listening: Vec<Listener>,
    sockets: Option<BTreeSet<u32>>,
    alloc: Global,
}

impl Model for Listeners {
    ghost use Rattle.std.specs.Prelude.{List};
    ghost use Rattle.host_pairs.specs.Inside.Listening.{AreTold};
    ghost use Rattle.host_pairs.specs.declared.listener.Listener.{Listener};

    ghost Value = { List Listener };

    ghost view = { λ l. l.listening.items };

    ghost invariant = { λ l. AreTold l.sockets l.listening.items };
}

impl Listeners {
    /// Returns no listening sockets.
    pub fn new(alloc: Global) -> Listeners
        ensures { result ≡ [] }
    {
        Listeners {
            listening: Vec::new(alloc),
            sockets: None,
            alloc,
        }
    }

    /// Returns the sockets that listen, the oldest first.
    pub fn as_slice(&self) -> &[Listener]
        ensures { result.now ≡ self.now }
    {
        &self.listening
    }

    /// Adds a listening socket after the others.
    pub fn push(&mut self, listener: Listener) -> Result<(), AllocError>
        ensures { OnOk result (self.new ≡ self.old ++ listener ∷ []) }
    {
        let alloc = self.alloc;
        self.listening.reserve(1)?;
        learn(alloc, &self.listening, &mut self.sockets, &listener)?;
        self.listening.push_reserved(listener);
        Ok(())
    }
}

/// Returns the numbers of these sockets.
fn numbers_of(alloc: Global, listening: &[Listener]) -> Result<BTreeSet<u32>, AllocError>
    ensures { IfOk result (λ sockets. AreThese sockets listening.now) }
{
    let mut sockets = BTreeSet::new(alloc);
    for listener in listening {
        sockets.insert(listener.socket)?;
    }
    Ok(sockets)
}

/// Returns the numbers of these sockets and of one more.
fn numbers_with(
    alloc: Global,
    listening: &[Listener],
    listener: &Listener,
) -> Result<BTreeSet<u32>, AllocError>
    ensures { IfOk result (λ sockets. AreThese sockets (listening.now ++ listener.now ∷ [])) }
{
    let mut sockets = numbers_of(alloc, listening)?;
    sockets.insert(listener.socket)?;
    Ok(sockets)
}

/// Adds a listening socket after these, and to the set of their numbers if it is kept.
fn learn(
    alloc: Global,
    listening: &[Listener],
    sockets: &mut Option<BTreeSet<u32>>,
    listener: &Listener,
) -> Result<(), AllocError>
    requires { AreTold sockets.old listening.now }
    ensures told { OnOk result (AreTold sockets.new (listening.now ++ listener.now ∷ [])) }
    ensures kept { OnErr result (AreTold sockets.new listening.now) }
{
    if let Some(sockets) = sockets {
        sockets.insert(listener.socket)?;
    } else if !is_above(listening, listener.socket) {
        *sockets = Some(numbers_with(alloc, listening, listener)?);
    }
    Ok(())
}

/// Returns whether a number is greater than that of the last of these.
fn is_above(listening: &[Listener], socket: u32) -> bool
    ensures { OnTrue result ((d : Listener) → 0 < length listening.now → (slice_index_or listening.now (length listening.now - 1) d).socket < socket) }
{
    match listening.last() {
        Some(last) => last.socket < socket,
        None => true,
    }
}

/// Returns how many of these come before a socket.
fn first_from(listening: &[Listener], socket: u32) -> usize
    requires { AreAscending listening.now }
    ensures bound { result ≤ length listening.now }
    ensures parts { IsPartitionPoint (λ l. nat_lt l.socket socket ≡ true) (λ l. nat_lt l.socket socket ≡ false) listening.now result }
{
    listening.partition_point(|l| l.socket < socket)
}

/// Returns whether a socket is at this place.
fn stands_at(listening: &[Listener], at: usize, socket: u32) -> bool
    ensures yes { OnTrue result ((at < length listening.now) × ((d : Listener) → (slice_index_or listening.now at d).socket ≡ socket)) }
    ensures no { OnFalse result (at < length listening.now → (d : Listener) → (slice_index_or listening.now at d).socket ≡ socket → ⊥) }
{
    if at >= listening.len() {
        return false;
    }
    listening[at].socket == socket
}

/// Returns whether a socket is one of these, which ascend. Sockets often come in order of their numbers, so one that is
/// greater than all is not searched for.
fn stands_among(listening: &[Listener], socket: u32) -> bool
    requires { AreAscending listening.now }
    ensures { result ≡ listens_on socket listening.now }
{
    if is_above(listening, socket) {
        return false;
    }
    stands_at(listening, first_from(listening, socket), socket)
}

/// Returns the first of these on a socket.
fn first_on(listening: &[Listener], socket: u32) -> Option<Listener>
    ensures { result ≡ listener_on socket listening.now }
{
    listening.iter().copied().find(|l| l.socket == socket)
}

/// Returns the listener on a socket.
pub(crate) fn listener_on(listening: &Listeners, socket: u32) -> Option<Listener>
    ensures { result ≡ listener_on socket listening.now }
{
    if !listens_on(listening, socket) {
        return None;
    }
    first_on(&listening.listening, socket)
}

/// Returns whether a socket listens.
pub fn listens_on(listening: &Listeners, socket: u32) -> bool
    ensures { result ≡ listens_on socket listening.now }
{
    match &listening.sockets {
        Some(sockets) => is_one_of(sockets, socket),
        None => stands_among(&listening.listening, socket),
    }
}

/// Returns whether a number is one of these. One that is greater than all is not searched for.
#[tactic(auto, using(crate::proofs::ListenerLemmas::beyond_last))]
fn is_one_of(sockets: &BTreeSet<u32>, socket: u32) -> bool
    ensures { result ≡ contains nat_cmp sockets.now socket }
{
    match sockets.last() {
        Some(last) if *last < socket => false,
        _ => sockets.contains(&socket),
    }
}

/// Makes a socket stop listening.
pub fn stop_listening(listening: &mut Listeners, socket: u32)
    ensures { listening.new ≡ without_listener socket listening.old }
{
    forget(&listening.listening, &mut listening.sockets, socket);
    remove(&mut listening.listening, socket);
}

/// Removes a socket from the set of the numbers, if it is kept.
fn forget(listening: &[Listener], sockets: &mut Option<BTreeSet<u32>>, socket: u32)
    requires { AreTold sockets.old listening.now }
    ensures { AreTold sockets.new (without_listener socket listening.now) }
{
    if let Some(sockets) = sockets {
        sockets.remove(&socket);
    }
}

/// Removes those on a socket.
fn remove(listening: &mut Vec<Listener>, socket: u32)
    ensures { listening.new.items ≡ without_listener socket listening.old.items }
{
    listening.retain(|l| l.socket != socket);
}
