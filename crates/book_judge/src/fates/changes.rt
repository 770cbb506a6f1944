//! What changes lives: each deed after which some are over, or are asked for.

ghost use Rattle.std.specs.Prelude.{◌≡◌, ◌++◌, ◌∷◌, [], IfOk, OnOk};
ghost use Rattle.std.specs.List.{filter};
ghost use Rattle.book_judge.specs.Inside.Changes as tests;

use super::deeds::{Act, Deed};
use crate::flow_map::FlowMap;
use crate::lives::control_flow;
use interface::{Flow, HostAddr};
use std::alloc::{AllocError, Global};

/// What a deed is to lives of its host.
#[derive(Clone, Copy, Drop)]
pub(super) enum Turn {
    /// The request of two sockets, its sender's own and the foreign one. Its host takes it, or else sends it.
    Asks { comes: bool, own: u32, foreign: u32 },
    /// The CLS of them.
    Closes { comes: bool, own: u32, foreign: u32 },
    /// All its connections with the peer are dropped.
    Drops,
    /// It stops.
    Stops,
}

/// What changes lives of a host, where it crossed.
#[derive(Clone, Copy, Drop)]
pub(super) struct Change {
    pub place: usize,
    pub host: HostAddr,
    pub peer: HostAddr,
    pub turn: Turn,
}

/// Which hosts owe which peers an RRP. Deeds are counted from 1.
#[derive(Drop)]
struct Owed {
    /// The last RST that a host took from a peer, and 0 once it has sent the RRP.
    resets: FlowMap<usize>,
    /// Where a host stopped or started last.
    restarts: FlowMap<usize>,
}

/// Returns the number that is known of a flow, and else 0.
pub(super) fn number_at(numbers: &FlowMap<usize>, flow: &Flow) -> usize
    ensures { result ≡ tests.number_at numbers.now flow.now }
{
    numbers.get(flow).unwrap_or(0)
}

impl Owed {
    /// Returns that no host owes anything.
    fn new(alloc: Global) -> Owed
        ensures { result ≡ tests.nothing_owed }
    {
        Owed {
            resets: FlowMap::new(alloc),
            restarts: FlowMap::new(alloc),
        }
    }

    /// Returns whether a host owes a peer an RRP.
    fn owes(&self, host: HostAddr, peer: HostAddr) -> bool
        ensures { result ≡ tests.owes self.now host peer }
    {
        let restart = number_at(&self.restarts, &control_flow(host, host));
        let reset = number_at(&self.resets, &control_flow(host, peer));
        restart < reset
    }

    /// Lets a deed change that, which is the one with this number.
    ///
    /// Errors: `AllocError`.
    fn note(&mut self, number: usize, deed: &Deed) -> Result<(), AllocError>
        ensures { OnOk result (self.new ≡ tests.owed_once number deed.now self.old) }
    {
        match deed.act {
            Act::Resets { comes: true } => self
                .resets
                .set(control_flow(deed.host, deed.peer), number),
            Act::Replies => self.resets.set(control_flow(deed.host, deed.peer), 0),
            Act::Stops | Act::Starts => self
                .restarts
                .set(control_flow(deed.host, deed.host), number),
            _ => Ok(()),
        }
    }
}

/// Returns what an act is to lives, where an RRP is owed or none is; `None` where it changes none. An RST drops all
/// connections with the peer, and so does an RRP that isn't owed, and a message that fails where none is owed
/// (NIC 8246, RST and RRP).
fn turn_of(act: Act, owes: bool) -> Option<Turn>
    ensures { result ≡ tests.turn_of act owes }
{
    match act {
        Act::Asks {
            comes,
            own,
            foreign,
        } => Some(Turn::Asks {
            comes,
            own,
            foreign,
        }),
        Act::Closes {
            comes,
            own,
            foreign,
        } => Some(Turn::Closes {
            comes,
            own,
            foreign,
        }),
        Act::Resets { .. } => Some(Turn::Drops),
        Act::Replies | Act::Fails if !owes => Some(Turn::Drops),
        Act::Stops => Some(Turn::Stops),
        _ => None,
    }
}

/// Puts a change at the end, if the deed is one.
///
/// Errors: `AllocError`.
fn push_turn(changes: &mut Vec<Change>, deed: &Deed, turn: Option<Turn>) -> Result<(), AllocError>
    ensures { OnOk result (changes.new.items ≡ changes.old.items ++ tests.with_turn deed.now turn []) }
{
    if let Some(turn) = turn {
        changes.push(Change {
            place: deed.place,
            host: deed.host,
            peer: deed.peer,
            turn,
        })?;
    }
    Ok(())
}

/// Returns all that changes lives, the oldest first.
///
/// Errors: `AllocError`.
pub(super) fn changes_of(alloc: Global, deeds: &[Deed]) -> Result<Vec<Change>, AllocError>
    ensures { IfOk result (λ changes. changes.items ≡ tests.changes_in tests.owes_never deeds.now) }
{
    let mut changes = Vec::new(alloc);
    let mut owed = Owed::new(alloc);
    for (place, deed) in deeds.iter().enumerate() {
        let owes = owed.owes(deed.host, deed.peer);
        push_turn(&mut changes, deed, turn_of(deed.act, owes))?;
        owed.note(place + 1, deed)?;
    }
    Ok(changes)
}

/// Returns whether a change is another than a CLS.
fn opens(change: &Change) -> bool
    ensures { result ≡ tests.opens change.now }
{
    !matches!(change.turn, Turn::Closes { .. })
}

/// Returns all changes but CLS.
///
/// Errors: `AllocError`.
pub(super) fn but_closes(alloc: Global, changes: &[Change]) -> Result<Vec<Change>, AllocError>
    ensures { IfOk result (λ rest. rest.items ≡ filter tests.opens changes.now) }
{
    let mut rest = Vec::new(alloc);
    for change in changes {
        if opens(change) {
            rest.push(*change)?;
        }
    }
    Ok(rest)
}
