//! How far a life comes that begins with a request.

ghost use Rattle.std.specs.Prelude.{◌≡◌, [], IfOk, OnOk, false, if◌then◌else◌, nat_lt, true};
ghost use Rattle.book_judge.specs.Inside.Begins as tests;
ghost use Rattle.book_judge.specs.Inside.Begins.{IsAhead};
ghost use Rattle.book_judge.specs.declared.fates.begins.Reached.TheVariants as reached;

use super::changes::{Change, Turn, number_at};
use super::key_map::{Key, KeyMap};
use crate::flow_map::FlowMap;
use crate::lives::control_flow;
use interface::HostAddr;
use std::alloc::{AllocError, Global};

/// How far a life is in the end. Where it is over, `rest` changes are left with the one that ended it.
#[derive(Clone, Copy, Drop)]
pub(super) enum Reached {
    /// It continues: which of its two CLS have crossed.
    Going { own: bool, partner: bool },
    /// It is over: all connections with its peer were dropped.
    Dropped { rest: usize },
    /// It is over: its host stopped.
    Stopped { rest: usize },
    /// It is over: both CLS crossed, its host's own first or its partner's.
    Closed { own_first: bool, rest: usize },
}

/// What comes first after a request of what may end a life with its sockets: its own CLS, its partner's, that its
/// connections are dropped, and that its host stops. Of each it is how many changes are left from it on, and 0 where it
/// doesn't come.
#[derive(Clone, Copy, Drop)]
pub(super) struct Firsts {
    own: usize,
    partner: usize,
    drop: usize,
    stop: usize,
}

/// A request.
#[derive(Clone, Copy, Drop)]
pub(super) struct Begin {
    /// How many changes are left with it: of two the one that crossed later has fewer.
    rest: usize,
    /// What comes first after it.
    firsts: Firsts,
}

/// What is known of a life that has begun.
#[derive(Clone, Copy, Drop)]
pub(super) struct Known {
    /// How far it is in the end.
    pub reached: Reached,
    /// Whether something that ends lives came between its two requests.
    pub early: bool,
}

/// What comes first after some changes of all that are left: how many are left from it on, and 0 where it doesn't come.
#[derive(Drop)]
pub(super) struct Ahead {
    closes: KeyMap<usize>,
    drops: FlowMap<usize>,
    stops: FlowMap<usize>,
    begins: KeyMap<Begin>,
}

/// Returns the key of a CLS, or at a place that of a request.
pub(super) fn key(
    place: usize,
    host: HostAddr,
    peer: HostAddr,
    comes: bool,
    own: u32,
    foreign: u32,
) -> Key
    ensures { result ≡ tests.key place host peer comes own foreign }
{
    Key {
        place,
        host,
        peer,
        comes,
        own,
        foreign,
    }
}

/// Returns how far a life comes whose second request comes before this.
fn reached_by(firsts: &Firsts) -> Reached
    ensures { result ≡ tests.reached_from firsts.now }
{
    let Firsts {
        own,
        partner,
        drop,
        stop,
    } = *firsts;
    let own_comes = drop < own && stop < own;
    let partner_comes = drop < partner && stop < partner;
    if own_comes && partner_comes {
        return closed_by(own, partner);
    }
    if stop < drop {
        return Reached::Dropped { rest: drop };
    }
    if 0 < stop {
        return Reached::Stopped { rest: stop };
    }
    Reached::Going {
        own: own_comes,
        partner: partner_comes,
    }
}

/// Returns how far a life comes both of whose CLS cross: the less is left, the later it crosses.
fn closed_by(own: usize, partner: usize) -> Reached
    ensures { result ≡ (if nat_lt partner own then reached.Closed true partner else reached.Closed false own) }
{
    if partner < own {
        return Reached::Closed {
            own_first: true,
            rest: partner,
        };
    }
    Reached::Closed {
        own_first: false,
        rest: own,
    }
}

/// Returns whether something that ends lives comes before the change with which this many are left.
fn ends_before(rest: usize, firsts: &Firsts) -> bool
    ensures { result ≡ tests.ends_before rest firsts.now }
{
    let Firsts {
        own,
        partner,
        drop,
        stop,
    } = *firsts;
    rest < own || (rest < partner || (rest < drop || rest < stop))
}

/// Returns what is known of a life by its two requests, of which this one crossed first.
fn known_two(first: &Begin, second: &Begin) -> Known
    ensures { result ≡ tests.known_two first.now second.now }
{
    Known {
        reached: reached_by(&second.firsts),
        early: ends_before(second.rest, &first.firsts),
    }
}

/// Returns what is known of a life by its own request and its partner's; `None` where one of them didn't cross.
pub(super) fn known_by(own: Option<Begin>, partner: Option<Begin>) -> Option<Known>
    ensures { result ≡ tests.known_by own partner }
{
    let (Some(own), Some(partner)) = (own, partner) else {
        return None;
    };
    if own.rest < partner.rest {
        Some(known_two(&partner, &own))
    } else {
        Some(known_two(&own, &partner))
    }
}

impl Ahead {
    /// Returns what comes where nothing is left.
    fn new(alloc: Global) -> Ahead
        ensures { IsAhead [] result }
    {
        Ahead {
            closes: KeyMap::new(alloc),
            drops: FlowMap::new(alloc),
            stops: FlowMap::new(alloc),
            begins: KeyMap::new(alloc),
        }
    }

    /// Returns how many changes are left from a CLS on.
    fn closed(&self, key: &Key) -> usize
        ensures { result ≡ tests.closed_at self.now.closes key.now }
    {
        self.closes.get(key).unwrap_or(0)
    }

    /// Returns what comes first of what may end a life with these sockets.
    fn firsts(&self, host: HostAddr, peer: HostAddr, socket: u32, foreign: u32) -> Firsts
        ensures { result ≡ tests.firsts_at self.now host peer socket foreign }
    {
        Firsts {
            own: self.closed(&key(0, host, peer, false, socket, foreign)),
            partner: self.closed(&key(0, host, peer, true, foreign, socket)),
            drop: number_at(&self.drops, &control_flow(host, peer)),
            stop: number_at(&self.stops, &control_flow(host, host)),
        }
    }

    /// Returns what comes first of what may end a life with this request.
    fn firsts_by(&self, key: &Key) -> Firsts
        ensures { result ≡ tests.firsts_by self.now key.now }
    {
        if key.comes {
            self.firsts(key.host, key.peer, key.foreign, key.own)
        } else {
            self.firsts(key.host, key.peer, key.own, key.foreign)
        }
    }

    /// Lets a change come first, with which as many as this are left.
    ///
    /// Errors: `AllocError`.
    fn note(&mut self, rest: usize, change: &Change) -> Result<(), AllocError>
        ensures { OnOk result (self.new ≡ tests.ahead_once rest change.now self.old) }
    {
        let Change {
            place,
            host,
            peer,
            turn,
        } = *change;
        match turn {
            Turn::Asks {
                comes,
                own,
                foreign,
            } => {
                let key = key(place, host, peer, comes, own, foreign);
                let firsts = self.firsts_by(&key);
                self.begins.set(key, Begin { rest, firsts })
            }
            Turn::Closes {
                comes,
                own,
                foreign,
            } => self
                .closes
                .set(key(0, host, peer, comes, own, foreign), rest),
            Turn::Drops => self.drops.set(control_flow(host, peer), rest),
            Turn::Stops => self.stops.set(control_flow(host, host), rest),
        }
    }

    /// Returns the request that crossed at a place.
    pub(super) fn begin(&self, key: &Key) -> Option<Begin>
        ensures { result ≡ tests.begin_at self.now key.now }
    {
        self.begins.get(key)
    }
}

/// Returns what comes first of all changes, the oldest first.
///
/// Errors: `AllocError`.
pub(super) fn ahead_of(alloc: Global, changes: &[Change]) -> Result<Ahead, AllocError>
    ensures { IfOk result (λ ahead. IsAhead changes.now ahead) }
{
    let mut ahead = Ahead::new(alloc);
    let mut place = changes.len();
    'changes: while place > 0 {
        place -= 1;
        ahead.note(changes.len() - place, &changes[place])?;
    }
    Ok(ahead)
}
