//! The requests of lives, and which two are alike.

ghost use Rattle.std.specs.Prelude.{◌≡◌, length, reverse, take};
ghost use Rattle.std.specs.List.{list_all};
ghost use Rattle.net_sim.specs.Inside.Audit as tests;
ghost use Rattle.net_sim.specs.Inside.Audit.{Found};
ghost use Rattle.promise.specs.Safe as safe;

use interface::{Crossing, Flow, HostAddr, Link};
use promise::Life;

/// Returns the flow of requests from one host to another.
pub(super) fn control_flow(source: HostAddr, destination: HostAddr) -> Flow
    ensures { result ≡ safe.control_flow source destination }
{
    Flow {
        source,
        destination,
        link: Link(0),
    }
}

/// Returns where the last message of a flow went out.
fn last_out(flow: Flow, log: &[Crossing]) -> Option<usize>
    ensures { result ≡ safe.last_out flow (reverse log.now) }
{
    let mut at = log.len();
    'back: while at > 0 {
        at -= 1;
        match &log[at] {
            Crossing::Out(out) if out.flow == flow => return Some(at),
            _ => {}
        }
    }
    None
}

/// Returns where the request of a life's partner went out.
pub(super) fn asked_at(log: &[Crossing], life: &Life) -> Option<usize>
    ensures { result ≡ tests.asked_at (reverse log.now) life.now }
{
    let flow = control_flow(life.peer, life.host);
    if life.partner_stamp < log.len() {
        return last_out(flow, &log[..life.partner_stamp]);
    }
    last_out(flow, log)
}

/// Returns whether this is the place.
fn is_place(place: usize, found: Option<usize>) -> bool
    ensures { result ≡ tests.is_place place found }
{
    match found {
        Some(other) => place == other,
        None => false,
    }
}

/// Returns whether the two are one place.
fn same_place(place: Option<usize>, other: Option<usize>) -> bool
    ensures { result ≡ tests.same_place place other }
{
    match place {
        Some(place) => is_place(place, other),
        None => false,
    }
}

/// Returns whether the request of a life's partner, which went out at this place, is another's own.
fn is_asked(asked: Option<usize>, x: &Life, y: &Life) -> bool
    ensures { result ≡ tests.is_asked asked x.now y.now }
{
    x.foreign == y.socket && x.socket == y.foreign && is_place(y.own_stamp, asked)
}

/// Returns whether two lives have the same own request.
fn same_own(x: &Life, y: &Life) -> bool
    ensures { result ≡ tests.same_own x.now y.now }
{
    x.own_stamp == y.own_stamp && x.socket == y.socket && x.foreign == y.foreign
}

/// Returns whether two lives have the same hosts and sockets.
fn same_ends(x: &Life, y: &Life) -> bool
    ensures { result ≡ tests.same_ends x.now y.now }
{
    x.socket == y.socket && x.foreign == y.foreign && x.host == y.host && x.peer == y.peer
}

/// Returns whether two lives have the same partner's request, where that of the second went out at this place.
fn same_asked(log: &[Crossing], asked: Option<usize>, x: &Life, y: &Life) -> bool
    ensures { result ≡ tests.same_asked (reverse log.now) asked x.now y.now }
{
    same_ends(x, y) && same_place(asked_at(log, x), asked)
}

/// Returns whether each of two lives has the other's host and socket for its peer.
fn are_mates(x: &Life, y: &Life) -> bool
    ensures { result ≡ tests.are_mates x.now y.now }
{
    x.foreign == y.socket && x.socket == y.foreign && x.peer == y.host && y.peer == x.host
}

/// Returns whether only one of two is true.
fn differ(one: bool, other: bool) -> bool
    ensures { result ≡ tests.differ one other }
{
    if one { !other } else { other }
}

/// Returns whether only one of two lives has the other's own request for its partner's, where the request of the second
/// one's partner went out at this place.
fn is_one_way(log: &[Crossing], asked: Option<usize>, x: &Life, y: &Life) -> bool
    ensures { result ≡ tests.is_one_way (reverse log.now) asked x.now y.now }
{
    are_mates(x, y)
        && differ(
            is_place(y.own_stamp, asked_at(log, x)),
            is_place(x.own_stamp, asked),
        )
}

/// Returns whether two lives can't both be in one book: they have a request in common, or only one of them has the
/// other for its partner. The request of the second one's partner went out at this place.
pub(super) fn are_at_odds(log: &[Crossing], asked: Option<usize>, x: &Life, y: &Life) -> bool
    ensures { result ≡ tests.are_at_odds (reverse log.now) asked x.now y.now }
{
    same_own(x, y) || same_asked(log, asked, x, y) || is_one_way(log, asked, x, y)
}

/// Returns whether two lives are each other's partners, where the request of the first one's partner is the other's
/// own.
fn is_partner(log: &[Crossing], x: &Life, y: &Life) -> bool
    ensures { result ≡ tests.is_partner (reverse log.now) x.now y.now }
{
    x.peer == y.host && y.peer == x.host && is_asked(asked_at(log, y), y, x)
}

/// Returns whether a receiving life and a sending one match, where the request of the first one's partner went out at
/// this place.
pub(super) fn is_match(log: &[Crossing], asked: Option<usize>, x: &Life, y: &Life) -> bool
    ensures { result ≡ tests.is_match (reverse log.now) asked x.now y.now }
{
    receives(x) && sends(y) && is_asked(asked, x, y) && is_partner(log, x, y)
}

/// Returns the place of the first life that a receiving one matches.
pub(super) fn match_at(log: &[Crossing], lives: &[Life], x: &Life) -> Option<usize>
    ensures { Found (λ n. list_all (tests.is_unmatched (reverse log.now) x.now) (take n lives.now)) (length lives.now) result }
{
    let asked = asked_at(log, x);
    for (place, y) in lives.iter().enumerate() {
        if is_match(log, asked, x, y) {
            return Some(place);
        }
    }
    None
}

/// Returns whether a life receives.
pub(super) fn receives(life: &Life) -> bool
    ensures { result ≡ safe.receives life.now }
{
    life.socket % 2 == 0
}

/// Returns whether a life sends.
pub(super) fn sends(life: &Life) -> bool
    ensures { result ≡ safe.sends life.now }
{
    life.socket % 2 == 1
}
