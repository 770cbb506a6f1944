//! Whether what was taken and sent was granted.

ghost use Rattle.std.specs.Prelude.{◌≡◌, ◌-◌, ◌^◌, ℕ, IfSome, List, MatchBool, length, min, nat_le, reverse, true};
ghost use Rattle.interface.specs.declared.crossing.Crossing.{Crossing};
ghost use Rattle.promise.specs.Safe as safe;
ghost use Rattle.world_keeps_streams.specs.Granted as granted;
ghost use Rattle.book_judge.specs.Inside.Allocations.{AreAllocations, IsWithinOn, WithinAt, capped};
ghost use Rattle.book_judge.specs.Inside.Chains as tests;
ghost use Rattle.book_judge.specs.Inside.Chains.{AreChained, FoundFirst, GrantedAt, HasGranted};

use crate::allocations::{Allocations, nothing};
use crate::data::{flow_of, receives};
use crate::matches::repeats;
use crate::names::Name;
use crate::places::Places;
use crate::sought::{Sought, is_found, is_granted};
use crate::stamps::found_at;
use crate::starts::{Start, start_at};
use net_sim::Life;
use promise::Amount;

/// Returns whether a life has the same requests as an earlier one, if there is one, and granted as much.
fn is_shown(
    asked: &Name,
    life: &Life,
    names: &[Name],
    lives: &[Life],
    earlier: Option<usize>,
) -> bool
    ensures { result ≡ tests.is_shown asked.now life.now names.now lives.now earlier }
{
    let Some(place) = earlier else {
        return false;
    };
    match (names.get(place), lives.get(place)) {
        (Some(b), Some(y)) => {
            repeats(asked, life, b, y) && life.granted == y.granted && life.returned == y.returned
        }
        _ => false,
    }
}

/// Returns whether what a receiving life took is granted, and what was sent to it. An earlier life with its own request, if there is
/// one, is granted all of that: where it granted as much, so is this one.
fn has_granted(
    asked: &Name,
    life: &Life,
    last: &Places,
    before: &[Option<usize>],
    names: &[Name],
    lives: &[Life],
    earlier: Option<usize>,
) -> bool
    requires chained { AreChained (length lives.now) last.now before.now lives.now }
    requires earlier { IfSome earlier (GrantedAt names.now lives.now) }
    ensures { MatchBool result (HasGranted asked.now life.now names.now lives.now) (HasGranted asked.now life.now names.now lives.now → ⊥) }
{
    if !receives(life) {
        return true;
    }
    if !is_granted(life, life.messages, life.bits.len()) {
        return false;
    }
    if is_shown(asked, life, names, lives, earlier) {
        return true;
    }
    !is_found(Sought::Excess, asked, life, last, before, names, lives)
}

/// Returns the place of the first receiving life that granted less than it took, or than was sent to it. These are the requests of
/// the partners of the lives.
pub(crate) fn excess_at(
    last: &Places,
    before: &[Option<usize>],
    names: &[Name],
    lives: &[Life],
) -> Option<usize>
    requires chained { AreChained (length lives.now) last.now before.now lives.now }
    requires counts { length names.now ≡ length lives.now }
    ensures { FoundFirst (GrantedAt names.now lives.now) (length lives.now) result }
{
    for (place, life) in lives.iter().enumerate() {
        let earlier = found_at(before, place);
        if !has_granted(&names[place], life, last, before, names, lives, earlier) {
            return Some(place);
        }
    }
    None
}

/// Returns what ALLs granted to a sending life on a link, of a log with this many crossings: those that its host took after
/// its own request went out, with its partner's or after it.
fn granted_to(allocations: &Allocations, crossed: usize, life: &Life, link: u8) -> Amount
    ensures { (log : List Crossing) → AreAllocations log allocations.now → crossed ≡ length log → safe.sends life.now ≡ true → result ≡ capped (granted.granted_to life.now link (reverse log)) }
{
    if crossed <= life.own_stamp {
        return nothing();
    }
    let from = (life.own_stamp + 1).max(life.partner_stamp);
    allocations.since(&flow_of(life, link), from)
}

/// Returns whether this much is no more than was granted, of which as much is known as there is room for.
fn is_at_most(used: u128, most: u128) -> bool
    ensures { (all : ℕ) → most ≡ min all (2 ^ 128 - 1) → result ≡ nat_le used all }
{
    used <= most
}

/// Returns whether what a life sent is within what ALLs granted to it, if it sends and its link is known. This many crossings
/// are in the log.
fn is_within(allocations: &Allocations, crossed: usize, life: &Life, start: Option<Start>) -> bool
    ensures { (log : List Crossing) → AreAllocations log allocations.now → crossed ≡ length log → MatchBool result (IsWithinOn log life.now start) (IsWithinOn log life.now start → ⊥) }
{
    let Some(start) = start else {
        return true;
    };
    if receives(life) {
        return true;
    }
    let most = granted_to(allocations, crossed, life, start.link);
    if !is_at_most(life.messages, most.messages) {
        return false;
    }
    is_at_most(life.bits.len() as u128, most.bits)
}

/// Returns the place of the first sending life that sent more than ALLs granted to it. These are what they grant in a log with
/// this many crossings, and where the messages of each life begin.
pub(crate) fn beyond_at(
    allocations: &Allocations,
    crossed: usize,
    starts: &[Option<Start>],
    lives: &[Life],
) -> Option<usize>
    ensures { (log : List Crossing) → AreAllocations log allocations.now → crossed ≡ length log → FoundFirst (WithinAt log starts.now lives.now) (length lives.now) result }
{
    for (place, life) in lives.iter().enumerate() {
        if !is_within(allocations, crossed, life, start_at(starts, place)) {
            return Some(place);
        }
    }
    None
}

/// Returns the first of two places, if there is one.
pub(crate) fn first_of(a: Option<usize>, b: Option<usize>) -> Option<usize>
    ensures { result ≡ tests.first_of a b }
{
    match (a, b) {
        (Some(a), Some(b)) => Some(a.min(b)),
        (Some(a), None) => Some(a),
        (None, b) => b,
    }
}
