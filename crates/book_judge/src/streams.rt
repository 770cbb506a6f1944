//! Whether what was taken was sent, and what was sent was handed over.

ghost use Rattle.std.specs.Prelude.{◌≡◌, MatchBool, length};
ghost use Rattle.book_judge.specs.Inside.Chains.{AreChained, FedAt, FoundFirst, IsHanded, IsSourced};

use crate::bits::is_prefix;
use crate::data::receives;
use crate::matches::sends;
use crate::names::Name;
use crate::places::Places;
use crate::sought::{Sought, is_found};
use net_sim::{BitLog, Life};

/// Returns whether a life took nothing, or what one that it matches sent.
fn is_sourced(
    asked: &Name,
    life: &Life,
    last: &Places,
    before: &[Option<usize>],
    names: &[Name],
    lives: &[Life],
) -> bool
    requires { AreChained (length lives.now) last.now before.now lives.now }
    ensures { MatchBool result (IsSourced asked.now life.now names.now lives.now) (IsSourced asked.now life.now names.now lives.now → ⊥) }
{
    if !receives(life) {
        return true;
    }
    if life.bits.len() == 0 {
        return true;
    }
    is_found(Sought::Source, asked, life, last, before, names, lives)
}

/// Returns whether what a life sent was handed over.
pub(crate) fn is_handed(life: &Life, handed: &BitLog) -> bool
    ensures { MatchBool result (IsHanded life.now handed.now) (IsHanded life.now handed.now → ⊥) }
{
    if !sends(life) {
        return true;
    }
    is_prefix(&life.bits, handed)
}

/// Returns the place of the first life that took something else than was sent, or sent something else than was handed over in
/// it. These are the requests of the partners of the lives, and what was handed over in them.
pub(crate) fn unfed_at(
    last: &Places,
    before: &[Option<usize>],
    names: &[Name],
    lives: &[Life],
    handed: &[BitLog],
) -> Option<usize>
    requires chained { AreChained (length lives.now) last.now before.now lives.now }
    requires counts { (length names.now ≡ length lives.now) × (length handed.now ≡ length lives.now) }
    ensures { FoundFirst (FedAt names.now lives.now handed.now) (length lives.now) result }
{
    for (place, life) in lives.iter().enumerate() {
        if !is_sourced(&names[place], life, last, before, names, lives) {
            return Some(place);
        }
        if !is_handed(life, &handed[place]) {
            return Some(place);
        }
    }
    None
}
