//! Whether a life that its partner ended took all that was sent to it.

ghost use Rattle.std.specs.Bool.{OnTrue};
ghost use Rattle.std.specs.Prelude.{◌≡◌, ◌<◌, ℕ, MatchBool, Some, length, slice_get};
ghost use Rattle.promise.specs.declared.life.Fate.TheVariants as fate;
ghost use Rattle.book_judge.specs.Inside.Chains.{AgainAt, AreChained, ClosedAt, FoundFirst, HasTaken};

use crate::bits::same_bits;
use crate::data::receives;
use crate::matches::repeats;
use crate::names::Name;
use crate::places::Places;
use crate::sought::{Sought, is_found};
use crate::stamps::found_at;
use net_sim::{BitLog, Life};
use promise::Fate;

/// Returns whether the life at a place was ended by its partner.
fn is_ended(fates: &[Fate], place: usize) -> bool
    ensures { MatchBool result (slice_get fates.now place ≡ Some fate.Ended) (slice_get fates.now place ≡ Some fate.Ended → ⊥) }
{
    match fates.get(place) {
        Some(fate) => *fate == Fate::Ended,
        None => false,
    }
}

/// Returns whether a life has the requests, the messages and the bits of an earlier one that its partner ended, if there is one.
fn is_again(
    asked: &Name,
    life: &Life,
    names: &[Name],
    lives: &[Life],
    fates: &[Fate],
    earlier: usize,
) -> bool
    ensures { OnTrue result (AgainAt asked.now life.now names.now lives.now fates.now earlier) }
{
    let (Some(b), Some(y)) = (names.get(earlier), lives.get(earlier)) else {
        return false;
    };
    is_ended(fates, earlier)
        && repeats(asked, life, b, y)
        && life.messages == y.messages
        && same_bits(&life.bits, &y.bits)
}

/// Returns whether a receiving life took all that was sent to it, and handed over there.
fn has_taken(
    asked: &Name,
    life: &Life,
    last: &Places,
    before: &[Option<usize>],
    names: &[Name],
    lives: &[Life],
    handed: &[BitLog],
) -> bool
    requires { AreChained (length lives.now) last.now before.now lives.now }
    ensures { MatchBool result (HasTaken asked.now life.now names.now lives.now handed.now) (HasTaken asked.now life.now names.now lives.now handed.now → ⊥) }
{
    if !receives(life) {
        return true;
    }
    !is_found(
        Sought::Loss(handed),
        asked,
        life,
        last,
        before,
        names,
        lives,
    )
}

/// Returns whether the life at a place lost nothing, where its partner ended it. Those before it lost nothing: so where an earlier one
/// has its own request, and was ended by its partner with the same bits, this one lost nothing either.
fn is_whole(
    last: &Places,
    before: &[Option<usize>],
    names: &[Name],
    lives: &[Life],
    handed: &[BitLog],
    fates: &[Fate],
    place: usize,
) -> bool
    requires chained { AreChained (length lives.now) last.now before.now lives.now }
    requires counts { length names.now ≡ length lives.now }
    requires place { place < length lives.now }
    requires earlier { (i : ℕ) → i < place → ClosedAt names.now lives.now handed.now fates.now i }
    ensures { MatchBool result (ClosedAt names.now lives.now handed.now fates.now place) (ClosedAt names.now lives.now handed.now fates.now place → ⊥) }
{
    if !is_ended(fates, place) {
        return true;
    }
    let (asked, life) = (&names[place], &lives[place]);
    if let Some(earlier) = found_at(before, place) {
        if is_again(asked, life, names, lives, fates, earlier) {
            return true;
        }
    }
    has_taken(asked, life, last, before, names, lives, handed)
}

/// Returns the place of the first life that its partner ended, and that lost anything that was sent to it, or handed over there. These are the
/// requests of the partners of the lives, what was handed over in them, and their fates.
pub(crate) fn lost_at(
    last: &Places,
    before: &[Option<usize>],
    names: &[Name],
    lives: &[Life],
    handed: &[BitLog],
    fates: &[Fate],
) -> Option<usize>
    requires chained { AreChained (length lives.now) last.now before.now lives.now }
    requires counts { length names.now ≡ length lives.now }
    ensures { FoundFirst (ClosedAt names.now lives.now handed.now fates.now) (length lives.now) result }
{
    for place in 0..lives.len() {
        if !is_whole(last, before, names, lives, handed, fates, place) {
            return Some(place);
        }
    }
    None
}
