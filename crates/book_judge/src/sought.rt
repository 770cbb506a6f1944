//! Going through the lives that a receiving one may match.

ghost use Rattle.std.specs.Prelude.{◌≡◌, ◌+◌, ℕ, MatchBool, length, nat_le};
ghost use Rattle.book_judge.specs.Inside.Chains as tests;
ghost use Rattle.book_judge.specs.Inside.Chains.{AreChained, LosesOf, Meets, SoughtAt, TookAll};

use crate::bits::{is_prefix, same_bits};
use crate::matches::fits;
use crate::names::Name;
use crate::places::Places;
use crate::stamps::found_at;
use crate::starts::{Start, Taking, counts_at};
use net_sim::{BitLog, Life};

/// What is looked for among the lives that a receiving one matches.
#[derive(Clone, Copy)]
pub(crate) enum Sought<'a> {
    /// One that sent what the receiving one took.
    Source,
    /// One that sent more than the receiving one granted.
    Excess,
    /// One of which the receiving one lost something. These lists are what was handed over in each life.
    Loss(&'a [BitLog]),
    /// One that counts this message as the receiving one does. This is where the messages of each life begin.
    Sender(&'a [Option<Start>], Taking),
}

/// Returns whether this much, with what was returned, is no more than what was granted.
fn is_within(used: u128, returned: u128, granted: u128) -> bool
    ensures { result ≡ nat_le (used + returned) granted }
{
    returned <= granted && used <= granted - returned
}

/// Returns whether this many messages and bits, with what was returned, are no more than what a receiving life granted.
pub(crate) fn is_granted(life: &Life, messages: u128, bits: usize) -> bool
    ensures { result ≡ tests.is_granted life.now messages bits }
{
    is_within(messages, life.returned.messages, life.granted.messages)
        && is_within(bits as u128, life.returned.bits, life.granted.bits)
}

/// Returns whether a life took all that another sent, and all that was handed over there.
fn took_all(life: &Life, other: &Life, handed: &BitLog) -> bool
    ensures { MatchBool result (TookAll life.now other.now handed.now) (TookAll life.now other.now handed.now → ⊥) }
{
    if life.messages != other.messages {
        return false;
    }
    if !same_bits(&life.bits, &other.bits) {
        return false;
    }
    same_bits(&life.bits, handed)
}

/// Returns whether a life lost something that the one at a place sent, or that was handed over there.
fn loses(life: &Life, other: &Life, handed: &[BitLog], place: usize) -> bool
    ensures { MatchBool result (LosesOf life.now other.now handed.now place) (LosesOf life.now other.now handed.now place → ⊥) }
{
    match handed.get(place) {
        Some(handed) => !took_all(life, other, handed),
        None => false,
    }
}

/// Returns whether the life at a place is what is looked for, where it matches a receiving one.
fn meets(sought: Sought<'_>, life: &Life, other: &Life, place: usize) -> bool
    ensures { MatchBool result (Meets sought.entry life.now other.now place) (Meets sought.entry life.now other.now place → ⊥) }
{
    match sought {
        Sought::Source => is_prefix(&life.bits, &other.bits),
        Sought::Excess => !is_granted(life, other.messages, other.bits.len()),
        Sought::Loss(handed) => loses(life, other, handed, place),
        Sought::Sender(starts, taking) => counts_at(starts, other, taking, place),
    }
}

/// Returns whether the life at a place matches a receiving one, and is what is looked for.
fn is_at(
    sought: Sought<'_>,
    asked: &Name,
    life: &Life,
    names: &[Name],
    lives: &[Life],
    place: usize,
) -> bool
    ensures { MatchBool result (SoughtAt sought.entry asked.now life.now names.now lives.now place) (SoughtAt sought.entry asked.now life.now names.now lives.now place → ⊥) }
{
    let (Some(b), Some(y)) = (names.get(place), lives.get(place)) else {
        return false;
    };
    fits(asked, life, b, y) && meets(sought, life, y, place)
}

/// Returns whether some life matches a receiving one, and is what is looked for.
pub(crate) fn is_found(
    sought: Sought<'_>,
    asked: &Name,
    life: &Life,
    last: &Places,
    before: &[Option<usize>],
    names: &[Name],
    lives: &[Life],
) -> bool
    requires { AreChained (length lives.now) last.now before.now lives.now }
    ensures { MatchBool result ((i : ℕ) × SoughtAt sought.entry asked.now life.now names.now lives.now i) ((i : ℕ) → SoughtAt sought.entry asked.now life.now names.now lives.now i → ⊥) }
{
    let mut at = last.get(asked.key());
    'chain: while let Some(place) = at {
        if is_at(sought, asked, life, names, lives, place) {
            return true;
        }
        at = found_at(before, place);
    }
    false
}
