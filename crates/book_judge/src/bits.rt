//! Whether lists of bits are alike.

ghost use Rattle.std.specs.Prelude.{◌≡◌, MatchBool};
ghost use Rattle.promise.specs.Safe.{IsPrefix};
ghost use Rattle.book_judge.specs.Inside.Made.{IsSlice};

use crate::data::same_found;
use bit_messages::Bits;
use net_sim::BitLog;

/// Returns whether the first list is a prefix of the second.
pub(crate) fn is_prefix(bits: &BitLog, other: &BitLog) -> bool
    ensures { MatchBool result (IsPrefix bits.now other.now) (IsPrefix bits.now other.now → ⊥) }
{
    for i in 0..bits.len() {
        if !same_found(bits.get(i), other.get(i)) {
            return false;
        }
    }
    true
}

/// Returns whether two lists are the same.
pub(crate) fn same_bits(bits: &BitLog, other: &BitLog) -> bool
    ensures { MatchBool result (bits.now ≡ other.now) (bits.now ≡ other.now → ⊥) }
{
    if bits.len() != other.len() {
        return false;
    }
    is_prefix(bits, other)
}

/// Returns whether the bits of a text from a place on up to another are these.
pub(crate) fn is_slice(bits: &BitLog, text: &Bits, from: usize, to: usize) -> bool
    ensures { MatchBool result (IsSlice bits.now text.now from to) (IsSlice bits.now text.now from to → ⊥) }
{
    if from > to || to > text.len() || to - from != bits.len() {
        return false;
    }
    for i in 0..bits.len() {
        if !same_found(text.get(from + i), bits.get(i)) {
            return false;
        }
    }
    true
}
