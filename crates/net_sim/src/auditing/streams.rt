//! Whether what was taken was sent, and what was sent was handed over.

ghost use Rattle.std.specs.Prelude.{◌≡◌, length, reverse, slice_get};
ghost use Rattle.std.specs.List.{list_any};
ghost use Rattle.net_sim.specs.Inside.Audit as tests;
ghost use Rattle.net_sim.specs.Inside.Audit.{Found};

use super::requests::{asked_at, is_match, receives, sends};
use interface::Crossing;
use promise::{BitLog, Life};

/// Returns whether there are two bits, and they are alike.
fn same_found(bit: Option<bool>, other: Option<bool>) -> bool
    ensures { result ≡ tests.same_found bit other }
{
    match (bit, other) {
        (Some(bit), Some(other)) => bit == other,
        (Some(_), None) | (None, _) => false,
    }
}

/// Returns whether the first list is a prefix of the second.
fn is_prefix(bits: &BitLog, other: &BitLog) -> bool
    ensures { result ≡ tests.is_prefix bits.now other.now }
{
    for i in 0..bits.len() {
        if !same_found(bits.get(i), other.get(i)) {
            return false;
        }
    }
    true
}

/// Returns whether the second life matches the first, and sent what that one took.
fn is_source(log: &[Crossing], asked: Option<usize>, x: &Life, y: &Life) -> bool
    ensures { result ≡ tests.is_source (reverse log.now) asked x.now y.now }
{
    is_match(log, asked, x, y) && is_prefix(&x.bits, &y.bits)
}

/// Returns whether a life matches this one, and sent what this one took.
fn has_source(log: &[Crossing], lives: &[Life], x: &Life) -> bool
    ensures { result ≡ list_any (tests.is_source (reverse log.now) (tests.asked_at (reverse log.now) x.now) x.now) lives.now }
{
    let asked = asked_at(log, x);
    for y in lives {
        if is_source(log, asked, x, y) {
            return true;
        }
    }
    false
}

/// Returns whether a life took nothing, or what the one that it matches sent.
fn is_fed(log: &[Crossing], lives: &[Life], x: &Life) -> bool
    ensures { result ≡ tests.is_fed (reverse log.now) lives.now x.now }
{
    !receives(x) || x.bits.len() == 0 || has_source(log, lives, x)
}

/// Returns whether what a life sent was handed over.
fn is_handed(x: &Life, handed: &BitLog) -> bool
    ensures { result ≡ tests.is_handed x.now handed.now }
{
    !sends(x) || is_prefix(&x.bits, handed)
}

/// Returns whether what a life sent was handed over at its place, where anything was.
fn is_handed_at(x: &Life, handed: &[BitLog], place: usize) -> bool
    ensures { result ≡ tests.handed_at x.now (slice_get handed.now place) }
{
    place < handed.len() && is_handed(x, &handed[place])
}

/// Returns the place of the first life that took something else than was sent, or sent something else than was handed
/// over in it.
pub(super) fn unfed_at(log: &[Crossing], lives: &[Life], handed: &[BitLog]) -> Option<usize>
    ensures { Found (tests.some_fed (reverse log.now) lives.now handed.now) (length lives.now) result }
{
    for (place, x) in lives.iter().enumerate() {
        if !is_fed(log, lives, x) || !is_handed_at(x, handed, place) {
            return Some(place);
        }
    }
    None
}

/// Returns whether what was taken was sent, and what was sent was handed over.
pub(super) fn streams_hold(log: &[Crossing], lives: &[Life], handed: &[BitLog]) -> bool
    ensures { result ≡ tests.streams_hold (reverse log.now) lives.now handed.now }
{
    lives.len() == handed.len() && unfed_at(log, lives, handed).is_none()
}
