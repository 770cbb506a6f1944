//! Whether what was taken and sent was granted.

ghost use Rattle.std.specs.Prelude.{◌≡◌, ◌+◌, length, nat_le, reverse, take};
ghost use Rattle.std.specs.List.{list_all};
ghost use Rattle.net_sim.specs.Inside.Audit as tests;
ghost use Rattle.net_sim.specs.Inside.Audit.{Found};

use super::requests::{asked_at, is_match, receives};
use interface::Crossing;
use promise::Life;

/// Returns whether this much, with what was returned, is no more than what was granted.
fn is_within(used: u128, returned: u128, granted: u128) -> bool
    ensures { result ≡ nat_le (used + returned) granted }
{
    returned <= granted && used <= granted - returned
}

/// Returns whether this many messages and bits, with what was returned, are no more than what a receiving life granted.
fn is_granted(x: &Life, messages: u128, bits: usize) -> bool
    ensures { result ≡ tests.is_granted x.now messages bits }
{
    is_within(messages, x.returned.messages, x.granted.messages)
        && is_within(bits as u128, x.returned.bits, x.granted.bits)
}

/// Returns whether what the second life sent is granted, where it matches the first.
fn may_send(log: &[Crossing], asked: Option<usize>, x: &Life, y: &Life) -> bool
    ensures { result ≡ tests.may_send (reverse log.now) asked x.now y.now }
{
    !is_match(log, asked, x, y) || is_granted(x, y.messages, y.bits.len())
}

/// Returns whether what was sent to a life is granted.
fn all_may_send(log: &[Crossing], lives: &[Life], x: &Life) -> bool
    ensures { result ≡ list_all (tests.may_send (reverse log.now) (tests.asked_at (reverse log.now) x.now) x.now) lives.now }
{
    let asked = asked_at(log, x);
    for y in lives {
        if !may_send(log, asked, x, y) {
            return false;
        }
    }
    true
}

/// Returns whether what a receiving life took is granted, and what was sent to it.
fn has_granted(log: &[Crossing], lives: &[Life], x: &Life) -> bool
    ensures { result ≡ tests.has_granted (reverse log.now) lives.now x.now }
{
    !receives(x) || (is_granted(x, x.messages, x.bits.len()) && all_may_send(log, lives, x))
}

/// Returns the place of the first receiving life that granted less than it took, or than was sent to it.
pub(super) fn excess_at(log: &[Crossing], lives: &[Life]) -> Option<usize>
    ensures { Found (λ n. list_all (tests.has_granted (reverse log.now) lives.now) (take n lives.now)) (length lives.now) result }
{
    for (place, x) in lives.iter().enumerate() {
        if !has_granted(log, lives, x) {
            return Some(place);
        }
    }
    None
}

/// Returns whether what was taken and sent was granted.
pub(super) fn grants_hold(log: &[Crossing], lives: &[Life]) -> bool
    ensures { result ≡ tests.grants_hold (reverse log.now) lives.now }
{
    excess_at(log, lives).is_none()
}
