//! Whether no end has a wrong partner.

ghost use Rattle.std.specs.Prelude.{◌≡◌, ◌≤◌, length, reverse, take};
ghost use Rattle.std.specs.List.{list_all};
ghost use Rattle.net_sim.specs.Inside.Audit as tests;
ghost use Rattle.net_sim.specs.Inside.Audit.{Found, FoundTwo};

use super::requests::{are_at_odds, asked_at};
use interface::Crossing;
use promise::Life;

/// Returns the place of the first life before a place that is at odds with the one there.
fn odds_with(log: &[Crossing], lives: &[Life], second: usize, y: &Life) -> Option<usize>
    requires { second ≤ length lives.now }
    ensures { Found (λ n. list_all (λ x. tests.may_both (reverse log.now) x y.now) (take n lives.now)) second result }
{
    let asked = asked_at(log, y);
    for first in 0..second {
        if are_at_odds(log, asked, &lives[first], y) {
            return Some(first);
        }
    }
    None
}

/// Returns the places of the first two lives that are at odds: the second of them is the first that is at odds with an
/// earlier one.
pub(super) fn odds_at(log: &[Crossing], lives: &[Life]) -> Option<(usize, usize)>
    ensures { FoundTwo (reverse log.now) lives.now result }
{
    for (second, y) in lives.iter().enumerate() {
        if let Some(first) = odds_with(log, lives, second, y) {
            return Some((first, second));
        }
    }
    None
}

/// Returns whether no end has a wrong partner.
pub(super) fn partners_hold(log: &[Crossing], lives: &[Life]) -> bool
    ensures { result ≡ tests.partners_hold (reverse log.now) lives.now }
{
    odds_at(log, lives).is_none()
}
