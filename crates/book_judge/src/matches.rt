//! Which lives are the two ends of one connection.

ghost use Rattle.std.specs.Prelude.{◌≡◌, ◌<◌, List, false, length};
ghost use Rattle.interface.specs.declared.crossing.Crossing.{Crossing};
ghost use Rattle.net_sim.specs.Findings.{WithMatch};
ghost use Rattle.promise.specs.Safe as safe;
ghost use Rattle.book_judge.specs.Inside.Asked.{AreNamed};
ghost use Rattle.book_judge.specs.Inside.Chains as tests;
ghost use Rattle.book_judge.specs.Inside.Chains.{FoundFirst};

use crate::data::receives;
use crate::names::{Name, same_name};
use net_sim::{Finding, Life};

/// Returns whether a life sends.
pub(crate) fn sends(life: &Life) -> bool
    ensures { result ≡ safe.sends life.now }
{
    life.socket % 2 == 1
}

/// Returns whether a receiving life and a sending one match, where these are the requests of their partners.
pub(crate) fn fits(a: &Name, x: &Life, b: &Name, y: &Life) -> bool
    ensures { result ≡ tests.fits a.now x.now b.now y.now }
{
    receives(x)
        && sends(y)
        && x.peer == y.host
        && y.peer == x.host
        && same_name(a, &Name::own_of(y))
        && same_name(b, &Name::own_of(x))
}

/// Returns whether two lives have the same requests, hosts and peers, where these are the requests of their partners.
pub(crate) fn repeats(a: &Name, x: &Life, b: &Name, y: &Life) -> bool
    ensures { result ≡ tests.repeats a.now x.now b.now y.now }
{
    same_name(a, b)
        && same_name(&Name::own_of(x), &Name::own_of(y))
        && x.host == y.host
        && x.peer == y.peer
}

/// Returns whether a life fits the one at a place.
fn fits_at(asked: &Name, life: &Life, names: &[Name], lives: &[Life], place: usize) -> bool
    ensures { result ≡ tests.fits_at asked.now life.now names.now lives.now place }
{
    match (names.get(place), lives.get(place)) {
        (Some(b), Some(y)) => fits(asked, life, b, y),
        _ => false,
    }
}

/// Returns the place of the first life that one fits.
fn match_at(asked: &Name, life: &Life, names: &[Name], lives: &[Life]) -> Option<usize>
    ensures { FoundFirst (λ i. tests.fits_at asked.now life.now names.now lives.now i ≡ false) (length lives.now) result }
{
    for place in 0..lives.len() {
        if fits_at(asked, life, names, lives, place) {
            return Some(place);
        }
    }
    None
}

/// Returns a life, with the first one that it matches where it receives and there is one.
pub(crate) fn with_match(names: &[Name], lives: &[Life], place: usize) -> Finding
    requires { (place < length lives.now) × (length names.now ≡ length lives.now) }
    ensures { (log : List Crossing) → AreNamed (length lives.now) names.now lives.now log → WithMatch result place log lives.now }
{
    match match_at(&names[place], &lives[place], names, lives) {
        Some(other) => Finding::Lives(place, other),
        None => Finding::Life(place),
    }
}
