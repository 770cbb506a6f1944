//! Whether no end has a wrong partner.

ghost use Rattle.std.specs.Prelude.{◌≡◌, ◌<◌, ◌+◌, IfOk, length, true};
ghost use Rattle.std.specs.FinMap as map;
ghost use Rattle.book_judge.specs.Inside.Partners as tests;
ghost use Rattle.book_judge.specs.Inside.Partners.{AllApart, ApartFrom, AreKnown, FirstOdd, FoundOdds};

use crate::names::{Name, same_name};
use crate::places::Places;
use net_sim::Life;
use std::alloc::{AllocError, Global};

/// Returns whether two lives may both be in one book, where these are the requests of their partners: no request is of both, and
/// each has the other's for its partner's, or none has.
fn are_apart(a: &Name, x: &Life, b: &Name, y: &Life) -> bool
    ensures { result ≡ tests.are_apart a.now x.now b.now y.now }
{
    let (own, other) = (Name::own_of(x), Name::own_of(y));
    !same_name(&own, &other) && !same_name(a, b) && same_name(a, &other) == same_name(b, &own)
}

/// Returns whether the lives at two places may both be in one book.
fn apart_at(names: &[Name], lives: &[Life], first: usize, second: usize) -> bool
    ensures { result ≡ tests.apart_at names.now lives.now first second }
{
    match (
        names.get(first),
        lives.get(first),
        names.get(second),
        lives.get(second),
    ) {
        (Some(a), Some(x), Some(b), Some(y)) => are_apart(a, x, b, y),
        _ => true,
    }
}

/// Returns the place of the first life that can't be in one book with a later one.
fn odds_with(names: &[Name], lives: &[Life], second: usize) -> Option<usize>
    ensures { FirstOdd result names.now lives.now second }
{
    for first in 0..second {
        if !apart_at(names, lives, first, second) {
            return Some(first);
        }
    }
    None
}

/// Returns whether the life at a place, if there is one, has these requests: this one is of its partner, and that its own.
fn is_mate(names: &[Name], lives: &[Life], at: Option<usize>, partner: &Name, own: &Name) -> bool
    ensures { result ≡ tests.is_mate names.now lives.now at partner.now own.now }
{
    let Some(place) = at else {
        return true;
    };
    match (names.get(place), lives.get(place)) {
        (Some(a), Some(x)) => same_name(a, partner) && same_name(&Name::own_of(x), own),
        _ => false,
    }
}

/// Returns whether it shows that a life may be in one book with all earlier ones, which have these requests.
fn is_new(
    owns: &Places,
    partners: &Places,
    names: &[Name],
    lives: &[Life],
    asked: &Name,
    own: &Name,
) -> bool
    ensures { result ≡ tests.is_new owns.now partners.now names.now lives.now asked.now own.now }
{
    owns.get(own.key()).is_none()
        && partners.get(asked.key()).is_none()
        && is_mate(names, lives, partners.get(own.key()), own, asked)
        && is_mate(names, lives, owns.get(asked.key()), own, asked)
}

/// Returns whether it shows that the life at a place may be in one book with all earlier ones; and notes its requests.
///
/// Errors: `AllocError`.
fn takes(
    owns: &mut Places,
    partners: &mut Places,
    names: &[Name],
    lives: &[Life],
    place: usize,
) -> Result<bool, AllocError>
    requires within { (place < length lives.now) × (length names.now ≡ length lives.now) }
    requires known { AreKnown place owns.old partners.old names.now lives.now }
    requires apart { AllApart place names.now lives.now }
    ensures { IfOk result (λ new. AreKnown (place + 1) owns.new partners.new names.now lives.now × (new ≡ true → ApartFrom place place names.now lives.now)) }
{
    let asked = names[place];
    let own = Name::own_of(&lives[place]);
    let new = is_new(owns, partners, names, lives, &asked, &own);
    owns.set(own.key(), place)?;
    partners.set(asked.key(), place)?;
    Ok(new)
}

/// Returns the places of the first two lives that can't both be in one book: the second is the first that can't be with an
/// earlier one. These are the requests of their partners.
///
/// Errors: `AllocError`.
pub(crate) fn odds_at(
    alloc: Global,
    names: &[Name],
    lives: &[Life],
) -> Result<Option<(usize, usize)>, AllocError>
    requires { length names.now ≡ length lives.now }
    ensures { IfOk result (λ found. FoundOdds found names.now lives.now) }
{
    let mut owns = Places::new(alloc);
    let mut partners = Places::new(alloc);
    for second in 0..lives.len() {
        if !takes(&mut owns, &mut partners, names, lives, second)? {
            if let Some(first) = odds_with(names, lives, second) {
                return Ok(Some((first, second)));
            }
        }
    }
    Ok(None)
}
