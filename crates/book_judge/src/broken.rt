//! Whether the lives of a log are a safe book's.

ghost use Rattle.std.specs.Prelude.{◌≡◌, IfOk, List, MatchOption, length, reverse};
ghost use Rattle.interface.specs.declared.crossing.Crossing.{Crossing};
ghost use Rattle.net_sim.specs.Audit.{IsWellFormed};
ghost use Rattle.net_sim.specs.Findings.{ShowsLife, ShowsMalformed};
ghost use Rattle.world_keeps_streams.specs.Sent.{EachWasSent};
ghost use Rattle.book_judge.specs.Broken.{IsBroken, KeepsGrants, first_grants, first_sent};
ghost use Rattle.book_judge.specs.Inside.Asked.{AreNamed, unstamped};
ghost use Rattle.book_judge.specs.Inside.Chains.{AreChained};
ghost use Rattle.book_judge.specs.Inside.Said.{TellsCloses, TellsPartners, TellsStreams};
ghost use Rattle.book_judge.specs.Inside.Starts.{AreStarts};

use crate::allocations::allocations_of;
use crate::arrivals::arrivals_of;
use crate::chains::chained;
use crate::closes::lost_at;
use crate::grants::{beyond_at, excess_at, first_of};
use crate::indexed_log::IndexedLog;
use crate::matches::with_match;
use crate::names::Name;
use crate::partners::odds_at;
use crate::places::Places;
use crate::sent::unsent_at;
use crate::stamps::partners_of;
use crate::starts::{Start, starts_of};
use crate::streams::unfed_at;
use net_sim::{BitLog, Finding, Life};
use promise::Fate;
use std::alloc::{AllocError, Global};

/// Where it shows that the lives of a log aren't those of a safe book. What isn't named holds.
#[derive(Clone, Copy, Debug, PartialEq, Eq)]
pub struct Broken {
    /// Where it shows that the book is malformed; `None` where it isn't.
    pub malformed: Option<Finding>,
    /// Where it shows that partners are broken; `None` where they are kept, or the book is malformed.
    pub partners: Option<Finding>,
    /// Where it shows that streams are broken; `None` where they are kept, or the book is malformed.
    pub streams: Option<Finding>,
    /// Where it shows that grants are broken; `None` where they are kept, or the book is malformed.
    pub grants: Option<Finding>,
    /// Where it shows that a message which a life counts isn't the one of its number of a life that it matches; `None` where each is, or the
    /// book is malformed.
    pub sent: Option<Finding>,
    /// Where it shows that closes are broken; `None` where they are kept, or the book is malformed.
    pub closes: Option<Finding>,
}

/// Returns that only this is said: the book is malformed.
fn only_malformed(found: Finding) -> Broken
    ensures { result ≡ record { malformed = Some found; partners = None; streams = None; grants = None; sent = None; closes = None } }
{
    Broken {
        malformed: Some(found),
        partners: None,
        streams: None,
        grants: None,
        sent: None,
        closes: None,
    }
}

/// Returns the first life that has no list, or the first list that has no life.
fn uncounted(lives: &[Life], handed: &[BitLog]) -> Option<Finding>
    ensures { MatchOption result (length lives.now ≡ length handed.now) (λ found. (log : List Crossing) → ShowsMalformed found log lives.now handed.now) }
{
    if handed.len() < lives.len() {
        return Some(Finding::Life(handed.len()));
    }
    if lives.len() < handed.len() {
        return Some(Finding::List(lives.len()));
    }
    None
}

/// Returns where it shows that the lives of a log, and what was handed over in them, are malformed: the first life that has no list, or
/// the first list that has no life; else the first life with a stamp that names no request.
///
/// Errors: `AllocError`.
pub fn malformed_at(
    alloc: Global,
    log: &IndexedLog<'_>,
    lives: &[Life],
    handed: &[BitLog],
) -> Result<Option<Finding>, AllocError>
    ensures { IfOk result (λ found. MatchOption found (IsWellFormed (reverse log.now) lives.now handed.now) (λ at. ShowsMalformed at (reverse log.now) lives.now handed.now)) }
{
    if let Some(found) = uncounted(lives, handed) {
        return Ok(Some(found));
    }
    let named = partners_of(alloc, log, lives)?;
    Ok(unstamped(named))
}

/// Returns the first life whose stamps don't name requests, if there is one.
fn unstamped(named: Result<Vec<Name>, usize>) -> Option<Finding>
    ensures { result ≡ unstamped named }
{
    match named {
        Ok(_) => None,
        Err(place) => Some(Finding::Life(place)),
    }
}

/// Returns the first two lives that can't both be in one book.
///
/// Errors: `AllocError`.
fn odd_partners(
    alloc: Global,
    names: &[Name],
    lives: &[Life],
) -> Result<Option<Finding>, AllocError>
    requires { length names.now ≡ length lives.now }
    ensures { IfOk result (λ found. TellsPartners found names.now lives.now) }
{
    match odds_at(alloc, names, lives)? {
        Some((first, second)) => Ok(Some(Finding::Lives(first, second))),
        None => Ok(None),
    }
}

/// Returns the first life that breaks streams, with the one that it matches.
fn unfed(
    last: &Places,
    before: &[Option<usize>],
    names: &[Name],
    lives: &[Life],
    handed: &[BitLog],
) -> Option<Finding>
    requires chained { AreChained (length lives.now) last.now before.now lives.now }
    requires counts { (length names.now ≡ length lives.now) × (length handed.now ≡ length lives.now) }
    ensures { TellsStreams result names.now lives.now handed.now }
{
    let place = unfed_at(last, before, names, lives, handed)?;
    Some(with_match(names, lives, place))
}

/// Returns the first life that breaks grants, with the one that it matches. These are where the messages of each life
/// begin.
///
/// Errors: `AllocError`.
fn excess(
    alloc: Global,
    log: &IndexedLog<'_>,
    starts: &[Option<Start>],
    last: &Places,
    before: &[Option<usize>],
    names: &[Name],
    lives: &[Life],
) -> Result<Option<Finding>, AllocError>
    requires chained { AreChained (length lives.now) last.now before.now lives.now }
    requires named { AreNamed (length lives.now) names.now lives.now (reverse log.now) }
    requires started { AreStarts (length lives.now) starts.now lives.now log.now }
    ensures { IfOk result (λ found. MatchOption found (KeepsGrants (reverse log.now) lives.now) (λ at. ShowsLife (first_grants (reverse log.now) lives.now) at (reverse log.now) lives.now)) }
{
    let crossed = log.crossings();
    let allocations = allocations_of(alloc, crossed)?;
    let taken = excess_at(last, before, names, lives);
    let sent = beyond_at(&allocations, crossed.len(), starts, lives);
    match first_of(taken, sent) {
        Some(place) => Ok(Some(with_match(names, lives, place))),
        None => Ok(None),
    }
}

/// Returns the first life that breaks closes, with the one that it matches.
fn lost(
    last: &Places,
    before: &[Option<usize>],
    names: &[Name],
    lives: &[Life],
    handed: &[BitLog],
    fates: &[Fate],
) -> Option<Finding>
    requires chained { AreChained (length lives.now) last.now before.now lives.now }
    requires counts { (length names.now ≡ length lives.now) × (length handed.now ≡ length lives.now) }
    ensures { TellsCloses result names.now lives.now handed.now fates.now }
{
    let place = lost_at(last, before, names, lives, handed, fates)?;
    Some(with_match(names, lives, place))
}

/// Returns the first life that counts a message which isn't the one of its number of a life that it matches, with the life
/// that it matches. These are where the messages of each life begin, and the requests of the partners of the lives.
///
/// Errors: `AllocError`.
fn unsent(
    alloc: Global,
    log: &IndexedLog<'_>,
    starts: &[Option<Start>],
    last: &Places,
    before: &[Option<usize>],
    names: &[Name],
    lives: &[Life],
) -> Result<Option<Finding>, AllocError>
    requires chained { AreChained (length lives.now) last.now before.now lives.now }
    requires named { AreNamed (length lives.now) names.now lives.now (reverse log.now) }
    requires started { AreStarts (length lives.now) starts.now lives.now log.now }
    ensures { IfOk result (λ found. MatchOption found (EachWasSent (reverse log.now) lives.now) (λ at. ShowsLife (first_sent (reverse log.now) lives.now) at (reverse log.now) lives.now)) }
{
    let arrivals = arrivals_of(alloc, log)?;
    let into = log.came();
    match unsent_at(into, &arrivals, starts, last, before, names, lives) {
        Some(place) => Ok(Some(with_match(names, lives, place))),
        None => Ok(None),
    }
}

/// Returns where it shows that lives aren't those of a safe book, that what they count wasn't sent so, or that an end by CLS lost
/// anything. These are the requests of their partners, what was handed over in them, and their fates.
///
/// Errors: `AllocError`.
fn broken_parts(
    alloc: Global,
    log: &IndexedLog<'_>,
    names: &[Name],
    lives: &[Life],
    handed: &[BitLog],
    fates: &[Fate],
) -> Result<Broken, AllocError>
    requires named { AreNamed (length lives.now) names.now lives.now (reverse log.now) }
    requires counts { (length names.now ≡ length lives.now) × (length lives.now ≡ length handed.now) }
    ensures { IfOk result (λ broken. IsBroken broken (reverse log.now) lives.now handed.now fates.now) }
{
    let partners = odd_partners(alloc, names, lives)?;
    let (last, before) = chained(alloc, lives)?;
    let starts = starts_of(alloc, log, lives)?;
    let streams = unfed(&last, &before, names, lives, handed);
    let grants = excess(alloc, log, &starts, &last, &before, names, lives)?;
    let sent = unsent(alloc, log, &starts, &last, &before, names, lives)?;
    let closes = lost(&last, &before, names, lives, handed, fates);
    Ok(Broken {
        malformed: None,
        partners,
        streams,
        grants,
        sent,
        closes,
    })
}

/// Returns where it shows that the lives of a log, and what was handed over in them, aren't those of a safe book, that what they
/// count wasn't sent so, or that a life which its partner ended lost anything. A life that has no fate isn't one
/// that its partner ended.
///
/// It says what [`net_sim::malformed`], [`net_sim::broken_partners`] and [`net_sim::broken_streams`] say, and what
/// [`net_sim::broken_grants`] does with what ALLs grant beside it. Those take no memory, and look at each pair of lives; here each request has its place in a
/// map, so the time grows with crossings and lives, and only of lives that have one own request each pair is looked at.
///
/// Errors: `AllocError`.
pub fn broken_at(
    alloc: Global,
    log: &IndexedLog<'_>,
    lives: &[Life],
    handed: &[BitLog],
    fates: &[Fate],
) -> Result<Broken, AllocError>
    ensures { IfOk result (λ broken. IsBroken broken (reverse log.now) lives.now handed.now fates.now) }
{
    if let Some(found) = uncounted(lives, handed) {
        return Ok(only_malformed(found));
    }
    match partners_of(alloc, log, lives)? {
        Ok(names) => broken_parts(alloc, log, &names, lives, handed, fates),
        Err(place) => Ok(only_malformed(Finding::Life(place))),
    }
}
