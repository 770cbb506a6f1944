//! What is said of a book: which part of it doesn't hold.

ghost use Rattle.std.specs.Prelude.{◌≡◌, ◌∷◌, ◌++◌, [], IfOk, MatchOption, OnOk, drop, if◌then◌else◌, map, reverse};
ghost use Rattle.book_judge.specs.Broken.{IfFormed};
ghost use Rattle.book_judge.specs.Runs.{IsSomeRun, StraysAt};
ghost use Rattle.book_judge.specs.Toward.{AreToward, UntowardAt};
ghost use Rattle.command_line.specs.Audits.{AreParts, Judged, first_counts, kept_by};
ghost use Rattle.interface.specs.Host.{is_host};
ghost use Rattle.interface.specs.Messages.{SafeMessages};
ghost use Rattle.mixed_worlds.specs.Book.{is_among};
ghost use Rattle.net_sim.specs.Findings.{ShowsCrossing};

use crate::verdict::Verdict;
use book_judge::{
    Broken, IndexedLog, broken_at, broken_message, malformed_at, stray_at, unmade_at, unsuited_at,
    untoward_at,
};
use book_log::BookLists;
use interface::{Crossing, HostAddr};
use net_sim::{BitLog, Finding, Life};
use promise::Fate;
use std::alloc::{AllocError, Global};

/// Returns the first crossing with which messages are broken; `None` where they are kept. A run of the mailboxes
/// keeps them, so they are looked at where what crossed strays from one.
///
/// Errors: `AllocError`.
fn unkept(
    alloc: Global,
    log: &[Crossing],
    stray: Option<usize>,
) -> Result<Option<Finding>, AllocError>
    requires { MatchOption stray (IsSomeRun (reverse log.now)) (λ place. StraysAt log.now place) }
    ensures { IfOk result (λ found. MatchOption found (SafeMessages (reverse log.now)) (λ at. ShowsCrossing at (reverse log.now))) }
{
    match stray {
        Some(_) => broken_message(alloc, log),
        None => Ok(None),
    }
}

/// Returns whether the first of a list counts, and what is known of the others. Past the end all count.
fn first_counts(counted: &[bool]) -> (bool, &[bool])
    ensures first { result.0 ≡ first_counts counted.now }
    ensures rest { result.1.now ≡ drop 1 counted.now }
{
    match counted.split_first() {
        Some((first, rest)) => (*first, rest),
        None => (true, counted),
    }
}

/// Puts an item that counts at the end of a list.
///
/// Errors: `AllocError`.
fn keep_one<T: Drop>(kept: &mut Vec<T>, counts: bool, item: T) -> Result<(), AllocError>
    ensures { OnOk result (kept.new.items ≡ (if counts then kept.old.items ++ item ∷ [] else kept.old.items)) }
{
    if counts {
        kept.push(item)?;
    }
    Ok(())
}

/// Returns those of a list that count.
///
/// Errors: `AllocError`.
fn keep_counted<T: Drop>(alloc: Global, counted: &[bool], all: Vec<T>) -> Result<Vec<T>, AllocError>
    ensures { IfOk result (λ kept. kept.items ≡ kept_by counted.now all.items) }
{
    let mut kept = Vec::new(alloc);
    let mut left = counted;
    for item in all {
        let (counts, rest) = first_counts(left);
        keep_one(&mut kept, counts, item)?;
        left = rest;
    }
    Ok(kept)
}

/// Returns where partners, streams, grants, what was sent, and closes are broken; of a malformed book nothing is said of them.
///
/// Errors: `AllocError`.
fn broken_parts(
    alloc: Global,
    malformed: Option<Finding>,
    log: &IndexedLog<'_>,
    lives: &[Life],
    handed: &[BitLog],
    fates: &[Fate],
) -> Result<Broken, AllocError>
    ensures { IfOk result (λ broken. AreParts malformed broken (reverse log.now) lives.now handed.now fates.now) }
{
    match malformed {
        None => broken_at(alloc, log, lives, handed, fates),
        Some(found) => Ok(Broken {
            malformed: Some(found),
            partners: None,
            streams: None,
            grants: None,
            sent: None,
            closes: None,
        }),
    }
}

/// Returns the first life that is a stranger's, or that is toward one and isn't as it should be; of a malformed book
/// nothing is said of that.
fn untoward(
    malformed: Option<Finding>,
    strangers: &[HostAddr],
    lives: &[Life],
    handed: &[BitLog],
) -> Option<usize>
    ensures { IfFormed malformed result (AreToward (λ h. is_host strangers.now h) lives.now handed.now) (λ place. UntowardAt (λ h. is_host strangers.now h) lives.now handed.now place) }
{
    match malformed {
        None => untoward_at(strangers, lives, handed),
        Some(_) => None,
    }
}

/// Returns what is wrong with a log of a network in which these hosts are strangers. Of each life it is known whether it
/// is among hosts with programs.
///
/// Partners, streams, grants, sent, closes and toward are about the requests that stamps name, or about lists of bits, so
/// nothing is said of them in a malformed book.
///
/// Errors: `AllocError`.
pub(crate) fn judge(
    alloc: Global,
    strangers: &[HostAddr],
    among: &[bool],
    lists: BookLists,
) -> Result<Verdict, AllocError>
    requires { among.now ≡ map (λ x. is_among (λ h. is_host strangers.now h) x) lists.lives.items }
    ensures { IfOk result (λ v. Judged v (λ h. is_host strangers.now h) lists.crossings.items lists.lives.items lists.handed.items lists.fates.items) }
{
    let BookLists {
        crossings,
        lives: all,
        fates: words,
        handed: texts,
    } = lists;
    let crossed = crossings.as_slice();
    let stray = stray_at(alloc, crossed)?;
    let messages = unkept(alloc, crossed, stray)?;
    let log = IndexedLog::new(alloc, crossed)?;
    let lives = all.as_slice();
    let handed = texts.as_slice();
    let malformed = malformed_at(alloc, &log, lives, handed)?;
    let toward = untoward(malformed, strangers, lives, handed);
    let lives_kept = keep_counted(alloc, among, all)?;
    let lists_kept = keep_counted(alloc, among, texts)?;
    let fates_kept = keep_counted(alloc, among, words)?;
    let some = lives_kept.as_slice();
    let some_lists = lists_kept.as_slice();
    let ends = fates_kept.as_slice();
    let unmade = unmade_at(&log, some);
    let broken = broken_parts(alloc, malformed, &log, some, some_lists, ends)?;
    let unsuited = unsuited_at(alloc, &log, some, ends)?;
    Ok(Verdict {
        stray,
        unmade,
        malformed,
        messages,
        partners: broken.partners,
        streams: broken.streams,
        grants: broken.grants,
        sent: broken.sent,
        closes: broken.closes,
        unsuited,
        toward,
    })
}
