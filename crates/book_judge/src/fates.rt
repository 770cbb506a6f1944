//! How far lives are by what crossed, and whether their fates are such that this leaves them.

ghost use Rattle.std.specs.Prelude.{◌≡◌, ℕ, IfOk, List, MatchOption, option_map};
ghost use Rattle.std.specs.Prelude.{reverse, slice_get};
ghost use Rattle.book_judge.specs.Fates as left;
ghost use Rattle.book_judge.specs.Fates.{AreSuited, UnsuitedAt};
ghost use Rattle.book_judge.specs.Inside.Begins as begun;
ghost use Rattle.book_judge.specs.Inside.Begins.{AreCourses, IsKnown, pace_at};
ghost use Rattle.book_judge.specs.Inside.Contacts as contact;
ghost use Rattle.book_judge.specs.Inside.Deeds as tests;
ghost use Rattle.book_judge.specs.Inside.Deeds.{deeds_in};
ghost use Rattle.promise.specs.Ends as ends;
ghost use Rattle.book_judge.specs.declared.fates.deeds.Deed.{Deed};

mod begins;
mod changes;
mod contacts;
mod deeds;
mod key_map;

use crate::indexed_log::IndexedLog;
use begins::{Ahead, Known, Reached, ahead_of, key, known_by};
use changes::{Change, but_closes, changes_of};
use contacts::{Said, agrees, note};
use deeds::deeds_of;
use interface::Crossing;
use key_map::{Key, KeyMap};
use net_sim::Life;
use promise::Fate;
use std::alloc::{AllocError, Global};

/// What changes the lives of a log, and what comes first of that.
#[derive(Drop)]
pub(crate) struct Courses {
    changes: Vec<Change>,
    ahead: Ahead,
}

/// Returns whether a fate is one of a life that continues, or that a contact of its host has reset.
fn suits_going(fate: Fate) -> bool
    ensures { result ≡ left.suits_going fate }
{
    matches!(fate, Fate::Open | Fate::Closing | Fate::Reset)
}

/// Returns whether what crossed leaves a fate to a life both of whose CLS crossed. It was closed by its own user if its
/// own was the first; and if its own was the second, no contact came before that.
fn suits_closed(own_first: bool, fate: Fate) -> bool
    ensures { result ≡ left.suits_cause (ends.Closed own_first) fate }
{
    match fate {
        Fate::Closed => true,
        Fate::Ended => !own_first,
        Fate::Reset => own_first,
        _ => false,
    }
}

/// Returns whether what crossed leaves a fate to a life that is this far.
fn suits(reached: Reached, fate: Fate) -> bool
    ensures { (at : ℕ → ℕ) → result ≡ left.suits (begun.stage_of at reached) fate }
{
    match reached {
        Reached::Going { .. } => suits_going(fate),
        Reached::Dropped { .. } => fate == Fate::Reset,
        Reached::Stopped { .. } => fate == Fate::Reset || fate == Fate::Stopped,
        Reached::Closed { own_first, .. } => suits_closed(own_first, fate),
    }
}

/// Returns whether what crossed leaves a life its fate. Of one whose requests haven't crossed nothing is known, and
/// any fate is left.
fn suits_known(known: Option<Known>, fate: Fate) -> bool
    ensures { (at : ℕ → ℕ) → result ≡ tests.suits_begun (option_map (pace_at at) known) fate }
{
    match known {
        Some(known) => !known.early && suits(known.reached, fate),
        None => true,
    }
}

/// Returns the request of a life that its host takes, or the one that it sends.
fn asked(life: &Life, comes: bool) -> Key
    ensures { result ≡ begun.ask_key life.now comes }
{
    let (place, own, foreign) = if comes {
        (life.partner_stamp, life.foreign, life.socket)
    } else {
        (life.own_stamp, life.socket, life.foreign)
    };
    key(place, life.host, life.peer, comes, own, foreign)
}

/// Returns where the change crossed with which this many are left; 0 where there is none.
fn place_of(changes: &[Change], rest: usize) -> usize
    ensures { result ≡ begun.place_at changes.now rest }
{
    if rest == 0 {
        return 0;
    }
    if changes.len() < rest {
        return 0;
    }
    changes[changes.len() - rest].place
}

/// Returns how much had crossed when a life was over that is this far; all of as much, where it continues.
fn over_at(all: usize, changes: &[Change], reached: Reached) -> usize
    ensures { result ≡ left.over_at all (begun.stage_of (begun.place_at changes.now) reached) }
{
    match reached {
        Reached::Going { .. } => all,
        Reached::Dropped { rest } => place_of(changes, rest),
        Reached::Stopped { rest } => place_of(changes, rest),
        Reached::Closed { rest, .. } => place_of(changes, rest),
    }
}

/// Returns the same by what is known of a life.
fn end_by(all: usize, changes: &[Change], known: Option<Known>) -> usize
    ensures { result ≡ tests.end_by all (option_map (pace_at (begun.place_at changes.now)) known) }
{
    match known {
        Some(known) => over_at(all, changes, known.reached),
        None => all,
    }
}

/// Returns whether a contact has reset a life that is `reset` and this far: nothing that crossed has.
fn was_contacted(reached: Reached) -> bool
    ensures { (at : ℕ → ℕ) → result ≡ left.was_contacted (begun.stage_of at reached) }
{
    !matches!(reached, Reached::Dropped { .. })
}

/// Returns what is said of a life whose connections are cut there, and of which this is known.
fn said_by(
    all: usize,
    cut: usize,
    changes: &[Change],
    known: Option<Known>,
    fate: Option<Fate>,
) -> Option<Said>
    ensures { result ≡ contact.said_begun all cut (option_map (pace_at (begun.place_at changes.now)) known) fate }
{
    let fate = fate?;
    let known = known?;
    let reset = fate == Fate::Reset;
    if reset && !was_contacted(known.reached) {
        return None;
    }
    let end = over_at(all, changes, known.reached);
    Some(Said { reset, cut, end })
}

impl Courses {
    /// Returns what is known of a life by its two requests; `None` where one of them didn't cross.
    fn known(&self, life: &Life) -> Option<Known>
        ensures { (deeds : List Deed) → AreCourses deeds self.now → IsKnown deeds life.now result }
    {
        known_by(
            self.ahead.begin(&asked(life, false)),
            self.ahead.begin(&asked(life, true)),
        )
    }

    /// Returns how much had crossed when a life was over; all of as much as crossed, where it continues.
    pub(crate) fn end(&self, all: usize, life: &Life) -> usize
        ensures { (deeds : List Deed) → AreCourses deeds self.now → result ≡ tests.end_after all deeds life.now }
    {
        end_by(all, &self.changes, self.known(life))
    }

    /// Returns whether deeds leave a life its fate, if it has one.
    fn suits(&self, life: &Life, fate: Option<Fate>) -> bool
        ensures { (deeds : List Deed) → AreCourses deeds self.now → result ≡ tests.suits_after deeds life.now fate }
    {
        match fate {
            Some(fate) => suits_known(self.known(life), fate),
            None => true,
        }
    }

    /// Returns whether a contact has reset a life, where its connections are cut, and where it is over; `None` where
    /// what crossed has reset it, it hasn't begun, or it has no fate.
    fn said(&self, cuts: &Courses, all: usize, life: &Life, fate: Option<Fate>) -> Option<Said>
        ensures { (deeds : List Deed) → AreCourses deeds self.now → AreCourses (contact.but_closes deeds) cuts.now → result ≡ contact.said_after all deeds life.now fate }
    {
        let cut = cuts.end(all, life);
        said_by(all, cut, &self.changes, self.known(life), fate)
    }

    /// Returns what changes lives but CLS, and what comes first of that: with these a life is over where its connections
    /// are cut.
    ///
    /// Errors: `AllocError`.
    fn cuts(&self, alloc: Global) -> Result<Courses, AllocError>
        ensures { (deeds : List Deed) → AreCourses deeds self.now → IfOk result (λ cuts. AreCourses (contact.but_closes deeds) cuts) }
    {
        let changes = but_closes(alloc, &self.changes)?;
        let ahead = ahead_of(alloc, &changes)?;
        Ok(Courses { changes, ahead })
    }
}

/// Returns the fate of the life at a place, if it has one.
fn fate_at(fates: &[Fate], place: usize) -> Option<Fate>
    ensures { result ≡ slice_get fates.now place }
{
    match fates.get(place) {
        Some(fate) => Some(*fate),
        None => None,
    }
}

/// Returns what changes the lives of a log, and what comes first of that. The log is the oldest first.
///
/// Errors: `AllocError`.
pub(crate) fn courses_of(alloc: Global, log: &[Crossing]) -> Result<Courses, AllocError>
    ensures { IfOk result (λ courses. AreCourses (deeds_in (reverse log.now)) courses) }
{
    let deeds = deeds_of(alloc, log)?;
    let changes = changes_of(alloc, &deeds)?;
    let ahead = ahead_of(alloc, &changes)?;
    Ok(Courses { changes, ahead })
}

/// Returns the place of the first life whose fate isn't one that what crossed leaves it, or that disagrees with an
/// earlier one on a contact, counted from 0; `None` where there is none. A life that has
/// no fate, and one whose requests haven't crossed, is none of these.
///
/// A life begins with the second of its two requests, where nothing came between them that ends lives. It is over once
/// its connections are dropped (by an RST, by an RRP that isn't owed, or by a message to its peer that fails), its host
/// stops, or both CLS have crossed (NIC 8246, RTS, STR, CLS, RST and RRP). Where its own CLS is the first of these, a
/// user of its host has closed it. A contact of its host doesn't cross, so one that has begun may have been reset:
/// but not where its own CLS went out last, since after a contact an RST goes out first. That, a reset or a stop cuts all
/// connections of a host with a peer. So of its lives with one peer that begin between the same two cuts, none that isn't
/// `reset` is over after one that a contact reset, or with it.
///
/// Errors: `AllocError`.
pub fn unsuited_at(
    alloc: Global,
    log: &IndexedLog<'_>,
    lives: &[Life],
    fates: &[Fate],
) -> Result<Option<usize>, AllocError>
    ensures { IfOk result (λ found. MatchOption found (AreSuited (reverse log.now) lives.now fates.now) (λ place. UnsuitedAt (reverse log.now) lives.now fates.now place)) }
{
    let crossed = log.crossings();
    let courses = log.courses();
    let cuts = courses.cuts(alloc)?;
    let mut ends = KeyMap::new(alloc);
    for (place, life) in lives.iter().enumerate() {
        let fate = fate_at(fates, place);
        let said = courses.said(&cuts, crossed.len(), life, fate);
        if !courses.suits(life, fate) || !agrees(&ends, life, said) {
            return Ok(Some(place));
        }
        note(&mut ends, life, said)?;
    }
    Ok(None)
}
