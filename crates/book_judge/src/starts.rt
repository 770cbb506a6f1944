//! Where the messages of lives begin.

ghost use Rattle.std.specs.Prelude.{◌≡◌, IfOk, length, slice_get, take};
ghost use Rattle.promise.specs.Formed as formed;
ghost use Rattle.promise.specs.Safe as safe;
ghost use Rattle.book_judge.specs.Inside.Joined.{texts_by};
ghost use Rattle.book_judge.specs.Inside.Made as made;
ghost use Rattle.book_judge.specs.Inside.Starts as tests;
ghost use Rattle.book_judge.specs.Inside.Starts.{AreStarts, IsStart};

use crate::data::{flow_of, receives, since};
use crate::indexed_log::IndexedLog;
use crate::lives::link_of;
use net_sim::Life;
use std::alloc::{AllocError, Global};

/// Where the messages of a life begin.
#[derive(Clone, Copy)]
pub(crate) struct Start {
    /// Its link, that its two requests name.
    pub(crate) link: u8,
    /// How many messages had crossed on its flow when both requests had.
    pub(crate) before: usize,
}

/// A message that a receiving life took.
#[derive(Clone, Copy)]
pub(crate) struct Taking {
    /// Its link.
    pub(crate) link: u8,
    /// Its number among the messages of the life, counted from 0.
    pub(crate) nth: usize,
    /// How many messages had gone out on its flow before it came in.
    pub(crate) sent: usize,
}

/// Returns how many messages had crossed on a link of a life when both its requests had.
fn before_both(log: &IndexedLog<'_>, life: &Life, link: u8) -> usize
    ensures { result ≡ length (texts_by (safe.receives life.now) (formed.flow_of life.now link) (take (made.since life.now) log.now)) }
{
    let flow = flow_of(life, link);
    let crossed = log.crossings();
    let until = since(crossed, life);
    if receives(life) {
        return log.came().between(&flow, 0, until);
    }
    log.went().between(&flow, 0, until)
}

/// Returns where the messages of a life begin; `None` where nothing names its link.
fn start_of(log: &IndexedLog<'_>, life: &Life) -> Option<Start>
    ensures { IsStart log.now life.now result }
{
    let link = link_of(log.crossings(), life)?;
    let before = before_both(log, life, link);
    Some(Start { link, before })
}

/// Returns where the messages of each life begin.
///
/// Errors: `AllocError`.
pub(crate) fn starts_of(
    alloc: Global,
    log: &IndexedLog<'_>,
    lives: &[Life],
) -> Result<Vec<Option<Start>>, AllocError>
    ensures { IfOk result (λ starts. AreStarts (length lives.now) starts.items lives.now log.now) }
{
    let mut starts = Vec::new(alloc);
    for place in 0..lives.len() {
        starts.push(start_of(log, &lives[place]))?;
    }
    Ok(starts)
}

/// Returns where the messages of the life at a place begin, if that is known.
pub(crate) fn start_at(starts: &[Option<Start>], place: usize) -> Option<Start>
    ensures { result ≡ tests.start_at (slice_get starts.now place) }
{
    match starts.get(place) {
        Some(start) => *start,
        None => None,
    }
}

/// Returns whether a life counts a message with the number that it has for its receiver: whether the last that went out
/// before it came in is the life's message of that number.
fn counts(start: Start, life: &Life, taking: Taking) -> bool
    ensures { result ≡ tests.counts start life.now taking }
{
    start.link == taking.link
        && start.before < taking.sent
        && taking.sent - start.before - 1 == taking.nth
        && (taking.nth as u128) < life.messages
}

/// Returns whether the life at a place counts a message so.
pub(crate) fn counts_at(starts: &[Option<Start>], life: &Life, taking: Taking, place: usize) -> bool
    ensures { result ≡ tests.counts_of (slice_get starts.now place) life.now taking }
{
    match starts.get(place) {
        Some(Some(start)) => counts(*start, life, taking),
        Some(None) | None => false,
    }
}
