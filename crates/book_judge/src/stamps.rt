//! The requests that the stamps of lives name.

ghost use Rattle.std.specs.Prelude.{◌≡◌, IfOk, MatchOption, OnOk, length, reverse, slice_get};
ghost use Rattle.net_sim.specs.Audit.{IsStamped};
ghost use Rattle.promise.specs.Safe.{partner_request};
ghost use Rattle.book_judge.specs.Inside.Asked as tests;
ghost use Rattle.book_judge.specs.Inside.Asked.{AreOuts, Names};

use crate::flow_map::FlowMap;
use crate::indexed_log::IndexedLog;
use crate::lives::control_flow;
use crate::names::Name;
use interface::{Crossing, Flow};
use net_sim::Life;
use std::alloc::{AllocError, Global};

/// Returns where the last message of a flow went out, of a message that comes in on it.
fn out_at(last: &FlowMap<usize>, crossing: &Crossing) -> Option<usize>
    ensures { result ≡ tests.out_at last.now crossing.now }
{
    match crossing {
        Crossing::In(message) => last.get(&message.flow),
        _ => None,
    }
}

/// Notes where a message went out.
///
/// Errors: `AllocError`.
fn note(last: &mut FlowMap<usize>, place: usize, crossing: &Crossing) -> Result<(), AllocError>
    ensures { OnOk result (last.new ≡ tests.noted place crossing.now last.old) }
{
    match crossing {
        Crossing::Out(message) => last.set(message.flow, place),
        _ => Ok(()),
    }
}

/// Returns, for each message that came in, where its flow's last message before that went out.
///
/// Errors: `AllocError`.
pub(crate) fn outs_of(alloc: Global, log: &[Crossing]) -> Result<Vec<Option<usize>>, AllocError>
    ensures { IfOk result (λ outs. AreOuts (length log.now) outs.items log.now) }
{
    let mut last = FlowMap::new(alloc);
    let mut outs = Vec::with_capacity(alloc, log.len())?;
    for (place, crossing) in log.iter().enumerate() {
        outs.push(out_at(&last, crossing))?;
        note(&mut last, place, crossing)?;
    }
    Ok(outs)
}

/// Returns whether a message of this flow crossed at a place, coming in or going out.
fn passes_at(log: &[Crossing], comes: bool, flow: &Flow, place: usize) -> bool
    ensures { result ≡ tests.passes comes flow.now (slice_get log.now place) }
{
    match log.get(place) {
        Some(Crossing::In(message)) => comes && *flow == message.flow,
        Some(Crossing::Out(message)) => !comes && *flow == message.flow,
        _ => false,
    }
}

/// Returns what is at a place, if anything is.
pub(crate) fn found_at(found: &[Option<usize>], place: usize) -> Option<usize>
    ensures { result ≡ tests.found_at (slice_get found.now place) }
{
    match found.get(place) {
        Some(found) => *found,
        None => None,
    }
}

/// Returns the request of a life's partner; `None` where its stamps don't name requests.
fn partner_of(log: &IndexedLog<'_>, life: &Life) -> Option<Name>
    ensures { MatchOption result (IsStamped (reverse log.now) life.now → ⊥) (λ name. IsStamped (reverse log.now) life.now × (partner_request (reverse log.now) life.now ≡ Some name)) }
{
    let crossed = log.crossings();
    let goes = control_flow(life.host, life.peer);
    let comes = control_flow(life.peer, life.host);
    if !passes_at(crossed, false, &goes, life.own_stamp) {
        return None;
    }
    if !passes_at(crossed, true, &comes, life.partner_stamp) {
        return None;
    }
    match found_at(log.outs(), life.partner_stamp) {
        Some(place) => Some(Name::partner_of(life, place)),
        None => None,
    }
}

/// Returns the request of the partner of each life; or the place of the first life whose stamps don't name requests.
///
/// Errors: `AllocError`.
pub(crate) fn partners_of(
    alloc: Global,
    log: &IndexedLog<'_>,
    lives: &[Life],
) -> Result<Result<Vec<Name>, usize>, AllocError>
    ensures { IfOk result (λ named. Names named lives.now (reverse log.now)) }
{
    let mut names = Vec::new(alloc);
    for (place, life) in lives.iter().enumerate() {
        let Some(name) = partner_of(log, life) else {
            return Ok(Err(place));
        };
        names.push(name)?;
    }
    Ok(Ok(names))
}
