//! How many messages had gone out before each one came in.

ghost use Rattle.std.specs.Prelude.{◌≡◌, ◌<◌, IfOk, List, length, true};
ghost use Rattle.interface.specs.declared.crossing.Crossing.{Crossing};
ghost use Rattle.book_judge.specs.Inside.Joined.{AreJoined};
ghost use Rattle.book_judge.specs.Inside.Arrivals as tests;
ghost use Rattle.book_judge.specs.Inside.Arrivals.{AreArrivals, ArrivalOf, IsArrivalAt, IsSteady};

use crate::indexed_log::IndexedLog;
use crate::joined::{Joined, message_of};
use interface::Flow;
use std::alloc::{AllocError, Global};

/// What is known of a message that came in.
#[derive(Clone, Copy)]
pub(crate) struct Arrival {
    /// How many messages of its flow had gone out before.
    pub(crate) sent: usize,
    /// The number of a message of its flow that came in: from it on one message had gone out between each and the next.
    pub(crate) since: usize,
}

/// Returns what is known of the message that came in at a place, if there is one.
fn found_in(arrivals: &[Arrival], place: Option<usize>) -> Option<Arrival>
    ensures { result ≡ tests.found_in arrivals.now place }
{
    let place = place?;
    match arrivals.get(place) {
        Some(arrival) => Some(*arrival),
        None => None,
    }
}

/// Returns from which message on one had gone out between each that came in and the next, up to the one with a number, before
/// which that many had gone out, and after this.
fn risen(last: Arrival, number: usize, sent: usize) -> usize
    ensures { result ≡ tests.risen last number sent }
{
    if last.sent < sent && sent - last.sent == 1 {
        last.since
    } else {
        number
    }
}

/// Returns from which message of a flow on one had gone out between each that came in and the next, up to the one with a
/// number, before which that many had gone out. Of some earlier ones it is known.
fn since_of(into: &Joined, arrivals: &[Arrival], flow: &Flow, number: usize, sent: usize) -> usize
    ensures { (log : List Crossing) → AreJoined true log into.now → AreArrivals (length arrivals.now) arrivals.now log → IsSteady flow.now log number sent result }
{
    if number == 0 {
        return number;
    }
    match found_in(arrivals, into.place(flow, number - 1)) {
        Some(last) => risen(last, number, sent),
        None => number,
    }
}

/// Returns what is known of the message that came in at a place, if one did. Of earlier ones it is known.
fn arrival_at(log: &IndexedLog<'_>, arrivals: &[Arrival], place: usize) -> Arrival
    requires place { place < length log.now }
    requires earlier { AreArrivals place arrivals.now log.now }
    ensures { IsArrivalAt log.now place result }
{
    let crossed = log.crossings();
    let into = log.came();
    let Some(message) = message_of(true, &crossed[place]) else {
        return Arrival { sent: 0, since: 0 };
    };
    let number = into.between(&message.flow, 0, place);
    let sent = log.went().between(&message.flow, 0, place);
    let since = since_of(into, arrivals, &message.flow, number, sent);
    Arrival { sent, since }
}

/// Returns what is known of each message that came in, by the places of a log.
///
/// Errors: `AllocError`.
pub(crate) fn arrivals_of(alloc: Global, log: &IndexedLog<'_>) -> Result<Vec<Arrival>, AllocError>
    ensures { IfOk result (λ arrivals. AreArrivals (length log.now) arrivals.items log.now) }
{
    let crossed = log.crossings();
    let mut arrivals = Vec::new(alloc);
    for place in 0..crossed.len() {
        let arrival = arrival_at(log, &arrivals, place);
        arrivals.push(arrival)?;
    }
    Ok(arrivals)
}

/// Returns what is known of the message of a flow that came in with a number.
pub(crate) fn arrival_of(
    into: &Joined,
    arrivals: &[Arrival],
    flow: &Flow,
    number: usize,
) -> Option<Arrival>
    ensures { (log : List Crossing) → AreJoined true log into.now → AreArrivals (length log) arrivals.now log → ArrivalOf flow.now log number result }
{
    found_in(arrivals, into.place(flow, number))
}
