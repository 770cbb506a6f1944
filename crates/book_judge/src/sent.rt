//! Whether each message that a life counts went out as the one with its number of a life that it matches.

ghost use Rattle.std.specs.Bool.{OnTrue};
ghost use Rattle.std.specs.Prelude.{◌≡◌, ◌<◌, ◌+◌, ◌≤◌, ℕ, List, MatchBool, length};
ghost use Rattle.interface.specs.declared.crossing.Crossing.{Crossing};
ghost use Rattle.book_judge.specs.Inside.Chains.{AreChained, FoundFirst};
ghost use Rattle.book_judge.specs.Inside.Sent as tests;
ghost use Rattle.book_judge.specs.Inside.Sent.{ArriveIn, EachSent, SentAt, SentNth};

use crate::arrivals::{Arrival, arrival_of};
use crate::data::{flow_of, receives};
use crate::joined::Joined;
use crate::names::Name;
use crate::places::Places;
use crate::sought::{Sought, is_found};
use crate::starts::{Start, Taking, start_at};
use interface::Flow;
use net_sim::Life;

/// Returns whether the message that came in with a number on a receiving life's flow went out as the one with its number
/// of a life that it matches; also where that many didn't come in.
fn was_sent(
    into: &Joined,
    arrivals: &[Arrival],
    starts: &[Option<Start>],
    start: Start,
    number: usize,
    asked: &Name,
    life: &Life,
    last: &Places,
    before: &[Option<usize>],
    names: &[Name],
    lives: &[Life],
) -> bool
    requires chained { AreChained (length lives.now) last.now before.now lives.now }
    requires since { start.before ≤ number }
    ensures { (log : List Crossing) → ArriveIn log into.now arrivals.now → MatchBool result (SentNth log starts.now start asked.now life.now names.now lives.now number) (SentNth log starts.now start asked.now life.now names.now lives.now number → ⊥) }
{
    let flow = flow_of(life, start.link);
    match arrival_of(into, arrivals, &flow, number) {
        Some(arrival) => {
            let taking = Taking {
                link: start.link,
                nth: number - start.before,
                sent: arrival.sent,
            };
            is_found(
                Sought::Sender(starts, taking),
                asked,
                life,
                last,
                before,
                names,
                lives,
            )
        }
        None => true,
    }
}

/// Returns whether that is so of each message from a life's first on up to one with a number.
fn each_sent(
    into: &Joined,
    arrivals: &[Arrival],
    starts: &[Option<Start>],
    start: Start,
    past: usize,
    asked: &Name,
    life: &Life,
    last: &Places,
    before: &[Option<usize>],
    names: &[Name],
    lives: &[Life],
) -> bool
    requires { AreChained (length lives.now) last.now before.now lives.now }
    ensures { (log : List Crossing) → ArriveIn log into.now arrivals.now → MatchBool result (EachSent log starts.now start asked.now life.now names.now lives.now past) (EachSent log starts.now start asked.now life.now names.now lives.now past → ⊥) }
{
    for number in start.before..past {
        if !was_sent(
            into, arrivals, starts, start, number, asked, life, last, before, names, lives,
        ) {
            return false;
        }
    }
    true
}

/// Returns whether one message of a flow had gone out between each that came in and the next, from one with a number on up
/// to another.
fn is_steady(into: &Joined, arrivals: &[Arrival], flow: &Flow, first: usize, number: usize) -> bool
    ensures { (log : List Crossing) → ArriveIn log into.now arrivals.now → OnTrue result (tests.Rises flow.now log first number) }
{
    match arrival_of(into, arrivals, flow, number) {
        Some(arrival) => arrival.since <= first,
        None => false,
    }
}

/// Returns the number after that of the last message that a life counts, among those of its flow that came in: that many had
/// come in before it, and that many have in all.
fn past_of(before: usize, messages: u128, count: usize) -> usize
    ensures inside { (n : ℕ) → before ≤ n → n < result → n < before + messages }
    ensures all { (n : ℕ) → before ≤ n → n < before + messages → n < count → n < result }
{
    if count <= before {
        return before;
    }
    match usize::try_from(messages) {
        Ok(messages) if messages < count - before => before + messages,
        Ok(_) | Err(_) => count,
    }
}

/// Returns whether each message that a receiving life counts went out as the one with its number of a life that it matches.
///
/// Where one had gone out between each of them and the next, the last shows it of all.
fn all_sent(
    into: &Joined,
    arrivals: &[Arrival],
    starts: &[Option<Start>],
    start: Start,
    asked: &Name,
    life: &Life,
    last: &Places,
    before: &[Option<usize>],
    names: &[Name],
    lives: &[Life],
) -> bool
    requires { AreChained (length lives.now) last.now before.now lives.now }
    ensures { (log : List Crossing) → ArriveIn log into.now arrivals.now → tests.Tells log starts.now start asked.now life.now names.now lives.now result }
{
    let flow = flow_of(life, start.link);
    let count = into.between(&flow, 0, arrivals.len());
    let past = past_of(start.before, life.messages, count);
    if past <= start.before {
        return true;
    }
    if is_steady(into, arrivals, &flow, start.before, past - 1) {
        return was_sent(
            into,
            arrivals,
            starts,
            start,
            past - 1,
            asked,
            life,
            last,
            before,
            names,
            lives,
        );
    }
    each_sent(
        into, arrivals, starts, start, past, asked, life, last, before, names, lives,
    )
}

/// Returns whether that is so of the life at a place, if it receives and its link is known.
fn is_sent(
    into: &Joined,
    arrivals: &[Arrival],
    starts: &[Option<Start>],
    last: &Places,
    before: &[Option<usize>],
    names: &[Name],
    lives: &[Life],
    place: usize,
) -> bool
    requires chained { AreChained (length lives.now) last.now before.now lives.now }
    requires counts { (length names.now ≡ length lives.now) × (length starts.now ≡ length lives.now) }
    requires place { place < length lives.now }
    ensures { (log : List Crossing) → ArriveIn log into.now arrivals.now → MatchBool result (SentAt log starts.now names.now lives.now place) (SentAt log starts.now names.now lives.now place → ⊥) }
{
    let life = &lives[place];
    if !receives(life) {
        return true;
    }
    match start_at(starts, place) {
        Some(start) => all_sent(
            into,
            arrivals,
            starts,
            start,
            &names[place],
            life,
            last,
            before,
            names,
            lives,
        ),
        None => true,
    }
}

/// Returns the place of the first receiving life that counts a message which didn't go out as the one with its number of a
/// life that it matches. These are the requests of the partners of the lives, and where the messages of each begin.
pub(crate) fn unsent_at(
    into: &Joined,
    arrivals: &[Arrival],
    starts: &[Option<Start>],
    last: &Places,
    before: &[Option<usize>],
    names: &[Name],
    lives: &[Life],
) -> Option<usize>
    requires chained { AreChained (length lives.now) last.now before.now lives.now }
    requires counts { (length names.now ≡ length lives.now) × (length starts.now ≡ length lives.now) }
    ensures { (log : List Crossing) → ArriveIn log into.now arrivals.now → FoundFirst (SentAt log starts.now names.now lives.now) (length lives.now) result }
{
    for place in 0..lives.len() {
        if !is_sent(into, arrivals, starts, last, before, names, lives, place) {
            return Some(place);
        }
    }
    None
}
