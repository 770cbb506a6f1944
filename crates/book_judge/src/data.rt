//! The data of a message, and where those of a life are.

ghost use Rattle.std.specs.Prelude.{◌≡◌, ◌≤◌, IfSome, List, MatchBool, Some, drop, length, take};
ghost use Rattle.interface.specs.declared.crossing.Crossing as passed;
ghost use Rattle.promise.specs.Formed as formed;
ghost use Rattle.promise.specs.Formed.{flow_of};
ghost use Rattle.promise.specs.Safe as safe;
ghost use Rattle.promise.specs.Safe.{receives};
ghost use Rattle.book_judge.specs.Inside.Joined.{AreJoined};
ghost use Rattle.book_judge.specs.Inside.Made as tests;

use crate::joined::Joined;
use bit_messages::Bits;
use interface::{Crossing, Flow, Link};
use ncp_control::{DataHeader, HEADER_BITS};
use net_sim::Life;

/// Returns whether a life receives.
pub(crate) fn receives(life: &Life) -> bool
    ensures { result ≡ safe.receives life.now }
{
    life.socket % 2 == 0
}

/// Returns where the data of a text end: where it comes in by what its header announces, and where it goes out at its end.
pub(crate) fn end_of(comes: bool, text: &Bits) -> Option<usize>
    ensures exact { result ≡ tests.end_of comes text.now }
    ensures within { IfSome result (λ end. end ≤ length text.now) }
{
    if !comes {
        return Some(text.len());
    }
    let header = DataHeader::read(text)?;
    Some(HEADER_BITS + header.data_bits() as usize)
}

/// Returns whether there are two bits, and they are the same.
pub(crate) fn same_found(bit: Option<bool>, other: Option<bool>) -> bool
    ensures { result ≡ tests.same_found bit other }
{
    match (bit, other) {
        (Some(bit), Some(other)) => bit == other,
        (Some(_), None) | (None, _) => false,
    }
}

/// Returns the flow of a life's messages on a link.
pub(crate) fn flow_of(life: &Life, link: u8) -> Flow
    ensures { result ≡ formed.flow_of life.now link }
{
    let (source, destination) = if receives(life) {
        (life.peer, life.host)
    } else {
        (life.host, life.peer)
    };
    Flow {
        source,
        destination,
        link: Link(link),
    }
}

/// Returns the place after both requests of a life, or that after the last crossing where it isn't past it.
pub(crate) fn since(log: &[Crossing], life: &Life) -> usize
    ensures same { drop result log.now ≡ drop (tests.since life.now) log.now }
    ensures before { take result log.now ≡ take (tests.since life.now) log.now }
    ensures within { result ≤ length log.now }
{
    let begun = life.own_stamp.max(life.partner_stamp);
    if begun < log.len() {
        begun + 1
    } else {
        log.len()
    }
}

/// Returns whether the messages of a life are the first on a link after both of its requests, as many as it counts, with its
/// bits. What crossed on each flow is joined.
fn is_first_on(log: &[Crossing], joined: &Joined, life: &Life, link: u8) -> bool
    requires { AreJoined (receives life.now) log.now joined.now }
    ensures { MatchBool result (tests.HasBits log.now life.now link) (tests.HasBits log.now life.now link → ⊥) }
{
    joined.has(
        &flow_of(life, link),
        since(log, life),
        life.messages,
        &life.bits,
    )
}

/// Returns whether as many messages of a life as it counts crossed on a link before a place, after both its requests.
fn is_counted_on(joined: &Joined, life: &Life, link: u8, until: usize) -> bool
    ensures { (log : List passed.Crossing) → AreJoined (receives life.now) log joined.now → tests.Counts log life.now link until result }
{
    let begun = life.own_stamp.max(life.partner_stamp);
    if until <= begun {
        return life.messages == 0;
    }
    life.messages <= joined.between(&flow_of(life, link), begun + 1, until) as u128
}

/// Returns whether the messages of a life are the first on a link after both of its requests, as many as it counts, with its
/// bits, and all crossed before a place. What crossed on each flow is joined.
pub(crate) fn is_made_on(
    log: &[Crossing],
    joined: &Joined,
    life: &Life,
    link: u8,
    until: usize,
) -> bool
    requires { AreJoined (receives life.now) log.now joined.now }
    ensures { tests.Makes log.now life.now link until result }
{
    if !is_first_on(log, joined, life, link) {
        return false;
    }
    is_counted_on(joined, life, link, until)
}
