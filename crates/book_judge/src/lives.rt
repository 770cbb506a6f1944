//! Whether lives are made of the messages that crossed before their ends.

ghost use Rattle.std.specs.Prelude.{◌≡◌, false, MatchBool, MatchOption, reverse, true};
ghost use Rattle.interface.specs.Host.{Host};
ghost use Rattle.promise.specs.Formed as formed;
ghost use Rattle.promise.specs.Safe as safe;
ghost use Rattle.book_judge.specs.Inside.Made.{IsMadeBy};
ghost use Rattle.book_judge.specs.Lives.{AreMade, UnmadeAt};

use crate::data::{is_made_on, receives};
use crate::indexed_log::IndexedLog;
use crate::joined::message_of;
use crate::requests::named_in;
use interface::{Crossing, Flow, HostAddr, Link};
use net_sim::Life;

/// Returns the flow of requests from one host to another.
pub(crate) fn control_flow(source: HostAddr, destination: HostAddr) -> Flow
    ensures { result ≡ safe.control_flow source destination }
{
    Flow {
        source,
        destination,
        link: Link(0),
    }
}

/// Returns what the first request of two sockets names in the message that crossed on a flow at a place, coming in or going out.
fn named_at(
    log: &[Crossing],
    comes: bool,
    flow: &Flow,
    own: u32,
    foreign: u32,
    place: usize,
) -> Option<u8>
    ensures { (from to : Host) → flow.now ≡ safe.control_flow from to → result ≡ formed.named_at comes from to own foreign place (reverse log.now) }
{
    let message = message_of(comes, log.get(place)?)?;
    if *flow == message.flow {
        return named_in(own, foreign, message.text.bits());
    }
    None
}

/// Returns what the own request of a life names.
fn own_named(log: &[Crossing], life: &Life) -> Option<u8>
    ensures { result ≡ formed.own_named (reverse log.now) life.now }
{
    let goes = control_flow(life.host, life.peer);
    named_at(log, false, &goes, life.socket, life.foreign, life.own_stamp)
}

/// Returns what the request of a life's partner names.
fn partner_named(log: &[Crossing], life: &Life) -> Option<u8>
    ensures { result ≡ formed.partner_named (reverse log.now) life.now }
{
    let comes = control_flow(life.peer, life.host);
    named_at(
        log,
        true,
        &comes,
        life.foreign,
        life.socket,
        life.partner_stamp,
    )
}

/// Returns the link of a life: of its two requests the RTS names it.
pub(crate) fn link_of(log: &[Crossing], life: &Life) -> Option<u8>
    ensures { result ≡ formed.link_of (reverse log.now) life.now }
{
    if receives(life) {
        own_named(log, life)
    } else {
        partner_named(log, life)
    }
}

/// Returns whether a life is made of messages that crossed before a place.
fn is_made(log: &IndexedLog<'_>, life: &Life, until: usize) -> bool
    ensures { MatchBool result (IsMadeBy (reverse log.now) until life.now) (IsMadeBy (reverse log.now) until life.now → ⊥) }
{
    let crossed = log.crossings();
    let (Some(own), Some(partner)) = (own_named(crossed, life), partner_named(crossed, life)) else {
        return false;
    };
    if receives(life) {
        return is_made_on(crossed, log.came(), life, own, until);
    }
    is_made_on(crossed, log.went(), life, partner, until)
}

/// Returns the place of the first life that isn't made of messages that crossed before it was over, counted from 0;
/// `None` where all are.
///
/// The RTS of a life's two requests names its link, and its messages are the first there after both of these, as many as it
/// counts: what comes in for a receiving life, and what goes out for a sending one (NIC 8246, RTS, STR and messages of data).
/// It counts none that crossed after both CLS, after its connections were dropped, or after its host stopped. The data
/// of each flow are joined, so the time grows with the log, whatever the lives count.
pub fn unmade_at(log: &IndexedLog<'_>, lives: &[Life]) -> Option<usize>
    ensures { MatchOption result (AreMade (reverse log.now) lives.now) (λ place. UnmadeAt (reverse log.now) lives.now place) }
{
    let crossed = log.crossings();
    let courses = log.courses();
    for (place, life) in lives.iter().enumerate() {
        let end = courses.end(crossed.len(), life);
        if !is_made(log, life, end) {
            return Some(place);
        }
    }
    None
}
