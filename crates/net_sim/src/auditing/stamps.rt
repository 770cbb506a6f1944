//! Whether the stamps of lives name requests.

ghost use Rattle.std.specs.Prelude.{◌≡◌, length, reverse, take};
ghost use Rattle.std.specs.List.{list_all};
ghost use Rattle.net_sim.specs.Inside.Audit as tests;
ghost use Rattle.net_sim.specs.Inside.Audit.{Found};

use super::requests::{asked_at, control_flow};
use interface::{Crossing, Flow};
use promise::{BitLog, Life};

/// Returns whether this is a message of this flow that went out.
fn is_out(crossing: &Crossing, flow: Flow) -> bool
    ensures { result ≡ tests.is_out flow (Some crossing.now) }
{
    match crossing {
        Crossing::Out(message) => flow == message.flow,
        Crossing::In(_) | Crossing::Answer(..) | Crossing::Down(_) | Crossing::Up(_) => false,
    }
}

/// Returns whether this is a message of this flow that came in.
fn is_in(crossing: &Crossing, flow: Flow) -> bool
    ensures { result ≡ tests.is_in flow (Some crossing.now) }
{
    match crossing {
        Crossing::In(message) => flow == message.flow,
        Crossing::Out(_) | Crossing::Answer(..) | Crossing::Down(_) | Crossing::Up(_) => false,
    }
}

/// Returns whether a message of this flow went out at a place.
fn went_out(log: &[Crossing], place: usize, flow: Flow) -> bool
    ensures { result ≡ tests.is_out flow (tests.crossed_at place (reverse log.now)) }
{
    if place >= log.len() {
        return false;
    }
    is_out(&log[place], flow)
}

/// Returns whether a message of this flow came in at a place.
fn came_in(log: &[Crossing], place: usize, flow: Flow) -> bool
    ensures { result ≡ tests.is_in flow (tests.crossed_at place (reverse log.now)) }
{
    if place >= log.len() {
        return false;
    }
    is_in(&log[place], flow)
}

/// Returns whether the stamps of a life name requests.
fn is_stamped(log: &[Crossing], x: &Life) -> bool
    ensures { result ≡ tests.is_stamped (reverse log.now) x.now }
{
    went_out(log, x.own_stamp, control_flow(x.host, x.peer))
        && came_in(log, x.partner_stamp, control_flow(x.peer, x.host))
        && asked_at(log, x).is_some()
}

/// Returns the place of the first life with a stamp that names no request.
pub(super) fn unstamped_at(log: &[Crossing], lives: &[Life]) -> Option<usize>
    ensures { Found (λ n. list_all (tests.is_stamped (reverse log.now)) (take n lives.now)) (length lives.now) result }
{
    for (place, x) in lives.iter().enumerate() {
        if !is_stamped(log, x) {
            return Some(place);
        }
    }
    None
}

/// Returns whether the stamps of each life name requests.
fn are_stamped(log: &[Crossing], lives: &[Life]) -> bool
    ensures { result ≡ list_all (tests.is_stamped (reverse log.now)) lives.now }
{
    unstamped_at(log, lives).is_none()
}

/// Returns whether there is one list of bits for each life, and the stamps of each life name requests.
pub(super) fn are_well_formed(log: &[Crossing], lives: &[Life], handed: &[BitLog]) -> bool
    ensures { result ≡ tests.is_well_formed (reverse log.now) lives.now handed.now }
{
    lives.len() == handed.len() && are_stamped(log, lives)
}
