//! Going through a calm of a subnet: its elementary events, one after another.

ghost use Rattle.std.specs.Prelude.{◌≡◌, ◌<◌, false, drop, if◌then◌else◌, length, None, Some};
ghost use Rattle.imp_node.specs.Queries as queries;
ghost use Rattle.interface.specs.declared.event.NetEvent.TheVariants as net;
ghost use Rattle.script.specs.declared.event.RawEvent.TheVariants as event;
ghost use Rattle.subnet.specs.Alive.{says};
ghost use Rattle.subnet.specs.Net.{imp_at};
ghost use Rattle.subnet_trace.specs.Elements as elements;
ghost use Rattle.subnet_trace.specs.Elements.{calm_left, from_subnet, imp_left, is_working, live_frames, round_from_line, round_left};
ghost use Rattle.subnet.specs.Working.{subnet_calls};
ghost use Rattle.subnet_trace.specs.Steps as steps;
ghost use Rattle.subnet_trace.specs.Steps.{IsNext};
ghost use Rattle.subnet_trace.specs.declared.place.Stage.TheVariants as stages;
ghost use Rattle.trace.specs.Elements.{takings_from};
ghost use Rattle.trace.specs.Traces.{GoesOnWith};

use crate::place::{Place, Stage};
use interface::{Carrier, Direction, ImpNumber, NetEvent, TAKINGS};
use script::RawEvent;
use subnet::Subnet;
use trace::Element;

/// Returns the next elementary event of a calm, and the place after it; `None` where the calm is over.
///
/// Where nothing comes from the beginning of a round to its end the calm is over: nothing changes, so nothing comes in
/// any later round either.
pub(crate) fn next_in_calm(subnet: &Subnet, place: Place) -> Option<(Element, Place)>
    ensures { GoesOnWith subnet_calls (λ k p. calm_left k.net p) subnet.now place result }
{
    if let Some((event, stage)) = next_in_round(subnet, place.stage) {
        return Some(in_round(place, event, stage));
    }
    if place.round >= place.rounds {
        return None;
    }
    let begun = Place {
        round: place.round + 1,
        stage: Stage::Refreshing {
            imp: 0,
            told: false,
        },
        ..place
    };
    match next_in_round(subnet, begun.stage) {
        Some((event, stage)) => Some(in_round(begun, event, stage)),
        None => None,
    }
}

/// Returns an event in the round of a place, and the place after it.
fn in_round(place: Place, event: RawEvent, stage: Stage) -> (Element, Place)
    ensures { result ≡ (record { round = place.round; event = event }, record place { stage = stage }) }
{
    let element = Element {
        round: place.round,
        event,
    };
    (element, Place { stage, ..place })
}

/// Returns the next event of a round, and the stage after it; `None` where the round is over.
fn next_in_round(subnet: &Subnet, stage: Stage) -> Option<(RawEvent, Stage)>
    ensures { IsNext subnet.now.net (λ round. round_left round stage subnet.now.net) result }
{
    match stage {
        Stage::Refreshing { imp, told } => from_imp(subnet, imp, told),
        Stage::Carrying {
            line,
            direction,
            frames,
            delivered,
        } => from_frame(subnet, line, direction, frames, delivered),
        Stage::Taking { host, times } => from_host(subnet, host, times),
        Stage::Over => None,
    }
}

// ---- IMPs

/// Returns the next event from an IMP on, which has sent its distances, or has not.
fn from_imp(subnet: &Subnet, imp: u8, mut told: bool) -> Option<(RawEvent, Stage)>
    ensures { IsNext subnet.now.net (λ round. imp_left round imp told subnet.now.net) result }
{
    for number in imp..subnet.imp_places() {
        if let Some(next) = call_of(subnet, number, told) {
            return Some(next);
        }
        told = false;
    }
    from_line(subnet, 0)
}

/// Returns what an IMP does, if it is up: it sends its distances, or, where it has sent them, sends again if it holds a
/// packet.
fn call_of(subnet: &Subnet, number: u8, told: bool) -> Option<(RawEvent, Stage)>
    ensures { result ≡ steps.call_of subnet.now.net number told }
{
    let imp = working(subnet, number)?;
    if !told {
        let next = Stage::Refreshing {
            imp: number,
            told: true,
        };
        return Some((RawEvent::Net(NetEvent::Route(imp)), next));
    }
    if !holds_packet(subnet, number) {
        return None;
    }
    let next = Stage::Refreshing {
        imp: number + 1,
        told: false,
    };
    Some((RawEvent::Net(NetEvent::Resend(imp)), next))
}

/// Returns the IMP of this number, if the network has it and it is up.
fn working(subnet: &Subnet, number: u8) -> Option<ImpNumber>
    ensures { result ≡ (if is_working subnet.now.net number then Some number else None) }
{
    if subnet.imp(number).is_some() {
        subnet.imp_number(number)
    } else {
        None
    }
}

/// Returns whether the IMP of this number is up and holds a packet.
fn holds_packet(subnet: &Subnet, number: u8) -> bool
    ensures { result ≡ says queries.holds_packet (imp_at subnet.now.net.imps number) }
{
    match subnet.imp(number) {
        Some(imp) => imp.holds_packet(),
        None => false,
    }
}

// ---- lines

/// Returns the next event from a line on.
fn from_line(subnet: &Subnet, line: usize) -> Option<(RawEvent, Stage)>
    ensures { IsNext subnet.now.net (λ round. round_from_line round line subnet.now.net) result }
{
    for at in line..subnet.line_count() as usize {
        let number = at as u32;
        if let Some(next) = begin_turn(subnet, number, Direction::Forward) {
            return Some(next);
        }
        if let Some(next) = begin_turn(subnet, number, Direction::Back) {
            return Some(next);
        }
    }
    from_host(subnet, 0, TAKINGS)
}

/// Returns the next event in the turn of a directed line, of which this many frames are left, or after it.
fn from_frame(
    subnet: &Subnet,
    line: u32,
    direction: Direction,
    frames: usize,
    delivered: bool,
) -> Option<(RawEvent, Stage)>
    ensures { IsNext subnet.now.net (λ round. round_left round (stages.Carrying line direction frames delivered) subnet.now.net) result }
{
    if delivered {
        return Some(drop_frame(line, direction, frames));
    }
    if frames > 0 && live(subnet, line, direction) > 0 {
        return Some(move_frame(subnet, line, direction, frames - 1));
    }
    after_turn(subnet, line, direction)
}

/// Returns the next event after the turn of a directed line.
fn after_turn(subnet: &Subnet, line: u32, direction: Direction) -> Option<(RawEvent, Stage)>
    ensures { IsNext subnet.now.net (λ round. elements.after_turn round line direction subnet.now.net) result }
{
    if let Some(next) = begin_other_turn(subnet, line, direction) {
        return Some(next);
    }
    from_line(subnet, line as usize + 1)
}

/// Returns the first event in a line's other turn: after the turn forward comes the turn back, and after that none.
fn begin_other_turn(subnet: &Subnet, line: u32, direction: Direction) -> Option<(RawEvent, Stage)>
    ensures { result ≡ steps.other_turn_begun subnet.now.net line direction }
{
    match direction {
        Direction::Forward => begin_turn(subnet, line, Direction::Back),
        Direction::Back => None,
    }
}

/// Returns the first event in the turn of a directed line; `None` where no frame of it is live.
fn begin_turn(subnet: &Subnet, line: u32, direction: Direction) -> Option<(RawEvent, Stage)>
    ensures { result ≡ steps.turn_begun subnet.now.net line direction }
{
    let frames = live(subnet, line, direction);
    if frames > 0 {
        Some(move_frame(subnet, line, direction, frames - 1))
    } else {
        None
    }
}

/// Delivers the oldest frame of a directed line, if the IMP at the far end is up, and else drops it. This many frames are
/// left after it.
fn move_frame(subnet: &Subnet, line: u32, direction: Direction, frames: usize) -> (RawEvent, Stage)
    requires { line < length subnet.now.net.lines }
    ensures { result ≡ steps.frame_moved subnet.now.net line direction frames }
{
    if !is_heard(subnet, line, direction) {
        return drop_frame(line, direction, frames);
    }
    let event = NetEvent::Deliver {
        line,
        direction,
        frame: 0,
    };
    let next = Stage::Carrying {
        line,
        direction,
        frames,
        delivered: true,
    };
    (RawEvent::Net(event), next)
}

/// Drops the oldest frame of a directed line. This many frames are left after it.
fn drop_frame(line: u32, direction: Direction, frames: usize) -> (RawEvent, Stage)
    ensures { result ≡ (event.Net (net.Drop line direction 0), stages.Carrying line direction frames false) }
{
    let event = NetEvent::Drop {
        line,
        direction,
        frame: 0,
    };
    let next = Stage::Carrying {
        line,
        direction,
        frames,
        delivered: false,
    };
    (RawEvent::Net(event), next)
}

/// Returns whether the IMP at the far end of a directed line is up.
fn is_heard(subnet: &Subnet, line: u32, direction: Direction) -> bool
    requires { line < length subnet.now.net.lines }
    ensures { result ≡ elements.is_heard subnet.now.net line direction }
{
    let wire = &subnet.lines()[line as usize];
    subnet.imp(wire.far_end(direction)).is_some()
}

/// Returns how many frames of a directed line are live; none where there is no such line.
fn live(subnet: &Subnet, line: u32, direction: Direction) -> usize
    ensures frames { result ≡ live_frames subnet.now.net line direction }
    ensures line { 0 < result → line < length subnet.now.net.lines }
{
    let lines = subnet.lines();
    let at = line as usize;
    if at < lines.len() {
        lines[at].live(direction)
    } else {
        0
    }
}

// ---- hosts

/// Returns the next taking of a host that gives something, from this host on, which may take this many times.
fn from_host(subnet: &Subnet, host: usize, mut times: u8) -> Option<(RawEvent, Stage)>
    ensures { IsNext subnet.now.net (λ round. takings_from from_subnet round (drop host subnet.now.net.hosts) times subnet.now.net) result }
{
    let hosts = subnet.hosts();
    for place in host..hosts.len() {
        let host = hosts[place];
        if times > 0 && subnet.gives(&host) {
            let next = Stage::Taking {
                host: place,
                times: times - 1,
            };
            return Some((RawEvent::Take(host), next));
        }
        times = TAKINGS;
    }
    None
}
