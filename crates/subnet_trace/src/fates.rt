//! What becomes of a frame that is delivered, found before it is.

ghost use Rattle.std.specs.Prelude.{◌≡◌, slice_get};
ghost use Rattle.std.specs.FinMap as map;
ghost use Rattle.imp_node.specs.Arrival.{arrival, ask_arrival, data_arrival};
ghost use Rattle.imp_node.specs.Room as room;
ghost use Rattle.link_table.specs.Flows.{asked_in, release_in};
ghost use Rattle.packetiser.specs.PacketFields.{flow_of};
ghost use Rattle.packetiser.specs.declared.packet.PacketKind.TheVariants as kinds;
ghost use Rattle.subnet.specs.Net as net;
ghost use Rattle.subnet.specs.Net.{frames_on, wire_at};
ghost use Rattle.subnet_trace.specs.Fates as fates;
ghost use Rattle.subnet_trace.specs.Printing.{fate_with_room, judged_with_room};

use imp_channel::{Content, Frame};
use imp_node::{Imp, QUEUE_PLACES, STORE_PLACES, target};
use interface::{Direction, NetEvent};
use link_table::{Age, Asked};
use packetiser::{Outcome, Packet, PacketKind};
use script::RawEvent;
use subnet::{Subnet, Wire};
use trace::Fate;

/// Returns what becomes of the frame that an event is going to deliver; `None` for an event that delivers none.
pub(crate) fn fate_of(subnet: &Subnet, event: &RawEvent) -> Option<Fate>
    ensures { result ≡ fates.fate_of subnet.now.net event.now }
{
    let RawEvent::Net(
        NetEvent::Deliver {
            line,
            direction,
            frame,
        },
    ) = event
    else {
        return None;
    };
    frame_fate(subnet, *line, *direction, *frame)
}

/// Returns what becomes of the frame at this place of a directed line; `None` where there is none.
fn frame_fate(subnet: &Subnet, line: u32, direction: Direction, frame: u32) -> Option<Fate>
    ensures { result ≡ fates.frame_fate subnet.now.net line direction (slice_get (frames_on direction (wire_at subnet.now.net.lines line)) frame) }
{
    let lines = subnet.lines();
    let place = line as usize;
    if place >= lines.len() {
        return None;
    }
    let wire = &lines[place];
    let frame = wire.frames(direction).get(frame as usize)?;
    let number = wire.far_end(direction);
    let Some(imp) = subnet.imp(number) else {
        return Some(Fate::ImpDown);
    };
    Some(end_fate(imp, port_of(lines, number, place), frame))
}

/// Returns the port of an IMP that is its end of a line: its lines are its ports, in their order.
fn port_of(lines: &[Wire], imp: u8, line: usize) -> usize
    ensures { result ≡ net.port_of lines.now imp line }
{
    lines
        .iter()
        .take(line)
        .filter(|wire| wire.ends_at(imp))
        .count()
}

/// Returns what becomes of a frame at a port.
fn end_fate(imp: &Imp, port: usize, frame: &Frame) -> Fate
    ensures { result ≡ fates.end_fate imp.now port frame.now }
{
    let ports = imp.ports();
    if port >= ports.len() || !ports[port].up {
        return Fate::EndDown;
    }
    match &frame.content {
        Content::Nothing => Fate::Acks,
        Content::Routes(_) => Fate::Distances,
        Content::Packet(carried) => {
            if ports[port].line.is_fresh(frame) {
                packet_fate(imp, carried.packet())
            } else {
                Fate::Repeat
            }
        }
    }
}

/// Returns what becomes of a fresh packet.
fn packet_fate(imp: &Imp, packet: &Packet) -> Fate
    ensures { result ≡ fates.packet_fate imp.now packet.now }
{
    let target = target(packet);
    if target != imp.routes().own() {
        return if_room(has_room_to(imp, target), Fate::Passing);
    }
    match packet.kind() {
        PacketKind::Data => piece_fate(imp, packet),
        PacketKind::Ask => question_fate(imp, packet),
        PacketKind::Rfnm | PacketKind::Dead | PacketKind::Never => answer_fate(imp, packet),
    }
}

/// Returns this fate where there is room, and `NoRoom` where there is none.
fn if_room(room: bool, fate: Fate) -> Fate
    ensures { result ≡ fate_with_room room fate }
{
    if room { fate } else { Fate::NoRoom }
}

/// Returns what becomes of a fresh piece for this IMP.
fn piece_fate(imp: &Imp, packet: &Packet) -> Fate
    requires { packet.now.kind ≡ kinds.Data }
    ensures { result ≡ judged_with_room (data_arrival imp.now packet.now) imp.now packet.now }
{
    let flow = packet.flow();
    if imp.kept_flows().judge(&flow, packet.number()) == Age::Old {
        return Fate::Old;
    }
    let host = flow.destination.host();
    if !imp.is_up(host) {
        return if_room(has_room_to(imp, flow.source.imp()), Fate::Dead);
    }
    match imp.slots().outcome(packet) {
        Outcome::Kept => Fate::Piece,
        Outcome::Old => Fate::Old,
        Outcome::Full => Fate::NoRoom,
        Outcome::Whole if !imp.slots().is_marked(packet) => Fate::Unmarked,
        Outcome::Whole => if_room(queue_has_room(imp, host), Fate::Whole),
    }
}

/// Returns what becomes of a fresh question for this IMP.
fn question_fate(imp: &Imp, packet: &Packet) -> Fate
    ensures { result ≡ judged_with_room (ask_arrival (asked_in (map.get imp.now.kept (flow_of packet.now)) packet.now.number)) imp.now packet.now }
{
    let flow = packet.flow();
    let fate = match imp.kept_flows().asked(&flow, packet.number()) {
        Asked::Silent => return Fate::Old,
        Asked::Note => Fate::Never,
        Asked::Rfnm | Asked::Dead | Asked::Never => Fate::Replied,
    };
    if_room(has_room_to(imp, flow.source.imp()), fate)
}

/// Returns what becomes of a fresh answer for this IMP.
fn answer_fate(imp: &Imp, packet: &Packet) -> Fate
    ensures { result ≡ fates.release_fate (release_in packet.now.number (map.get imp.now.sources (flow_of packet.now))) }
{
    if imp.outstanding(&packet.flow()) == Some(packet.number()) {
        Fate::Answer
    } else {
        Fate::Stale
    }
}

// ---- room

/// Returns whether a packet to another IMP has room, or needs none since no way leads there.
fn has_room_to(imp: &Imp, other: u8) -> bool
    ensures { result ≡ room.has_room_to imp.now other }
{
    imp.routes().next(other).is_none() || has_place(imp)
}

/// Returns whether one more packet has room in the store.
fn has_place(imp: &Imp) -> bool
    ensures { result ≡ room.has_room imp.now 1 }
{
    let mut stored = imp.store().len();
    for port in imp.ports() {
        if stored >= STORE_PLACES {
            return false;
        }
        stored += port.line.busy_channels();
    }
    stored < STORE_PLACES
}

/// Returns whether one more message can wait for a host.
fn queue_has_room(imp: &Imp, host: u8) -> bool
    ensures { result ≡ room.queue_has_room imp.now host }
{
    let hosts = imp.hosts();
    let place = host as usize;
    place >= hosts.len() || hosts[place].message_count() < QUEUE_PLACES
}
