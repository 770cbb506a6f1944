//! The parts of plain mailboxes that an event can change, looked at and printed.

ghost use Rattle.std.specs.Prelude.{◌≡◌, ◌++◌, [], ◌∷◌, IfOk, OnOk, false, codes};
ghost use Rattle.std.specs.Io.KnownBytes.{Appends};
ghost use Rattle.replay.specs.Failing.{TellsFailure};
ghost use Rattle.trace.specs.Joined.{begun};
ghost use Rattle.trace.specs.Parts.{Down, Waiting, is_source, moves_host, reaches};
ghost use Rattle.trace.specs.Changes.{changed};
ghost use Rattle.trace.specs.Steps.{OnlyReached};
ghost use Rattle.trace.specs.Texts.{all_members, member, object, part_name, part_text, whole_text};

use crate::all_parts::ended;
use crate::json::{Item, print_array};
use crate::members::Members;
use crate::print::print_waiting;
use interface::{Carrier, Crossing, HostAddr, NetEvent};
use leader1822::PlainBoxes;
use replay::{Output, WriteFailed};
use script::RawEvent;
use std::alloc::{AllocError, Global};

/// Returns whether a host stops or starts.
fn moves_host(event: &RawEvent) -> bool
    ensures { result ≡ moves_host event.now }
{
    matches!(
        event,
        RawEvent::Net(NetEvent::HostDown(_)) | RawEvent::Net(NetEvent::HostUp(_))
    )
}

/// Returns whether a message that came in is from this host.
fn is_source(host: &HostAddr, crossings: &[Crossing]) -> bool
    ensures { result ≡ is_source host.now crossings.now }
{
    for crossing in crossings {
        if let Crossing::In(message) = crossing
            && *host == message.flow.source
        {
            return true;
        }
    }
    false
}

/// Returns whether other messages or answers may wait for this host after an event that let these cross.
fn reaches(event: &RawEvent, crossings: &[Crossing], host: &HostAddr) -> bool
    ensures { result ≡ reaches event.now crossings.now host.now }
{
    match event {
        RawEvent::Out(message) => {
            *host == message.flow.destination || *host == message.flow.source
        }
        RawEvent::Take(other) => *host == *other || is_source(host, crossings),
        RawEvent::Net(NetEvent::GiveUp(flow)) => *host == flow.destination || *host == flow.source,
        RawEvent::Net(NetEvent::HostDown(_)) => true,
        RawEvent::Net(_) | RawEvent::Calm(_) => false,
    }
}

/// Prints what waits for a host, with its name.
fn print_host_part<W: Output>(
    boxes: &PlainBoxes,
    host: &HostAddr,
    writer: &mut W,
) -> Result<(), WriteFailed>
    requires { W.failed writer.old ≡ false }
    ensures written { OnOk result (Appends (W.contents writer.old) (W.contents writer.new) (member (part_name (Waiting host.now)) (part_text boxes.now (Waiting host.now)))) }
    ensures failed { TellsFailure result (W.failed writer.new) }
{
    write!(writer, "\"host {host}\":")?;
    print_waiting(boxes, host, writer)
}

/// What waits for a host, with its name.
#[derive(Drop)]
struct WaitingPart<'a> {
    boxes: &'a PlainBoxes,
    host: &'a HostAddr,
}

impl Item for WaitingPart<'_> {
    ghost text = { λ part. member (part_name (Waiting part.host.now)) (part_text part.boxes.now (Waiting part.host.now)) };

    fn print<W: Output>(&self, writer: &mut W) -> Result<(), WriteFailed> {
        print_host_part(self.boxes, self.host, writer)
    }
}

/// The hosts that are down, with their name.
#[derive(Drop)]
struct DownPart<'a>(&'a PlainBoxes);

impl Item for DownPart<'_> {
    ghost text = { λ part. member (part_name Down) (part_text part.0.now Down) };

    fn print<W: Output>(&self, writer: &mut W) -> Result<(), WriteFailed> {
        writer.write_all(b"\"down\":")?;
        print_array(&self.0.down(), writer)
    }
}

/// Returns all parts, each with its name, as the members of an object.
///
/// Errors: `AllocError`.
pub(crate) fn all_members(alloc: Global, boxes: &PlainBoxes) -> Result<Members, AllocError>
    ensures { IfOk result (λ members. members ≡ all_members boxes.now) }
{
    let mut members = Members::new(alloc);
    members.push(alloc, &DownPart(boxes))?;
    for host in boxes.hosts() {
        members.push(alloc, &WaitingPart { boxes, host })?;
    }
    Ok(members)
}

/// Opens the object of parts, and prints the hosts that are down.
fn open_parts<W: Output>(boxes: &PlainBoxes, writer: &mut W) -> Result<(), WriteFailed>
    requires { W.failed writer.old ≡ false }
    ensures written { OnOk result (Appends (W.contents writer.old) (W.contents writer.new) (begun boxes.now (Down ∷ []))) }
    ensures failed { TellsFailure result (W.failed writer.new) }
{
    writer.write_all(b"{\"down\":")?;
    print_array(&boxes.down(), writer)
}

/// Puts the parts that an event can change, which let these cross, in the place of those before it. Returns the object
/// of those that have changed, which begins in this room.
///
/// Errors: `AllocError`.
pub(crate) fn change(
    boxes: &PlainBoxes,
    event: &RawEvent,
    crossings: &[Crossing],
    known: &mut Members,
    room: Vec<u8>,
) -> Result<Vec<u8>, AllocError>
    requires reached { OnlyReached known.old event.now crossings.now boxes.now }
    requires empty { room.items ≡ [] }
    ensures known { OnOk result (known.new ≡ all_members boxes.now) }
    ensures changed { IfOk result (λ text. text.items ≡ object (changed known.old (all_members boxes.now))) }
{
    let mut text = known.put(moves_host(event), 0, &DownPart(boxes), room)?;
    let hosts = boxes.hosts();
    for index in 0..hosts.len() {
        let host = &hosts[index];
        let part = WaitingPart { boxes, host };
        text = known.put(reaches(event, crossings, host), index + 1, &part, text)?;
    }
    ended(text)
}

/// Prints all parts.
pub fn print_whole<W: Output>(boxes: &PlainBoxes, writer: &mut W) -> Result<(), WriteFailed>
    requires { W.failed writer.old ≡ false }
    ensures written { OnOk result (Appends (W.contents writer.old) (W.contents writer.new) (whole_text boxes.now)) }
    ensures failed { TellsFailure result (W.failed writer.new) }
{
    open_parts(boxes, writer)?;
    for host in boxes.hosts() {
        writer.write_all(b",")?;
        print_host_part(boxes, host, writer)?;
    }
    writer.write_all(b"}")
}
