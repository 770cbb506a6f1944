//! The parts of a subnet, printed, and those that an event has changed.

ghost use Rattle.std.specs.Prelude.{◌≡◌, ◌<◌, ◌≤◌, ◌+◌, ◌++◌, [], IfOk, OnOk, false, length};
ghost use Rattle.std.specs.Io.KnownBytes.{Appends};
ghost use Rattle.replay.specs.Failing.{TellsFailure};
ghost use Rattle.script.specs.declared.event.RawEvent.TheVariants as raw;
ghost use Rattle.subnet_trace.specs.Parts as parts;
ghost use Rattle.subnet_trace.specs.Parts.{Imp, Line, part_name, part_text, parts_members, parts_of_net, all_parts};
ghost use Rattle.subnet_trace.specs.Parts.{scope_of};
ghost use Rattle.subnet.specs.Events.{is_imp};
ghost use Rattle.subnet.specs.Net.{imp_at};
ghost use Rattle.subnet_trace.specs.Printing.{changed_at, flow_members, flows_there, imp_members, members_behind};
ghost use Rattle.subnet_trace.specs.Printing.{named, place_after_members, put_lists};
ghost use Rattle.subnet_trace.specs.Scopes as scopes;
ghost use Rattle.subnet_trace.specs.Scopes.{HasFlowsIn, IsOnlyIn, OnlyIn};
ghost use Rattle.subnet_trace.specs.Texts.{line_text};
ghost use Rattle.trace.specs.Changes.{changed, changed_lists, changed_parts, members_of};
ghost use Rattle.trace.specs.Joined.{extended, part_behind, place_behind};
ghost use Rattle.trace.specs.Texts.{member, object};

use crate::flows::{kept_of, print_known, sources_of};
use crate::imp::print_imp;
use crate::lists::InLine;
use crate::ways::{Notes, Ways};
use interface::{Direction, NetEvent};
use replay::{Output, WriteFailed};
use script::RawEvent;
use std::alloc::{AllocError, Global};
use subnet::{Subnet, Wire};
use trace::json::{Item, mark, print_array};
use trace::{AllParts, FlowLists, Members, ended};

/// Which parts an event can change.
#[derive(Clone, Copy)]
enum Scope {
    /// An IMP and its lines.
    ImpAndLines(u8),
    /// An IMP.
    Imp(u8),
    /// A line.
    Line(u32),
    /// None.
    Nothing,
}

/// Returns which parts the arrival of a frame can change: those of the IMP at the far end of its line.
fn scope_of_delivery(subnet: &Subnet, line: u32, direction: Direction) -> Scope
    ensures { result ≡ parts.scope_of_delivery subnet.now.net line direction }
{
    let lines = subnet.lines();
    let place = line as usize;
    if place >= lines.len() {
        return Scope::Nothing;
    }
    Scope::ImpAndLines(lines[place].far_end(direction))
}

/// Returns which parts an event inside the network can change.
fn scope_of_net(subnet: &Subnet, event: &NetEvent) -> Scope
    ensures { result ≡ scope_of subnet.now.net (raw.Net event.now) }
{
    match *event {
        NetEvent::Deliver {
            line,
            direction,
            ..
        } => scope_of_delivery(subnet, line, direction),
        NetEvent::Drop { line, .. } | NetEvent::Garble { line, .. } => Scope::Line(line),
        NetEvent::ImpDown(imp) | NetEvent::ImpUp(imp) => Scope::Imp(imp.number()),
        NetEvent::Resend(imp) | NetEvent::Route(imp) | NetEvent::Claim(imp) => Scope::ImpAndLines(
            imp.number(),
        ),
        NetEvent::EndDown { imp, .. } | NetEvent::EndUp { imp, .. } => {
            Scope::ImpAndLines(imp.number())
        }
        NetEvent::HostDown(host) | NetEvent::HostUp(host) => Scope::ImpAndLines(host.imp()),
        NetEvent::GiveUp(flow) | NetEvent::Ask(flow) => Scope::ImpAndLines(flow.source.imp()),
        NetEvent::Forget { at, .. } => Scope::ImpAndLines(at.number()),
        NetEvent::Abandon(flow) => Scope::ImpAndLines(flow.destination.imp()),
    }
}

/// Returns which parts an event can change.
fn scope_of(subnet: &Subnet, event: &RawEvent) -> Scope
    ensures { result ≡ scope_of subnet.now.net event.now }
{
    match event {
        RawEvent::Out(message) => Scope::ImpAndLines(message.flow.source.imp()),
        RawEvent::Take(host) => Scope::ImpAndLines(host.imp()),
        RawEvent::Net(event) => scope_of_net(subnet, event),
        RawEvent::Calm(_) => Scope::Nothing,
    }
}

/// Returns whether an IMP is among these parts.
fn has_imp(scope: Scope, number: u8) -> bool
    ensures { result ≡ scopes.has_imp scope number }
{
    match scope {
        Scope::ImpAndLines(imp) | Scope::Imp(imp) => imp == number,
        Scope::Line(_) | Scope::Nothing => false,
    }
}

/// Returns whether a line is among these parts.
fn has_line(scope: Scope, number: usize, line: &Wire) -> bool
    ensures { result ≡ scopes.has_line scope number line.now }
{
    match scope {
        Scope::ImpAndLines(imp) => line.ends_at(imp),
        Scope::Line(other) => number == other as usize,
        Scope::Imp(_) | Scope::Nothing => false,
    }
}

/// Prints an IMP with its name.
fn print_named_imp<W: Output>(
    subnet: &Subnet,
    number: u8,
    noted: Option<&Ways>,
    writer: &mut W,
) -> Result<(), WriteFailed>
    requires { W.failed writer.old ≡ false }
    ensures written { OnOk result (Appends (W.contents writer.old) (W.contents writer.new) (member (part_name (Imp number)) (part_text subnet.now.net (Imp number)))) }
    ensures failed { TellsFailure result (W.failed writer.new) }
{
    let Some(imp) = subnet.imp(number) else {
        return write!(writer, "\"imp {number}\":null");
    };
    write!(writer, "\"imp {number}\":")?;
    print_imp(imp, noted, writer)
}

/// Prints a line with its name: the frames that are live each way.
fn print_named_line<W: Output>(
    number: usize,
    line: &Wire,
    writer: &mut W,
) -> Result<(), WriteFailed>
    requires { W.failed writer.old ≡ false }
    ensures written { OnOk result (Appends (W.contents writer.old) (W.contents writer.new) (member (part_name (Line number)) (line_text line.now))) }
    ensures failed { TellsFailure result (W.failed writer.new) }
{
    write!(writer, "\"line {number}\":{{\"+\":")?;
    print_array(&InLine(line.frames(Direction::Forward)), writer)?;
    writer.write_all(b",\"-\":")?;
    print_array(&InLine(line.frames(Direction::Back)), writer)?;
    writer.write_all(b"}")
}

/// An IMP with its name, and what is noted of its routes.
#[derive(Drop)]
struct ImpPart<'a, 'n> {
    subnet: &'a Subnet,
    number: u8,
    noted: Option<&'n Ways>,
}

impl Item for ImpPart<'_, '_> {
    ghost text = { λ part. named part.subnet.now.net (Imp part.number) };

    fn print<W: Output>(&self, writer: &mut W) -> Result<(), WriteFailed> {
        print_named_imp(self.subnet, self.number, self.noted, writer)
    }
}

/// A line with its name.
#[derive(Drop)]
struct LinePart<'a> {
    number: usize,
    line: &'a Wire,
}

impl Item for LinePart<'_> {
    ghost text = { λ part. member (part_name (Line part.number)) (line_text part.line.now) };

    fn print<W: Output>(&self, writer: &mut W) -> Result<(), WriteFailed> {
        print_named_line(self.number, self.line, writer)
    }
}

/// Adds an IMP to parts, if there is one of this number, and notes what it knows of routes.
fn push_imp(
    alloc: Global,
    subnet: &Subnet,
    number: u8,
    notes: &mut Notes,
    members: &mut Members,
) -> Result<(), AllocError>
    ensures { OnOk result (members.new ≡ members.old ++ imp_members subnet.now.net number) }
{
    if !subnet.is_imp(number) {
        return Ok(());
    }
    if let Some(imp) = subnet.imp(number) {
        notes.note(alloc, number, imp.routes())?;
    }
    let noted = notes.of(number);
    let part = ImpPart {
        subnet,
        number,
        noted,
    };
    members.push(alloc, &part)
}

/// Returns the IMPs and the lines, each with its name, as the members of an object: the IMPs by rising number, and the
/// lines in order.
///
/// Errors: `AllocError`.
fn all_members(alloc: Global, subnet: &Subnet, notes: &mut Notes) -> Result<Members, AllocError>
    ensures { IfOk result (λ members. members ≡ parts_members subnet.now.net (all_parts subnet.now.net)) }
{
    let mut members = Members::new(alloc);
    for imp in 0..subnet.imp_places() {
        push_imp(alloc, subnet, imp, notes, &mut members)?;
    }
    let lines = subnet.lines();
    for number in 0..lines.len() {
        let line = &lines[number];
        members.push(alloc, &LinePart { number, line })?;
    }
    Ok(members)
}

/// Adds the flows of an IMP to lists of them, if there is one of this number.
fn push_flows(
    alloc: Global,
    subnet: &Subnet,
    number: u8,
    lists: &mut FlowLists,
) -> Result<(), AllocError>
    ensures { OnOk result (lists.new ≡ lists.old ++ flows_there subnet.now.net number) }
{
    if !subnet.is_imp(number) {
        return Ok(());
    }
    let imp = subnet.imp(number);
    lists.push(sources_of(alloc, imp)?)?;
    lists.push(kept_of(alloc, imp)?)
}

/// Returns the flows of all IMPs, by rising number.
fn all_flows(alloc: Global, subnet: &Subnet) -> Result<FlowLists, AllocError>
    ensures { IfOk result (λ lists. lists ≡ parts.all_flows subnet.now.net) }
{
    let mut lists = FlowLists::new(alloc);
    for number in 0..subnet.imp_places() {
        push_flows(alloc, subnet, number, &mut lists)?;
    }
    Ok(lists)
}

/// Returns all parts: the IMPs and the lines, and the flows.
///
/// Errors: `AllocError`.
pub(crate) fn parts_of(
    alloc: Global,
    subnet: &Subnet,
    notes: &mut Notes,
) -> Result<AllParts, AllocError>
    ensures { IfOk result (λ parts. parts ≡ parts_of_net subnet.now.net) }
{
    Ok(AllParts {
        fixed: all_members(alloc, subnet, notes)?,
        flows: all_flows(alloc, subnet)?,
    })
}

/// Puts the IMPs and lines that are among these parts in the place of those before them. Adds those that have changed
/// to an object.
fn change_fixed(
    subnet: &Subnet,
    scope: Scope,
    known: &mut Members,
    object: Vec<u8>,
) -> Result<Vec<u8>, AllocError>
    requires inside { IsOnlyIn scope known.old subnet.now.net }
    requires empty { object.items ≡ [] }
    ensures known { OnOk result (known.new ≡ parts_members subnet.now.net (all_parts subnet.now.net)) }
    ensures changed { IfOk result (λ text. text.items ≡ extended [] (changed known.old (parts_members subnet.now.net (all_parts subnet.now.net)))) }
{
    let mut text = object;
    let mut place: usize = 0;
    for number in 0..subnet.imp_places() {
        if subnet.is_imp(number) {
            let part = ImpPart {
                subnet,
                number,
                noted: None,
            };
            text = known.put(has_imp(scope, number), place, &part, text)?;
            place += 1;
        }
    }
    let lines = subnet.lines();
    for number in 0..lines.len() {
        let line = &lines[number];
        let part = LinePart { number, line };
        text = known.put(has_line(scope, number, line), place, &part, text)?;
        place += 1;
    }
    Ok(text)
}

/// Puts the flows of an IMP, if they may have changed, in the place of those before them, of which the first list is at
/// a place. Adds what has changed to an object.
fn put_flows(
    alloc: Global,
    may: bool,
    subnet: &Subnet,
    number: u8,
    place: usize,
    known: &mut FlowLists,
    object: Vec<u8>,
) -> Result<Vec<u8>, AllocError>
    requires within { place + 1 < length known.old }
    requires small { place ≤ 510 }
    ensures known { OnOk result (known.new ≡ put_lists may known.old place (imp_at subnet.now.net.imps number)) }
    ensures changed { IfOk result (λ text. text.items ≡ extended object.items (changed_at may known.old place (imp_at subnet.now.net.imps number))) }
{
    if !may {
        return Ok(object);
    }
    let imp = subnet.imp(number);
    let text = known.put(place, sources_of(alloc, imp)?, object)?;
    known.put(place + 1, kept_of(alloc, imp)?, text)
}

/// Puts the flows of the IMPs that are among these parts in the place of those before them. Adds those that have
/// changed to an object.
fn change_flows(
    alloc: Global,
    subnet: &Subnet,
    scope: Scope,
    known: &mut FlowLists,
    object: Vec<u8>,
) -> Result<Vec<u8>, AllocError>
    requires { HasFlowsIn scope known.old subnet.now.net }
    ensures known { OnOk result (known.new ≡ parts.all_flows subnet.now.net) }
    ensures changed { IfOk result (λ text. text.items ≡ extended object.items (changed_lists known.old (parts.all_flows subnet.now.net))) }
{
    let mut text = object;
    let mut place: usize = 0;
    for number in 0..subnet.imp_places() {
        if subnet.is_imp(number) {
            let may = has_imp(scope, number);
            text = put_flows(alloc, may, subnet, number, place, known, text)?;
            place += 2;
        }
    }
    Ok(text)
}

/// Puts the parts that an event can change in the place of those before it. Returns the object of those that have
/// changed, which begins in this room.
///
/// Errors: `AllocError`.
pub(crate) fn change(
    alloc: Global,
    subnet: &Subnet,
    event: &RawEvent,
    known: &mut AllParts,
    room: Vec<u8>,
) -> Result<Vec<u8>, AllocError>
    requires inside { OnlyIn known.old (scope_of subnet.now.net event.now) subnet.now.net }
    requires empty { room.items ≡ [] }
    ensures known { OnOk result (known.new ≡ parts_of_net subnet.now.net) }
    ensures changed { IfOk result (λ text. text.items ≡ object (changed_parts known.old (parts_of_net subnet.now.net))) }
{
    let scope = scope_of(subnet, event);
    let text = change_fixed(subnet, scope, &mut known.fixed, room)?;
    ended(change_flows(alloc, subnet, scope, &mut known.flows, text)?)
}

/// Prints an IMP after this many other parts. It prints nothing where there is none of this number. Returns the place
/// after it.
fn print_imp_of<W: Output>(
    place: usize,
    subnet: &Subnet,
    number: u8,
    writer: &mut W,
) -> Result<usize, WriteFailed>
    requires { W.failed writer.old ≡ false }
    ensures written { OnOk result (Appends (W.contents writer.old) (W.contents writer.new) (part_behind (is_imp subnet.now.net number) place (named subnet.now.net (Imp number)))) }
    ensures place { IfOk result (λ next. next ≡ place_behind place (is_imp subnet.now.net number)) }
    ensures failed { TellsFailure result (W.failed writer.new) }
{
    if !subnet.is_imp(number) {
        return Ok(place);
    }
    writer.write_all(mark("{", ",", place).as_bytes())?;
    print_named_imp(subnet, number, None, writer)?;
    Ok(1)
}

/// Prints the IMPs by rising number, and the lines in order, as an object without its end. Returns the place after
/// them.
fn print_fixed<W: Output>(subnet: &Subnet, writer: &mut W) -> Result<usize, WriteFailed>
    requires { W.failed writer.old ≡ false }
    ensures written { OnOk result (Appends (W.contents writer.old) (W.contents writer.new) (members_behind 0 (parts_members subnet.now.net (all_parts subnet.now.net)))) }
    ensures place { IfOk result (λ next. next ≡ place_after_members 0 (parts_members subnet.now.net (all_parts subnet.now.net))) }
    ensures failed { TellsFailure result (W.failed writer.new) }
{
    let mut place: usize = 0;
    for imp in 0..subnet.imp_places() {
        place = print_imp_of(place, subnet, imp, writer)?;
    }
    let lines = subnet.lines();
    for number in 0..lines.len() {
        writer.write_all(mark("{", ",", place).as_bytes())?;
        print_named_line(number, &lines[number], writer)?;
        place = 1;
    }
    Ok(place)
}

/// Prints what an IMP knows of flows after this many other parts, if there is one of this number that is up. Returns
/// the place after it.
fn print_flows_of<W: Output>(
    place: usize,
    subnet: &Subnet,
    number: u8,
    writer: &mut W,
) -> Result<usize, WriteFailed>
    requires { W.failed writer.old ≡ false }
    ensures written { OnOk result (Appends (W.contents writer.old) (W.contents writer.new) (members_behind place (flow_members subnet.now.net number))) }
    ensures place { IfOk result (λ next. next ≡ place_after_members place (flow_members subnet.now.net number)) }
    ensures failed { TellsFailure result (W.failed writer.new) }
{
    if !subnet.is_imp(number) {
        return Ok(place);
    }
    match subnet.imp(number) {
        Some(imp) => print_known(place, imp, writer),
        None => Ok(place),
    }
}

/// Prints all parts, as a JSON object: the IMPs by rising number, the lines in order, and the flows of each IMP by
/// rising number.
///
/// Errors: `WriteFailed`.
pub fn print_whole<W: Output>(subnet: &Subnet, writer: &mut W) -> Result<(), WriteFailed>
    requires { W.failed writer.old ≡ false }
    ensures written { OnOk result (Appends (W.contents writer.old) (W.contents writer.new) (object (members_of (parts_of_net subnet.now.net)))) }
    ensures failed { TellsFailure result (W.failed writer.new) }
{
    let mut place = print_fixed(subnet, writer)?;
    for imp in 0..subnet.imp_places() {
        place = print_flows_of(place, subnet, imp, writer)?;
    }
    writer.write_all(mark("{}", "}", place).as_bytes())
}
