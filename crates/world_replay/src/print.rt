//! Printing what an event shows, and the lives of connections.

ghost use Rattle.std.specs.Prelude.{◌≡◌, ◌↔◌, ◌≤◌, ◌-◌, Err, OnErr, OnOk, IfSome, IsSome, drop, false, length, max, reverse, take, true};
ghost use Rattle.std.specs.Io.KnownBytes.{Appends};
ghost use Rattle.host_services.specs.declared.report.Report.TheVariants as report;
ghost use Rattle.net_sim.specs.World.{stops};
ghost use Rattle.replay.specs.Failing.{TellsCannotWrite, TellsFailure};
ghost use Rattle.replay.specs.declared.print.Detail.{Detail};
ghost use Rattle.script.specs.Input.{ended_line};
ghost use Rattle.world_replay.specs.Output.{lives_output, output, shown_crossings, shown_in_turn, shown_notices, shown_refusal, told_in_turn};
ghost use Rattle.world_replay.specs.Printed.{life_text, problem_name, refusal_name, report_text, reported_text};
ghost use Rattle.world_replay.specs.Printed.{shown_octet, state_text, told_text};
ghost use Rattle.world_replay.specs.Steps.{Fronts};

use crate::lines::{LifeLine, OutcomeLine};
use crate::told::put_told;
use interface::{Crossing, HostAddr};
use net_sim::{Book, Life, Report, Reported, Told, WorldFault};
use replay::{Detail, Line, Output, ReplayFault, WriteFailed, carrier_refusal, print_crossing_in};
use sockets::NcpFault;

/// Prints what is in a book after this many crossings, notices and reports. Lines are put together in this buffer, of
/// which nothing is kept.
///
/// Errors: `WriteFailed`.
pub(crate) fn print_news<W: Output>(
    line: &mut Line,
    book: &Book<'_>,
    crossed: usize,
    told: usize,
    said: usize,
    detail: Detail,
    writer: &mut W,
) -> Result<(), WriteFailed>
    requires crossed { crossed ≤ length book.now.book.crossings }
    requires told { told ≤ length book.now.book.notices }
    requires said { said ≤ length book.now.book.reports }
    requires whole { W.failed writer.old ≡ false }
    ensures written { OnOk result (Appends (W.contents writer.old) (W.contents writer.new) (output detail (shown_in_turn crossed (drop crossed (reverse book.now.book.crossings)) (told_in_turn told (drop told book.now.book.notices) (drop said book.now.book.reports))))) }
    ensures failed { TellsFailure result (W.failed writer.new) }
{
    let (_, left) = book.crossings().split_at(crossed);
    let (_, notices) = book.notices().split_at(told);
    let (_, reports) = book.reports().split_at(said);
    let mut crossings = Crossings {
        before: crossed,
        left,
    };
    print_told(line, &mut crossings, told, notices, reports, detail, writer)?;
    print_crossings(line, crossings.left, detail, writer)
}

/// Crossings that are still to be printed.
#[derive(Drop)]
struct Crossings<'a> {
    /// How many there were before them.
    before: usize,
    /// The crossings.
    left: &'a [Crossing],
}

impl Crossings<'_> {
    /// Prints those before a place.
    fn print_before<W: Output>(
        &mut self,
        line: &mut Line,
        place: usize,
        detail: Detail,
        writer: &mut W,
    ) -> Result<(), WriteFailed>
        requires { W.failed writer.old ≡ false }
        ensures before { OnOk result (self.new.before ≡ max self.old.before place) }
        ensures left { OnOk result (self.new.left.now ≡ drop (place - self.old.before) self.old.left.now) }
        ensures written { OnOk result (Appends (W.contents writer.old) (W.contents writer.new) (output detail (shown_crossings (take (place - self.old.before) self.old.left.now)))) }
        ensures failed { TellsFailure result (W.failed writer.new) }
    {
        let count = place.saturating_sub(self.before).min(self.left.len());
        let (first, rest) = self.left.split_at(count);
        print_crossings(line, first, detail, writer)?;
        self.left = rest;
        self.before = self.before.max(place);
        Ok(())
    }
}

/// Prints notices and reports, each report after its notice, and the crossings that were before them. This many
/// notices were before all of them.
fn print_told<W: Output>(
    line: &mut Line,
    crossings: &mut Crossings<'_>,
    before: usize,
    notices: &[Told],
    reports: &[Reported],
    detail: Detail,
    writer: &mut W,
) -> Result<(), WriteFailed>
    requires { W.failed writer.old ≡ false }
    ensures written { OnOk result (Fronts detail crossings.old.before crossings.old.left.now (told_in_turn before notices.now reports.now) crossings.new.before crossings.new.left.now (W.contents writer.old) (W.contents writer.new)) }
    ensures failed { TellsFailure result (W.failed writer.new) }
{
    let mut before = before;
    let mut waiting = notices;
    for reported in reports {
        let count = reported.notices.saturating_sub(before).min(waiting.len());
        let (first, rest) = waiting.split_at(count);
        print_notices(line, crossings, first, detail, writer)?;
        print_report(reported, writer)?;
        waiting = rest;
        before = before.max(reported.notices);
    }
    print_notices(line, crossings, waiting, detail, writer)
}

/// Prints notices, each after the crossings that were before it.
fn print_notices<W: Output>(
    line: &mut Line,
    crossings: &mut Crossings<'_>,
    notices: &[Told],
    detail: Detail,
    writer: &mut W,
) -> Result<(), WriteFailed>
    requires { W.failed writer.old ≡ false }
    ensures written { OnOk result (Fronts detail crossings.old.before crossings.old.left.now (shown_notices notices.now) crossings.new.before crossings.new.left.now (W.contents writer.old) (W.contents writer.new)) }
    ensures failed { TellsFailure result (W.failed writer.new) }
{
    for told in notices {
        crossings.print_before(line, told.place, detail, writer)?;
        print_told_line(line, told, writer)?;
    }
    Ok(())
}

/// Prints the line of something that a user was notified.
fn print_told_line<W: Output>(
    line: &mut Line,
    told: &Told,
    writer: &mut W,
) -> Result<(), WriteFailed>
    requires { W.failed writer.old ≡ false }
    ensures written { OnOk result (Appends (W.contents writer.old) (W.contents writer.new) (ended_line (told_text told.now))) }
    ensures failed { TellsFailure result (W.failed writer.new) }
{
    put_told(line, told);
    writer.write_all(line.as_octets())
}

/// Prints what a service reports.
fn print_report<W: Output>(reported: &Reported, writer: &mut W) -> Result<(), WriteFailed>
    requires { W.failed writer.old ≡ false }
    ensures written { OnOk result (Appends (W.contents writer.old) (W.contents writer.new) (ended_line (reported_text reported.now))) }
    ensures failed { TellsFailure result (W.failed writer.new) }
{
    let host = &reported.host;
    match &reported.report {
        Report::Server(outcome) => writeln!(
            writer,
            "{}",
            OutcomeLine {
                who: "server",
                host,
                outcome
            }
        ),
        Report::User(outcome) => writeln!(
            writer,
            "{}",
            OutcomeLine {
                who: "user",
                host,
                outcome
            }
        ),
        Report::Line(line) => print_line(host, line.as_octets(), writer),
    }
}

/// Prints a line that came to a terminal, after the terminal's host. An octet that is not a printable ASCII character
/// is printed as a question mark.
fn print_line<W: Output>(host: &HostAddr, octets: &[u8], writer: &mut W) -> Result<(), WriteFailed>
    requires { W.failed writer.old ≡ false }
    ensures written { OnOk result (Appends (W.contents writer.old) (W.contents writer.new) (ended_line (report_text host.now (report.Line octets.now)))) }
    ensures failed { TellsFailure result (W.failed writer.new) }
{
    write!(writer, "line {host} ")?;
    for octet in octets {
        writer.write_all(&[shown_octet(*octet)])?;
    }
    writer.write_all(b"\n")
}

/// Returns the octet that is printed for one of a line.
fn shown_octet(octet: u8) -> u8
    ensures { result ≡ shown_octet octet }
{
    if matches!(octet, 32..=126) {
        octet
    } else {
        b'?'
    }
}

/// Prints crossings.
fn print_crossings<W: Output>(
    line: &mut Line,
    crossings: &[Crossing],
    detail: Detail,
    writer: &mut W,
) -> Result<(), WriteFailed>
    requires { W.failed writer.old ≡ false }
    ensures written { OnOk result (Appends (W.contents writer.old) (W.contents writer.new) (output detail (shown_crossings crossings.now))) }
    ensures failed { TellsFailure result (W.failed writer.new) }
{
    for crossing in crossings {
        print_crossing_in(line, crossing, detail, writer)?;
    }
    Ok(())
}

/// Prints the name of a refusal. It prints nothing for an event that was not refused.
///
/// Errors: `CannotWrite`; `OutOfMemory` where memory has run out, after which nothing is printed.
pub(crate) fn print_refusal<W: Output>(
    outcome: Result<(), WorldFault>,
    writer: &mut W,
) -> Result<(), ReplayFault>
    requires { W.failed writer.old ≡ false }
    ensures shown { (detail : Detail) → OnOk result (Appends (W.contents writer.old) (W.contents writer.new) (output detail (shown_refusal outcome))) }
    ensures goes_on { OnOk result (stops outcome ≡ false) }
    ensures memory { result ≡ Err ReplayFault.OutOfMemory → (stops outcome ≡ true) × (writer.new ≡ writer.old) }
    ensures failed { TellsCannotWrite result (W.failed writer.new) }
{
    let Err(fault) = outcome else {
        return Ok(());
    };
    let name = match name_of(fault) {
        Some(name) => name,
        None => return Err(ReplayFault::OutOfMemory),
    };
    Ok(writeln!(writer, "refused {name}")?)
}

/// Returns an error where running out of memory has stopped the world.
pub(crate) fn check_memory(outcome: Result<(), WorldFault>) -> Result<(), ReplayFault>
    ensures goes_on { OnOk result (stops outcome ≡ false) }
    ensures memory { OnErr result ((result ≡ Err ReplayFault.OutOfMemory) × (stops outcome ≡ true)) }
{
    let Err(fault) = outcome else {
        return Ok(());
    };
    match name_of(fault) {
        Some(_) => Ok(()),
        None => Err(ReplayFault::OutOfMemory),
    }
}

/// Returns the name of a refusal. `None` where running out of memory has stopped the world.
fn name_of(fault: WorldFault) -> Option<&'static str>
    ensures name { IfSome result (λ name. name.now ≡ refusal_name fault) }
    ensures goes_on { IsSome result ↔ (stops (Err fault) ≡ false) }
{
    match fault {
        WorldFault::Carrier(fault) => carrier_refusal(fault),
        WorldFault::Program(fault) => program_refusal(fault),
        WorldFault::NoProgram => Some("NoProgram"),
        WorldFault::HasProgram => Some("HasProgram"),
    }
}

/// Returns the name of a refusal by a host's program. `None` if memory ran out.
fn program_refusal(fault: NcpFault) -> Option<&'static str>
    ensures name { IfSome result (λ name. name.now ≡ problem_name fault) }
    ensures goes_on { IsSome result ↔ (stops (Err (WorldFault.Program fault)) ≡ false) }
{
    match fault {
        NcpFault::NotContacted => Some("NotContacted"),
        NcpFault::WrongEnd => Some("WrongEnd"),
        NcpFault::InUse => Some("InUse"),
        NcpFault::NoSuchSocket => Some("NoSuchSocket"),
        NcpFault::NotOpen => Some("NotOpen"),
        NcpFault::BadSize => Some("BadSize"),
        NcpFault::Closing => Some("Closing"),
        NcpFault::NoLink => Some("NoLink"),
        NcpFault::OverGrant => Some("OverGrant"),
        NcpFault::OutOfMemory => None,
    }
}

/// Writes the lives of connections, one line each.
///
/// Errors: `WriteFailed`.
pub fn print_lives<W: Output>(lives: &[Life], writer: &mut W) -> Result<(), WriteFailed>
    requires { W.failed writer.old ≡ false }
    ensures written { OnOk result (Appends (W.contents writer.old) (W.contents writer.new) (lives_output lives.now)) }
    ensures failed { TellsFailure result (W.failed writer.new) }
{
    for life in lives {
        print_life(life, writer)?;
    }
    Ok(())
}

/// Writes the line of a life.
///
/// Errors: `WriteFailed`.
fn print_life<W: Output>(life: &Life, writer: &mut W) -> Result<(), WriteFailed>
    requires { W.failed writer.old ≡ false }
    ensures written { OnOk result (Appends (W.contents writer.old) (W.contents writer.new) (ended_line (life_text life.now))) }
    ensures failed { TellsFailure result (W.failed writer.new) }
{
    let state = state_name(life.ended);
    writeln!(writer, "{}", LifeLine(life, state))
}

/// Returns the word for whether a life has ended.
fn state_name(ended: bool) -> &'static str
    ensures { result.now ≡ state_text ended }
{
    if ended { "ended" } else { "open" }
}
