//! Printing the line of an elementary event.

ghost use Rattle.std.specs.Prelude.{◌≡◌, ◌++◌, OnOk, false, map};
ghost use Rattle.std.specs.Io.KnownBytes.{Appends};
ghost use Rattle.interface.specs.Printed.{crossing_text};
ghost use Rattle.replay.specs.Failing.{TellsFailure};
ghost use Rattle.replay.specs.Output.{shown_crossings, shown_refusal, shown_text};
ghost use Rattle.replay.specs.Replay.{GoesOn};
ghost use Rattle.replay.specs.declared.print.Detail.TheVariants.{Sizes};
ghost use Rattle.script.specs.Input.{ended_line};
ghost use Rattle.trace.specs.Joined.{fate_text, head_text, outcome_text, refused_text};
ghost use Rattle.trace.specs.Texts.{quoted, strings, trace_line};

use crate::element::Spot;
use crate::fate::Fate;
use crate::json::print_array;
use crate::print::print_comma;
use crate::spelling::print_event;
use interface::{CarrierFault, Crossing};
use replay::{Output, WriteFailed, carrier_refusal};
use script::RawEvent;

/// Prints where an event is, the round of its calm, and an elementary event of it.
fn print_head<W: Output>(
    spot: Spot,
    round: u32,
    event: &RawEvent,
    writer: &mut W,
) -> Result<(), WriteFailed>
    requires { W.failed writer.old ≡ false }
    ensures written { OnOk result (Appends (W.contents writer.old) (W.contents writer.new) (head_text spot round event.now)) }
    ensures failed { TellsFailure result (W.failed writer.new) }
{
    let (line, number) = (spot.line, spot.number);
    write!(
        writer,
        "{{\"line\":{line},\"number\":{number},\"round\":{round},\"event\":\""
    )?;
    print_event(event, writer)?;
    writer.write_all(b"\"")
}

/// Prints what became of a frame after other members. It prints nothing for what delivers none.
fn print_fate<W: Output>(fate: Option<Fate>, writer: &mut W) -> Result<(), WriteFailed>
    requires { W.failed writer.old ≡ false }
    ensures written { OnOk result (Appends (W.contents writer.old) (W.contents writer.new) (fate_text fate)) }
    ensures failed { TellsFailure result (W.failed writer.new) }
{
    let Some(fate) = fate else {
        return Ok(());
    };
    let word = fate.word();
    write!(writer, ",\"fate\":\"{word}\"")
}

/// Prints what crossed, as a string.
fn print_crossed<W: Output>(crossing: &Crossing, writer: &mut W) -> Result<(), WriteFailed>
    requires { W.failed writer.old ≡ false }
    ensures written { OnOk result (Appends (W.contents writer.old) (W.contents writer.new) (quoted (crossing_text crossing.now))) }
    ensures failed { TellsFailure result (W.failed writer.new) }
{
    write!(writer, "\"{crossing}\"")
}

/// Prints a refusal after this many strings. It prints nothing for an event that was not refused.
fn print_refused<W: Output>(
    place: usize,
    outcome: Result<(), CarrierFault>,
    writer: &mut W,
) -> Result<(), WriteFailed>
    requires goes_on { GoesOn outcome }
    requires whole { W.failed writer.old ≡ false }
    ensures written { OnOk result (Appends (W.contents writer.old) (W.contents writer.new) (refused_text place outcome)) }
    ensures failed { TellsFailure result (W.failed writer.new) }
{
    let Err(fault) = outcome else {
        return Ok(());
    };
    let Some(name) = carrier_refusal(fault) else {
        unreachable!();
    };
    print_comma(place, writer)?;
    write!(writer, "\"refused {name}\"")
}

/// Prints what an elementary event printed: what crossed, and then its refusal.
fn print_shown<W: Output>(
    crossings: &[Crossing],
    outcome: Result<(), CarrierFault>,
    writer: &mut W,
) -> Result<(), WriteFailed>
    requires goes_on { GoesOn outcome }
    requires whole { W.failed writer.old ≡ false }
    ensures written { OnOk result (Appends (W.contents writer.old) (W.contents writer.new) (strings (map (shown_text Sizes) (shown_crossings crossings.now ++ shown_refusal outcome)))) }
    ensures failed { TellsFailure result (W.failed writer.new) }
{
    writer.write_all(b"[")?;
    for place in 0..crossings.len() {
        print_comma(place, writer)?;
        print_crossed(&crossings[place], writer)?;
    }
    print_refused(crossings.len(), outcome, writer)?;
    writer.write_all(b"]")
}

/// Prints what crossed in an event, and the lines that a replay prints for it, after other members.
fn print_outcome<W: Output>(
    crossings: &[Crossing],
    outcome: Result<(), CarrierFault>,
    writer: &mut W,
) -> Result<(), WriteFailed>
    requires goes_on { GoesOn outcome }
    requires whole { W.failed writer.old ≡ false }
    ensures written { OnOk result (Appends (W.contents writer.old) (W.contents writer.new) (outcome_text crossings.now outcome)) }
    ensures failed { TellsFailure result (W.failed writer.new) }
{
    writer.write_all(b",\"crossed\":")?;
    print_array(&crossings, writer)?;
    writer.write_all(b",\"printed\":")?;
    print_shown(crossings, outcome, writer)
}

/// Prints the line of an elementary event in which this crossed, or which was refused, and which changed these parts.
pub(crate) fn print_line<W: Output>(
    spot: Spot,
    round: u32,
    event: &RawEvent,
    fate: Option<Fate>,
    crossings: &[Crossing],
    outcome: Result<(), CarrierFault>,
    parts: &[u8],
    writer: &mut W,
) -> Result<(), WriteFailed>
    requires goes_on { GoesOn outcome }
    requires whole { W.failed writer.old ≡ false }
    ensures written { OnOk result (Appends (W.contents writer.old) (W.contents writer.new) (ended_line (trace_line spot (record { round = round; event = event.now }) fate (shown_crossings crossings.now ++ shown_refusal outcome) parts.now))) }
    ensures failed { TellsFailure result (W.failed writer.new) }
{
    print_head(spot, round, event, writer)?;
    print_fate(fate, writer)?;
    print_outcome(crossings, outcome, writer)?;
    writer.write_all(b",\"parts\":")?;
    writer.write_all(parts)?;
    writer.write_all(b"}\n")
}
