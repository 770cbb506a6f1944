//! Printing what an event shows.

ghost use Rattle.std.specs.Prelude.{◌≡◌, ◌↔◌, Err, OnOk, IfSome, drop, length, slice_index, ◌<◌, ◌≤◌, IsSome, false};
ghost use Rattle.std.specs.Io.KnownBytes.{Appends};
ghost use Rattle.hex.specs.Hex.{encode_upper, upper_digits};
ghost use Rattle.replay.specs.Failing.{TellsCannotWrite, TellsFailure};
ghost use Rattle.replay.specs.Replay.{GoesOn, Halts};
ghost use Rattle.replay.specs.Output.{crossing_line, output, shown_refusal, shown_crossings, spelled, fault_name};
ghost use Rattle.replay.specs.Steps.{PrintEnds};
ghost use Rattle.replay.specs.declared.print.Detail.{Detail};
ghost use Rattle.script.specs.Input.{ended_line};
ghost use Rattle.script.specs.Spelling.{octets_text};

use crate::events::ReplayFault;
use crate::line::Line;
use crate::output::{Output, WriteFailed};
use bit_messages::Bits;
use interface::{CarrierFault, Crossing, Text};

/// The upper case hexadecimal digits.
const DIGITS: [u8; 16] = *b"0123456789ABCDEF";

/// How much is printed of a message that crosses.
#[derive(Clone, Copy)]
pub enum Detail {
    /// How many bits its text has.
    Sizes,
    /// That, and after it the octets of its text, as a script spells them.
    Texts,
}

/// Prints the crossings of a log after its first `booked` ones, and then the refusal, if there is one. Lines are put together in this
/// buffer, of which nothing is kept.
///
/// Errors: `CannotWrite`; `OutOfMemory` where memory ran out in the event. The crossings are printed first.
pub(crate) fn print_outcome<W: Output>(
    line: &mut Line,
    log: &[Crossing],
    booked: usize,
    outcome: Result<(), CarrierFault>,
    detail: Detail,
    writer: &mut W,
) -> Result<(), ReplayFault>
    requires booked { booked ≤ length log.now }
    requires whole { W.failed writer.old ≡ false }
    ensures ends { PrintEnds detail (drop booked log.now) outcome result (W.contents writer.old) (W.contents writer.new) }
    ensures failed { TellsCannotWrite result (W.failed writer.new) }
{
    print_crossings(line, log, booked, detail, writer)?;
    print_refusal(outcome, writer)
}

/// Prints the crossings of a log after its first `booked` ones.
fn print_crossings<W: Output>(
    line: &mut Line,
    log: &[Crossing],
    booked: usize,
    detail: Detail,
    writer: &mut W,
) -> Result<(), WriteFailed>
    requires booked { booked ≤ length log.now }
    requires whole { W.failed writer.old ≡ false }
    ensures written { OnOk result (Appends (W.contents writer.old) (W.contents writer.new) (output detail (shown_crossings (drop booked log.now)))) }
    ensures failed { TellsFailure result (W.failed writer.new) }
{
    let (_, crossings) = log.split_at(booked);
    for crossing in crossings {
        print_crossing_in(line, crossing, detail, writer)?;
    }
    Ok(())
}

/// Prints the line of a crossing.
///
/// Errors: `WriteFailed`.
pub fn print_crossing<W: Output>(
    crossing: &Crossing,
    detail: Detail,
    writer: &mut W,
) -> Result<(), WriteFailed>
    requires { W.failed writer.old ≡ false }
    ensures written { OnOk result (Appends (W.contents writer.old) (W.contents writer.new) (ended_line (crossing_line detail crossing.now))) }
    ensures failed { TellsFailure result (W.failed writer.new) }
{
    print_crossing_in(&mut Line::new(), crossing, detail, writer)
}

/// Prints the line of a crossing, put together in this buffer, of which nothing is kept.
///
/// Errors: `WriteFailed`.
pub fn print_crossing_in<W: Output>(
    line: &mut Line,
    crossing: &Crossing,
    detail: Detail,
    writer: &mut W,
) -> Result<(), WriteFailed>
    requires { W.failed writer.old ≡ false }
    ensures written { OnOk result (Appends (W.contents writer.old) (W.contents writer.new) (ended_line (crossing_line detail crossing.now))) }
    ensures failed { TellsFailure result (W.failed writer.new) }
{
    match detail {
        Detail::Sizes => {
            line.begin();
            line.put_crossing(crossing);
            writer.write_all(line.as_octets())
        }
        Detail::Texts => {
            line.clear();
            line.put_crossing(crossing);
            writer.write_all(line.as_octets())?;
            print_spelled(crossing, writer)?;
            writer.write_all(b"\n")
        }
    }
}

/// Prints what is after the bits of a message: a space and its octets. It prints nothing for what is no message.
fn print_spelled<W: Output>(crossing: &Crossing, writer: &mut W) -> Result<(), WriteFailed>
    requires { W.failed writer.old ≡ false }
    ensures written { OnOk result (Appends (W.contents writer.old) (W.contents writer.new) (spelled crossing.now)) }
    ensures failed { TellsFailure result (W.failed writer.new) }
{
    match crossing {
        Crossing::Out(message) | Crossing::In(message) => {
            writer.write_all(b" ")?;
            print_text(&message.text, writer)
        }
        Crossing::Answer(_, _) | Crossing::Down(_) | Crossing::Up(_) => Ok(()),
    }
}

/// Prints the octets of a text, as a script spells them: a hyphen for no bits.
///
/// Errors: `WriteFailed`.
pub fn print_text<W: Output>(text: &Text, writer: &mut W) -> Result<(), WriteFailed>
    requires { W.failed writer.old ≡ false }
    ensures written { OnOk result (Appends (W.contents writer.old) (W.contents writer.new) (octets_text text.now)) }
    ensures failed { TellsFailure result (W.failed writer.new) }
{
    print_bits(text.bits(), writer)
}

/// Prints the octets of these bits, as a script spells them: a hyphen for no bits.
///
/// Errors: `WriteFailed`.
pub fn print_bits<W: Output>(bits: &Bits, writer: &mut W) -> Result<(), WriteFailed>
    requires { W.failed writer.old ≡ false }
    ensures written { OnOk result (Appends (W.contents writer.old) (W.contents writer.new) (octets_text bits.now)) }
    ensures failed { TellsFailure result (W.failed writer.new) }
{
    if bits.is_empty() {
        return writer.write_all(b"-");
    }
    print_octets(bits.as_octets(), writer)
}

/// Prints octets in upper case hexadecimal, two digits each.
fn print_octets<W: Output>(octets: &[u8], writer: &mut W) -> Result<(), WriteFailed>
    requires { W.failed writer.old ≡ false }
    ensures written { OnOk result (Appends (W.contents writer.old) (W.contents writer.new) (encode_upper octets.now)) }
    ensures failed { TellsFailure result (W.failed writer.new) }
{
    for octet in octets {
        writer.write_all(&[digit(*octet / 16), digit(*octet % 16)])?;
    }
    Ok(())
}

/// Returns the upper case hexadecimal digit of a value.
fn digit(value: u8) -> u8
    requires { value < 16 }
    ensures { result ≡ slice_index upper_digits value }
{
    DIGITS[value as usize]
}

/// Prints the name of a refusal. It prints nothing for an event that was not refused.
fn print_refusal<W: Output>(
    outcome: Result<(), CarrierFault>,
    writer: &mut W,
) -> Result<(), ReplayFault>
    requires { W.failed writer.old ≡ false }
    ensures shown { (detail : Detail) → OnOk result (Appends (W.contents writer.old) (W.contents writer.new) (output detail (shown_refusal outcome))) }
    ensures goes_on { OnOk result (GoesOn outcome) }
    ensures memory { result ≡ Err ReplayFault.OutOfMemory → Halts outcome × (writer.new ≡ writer.old) }
    ensures failed { TellsCannotWrite result (W.failed writer.new) }
{
    let Err(fault) = outcome else {
        return Ok(());
    };
    let name = match carrier_refusal(fault) {
        Some(name) => name,
        None => return Err(ReplayFault::OutOfMemory),
    };
    writer.write_all(b"refused ")?;
    writer.write_all(name.as_bytes())?;
    Ok(writer.write_all(b"\n")?)
}

/// Returns the name of a refusal. `None` where running out of memory has stopped the carrier.
pub fn carrier_refusal(fault: CarrierFault) -> Option<&'static str>
    ensures name { IfSome result (λ name. name.now ≡ fault_name fault) }
    ensures goes_on { IsSome result ↔ GoesOn (Err fault) }
{
    match fault {
        CarrierFault::NoSuch => Some("NoSuch"),
        CarrierFault::StillAlive => Some("StillAlive"),
        CarrierFault::IsDown => Some("IsDown"),
        CarrierFault::IsUp => Some("IsUp"),
        CarrierFault::Unsettled => Some("Unsettled"),
        CarrierFault::NotOutstanding => Some("NotOutstanding"),
        CarrierFault::Blocked => Some("Blocked"),
        CarrierFault::NoRoom => Some("NoRoom"),
        CarrierFault::Stopped | CarrierFault::OutOfMemory => None,
    }
}
