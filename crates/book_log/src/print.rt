//! Writing a log.

ghost use Rattle.std.specs.Prelude.{◌≡◌, ◌∷◌, [], ◌+◌, ◌*◌, ◌/◌, ◌%◌, ◌<◌, ◌≤◌, OnOk, false, length, slice_get, slice_index, slice_index_or, zip};
ghost use Rattle.std.specs.Io.KnownBytes.{Appends};
ghost use Rattle.bit_messages.specs.Octets.{bit_value, octets_of};
ghost use Rattle.hex.specs.Hex.{encode_upper, upper_digits};
ghost use Rattle.replay.specs.Failing.{TellsFailure};
ghost use Rattle.replay.specs.InTurn.{text_of};
ghost use Rattle.script.specs.Input.{ended_line};
ghost use Rattle.script.specs.Spelling.{octets_text};
ghost use Rattle.std.specs.List.{All};
ghost use Rattle.book_log.specs.Log.{IsBook, IsCrossing, IsHanded, IsLife, fate_name, handed_line, life_line, log_text, logged_book, logged_line, stranger_line, strangers_text};
ghost use Rattle.book_log.specs.Steps.{octet_at};
ghost use Rattle.promise.specs.Fates.{AreFated};

use crate::ranges::{has_crossing_ranges, has_life_ranges, has_list_range};
use interface::{Answer, Crossing, HostAddr};
use net_sim::{BitLog, Life};
use promise::Fate;
use replay::{Detail, Output, WriteFailed, print_crossing};
use std::fmt;
use world_replay::LifeLine;

/// An answer, by the word that logs have for it.
#[derive(Drop)]
struct AnswerName(Answer);

impl fmt::Display for AnswerName {
    ghost use Rattle.std.specs.Prelude.{Some};
    ghost use Rattle.book_log.specs.Log.{answer_name};

    ghost output = { λ name. Some (answer_name name.0) };

    fn fmt<W: fmt::Write>(&self, f: &mut fmt::Formatter<W>) -> fmt::Result {
        match self.0 {
            Answer::Rfnm => write!(f, "rfnm"),
            Answer::Incomplete => write!(f, "incomplete"),
            Answer::Dead => write!(f, "dead"),
            Answer::NotTaken => write!(f, "nottaken"),
        }
    }
}

/// Writes the log of a book: these crossings, the oldest first, these lives with their fates, and what was handed over in each. What is
/// written is read again as this book where each fate says whether its life is over (`valid`): all values are in the ranges that a
/// log describes, since their types have no others. A life without a fate isn't written.
///
/// Errors: `WriteFailed`.
pub fn print_log<W: Output>(
    crossings: &[Crossing],
    lives: &[Life],
    handed: &[BitLog],
    fates: &[Fate],
    writer: &mut W,
) -> Result<(), WriteFailed>
    requires { W.failed writer.old ≡ false }
    ensures written { OnOk result (Appends (W.contents writer.old) (W.contents writer.new) (log_text (logged_book crossings.now lives.now handed.now fates.now))) }
    ensures valid { OnOk result (AreFated lives.now fates.now → IsBook (logged_book crossings.now lives.now handed.now fates.now)) }
    ensures failed { TellsFailure result (W.failed writer.new) }
{
    print_crossings(crossings, writer)?;
    print_lives(lives, fates, writer)?;
    print_lists(handed, writer)?;
    writer.write_all(b"end\n")
}

/// Writes what precedes the log of a network with strangers: a line for each of these hosts, in their order. No book's
/// lines begin with such a line ([`law::no_strangers`](crate::law::no_strangers)).
///
/// Errors: `WriteFailed`.
pub fn print_strangers<W: Output>(strangers: &[HostAddr], writer: &mut W) -> Result<(), WriteFailed>
    requires { W.failed writer.old ≡ false }
    ensures written { OnOk result (Appends (W.contents writer.old) (W.contents writer.new) (strangers_text strangers.now)) }
    ensures failed { TellsFailure result (W.failed writer.new) }
{
    for stranger in strangers {
        print_stranger(stranger, writer)?;
    }
    Ok(())
}

/// Prints the line of a stranger.
fn print_stranger<W: Output>(stranger: &HostAddr, writer: &mut W) -> Result<(), WriteFailed>
    requires { W.failed writer.old ≡ false }
    ensures written { OnOk result (Appends (W.contents writer.old) (W.contents writer.new) (ended_line (stranger_line stranger.now))) }
    ensures failed { TellsFailure result (W.failed writer.new) }
{
    writeln!(writer, "foreign {stranger}")
}

/// Prints crossings with their texts.
fn print_crossings<W: Output>(crossings: &[Crossing], writer: &mut W) -> Result<(), WriteFailed>
    requires { W.failed writer.old ≡ false }
    ensures written { OnOk result (Appends (W.contents writer.old) (W.contents writer.new) (text_of logged_line crossings.now)) }
    ensures valid { OnOk result (All IsCrossing crossings.now) }
    ensures failed { TellsFailure result (W.failed writer.new) }
{
    for crossing in crossings {
        has_crossing_ranges(crossing);
        print_logged(crossing, writer)?;
    }
    Ok(())
}

/// Prints a crossing with its text, and an answer by the word that logs have for it.
fn print_logged<W: Output>(crossing: &Crossing, writer: &mut W) -> Result<(), WriteFailed>
    requires { W.failed writer.old ≡ false }
    ensures written { OnOk result (Appends (W.contents writer.old) (W.contents writer.new) (ended_line (logged_line crossing.now))) }
    ensures failed { TellsFailure result (W.failed writer.new) }
{
    match crossing {
        Crossing::Answer(kind, flow) => writeln!(writer, "answer {} {flow}", AnswerName(*kind)),
        Crossing::Out(_) | Crossing::In(_) | Crossing::Down(_) | Crossing::Up(_) => {
            print_crossing(crossing, Detail::Texts, writer)
        }
    }
}

/// Prints lives with their fates and bits.
fn print_lives<W: Output>(lives: &[Life], fates: &[Fate], writer: &mut W) -> Result<(), WriteFailed>
    requires { W.failed writer.old ≡ false }
    ensures written { OnOk result (Appends (W.contents writer.old) (W.contents writer.new) (text_of life_line (zip lives.now fates.now))) }
    ensures valid { OnOk result (All (λ x. IsLife x.0) (zip lives.now fates.now)) }
    ensures failed { TellsFailure result (W.failed writer.new) }
{
    for (place, life) in lives.iter().enumerate() {
        let Some(fate) = fate_at(fates, place) else {
            return Ok(());
        };
        has_life_ranges(life);
        print_life(life, fate, writer)?;
    }
    Ok(())
}

/// Returns the fate at a place.
fn fate_at(fates: &[Fate], place: usize) -> Option<Fate>
    ensures { result ≡ slice_get fates.now place }
{
    fates.get(place).copied()
}

/// Prints a life with its fate and bits.
fn print_life<W: Output>(life: &Life, fate: Fate, writer: &mut W) -> Result<(), WriteFailed>
    requires { W.failed writer.old ≡ false }
    ensures written { OnOk result (Appends (W.contents writer.old) (W.contents writer.new) (ended_line (life_line (life.now, fate)))) }
    ensures failed { TellsFailure result (W.failed writer.new) }
{
    let name = fate_name(fate);
    write!(writer, "{} ", LifeLine(life, name))?;
    print_bits(&life.bits, writer)?;
    writer.write_all(b"\n")
}

/// Returns the word for how far a life is.
fn fate_name(fate: Fate) -> &'static str
    ensures { result.now ≡ fate_name fate }
{
    match fate {
        Fate::Open | Fate::Closing => "open",
        Fate::Closed => "closed",
        Fate::Ended => "ended",
        Fate::Reset => "reset",
        Fate::Stopped => "stopped",
    }
}

/// Prints lists of bits.
fn print_lists<W: Output>(handed: &[BitLog], writer: &mut W) -> Result<(), WriteFailed>
    requires { W.failed writer.old ≡ false }
    ensures written { OnOk result (Appends (W.contents writer.old) (W.contents writer.new) (text_of handed_line handed.now)) }
    ensures valid { OnOk result (All IsHanded handed.now) }
    ensures failed { TellsFailure result (W.failed writer.new) }
{
    for bits in handed {
        has_list_range(bits);
        print_list(bits, writer)?;
    }
    Ok(())
}

/// Prints a list of bits.
fn print_list<W: Output>(bits: &BitLog, writer: &mut W) -> Result<(), WriteFailed>
    requires { W.failed writer.old ≡ false }
    ensures written { OnOk result (Appends (W.contents writer.old) (W.contents writer.new) (ended_line (handed_line bits.now))) }
    ensures failed { TellsFailure result (W.failed writer.new) }
{
    let count = bits.len();
    write!(writer, "handed {count} ")?;
    print_bits(bits, writer)?;
    writer.write_all(b"\n")
}

/// Prints the octets of bits, as a script spells them: a hyphen for no bits.
fn print_bits<W: Output>(bits: &BitLog, writer: &mut W) -> Result<(), WriteFailed>
    requires { W.failed writer.old ≡ false }
    ensures written { OnOk result (Appends (W.contents writer.old) (W.contents writer.new) (octets_text bits.now)) }
    ensures failed { TellsFailure result (W.failed writer.new) }
{
    if bits.len() == 0 {
        return writer.write_all(b"-");
    }
    print_octets(bits, writer)
}

/// Prints the octets of bits in upper case hexadecimal, two digits each.
fn print_octets<W: Output>(bits: &BitLog, writer: &mut W) -> Result<(), WriteFailed>
    requires { W.failed writer.old ≡ false }
    ensures written { OnOk result (Appends (W.contents writer.old) (W.contents writer.new) (encode_upper (octets_of bits.now))) }
    ensures failed { TellsFailure result (W.failed writer.new) }
{
    let count = octets_for(bits.len());
    for i in 0..count {
        let octet = octet_at(bits, 8 * i);
        print_octet(octet, writer)?;
    }
    Ok(())
}

/// Returns how many octets this many bits take.
fn octets_for(count: usize) -> usize
    ensures low { count ≤ 8 * result }
    ensures high { 8 * result < count + 8 }
{
    let whole = count / 8;
    if count % 8 == 0 { whole } else { whole + 1 }
}

/// Prints an octet by two digits.
fn print_octet<W: Output>(octet: u8, writer: &mut W) -> Result<(), WriteFailed>
    requires { W.failed writer.old ≡ false }
    ensures written { OnOk result (Appends (W.contents writer.old) (W.contents writer.new) (slice_index upper_digits (octet / 16) ∷ slice_index upper_digits (octet % 16) ∷ [])) }
    ensures failed { TellsFailure result (W.failed writer.new) }
{
    writer.write_all(&[digit(octet / 16), digit(octet % 16)])
}

/// Returns the upper case hexadecimal digit of a number.
fn digit(number: u8) -> u8
    requires { number < 16 }
    ensures { result ≡ slice_index upper_digits number }
{
    b"0123456789ABCDEF"[number as usize]
}

/// Returns the octet of the eight bits from a place on; past the end they are zeros.
fn octet_at(bits: &BitLog, from: usize) -> u8
    requires { from ≤ length bits.now }
    ensures { result ≡ octet_at from bits.now }
{
    128 * bit_at(bits, from, 0)
        + 64 * bit_at(bits, from, 1)
        + 32 * bit_at(bits, from, 2)
        + 16 * bit_at(bits, from, 3)
        + 8 * bit_at(bits, from, 4)
        + 4 * bit_at(bits, from, 5)
        + 2 * bit_at(bits, from, 6)
        + bit_at(bits, from, 7)
}

/// Returns the bit this far after a place, as 0 or 1; past the end it is 0.
fn bit_at(bits: &BitLog, from: usize, behind: usize) -> u8
    requires { from ≤ length bits.now }
    ensures same { result ≡ bit_value (slice_index_or bits.now (from + behind) false) }
    ensures small { result ≤ 1 }
{
    if behind >= bits.len() - from {
        return 0;
    }
    match bits.get(from + behind) {
        Some(true) => 1,
        Some(false) | None => 0,
    }
}
