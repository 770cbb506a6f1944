//! The lines of what an audit says.

ghost use Rattle.std.specs.Prelude.{◌≡◌, OnOk, false, true};
ghost use Rattle.replay.specs.Failing.{TellsFailure};
ghost use Rattle.std.specs.Io.KnownBytes.{Appends};
ghost use Rattle.command_line.specs.Audits.{broken_text, closes_text, fates_text, found_text, is_kept, is_safe, lives_text, malformed_text, parts_text, sent_text};
ghost use Rattle.command_line.specs.Audits.{run_text, toward_text, word_text};

use crate::layout::Layout;
use net_sim::{Finding, Part};
use replay::{Output, WriteFailed};
use std::fmt;

/// What is said of a log: what is wrong, and where it shows. What isn't named holds. But for `malformed` and `toward`, which
/// are about all lives, the places of lives are among those of hosts with programs, with such hosts.
#[derive(Clone, Copy, Debug, PartialEq, Eq)]
pub struct Verdict {
    /// The place of the first crossing with which what crossed is no run of the mailboxes, counted from 0; `None`
    /// where it is one.
    pub stray: Option<usize>,
    /// The place of the first life that isn't made of the messages that crossed, counted from 0; `None` where all are.
    pub unmade: Option<usize>,
    /// Where it shows that the book is malformed; `None` where it isn't.
    pub malformed: Option<Finding>,
    /// Where it shows that messages are broken; `None` where they are kept.
    pub messages: Option<Finding>,
    /// Where it shows that partners are broken; `None` where they are kept, or the book is malformed.
    pub partners: Option<Finding>,
    /// Where it shows that streams are broken; `None` where they are kept, or the book is malformed.
    pub streams: Option<Finding>,
    /// Where it shows that grants are broken; `None` where they are kept, or the book is malformed.
    pub grants: Option<Finding>,
    /// Where it shows that a message which a life counts isn't the one with its number of a life that it matches; `None`
    /// where each is, or the book is malformed.
    pub sent: Option<Finding>,
    /// Where it shows that closes are broken; `None` where they are kept, or the book is malformed.
    pub closes: Option<Finding>,
    /// The place of the first life whose fate isn't one that what crossed leaves it, counted from 0; `None` where
    /// each has such a fate.
    pub unsuited: Option<usize>,
    /// The place among all lives of the first that is a stranger's, or that is toward a stranger and took more than it
    /// granted, or sent what wasn't handed over in it, counted from 0; `None` where there is none, or the book is malformed.
    pub toward: Option<usize>,
}

impl Verdict {
    /// Returns whether nothing is wrong.
    pub fn is_kept(&self) -> bool
        ensures { result ≡ is_kept self.now }
    {
        self.is_safe() && self.closes.is_none() && self.unsuited.is_none()
    }

    /// Returns whether nothing is wrong but closes or fates: whether that holds which may be asked of the log of any
    /// host's program.
    pub fn is_safe(&self) -> bool
        ensures { result ≡ is_safe self.now }
    {
        self.stray.is_none()
            && self.unmade.is_none()
            && self.malformed.is_none()
            && self.messages.is_none()
            && self.partners.is_none()
            && self.streams.is_none()
            && self.grants.is_none()
            && self.sent.is_none()
            && self.toward.is_none()
    }
}

/// One or two lines of a log, counted from 1.
#[derive(Clone, Copy)]
pub(crate) enum Lines {
    /// This line.
    One(u128),
    /// These two lines.
    Two(u128, u128),
}

/// Prints `line N` or `lines M N`.
impl fmt::Display for Lines {
    ghost use Rattle.std.specs.Prelude.{Some};
    ghost use Rattle.command_line.specs.Audits.{lines_text};

    ghost output = { λ lines. Some (lines_text lines) };

    fn fmt<W: fmt::Write>(&self, f: &mut fmt::Formatter<W>) -> fmt::Result {
        match self {
            Lines::One(line) => write!(f, "line {line}"),
            Lines::Two(line, other) => write!(f, "lines {line} {other}"),
        }
    }
}

/// Writes what is said of a book, and all that the writer still holds back.
///
/// Errors: `WriteFailed`.
pub(crate) fn write_found<W: Output>(
    layout: &Layout,
    found: Verdict,
    writer: &mut W,
) -> Result<(), WriteFailed>
    requires whole { W.failed writer.old ≡ false }
    ensures written { OnOk result (Appends (W.contents writer.old) (W.contents writer.new) (found_text layout.now found)) }
    ensures failed { TellsFailure result (W.failed writer.new) }
    ensures flushed { OnOk result (W.flushed writer.new ≡ true) }
{
    write_run(layout, found.stray, writer)?;
    write_lives(layout, found.unmade, writer)?;
    write_malformed(layout, found.malformed, writer)?;
    write_parts(layout, found, writer)?;
    write_fates(layout, found.unsuited, writer)?;
    write_toward(layout, found.toward, writer)?;
    write_word(found, writer)?;
    writer.flush()
}

/// Writes the line of a crossing that finds no box as it needs it, if there is one.
///
/// Errors: `WriteFailed`.
fn write_run<W: Output>(
    layout: &Layout,
    stray: Option<usize>,
    writer: &mut W,
) -> Result<(), WriteFailed>
    requires whole { W.failed writer.old ≡ false }
    ensures written { OnOk result (Appends (W.contents writer.old) (W.contents writer.new) (run_text layout.now stray)) }
    ensures failed { TellsFailure result (W.failed writer.new) }
{
    match stray {
        Some(place) => {
            let line = layout.crossing(place);
            writeln!(writer, "broken run line {line}")
        }
        None => Ok(()),
    }
}

/// Writes the line of a life that isn't made of the messages that crossed, if there is one.
///
/// Errors: `WriteFailed`.
fn write_lives<W: Output>(
    layout: &Layout,
    unmade: Option<usize>,
    writer: &mut W,
) -> Result<(), WriteFailed>
    requires whole { W.failed writer.old ≡ false }
    ensures written { OnOk result (Appends (W.contents writer.old) (W.contents writer.new) (lives_text layout.now unmade)) }
    ensures failed { TellsFailure result (W.failed writer.new) }
{
    match unmade {
        Some(place) => {
            let line = layout.program_life(place);
            writeln!(writer, "broken lives line {line}")
        }
        None => Ok(()),
    }
}

/// Writes the line where it shows that a book is malformed, if it is.
///
/// Errors: `WriteFailed`.
fn write_malformed<W: Output>(
    layout: &Layout,
    malformed: Option<Finding>,
    writer: &mut W,
) -> Result<(), WriteFailed>
    requires whole { W.failed writer.old ≡ false }
    ensures written { OnOk result (Appends (W.contents writer.old) (W.contents writer.new) (malformed_text layout.now malformed)) }
    ensures failed { TellsFailure result (W.failed writer.new) }
{
    match malformed {
        Some(found) => {
            let lines = layout.any_lines(found);
            writeln!(writer, "malformed {lines}")
        }
        None => Ok(()),
    }
}

/// Writes the lines where it shows that a part of a safe book is broken, if it is.
///
/// Errors: `WriteFailed`.
fn write_broken<W: Output>(
    layout: &Layout,
    part: Part,
    broken: Option<Finding>,
    writer: &mut W,
) -> Result<(), WriteFailed>
    requires whole { W.failed writer.old ≡ false }
    ensures written { OnOk result (Appends (W.contents writer.old) (W.contents writer.new) (broken_text layout.now part broken)) }
    ensures failed { TellsFailure result (W.failed writer.new) }
{
    match broken {
        Some(found) => {
            let lines = layout.program_lines(found);
            writeln!(writer, "broken {part} {lines}")
        }
        None => Ok(()),
    }
}

/// Writes the lines where it shows that a message which a life counts isn't the one with its number of a life that it
/// matches, if one isn't.
///
/// Errors: `WriteFailed`.
fn write_sent<W: Output>(
    layout: &Layout,
    sent: Option<Finding>,
    writer: &mut W,
) -> Result<(), WriteFailed>
    requires whole { W.failed writer.old ≡ false }
    ensures written { OnOk result (Appends (W.contents writer.old) (W.contents writer.new) (sent_text layout.now sent)) }
    ensures failed { TellsFailure result (W.failed writer.new) }
{
    match sent {
        Some(found) => {
            let lines = layout.program_lines(found);
            writeln!(writer, "broken sent {lines}")
        }
        None => Ok(()),
    }
}

/// Writes the lines where it shows that a life which its partner ended lost anything, if one did.
///
/// Errors: `WriteFailed`.
fn write_closes<W: Output>(
    layout: &Layout,
    closes: Option<Finding>,
    writer: &mut W,
) -> Result<(), WriteFailed>
    requires whole { W.failed writer.old ≡ false }
    ensures written { OnOk result (Appends (W.contents writer.old) (W.contents writer.new) (closes_text layout.now closes)) }
    ensures failed { TellsFailure result (W.failed writer.new) }
{
    match closes {
        Some(found) => {
            let lines = layout.program_lines(found);
            writeln!(writer, "broken closes {lines}")
        }
        None => Ok(()),
    }
}

/// Writes the line of a life whose fate isn't one that what crossed leaves it, if there is one.
///
/// Errors: `WriteFailed`.
fn write_fates<W: Output>(
    layout: &Layout,
    unsuited: Option<usize>,
    writer: &mut W,
) -> Result<(), WriteFailed>
    requires whole { W.failed writer.old ≡ false }
    ensures written { OnOk result (Appends (W.contents writer.old) (W.contents writer.new) (fates_text layout.now unsuited)) }
    ensures failed { TellsFailure result (W.failed writer.new) }
{
    match unsuited {
        Some(place) => {
            let line = layout.program_life(place);
            writeln!(writer, "broken fates line {line}")
        }
        None => Ok(()),
    }
}

/// Writes the line of a life that is a stranger's, or that is toward one and isn't as it should be, if there is one.
///
/// Errors: `WriteFailed`.
fn write_toward<W: Output>(
    layout: &Layout,
    toward: Option<usize>,
    writer: &mut W,
) -> Result<(), WriteFailed>
    requires whole { W.failed writer.old ≡ false }
    ensures written { OnOk result (Appends (W.contents writer.old) (W.contents writer.new) (toward_text layout.now toward)) }
    ensures failed { TellsFailure result (W.failed writer.new) }
{
    match toward {
        Some(place) => {
            let line = layout.any_life(place);
            writeln!(writer, "broken toward line {line}")
        }
        None => Ok(()),
    }
}

/// Writes a line for each part of a safe book that is broken, for what was sent, and for closes.
///
/// Errors: `WriteFailed`.
fn write_parts<W: Output>(
    layout: &Layout,
    found: Verdict,
    writer: &mut W,
) -> Result<(), WriteFailed>
    requires whole { W.failed writer.old ≡ false }
    ensures written { OnOk result (Appends (W.contents writer.old) (W.contents writer.new) (parts_text layout.now found)) }
    ensures failed { TellsFailure result (W.failed writer.new) }
{
    write_broken(layout, Part::Messages, found.messages, writer)?;
    write_broken(layout, Part::Partners, found.partners, writer)?;
    write_broken(layout, Part::Streams, found.streams, writer)?;
    write_broken(layout, Part::Grants, found.grants, writer)?;
    write_sent(layout, found.sent, writer)?;
    write_closes(layout, found.closes, writer)
}

/// Writes the word of a book: `kept` where nothing is wrong, `safe` where only closes or fates are.
///
/// Errors: `WriteFailed`.
fn write_word<W: Output>(found: Verdict, writer: &mut W) -> Result<(), WriteFailed>
    requires whole { W.failed writer.old ≡ false }
    ensures written { OnOk result (Appends (W.contents writer.old) (W.contents writer.new) (word_text found)) }
    ensures failed { TellsFailure result (W.failed writer.new) }
{
    if found.is_kept() {
        writer.write_all(b"kept\n")
    } else if found.is_safe() {
        writer.write_all(b"safe\n")
    } else {
        Ok(())
    }
}
