//! Lines, and the octets that they come in.

ghost use Rattle.std.specs.Prelude.{◌≡◌, ◌<◌, [], ◌∷◌, ◌++◌, length, IfOk, OnErr};
ghost use Rattle.std.specs.List.{list_all};
ghost use Rattle.terminal.specs.Lines as lines;

use crate::TerminalFault;
use std::alloc::{AllocError, Global};
use std::marker::Model;
use std::mem;

/// The octet that a line's end begins with.
pub const CARRIAGE_RETURN: u8 = 13;

/// The octet that ends a line, after a carriage return.
pub const LINE_FEED: u8 = 10;

/// A whole line that came in, without its end: octets of any value.
#[derive(Debug, Drop)]
pub struct Line {
    octets: Vec<u8>,
}

impl Model for Line {
    ghost use Rattle.std.specs.Prelude.{ℕ, List};

    ghost Value = { List ℕ };

    ghost view = { λ l. l.octets.items };
}

impl Line {
    /// Returns the octets of the line, without its end.
    pub fn as_octets(&self) -> &[u8]
        ensures { result.now ≡ self.now }
    {
        &self.octets
    }
}

/// Returns whether an octet may be in a line that is typed.
fn is_printable(octet: u8) -> bool
    ensures { result ≡ lines.is_printable octet }
{
    matches!(octet, 32..=126)
}

/// Returns whether all octets of a text may be typed.
fn is_text(text: &[u8]) -> bool
    ensures { result ≡ list_all lines.is_printable text.now }
{
    text.iter().all(|octet| is_printable(*octet))
}

/// Returns the octets of a line: its text, and its end.
fn spelled(alloc: Global, text: &[u8]) -> Result<Vec<u8>, AllocError>
    ensures { IfOk result (λ octets. octets.items ≡ lines.spelled text.now) }
{
    let mut octets = Vec::new(alloc);
    octets.extend_from_slice(text)?;
    octets.push(CARRIAGE_RETURN)?;
    octets.push(LINE_FEED)?;
    Ok(octets)
}

/// Returns the octets of a line with this text: the text, 13 and 10.
///
/// Errors: `NotPrintable` where an octet of the text isn't from 32 to 126, then `OutOfMemory`.
pub fn typed(alloc: Global, text: &[u8]) -> Result<Vec<u8>, TerminalFault>
    ensures { lines.Decided (lines.line_fault text.now) (λ octets. octets.items ≡ lines.spelled text.now) result }
{
    if !is_text(text) {
        return Err(TerminalFault::NotPrintable);
    }
    Ok(spelled(alloc, text)?)
}

/// Returns whether this octet ends a line, where these came since the last end.
fn ends_line(rest: &[u8], octet: u8) -> bool
    ensures { result ≡ lines.ends_line rest.now octet }
{
    octet == LINE_FEED && rest.last().copied().unwrap_or(0) == CARRIAGE_RETURN
}

/// Takes one more octet: it ends a line, or is kept.
fn hear_octet(
    alloc: Global,
    told: &mut Vec<Line>,
    rest: &mut Vec<u8>,
    octet: u8,
) -> Result<(), AllocError>
    ensures { IfOk result (λ _. lines.hear (told.old.items, rest.old.items) octet ≡ (told.new.items, rest.new.items)) }
{
    if !ends_line(rest, octet) {
        rest.push(octet)?;
        return Ok(());
    }
    let mut octets = mem::replace(rest, Vec::new(alloc));
    octets.truncate(octets.len() - 1);
    told.push(Line { octets })?;
    Ok(())
}

/// Takes these octets. Gives the lines that have ended, and keeps what came since.
pub(crate) fn hear(
    alloc: Global,
    rest: &mut Vec<u8>,
    octets: &[u8],
) -> Result<Vec<Line>, AllocError>
    ensures { IfOk result (λ told. lines.lines_heard rest.old.items octets.now ≡ (told.items, rest.new.items)) }
{
    let mut told = Vec::new(alloc);
    for octet in octets {
        hear_octet(alloc, &mut told, rest, *octet)?;
    }
    Ok(told)
}
