//! Hearing the lines of a reader.

ghost use Rattle.std.specs.Prelude.{◌≡◌, ◌+◌, ◌≤◌, ◌↔◌, ◌++◌, Err, IfErr, IfOk, MatchOption, false, length, not, true};
ghost use Rattle.std.specs.Io.KnownBytes.{prepend_known};
ghost use Rattle.command_line.specs.Steps.{IsReadFault};
ghost use Rattle.session.specs.Hearing.{EndsAt, Hears, IsHeard, IsLine, IsTooLong, hearing};

use command_line::{ScriptFault, Source};
use replay::Output;
use script::MAX_INPUT;
use script::reading::cut;
use std::alloc::{AllocError, Global};
use std::mem;

/// How many octets are asked for at once.
const CHUNK: usize = 4096;

/// What was heard.
#[derive(Drop)]
pub struct Heard {
    /// A line with its end; or what was left at the end of the input, a line without an end or nothing.
    pub line: Vec<u8>,
    /// Whether it has its end.
    pub ended: bool,
    /// How many octets of the input were heard so far.
    pub heard: usize,
}

/// Hears the next line: it reads until the line's end has come, or to the end of the input. What was read and not heard
/// yet is kept in `ahead`, before and after. So many octets of the input were heard before.
///
/// Nothing may be held back while it waits: the writer to which answers go has handed on all.
///
/// Errors: `CannotRead` where a read fails, `TooLong` where there are more octets than an input may have,
/// `OutOfMemory`.
pub fn hear<R: Source, W: Output>(
    alloc: Global,
    reader: &mut R,
    _writer: &W,
    ahead: &mut Vec<u8>,
    heard: usize,
) -> Result<Heard, ScriptFault>
    requires reads { R.failed reader.old ≡ false }
    requires more { R.ended reader.old ≡ false }
    requires short { heard + length ahead.old.items ≤ MAX_INPUT }
    // nothing that was written is held back
    requires handed { W.flushed _writer.now ≡ true }
    ensures hears { IfOk result (λ h. Hears (hearing heard ahead.old.items (R.remaining reader.old)) (hearing h.heard ahead.new.items (R.remaining reader.new)) h.line.items) }
    ensures heard { IfOk result (λ h. IsHeard h.ended h.line.items (prepend_known ahead.new.items (R.remaining reader.new))) }
    ensures ended { IfOk result (λ h. R.ended reader.new ≡ not h.ended) }
    ensures short { IfOk result (λ h. h.heard + length ahead.new.items ≤ MAX_INPUT) }
    ensures fault { IfErr result IsReadFault }
    ensures too_long { result ≡ Err ScriptFault.TooLong → IsTooLong (hearing heard ahead.old.items (R.remaining reader.old)) }
    ensures failed { (result ≡ Err ScriptFault.CannotRead) ↔ (R.failed reader.new ≡ true) }
{
    if let Some(count) = line_end(ahead) {
        let line = first_part(ahead, count)?;
        return Ok(Heard {
            line,
            ended: true,
            heard: heard + count,
        });
    }
    let mut buffer = [0; CHUNK];
    'chunks: loop {
        let seen = ahead.len();
        let room = CHUNK.min(MAX_INPUT + 1 - heard - seen);
        let chunk = &mut buffer[..room];
        let count = reader.read(chunk)?;
        if count == 0 {
            let line = mem::replace(ahead, Vec::new(alloc));
            return Ok(Heard {
                line,
                ended: false,
                heard: heard + seen,
            });
        }
        if heard + seen + count > MAX_INPUT {
            return Err(ScriptFault::TooLong);
        }
        ahead.extend_from_slice(&chunk[..count])?;
        if let Some(end) = line_end(&chunk[..count]) {
            let line = first_part(ahead, seen + end)?;
            return Ok(Heard {
                line,
                ended: true,
                heard: heard + seen + end,
            });
        }
    }
}

/// Returns how many octets the first line has, with its end. `None` where no line has its end.
fn line_end(octets: &[u8]) -> Option<usize>
    ensures { MatchOption result (IsLine octets.now) (λ count. EndsAt octets.now count) }
{
    let (line, _) = cut(octets, b'\n')?;
    Some(line.len() + 1)
}

/// Takes the first octets of what was read ahead, this many.
///
/// Errors: `AllocError`.
fn first_part(ahead: &mut Vec<u8>, count: usize) -> Result<Vec<u8>, AllocError>
    requires { count ≤ length ahead.old.items }
    ensures { IfOk result (λ first. (ahead.old.items ≡ first.items ++ ahead.new.items) × (length first.items ≡ count)) }
{
    let rest = ahead.split_off(count)?;
    Ok(mem::replace(ahead, rest))
}
