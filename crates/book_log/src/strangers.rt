//! The lines of strangers, with which the log of a network begins.

ghost use Rattle.std.specs.Prelude.{◌≡◌, IfErr, IfOk};
ghost use Rattle.script.specs.Spelling.{IsHost, ReadsAs};
ghost use Rattle.book_log.specs.Log.{stranger_line};
ghost use Rattle.book_log.specs.Steps.{Names, NamesMore, NamesNext, follows};

use interface::HostAddr;
use script::reading::{cut, read_host};
use std::alloc::{AllocError, Global};

/// Returns the strangers that a text begins with, and what is after their lines: it begins with no line of a stranger
/// who may come next.
///
/// Errors: `AllocError`, only where one comes next.
pub(crate) fn read_strangers(
    alloc: Global,
    text: &[u8],
) -> Result<(Vec<HostAddr>, &[u8]), AllocError>
    ensures names { IfOk result (λ read. Names text.now read.0.items read.1.now) }
    ensures memory { IfErr result (λ _. NamesMore text.now) }
{
    let mut strangers = Vec::new(alloc);
    let mut last = None;
    let mut left = text;
    'lines: while let Some(next) = next_stranger(last, left) {
        strangers.push(next.0)?;
        last = Some(next.0);
        left = next.1;
    }
    Ok((strangers, left))
}

/// Returns the stranger whose line a text begins with, and what is after that line. `None` where it begins with none, or
/// with one who may not come after the last.
fn next_stranger(last: Option<HostAddr>, text: &[u8]) -> Option<(HostAddr, &[u8])>
    ensures { NamesNext last text.now result }
{
    let (line, more) = cut(text, b'\n')?;
    let stranger = read_stranger(line)?;
    if follows(last, stranger) {
        Some((stranger, more))
    } else {
        None
    }
}

/// Returns whether a stranger may come after the last one.
fn follows(last: Option<HostAddr>, stranger: HostAddr) -> bool
    ensures { result ≡ follows last stranger }
{
    match last {
        Some(before) => before < stranger,
        None => true,
    }
}

/// Returns the host whose line as a stranger this is.
fn read_stranger(line: &[u8]) -> Option<HostAddr>
    ensures { ReadsAs stranger_line IsHost line.now result }
{
    let (word, rest) = cut(line, b' ')?;
    if word == b"foreign".as_slice() {
        return read_host(rest);
    }
    None
}
