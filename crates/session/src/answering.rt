//! Answering the lines of a reader, one after the other.

ghost use Rattle.std.specs.Prelude.{◌≡◌, ◌≢◌, ◌+◌, ◌≤◌, ◌↔◌, Err, IfErr, OnOk, false, length, true};
ghost use Rattle.session.specs.Hearing.{hearing};
ghost use Rattle.session.specs.Turns.{Ends, IsAnswered, IsBadLine, IsCause, reading};

use crate::hearing::hear;
use crate::stage::Stage;
use command_line::{ScriptFault, Source};
use replay::Output;
use script::reading::{ScriptEvent, read_events};
use script::{LineFault, MAX_INPUT};
use std::alloc::Global;

/// Hears the lines of a script of a network with strangers, or without, to the end of the input, and answers each
/// before it hears the next: what its event shows, and an empty line. Octets of the script that were read already are
/// in `ahead`; `heard` octets of the input were heard before.
///
/// Errors: `CannotRead`, `TooLong` and `OutOfMemory` as in [`hear`]; `BadLine` for the first line that is no event;
/// `OutOfMemory` within an answer, of which a part may be written then; `CannotWrite`. The lines before it were answered.
pub fn answer_lines<E: ScriptEvent, S: Stage<E, W>, R: Source, W: Output>(
    alloc: Global,
    stage: &mut S,
    strangers: bool,
    reader: &mut R,
    ahead: &mut Vec<u8>,
    heard: usize,
    writer: &mut W,
) -> Result<(), ScriptFault>
    requires reads { R.failed reader.old ≡ false }
    requires more { R.ended reader.old ≡ false }
    requires writes { W.failed writer.old ≡ false }
    requires handed { W.flushed writer.old ≡ true }
    requires short { heard + length ahead.old.items ≤ MAX_INPUT }

    // all lines are answered in turn, to the end of the input, or those before the fault
    ensures ends { Ends (reading E.spelled (E.is_meant strangers) S.replays stage.old) (hearing heard ahead.old.items (R.remaining reader.old)) (W.contents writer.old) (W.contents writer.new) result }
    ensures handed { OnOk result (W.flushed writer.new ≡ true) }
    ensures kept { IfErr result (λ f. f ≢ ScriptFault.CannotWrite → f ≢ ScriptFault.OutOfMemory → W.flushed writer.new ≡ true) }
    ensures cannot_read { (result ≡ Err ScriptFault.CannotRead) ↔ (R.failed reader.new ≡ true) }
    ensures cannot_write { (result ≡ Err ScriptFault.CannotWrite) ↔ (W.failed writer.new ≡ true) }
{
    S::goes_on();
    stage.opens();
    let mut so_far = heard;
    let mut passed = 0;
    'lines: loop {
        let next = hear(alloc, reader, &*writer, ahead, so_far)?;
        if next.line.is_empty() {
            return Ok(());
        }
        answer(alloc, stage, strangers, &next.line, passed, writer)?;
        if !next.ended {
            return Ok(());
        }
        so_far = next.heard;
        passed += 1;
    }
}

/// Answers one line, after this many lines: its event happens, if it asks for one, what that shows is written and an
/// empty line, and all is handed on.
///
/// Errors: `BadLine` where it is no event, `OutOfMemory`, `CannotWrite`.
fn answer<E: ScriptEvent, S: Stage<E, W>, W: Output>(
    alloc: Global,
    stage: &mut S,
    strangers: bool,
    line: &[u8],
    passed: usize,
    writer: &mut W,
) -> Result<(), ScriptFault>
    requires short { length line.now ≤ MAX_INPUT }
    requires few { passed ≤ MAX_INPUT }
    requires writes { W.failed writer.old ≡ false }
    ensures answered { OnOk result (IsAnswered E.spelled (E.is_meant strangers) S.replays stage.old stage.new line.now (W.contents writer.old) (W.contents writer.new)) }
    ensures cause { IfErr result (λ f. IsCause (IsBadLine E.spelled (E.is_meant strangers) line.now passed) ⊥ f (W.contents writer.old) (W.contents writer.new)) }
    ensures fault { IfErr result (λ f. f ≢ ScriptFault.CannotRead) }
    ensures kept { IfErr result (λ f. f ≢ ScriptFault.CannotWrite → f ≢ ScriptFault.OutOfMemory → writer.new ≡ writer.old) }
    ensures handed { OnOk result (W.flushed writer.new ≡ true) }
    ensures failed { (result ≡ Err ScriptFault.CannotWrite) ↔ (W.failed writer.new ≡ true) }
{
    match read_events::<E>(alloc, line, strangers) {
        Ok(events) => stage.replay(events, writer)?,
        Err(LineFault::BadLine(_)) => return Err(ScriptFault::BadLine(passed + 1)),
        Err(LineFault::OutOfMemory) => return Err(ScriptFault::OutOfMemory),
    }
    writer.write_all(b"\n")?;
    Ok(writer.flush()?)
}
