//! The head of an input: its topology, and the marker line.

ghost use Rattle.std.specs.Prelude.{◌≡◌, ◌+◌, ◌≤◌, ◌↔◌, [], Err, IfErr, IfOk, List, OnOk, false, length, true, ℕ};
ghost use Rattle.session.specs.Hearing.{Hears, hearing};
ghost use Rattle.session.specs.Head.{IsHead, WasNoHead};

use crate::hearing::hear;
use command_line::{ScriptFault, Source};
use replay::Output;
use script::MAX_INPUT;
use script::reading::is_word;
use std::alloc::Global;

/// Hears the lines of an input up to its marker line `%`, and returns them. What was read after it is in `ahead` then.
///
/// Errors: `CannotRead`, `TooLong` and `OutOfMemory` as in [`hear`]; `BadTopology` where no marker line with its end
/// comes.
pub(crate) fn read_head<R: Source, W: Output>(
    alloc: Global,
    reader: &mut R,
    writer: &W,
    ahead: &mut Vec<u8>,
) -> Result<Vec<u8>, ScriptFault>
    requires reads { R.failed reader.old ≡ false }
    requires more { R.ended reader.old ≡ false }
    requires handed { W.flushed writer.now ≡ true }
    requires none { ahead.old.items ≡ [] }
    ensures head { IfOk result (λ head. (document : List ℕ) × IsHead head.items document) }
    ensures hears { IfOk result (λ head. Hears (record { heard = 0; left = R.remaining reader.old }) (hearing (length head.items) ahead.new.items (R.remaining reader.new)) head.items) }
    ensures short { IfOk result (λ head. length head.items + length ahead.new.items ≤ MAX_INPUT) }
    ensures going { OnOk result (R.ended reader.new ≡ false) }
    ensures fault { IfErr result (WasNoHead (R.remaining reader.old)) }
    ensures failed { (result ≡ Err ScriptFault.CannotRead) ↔ (R.failed reader.new ≡ true) }
{
    let mut head = Vec::new(alloc);
    'lines: loop {
        let next = hear(alloc, reader, writer, ahead, head.len())?;
        if !next.ended {
            return Err(ScriptFault::BadTopology);
        }
        head.extend_from_slice(&next.line)?;
        if is_word(&next.line, b"%\n") {
            return Ok(head);
        }
    }
}
