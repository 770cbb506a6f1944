//! Scripts of any kind: one event a line.

ghost use Rattle.std.specs.Prelude.{◌≡◌, Bool, ℕ, ◌≤◌, List, length, MatchResult, IfOk, IfErr};
ghost use Rattle.script.specs.Script.{AskForAs, IsLineFaultAs, lines_of};
ghost use Rattle.script.specs.Spelling.{ReadsAs};

use crate::events::is_passed_over;
use crate::fault::LineFault;
use crate::input::{MAX_INPUT, first_line};
use std::alloc::{AllocError, Global};

/// An event of one kind of script. A line asks for it exactly if it is its spelling.
pub trait ScriptEvent: Drop {
    /// The line that asks for it.
    ghost spelled: { Self → List ℕ };

    /// Which events a script may ask for, by whether there are strangers, hosts without a program, among those with
    /// one. It may hold values that no line spells.
    ghost is_meant: { Bool → Self → Type 0 };

    /// Which lines need memory to be read and kept.
    ghost wants: { Bool → List ℕ → Type 0 };

    /// Returns the event that a line asks for. `None` if the line is not a valid event.
    ///
    /// Errors: `AllocError`, only for a line that needs memory.
    fn read(alloc: Global, line: &[u8], strangers: bool) -> Result<Option<Self>, AllocError>
        ensures read { IfOk result (ReadsAs spelled (is_meant strangers) line.now) }
        ensures memory { IfErr result (λ _. wants strangers line.now) };

    /// The line of each event is one of these, since the event is kept.
    ghost kept: { (strangers : Bool) (e : Self) (line : List ℕ) → line ≡ spelled e → is_meant strangers e → wants strangers line };
}

/// Returns the events of a script of a network with strangers, or without, in order. Empty lines and lines that begin
/// with `#` are ignored, but they are counted.
///
/// Errors: `BadLine` with the number of the first line, counted from 1, that is not an event. `OutOfMemory` only
/// at a line that needs memory, with no bad line before it.
pub fn read_events<E: ScriptEvent>(
    alloc: Global,
    text: &[u8],
    strangers: bool,
) -> Result<Vec<E>, LineFault>
    requires { length text.now ≤ MAX_INPUT }
    ensures { MatchResult result (λ events. AskForAs E.spelled (E.is_meant strangers) events.items (lines_of text.now)) (IsLineFaultAs E.spelled (E.is_meant strangers) (E.wants strangers) text.now) }
{
    let mut events = Vec::new(alloc);
    let mut passed = 0;
    let mut rest = Some(text);
    'lines: while let Some(left) = rest {
        let (line, more) = first_line(left);
        if !is_passed_over(line) {
            let Some(event) = E::read(alloc, line, strangers)? else {
                return Err(LineFault::BadLine(passed + 1));
            };
            events.push(event)?;
        }
        passed += 1;
        rest = more;
    }
    Ok(events)
}
