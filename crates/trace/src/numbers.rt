//! The numbers of a script's lines.

ghost use Rattle.std.specs.Prelude.{◌≡◌, ◌<◌, ◌≤◌, IfOk, OnErr, length, zip};
ghost use Rattle.trace.specs.Traces.{event_lines};

use script::MAX_INPUT;
use script::reading::{first_line, is_passed_over};
use std::alloc::{AllocError, Global};

/// Returns the numbers of the lines that ask for an event, in order. Lines are counted from 1.
///
/// Errors: `AllocError`.
pub fn event_lines(alloc: Global, script: &[u8]) -> Result<Vec<usize>, AllocError>
    requires { length script.now ≤ MAX_INPUT }
    ensures { IfOk result (λ numbers. numbers.items ≡ event_lines script.now) }
{
    let mut numbers = Vec::new(alloc);
    let mut passed = 0;
    let mut rest = Some(script);
    'lines: while let Some(left) = rest {
        let (line, more) = first_line(left);
        if !is_passed_over(line) {
            numbers.push(passed + 1)?;
        }
        passed += 1;
        rest = more;
    }
    Ok(numbers)
}

/// Returns events, each after the number of its line. What is more of the one than of the other is left out. It takes
/// all its room at once.
///
/// Errors: `AllocError`, and only if there is an event to keep.
pub fn beside_lines<E: Drop>(
    alloc: Global,
    lines: &[usize],
    events: Vec<E>,
) -> Result<Vec<(usize, E)>, AllocError>
    ensures placed { IfOk result (λ placed. placed.items ≡ zip lines.now events.items) }
    ensures memory { OnErr result ((0 < length lines.now) × (0 < length events.items)) }
{
    let places = lines.len().min(events.len());
    if places == 0 {
        return Ok(Vec::new(alloc));
    }
    let mut placed = Vec::with_capacity(alloc, places)?;
    placed.extend(lines.iter().copied().zip(events))?;
    Ok(placed)
}
