//! Whether what crossed is a run of the mailboxes.

ghost use Rattle.std.specs.Prelude.{◌≡◌, IfOk, MatchOption, reverse};
ghost use Rattle.book_judge.specs.Runs.{IsSomeRun, StraysAt};

use crate::mail::Mail;
use interface::Crossing;
use std::alloc::{AllocError, Global};

/// Returns the place of the first crossing with which a log is no run of the mailboxes between any hosts (BBN Report 1822: one
/// message outstanding on a link), counted from 0. `None` where it is one. The log is the oldest first.
///
/// A log names no hosts. So a host is one of the network's where it occurs in the log, and up until it goes down.
///
/// Errors: `AllocError`.
pub fn stray_at(alloc: Global, log: &[Crossing]) -> Result<Option<usize>, AllocError>
    ensures { IfOk result (λ found. MatchOption found (IsSomeRun (reverse log.now)) (λ place. StraysAt log.now place)) }
{
    let mut mail = Mail::new(alloc);
    for (place, crossing) in log.iter().enumerate() {
        if !mail.finds(log, crossing) {
            return Ok(Some(place));
        }
        mail.cross(place, crossing)?;
    }
    Ok(None)
}
