//! Reading a log.

ghost use Rattle.std.specs.Prelude.{◌≡◌, MatchResult};
ghost use Rattle.book_log.specs.Log.{IsLog, IsLogFault};
ghost use Rattle.book_log.specs.Steps.{FitsAfter, IsBookFault, IsBookText, fault_after};

use crate::book::LoggedBook;
use crate::fault::LogFault;
use crate::lines::{Line, read_line};
use crate::strangers::read_strangers;
use interface::HostAddr;
use script::reading::cut;
use std::alloc::Global;

/// What a log describes: who the strangers of its network are, by IMP and then by number, and its book.
#[derive(Drop)]
pub struct Log {
    pub strangers: Vec<HostAddr>,
    pub book: LoggedBook,
}

/// Returns the strangers and the book that a log describes.
///
/// Errors: `BadLine` with the number of the first bad line, counted from 1; where the last line is missing, that of the line after
/// the last one. `OutOfMemory`, only at a line with octets and at one that a log may have, with no bad line before it.
pub fn read_log(alloc: Global, text: &[u8]) -> Result<Log, LogFault>
    ensures { MatchResult result (λ log. IsLog text.now log.strangers.items log.book) (IsLogFault text.now) }
{
    let (strangers, left) = read_strangers(alloc, text)?;
    match read_book(alloc, left) {
        Ok(book) => Ok(Log { strangers, book }),
        Err(fault) => Err(fault_after(strangers.len(), fault)),
    }
}

/// Returns a fault of the lines after this many, as one of all lines.
fn fault_after(before: usize, fault: LogFault) -> LogFault
    requires { FitsAfter before fault }
    ensures { result ≡ fault_after before fault }
{
    match fault {
        LogFault::BadLine(number) => LogFault::BadLine(before + number),
        LogFault::OutOfMemory => LogFault::OutOfMemory,
    }
}

/// Returns the book whose text this is.
///
/// Errors: as [`read_log`], with lines counted from the first of this text.
fn read_book(alloc: Global, text: &[u8]) -> Result<LoggedBook, LogFault>
    ensures { MatchResult result (IsBookText text.now) (IsBookFault text.now) }
{
    let mut book = LoggedBook::new(alloc);
    let mut passed = 0;
    let mut left = text;
    'lines: while let Some((line, more)) = cut(left, b'\n') {
        let Some(told) = read_line(alloc, line)? else {
            return Err(LogFault::BadLine(passed + 1));
        };
        if let Line::End = told {
            return if more.is_empty() {
                Ok(book)
            } else {
                Err(LogFault::BadLine(passed + 2))
            };
        }
        if !book.add(told, left)? {
            return Err(LogFault::BadLine(passed + 1));
        }
        passed += 1;
        left = more;
    }
    Err(LogFault::BadLine(passed + 1))
}
