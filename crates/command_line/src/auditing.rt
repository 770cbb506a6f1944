//! The audit of a log.

ghost use Rattle.std.specs.Prelude.{◌≡◌, ◌≢◌, ◌↔◌, Err, IfErr, IfOk, IfSome, MatchResult, OnOk, Some, [], false, true};
ghost use Rattle.std.specs.Io.KnownBytes.{IsAtEnd};
ghost use Rattle.book_log.specs.Log.{IsLog};
ghost use Rattle.command_line.specs.Audits.{Audited, AuditsLog, IsAuditFault, IsBookFault, IsLogReadFault, IsSomeLog, SaysKept, SaysOf};
ghost use Rattle.command_line.specs.Audits.{layout_of, status_at, status_said};
ghost use Rattle.command_line.specs.Logs.{Logged};

use crate::input::CHUNK;
use crate::judging::judge;
use crate::layout::Layout;
use crate::source::{ReadFailed, Source};
use crate::verdict::{Verdict, write_found};
use book_log::{Log, LogFault, read_log};
use replay::{Output, WriteFailed};
use std::alloc::{AllocError, AllocFailed, Global};
use std::fmt;
use thiserror::Error;

/// Why a log was not audited. Where several apply, the first one of this list is given. Only `OutOfMemory` may come
/// in place of any other.
#[derive(Clone, Copy, Debug, Drop, PartialEq, Eq, Error)]
pub enum AuditFault {
    /// The log could not be read.
    CannotRead,
    /// This line of the log, counted from 1, is the first bad one.
    BadLog(usize),
    /// No memory was left. Nothing was written.
    OutOfMemory,
    /// The output could not be written.
    CannotWrite,
}

/// Prints what standard error says of a fault.
impl fmt::Display for AuditFault {
    ghost use Rattle.std.specs.Prelude.{Some};
    ghost use Rattle.command_line.specs.Audits.{audit_text};

    ghost output = { λ fault. Some (audit_text fault) };

    fn fmt<W: fmt::Write>(&self, f: &mut fmt::Formatter<W>) -> fmt::Result {
        match self {
            AuditFault::CannotRead => f.write_str("arpasim: cannot read"),
            AuditFault::BadLog(number) => write!(f, "arpasim: bad log line {number}"),
            AuditFault::OutOfMemory | AuditFault::CannotWrite => f.write_str("arpasim: stopped"),
        }
    }
}

impl AuditFault {
    /// Returns the exit status: 1 for reading, 2 for a bad line, 3 when memory runs out or a write fails.
    pub fn status(&self) -> u8
        ensures { result ≡ status_at self.now }
    {
        match self {
            AuditFault::CannotRead => 1,
            AuditFault::BadLog(_) => 2,
            AuditFault::OutOfMemory | AuditFault::CannotWrite => 3,
        }
    }
}

impl From<AllocError> for AuditFault {
    ghost use Rattle.command_line.specs.declared.auditing.AuditFault.TheVariants.{OutOfMemory};

    ghost from_gives = { λ _ e. e ≡ OutOfMemory };

    fn from(_error: AllocError) -> AuditFault {
        AuditFault::OutOfMemory
    }
}

impl<T: Drop> From<AllocFailed<T>> for AuditFault {
    ghost use Rattle.command_line.specs.declared.auditing.AuditFault.TheVariants.{OutOfMemory};

    ghost from_gives = { λ _ e. e ≡ OutOfMemory };

    fn from(_error: AllocFailed<T>) -> AuditFault {
        AuditFault::OutOfMemory
    }
}

impl From<ReadFailed> for AuditFault {
    ghost use Rattle.command_line.specs.declared.auditing.AuditFault.TheVariants.{CannotRead};

    ghost from_gives = { λ _ e. e ≡ CannotRead };

    fn from(_error: ReadFailed) -> AuditFault {
        AuditFault::CannotRead
    }
}

impl From<WriteFailed> for AuditFault {
    ghost use Rattle.command_line.specs.declared.auditing.AuditFault.TheVariants.{CannotWrite};

    ghost from_gives = { λ _ e. e ≡ CannotWrite };

    fn from(_error: WriteFailed) -> AuditFault {
        AuditFault::CannotWrite
    }
}

/// Returns the exit status after an audit that says this: 0 where the book is kept, 4 for any other.
pub fn audit_status(found: Verdict) -> u8
    ensures { result ≡ status_said found }
{
    if found.is_kept() { 0 } else { 4 }
}

/// Reads a log, and writes `kept` where its book is safe, what crossed is a run of the mailboxes, its lives are
/// made of the messages that crossed, and count each of these by the number that it has for a life that they match, those
/// that send are within what ALLs granted, those
/// that their partners ended lost nothing, and each has a fate that what
/// crossed leaves it. Else it writes all that isn't so, a line each, and a word, in this order:
///
/// - `broken run line N`, the line of the first crossing that finds no box as it needs it;
/// - `broken lives line N`, the line of the first life whose messages aren't the first on its link;
/// - `malformed line N` where line `N` shows that it is no book;
/// - `broken PART line N` or `broken PART lines M N` for each part of a safe book that fails, with the lines of the
///   crossing or of the one or two lives that show it: messages, and of a book that isn't malformed partners, streams
///   and grants, of which a life that sends breaks what ALLs grant;
/// - `broken sent line N` or `broken sent lines N M`, of such a book, with the lines of the first receiving life that counts
///   a message which isn't the one with its number of a life that it matches, and of the one that it matches;
/// - `broken closes lines N M`, of such a book, with the lines of the first life that its partner ended and that
///   lost anything, and of the one that it matches;
/// - `broken fates line N`, the line of the first life whose fate isn't one that what crossed leaves it;
/// - `broken toward line N`, of a book that isn't malformed, the line of the first life that is a stranger's, or that is
///   toward a stranger and took more than it granted, or sent what wasn't handed over in it;
/// - `safe`, where only closes or fates are wrong, so that what may be asked of the log of any host's program holds.
///
/// Of a network with strangers, lives, partners, streams, grants, sent, closes and fates are those of hosts with programs, with
/// such hosts.
///
/// It answers what it found.
///
/// Errors, in this order:
/// - `CannotRead`: a read failed. Nothing more is asked of the reader.
/// - `BadLog`: the first bad line. Nothing is written.
/// - `CannotWrite`: a write or a flush failed. Nothing more is asked of the writer.
///
/// `OutOfMemory` may come at any step before anything is written, once an octet was read.
pub fn run_audit<R: Source, W: Output>(
    alloc: Global,
    reader: &mut R,
    writer: &mut W,
) -> Result<Verdict, AuditFault>
    // no read and no write has failed yet, and none has come to the end
    requires reads { R.failed reader.old ≡ false }
    requires more { R.ended reader.old ≡ false }
    requires writes { W.failed writer.old ≡ false }

    // what is written is all that is wrong with some book, whatever the reader
    ensures audited { IfOk result (λ said. Audited said (W.contents writer.old) (W.contents writer.new)) }

    // and of a reader whose octets are known they are the log of this book
    ensures says { IfOk result (λ said. IfSome (R.remaining reader.old) (λ octets. AuditsLog octets said (W.contents writer.old) (W.contents writer.new))) }

    // what is read is a log, or the first fault is given
    ensures read { R.failed reader.new ≡ false → IfSome (R.remaining reader.old) (λ octets. MatchResult result (λ _. IsSomeLog octets) (IsAuditFault octets)) }

    // unless a read fails or memory runs out, the reader is asked for all octets
    ensures reads_all { result ≢ Err AuditFault.CannotRead → result ≢ Err AuditFault.OutOfMemory → IsAtEnd (R.remaining reader.new) }

    // what a replay wrote as its log is read, and is kept, with strangers or without
    ensures kept { R.failed reader.new ≡ false → IfSome (R.remaining reader.old) (λ octets. Logged (Some []) (Some octets) → SaysKept octets result) }

    // where a read or a write fails it is reported, and nowhere else
    ensures cannot_read { (result ≡ Err AuditFault.CannotRead) ↔ (R.failed reader.new ≡ true) }
    ensures cannot_write { (result ≡ Err AuditFault.CannotWrite) ↔ (W.failed writer.new ≡ true) }

    // at the end all that was written is handed on
    ensures flushed { OnOk result (W.flushed writer.new ≡ true) }

    // a fault that is found before the audit leaves nothing written, and so does running out of memory
    ensures untouched { IfErr result (λ f. f ≢ AuditFault.CannotWrite → writer.new ≡ writer.old) }
{
    let octets = read_octets(alloc, reader)?;
    let log = read_book(alloc, octets)?;
    let (layout, found) = judged(alloc, log)?;
    write_found(&layout, found, writer)?;
    Ok(found)
}

/// Returns all octets that the reader gives.
///
/// Errors: `CannotRead` where a read fails; `OutOfMemory`, only after an octet.
fn read_octets<R: Source>(alloc: Global, reader: &mut R) -> Result<Vec<u8>, AuditFault>
    requires reads { R.failed reader.old ≡ false }
    requires more { R.ended reader.old ≡ false }
    ensures whole { IfOk result (λ octets. IfSome (R.remaining reader.old) (λ known. octets.items ≡ known)) }
    ensures fault { IfErr result IsLogReadFault }
    ensures memory { result ≡ Err AuditFault.OutOfMemory → IfSome (R.remaining reader.old) (λ known. known ≢ []) }
    ensures reads_all { OnOk result (IsAtEnd (R.remaining reader.new)) }
    ensures failed { (result ≡ Err AuditFault.CannotRead) ↔ (R.failed reader.new ≡ true) }
{
    let mut octets = Vec::new(alloc);
    let mut buffer = [0; CHUNK];
    // no memory holds as many octets
    while octets.len() < usize::MAX {
        let count = reader.read(&mut buffer)?;
        if count == 0 {
            return Ok(octets);
        }
        octets.extend_from_slice(&buffer[..count])?;
    }
    Err(AuditFault::OutOfMemory)
}

/// Returns the strangers and the book of a log, whose octets are no longer kept.
///
/// Errors: `BadLog`, `OutOfMemory`.
fn read_book(alloc: Global, octets: Vec<u8>) -> Result<Log, AuditFault>
    ensures { MatchResult result (λ log. IsLog octets.items log.strangers.items log.book) (IsBookFault octets.items) }
{
    match read_log(alloc, &octets) {
        Ok(log) => Ok(log),
        Err(LogFault::BadLine(number)) => Err(AuditFault::BadLog(number)),
        Err(LogFault::OutOfMemory) => Err(AuditFault::OutOfMemory),
    }
}

/// Returns what is wrong with a log, and where its lines are.
///
/// Errors: `AllocError`.
fn judged(alloc: Global, log: Log) -> Result<(Layout, Verdict), AllocError>
    ensures { IfOk result (λ r. (r.0 ≡ layout_of log.strangers.items log.book) × SaysOf r.1 log.strangers.items log.book) }
{
    let Log { strangers, book } = log;
    let layout = Layout::of(alloc, &strangers, &book)?;
    let found = judge(alloc, &strangers, layout.among(), book.into_lists())?;
    Ok((layout, found))
}
