//! The whole program: what the words of its command line have it do, and how it ends.

ghost use Rattle.std.specs.Prelude.{◌≡◌, ◌≢◌, ◌⊎◌, None, Some, Err, false, true, map, string_bytes};
ghost use Rattle.command_line.specs.Options.{options_in, task_of};
ghost use Rattle.simulator.specs.Program.{Closes, EndsProgram, EndsTask, Handed, HandsOn, LeavesUntouched, Sides};
ghost use Rattle.simulator.specs.Program.{audited_as, exit_status, finished_as, is_answered, sides};

use crate::tracing::run_trace;
use command_line::{
    AuditFault, Options, OptionsFault, ScriptFault, Source, Task, Verdict, audit_status, run_audit,
    run_log, run_script, write_help, write_version,
};
use replay::{Output, WriteFailed};
use session::run_session;
use std::alloc::Global;
use std::fmt;
use thiserror::Error;

/// What the program did.
#[derive(Clone, Copy, Debug, PartialEq, Eq)]
pub enum Done {
    /// It wrote what its words ask for.
    Written,
    /// It audited a log, and wrote what the audit says.
    Audited(Verdict),
}

/// Why the program ended with a fault.
#[derive(Clone, Copy, Debug, Drop, PartialEq, Eq, Error)]
pub enum ProgramFault {
    /// Something is wrong with its words or its input, or the replay ended early.
    Script(ScriptFault),
    /// A log was not audited.
    Audit(AuditFault),
}

/// Prints what standard error says of a fault.
impl fmt::Display for ProgramFault {
    ghost use Rattle.std.specs.Prelude.{Some};
    ghost use Rattle.simulator.specs.Program.{fault_text};

    ghost output = { λ fault. Some (fault_text fault) };

    fn fmt<W: fmt::Write>(&self, f: &mut fmt::Formatter<W>) -> fmt::Result {
        match self {
            ProgramFault::Script(fault) => write!(f, "{fault}"),
            ProgramFault::Audit(fault) => write!(f, "{fault}"),
        }
    }
}

/// Returns the exit status of the program: 0 where it wrote what it was asked for, 4 after the audit of a book that is
/// not kept, and else that of its fault.
pub fn exit_status(outcome: Result<Done, ProgramFault>) -> u8
    ensures { result ≡ exit_status outcome }
{
    match outcome {
        Ok(Done::Written) => 0,
        Ok(Done::Audited(said)) => audit_status(said),
        Err(ProgramFault::Script(fault)) => fault.status(),
        Err(ProgramFault::Audit(fault)) => fault.status(),
    }
}

/// Does what the words after the program's name ask for: it replays an input and writes what it shows, its log or its
/// trace, answers each line of an input as it comes, or audits a log. How it is called and its version it says at once, and reads nothing.
///
/// Errors: `BadOptions` for words that ask for nothing, with nothing read and nothing written; else as [`run_script`],
/// [`run_log`], [`run_trace`], [`run_session`] and [`run_audit`]. What was written before memory ran out is handed on.
pub fn run_program<R: Source, W: Output>(
    alloc: Global,
    words: &[String],
    reader: &mut R,
    writer: &mut W,
) -> Result<Done, ProgramFault>
    // no read and no write has failed yet, and none has come to the end
    requires reads { R.failed reader.old ≡ false }
    requires more { R.ended reader.old ≡ false }
    requires writes { W.failed writer.old ≡ false }

    // it does what the words ask for, reads and writes what that does, and ends as that ends
    ensures ends { EndsProgram (map string_bytes words.now) (sides (R.remaining reader.old) (R.remaining reader.new) (R.failed reader.new) (W.contents writer.old) (W.contents writer.new)) result }

    // words that ask for nothing are refused: nothing is read, and nothing is written
    ensures refused { task_of (map string_bytes words.now) ≡ None → options_in words.now ≡ None → (reader.new ≡ reader.old) × (writer.new ≡ writer.old) }

    // what the program says of itself it says before anything is read
    ensures answered { is_answered (task_of (map string_bytes words.now)) ≡ true → reader.new ≡ reader.old }

    // where a read or a write fails it is reported, and nowhere else; and what was written is handed on
    ensures closes { Closes result (R.failed reader.new) (W.failed writer.new) (W.flushed writer.new) (writer.new ≡ writer.old) }

    // a fault with another status than 3 leaves nothing written, but in a session
    ensures untouched { task_of (map string_bytes words.now) ≢ Some Task.Live → LeavesUntouched result (writer.new ≡ writer.old) }
{
    match Task::of(words) {
        Some(Task::Log) => finished(run_log(alloc, reader, writer)),
        Some(Task::Trace) => {
            let ended = run_trace(alloc, reader, writer);
            hand_on(ended, writer)
        }
        Some(Task::Audit) => audited(run_audit(alloc, reader, writer)),
        Some(Task::Live) => {
            let ended = run_session(alloc, reader, writer);
            hand_on(ended, writer)
        }
        Some(Task::Help) => finished(write_help(writer)),
        Some(Task::Version) => finished(write_version(writer)),
        None => replay_words(alloc, words, reader, writer),
    }
}

/// Replays an input as the words ask for, which name no other task.
///
/// Errors: as [`run_script`], and `BadOptions`.
fn replay_words<R: Source, W: Output>(
    alloc: Global,
    words: &[String],
    reader: &mut R,
    writer: &mut W,
) -> Result<Done, ProgramFault>
    requires reads { R.failed reader.old ≡ false }
    requires more { R.ended reader.old ≡ false }
    requires writes { W.failed writer.old ≡ false }
    ensures ends { EndsTask None (options_in words.now) (sides (R.remaining reader.old) (R.remaining reader.new) (R.failed reader.new) (W.contents writer.old) (W.contents writer.new)) result }
    ensures refused { options_in words.now ≡ None → (reader.new ≡ reader.old) × (writer.new ≡ writer.old) }
    ensures closes { Closes result (R.failed reader.new) (W.failed writer.new) (W.flushed writer.new) (writer.new ≡ writer.old) }
    ensures untouched { LeavesUntouched result (writer.new ≡ writer.old) }
{
    match Options::read(alloc, words) {
        Ok(options) => {
            let ended = run_script(
                alloc,
                reader,
                writer,
                options.book,
                options.check,
                options.detail(),
            );
            hand_on(ended, writer)
        }
        Err(OptionsFault::BadOptions) => Err(ProgramFault::Script(ScriptFault::BadOptions)),
        Err(OptionsFault::OutOfMemory) => Err(ProgramFault::Script(ScriptFault::OutOfMemory)),
    }
}

/// Hands on what was written before memory ran out, and returns what the program answers.
///
/// Errors: that of the replay, and `CannotWrite` where handing on fails.
fn hand_on<W: Output>(ended: Result<(), ScriptFault>, writer: &mut W) -> Result<Done, ProgramFault>
    requires { ended ≡ Err ScriptFault.OutOfMemory → W.failed writer.old ≡ false }
    ensures hands { HandsOn ended (W.contents writer.old) (W.contents writer.new) result }
    ensures unchanged { ended ≢ Err ScriptFault.OutOfMemory → (result ≡ finished_as ended) × (writer.new ≡ writer.old) }
    ensures memory { ended ≡ Err ScriptFault.OutOfMemory → Handed result (W.failed writer.new) (W.flushed writer.new) }
{
    match ended {
        Err(ScriptFault::OutOfMemory) => match writer.flush() {
            Ok(()) => Err(ProgramFault::Script(ScriptFault::OutOfMemory)),
            Err(WriteFailed) => Err(ProgramFault::Script(ScriptFault::CannotWrite)),
        },
        _ => finished(ended),
    }
}

/// Returns what the program answers after a replay, a log, a trace, or what it says of itself.
fn finished(ended: Result<(), ScriptFault>) -> Result<Done, ProgramFault>
    ensures { result ≡ finished_as ended }
{
    match ended {
        Ok(()) => Ok(Done::Written),
        Err(fault) => Err(ProgramFault::Script(fault)),
    }
}

/// Returns what the program answers after an audit.
fn audited(ended: Result<Verdict, AuditFault>) -> Result<Done, ProgramFault>
    ensures { result ≡ audited_as ended }
{
    match ended {
        Ok(said) => Ok(Done::Audited(said)),
        Err(fault) => Err(ProgramFault::Audit(fault)),
    }
}
