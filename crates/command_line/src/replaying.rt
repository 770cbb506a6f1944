//! A replay, as a function of the words of the command line, a reader and a writer.

ghost use Rattle.std.specs.Prelude.{◌≡◌, ◌≢◌, ◌≤◌, ◌⊎◌, ◌↔◌, length, None, Err, true, false, codes, IfSome, IfErr, MatchResult, OnOk};
ghost use Rattle.std.specs.Io.KnownBytes.{Appends};
ghost use Rattle.command_line.specs.Input.{IsInputFault, IsScriptFault, IsSomeInput};
ghost use Rattle.command_line.specs.Options.{IfDetail, IfOptions, IfReplayed, options_in};
ghost use Rattle.command_line.specs.Reading.{ReadsAll, ReadsFirst};
ghost use Rattle.command_line.specs.Replayed.{Ran, RanInPart, ReplaysInput, StopsInput, StopsKnown};
ghost use Rattle.command_line.specs.Stopping.{NothingOr};

use crate::carriers::{replay_on, write_last};
use crate::fault::ScriptFault;
use crate::input::{Input, read_input, read_octets};
use crate::options::{Options, OptionsFault};
use crate::source::Source;
use replay::{Detail, Output};
use script::MAX_INPUT;
use std::alloc::Global;

/// Replays the input that a reader gives, as the words after the program's name ask, and writes it to a writer.
///
/// Errors: `BadOptions` for words other than `--book`, `--check` and `--texts`, each at most once, with nothing read
/// and nothing written; else as [`run_script`]. `OutOfMemory` may come for any words, since the parser of words
/// is built in memory.
pub fn run<R: Source, W: Output>(
    alloc: Global,
    words: &[String],
    reader: &mut R,
    writer: &mut W,
) -> Result<(), ScriptFault>
    // no read and no write has failed yet, and none has come to the end
    requires reads { R.failed reader.old ≡ false }
    requires more { R.ended reader.old ≡ false }
    requires writes { W.failed writer.old ≡ false }

    // words that are no options are refused: nothing is read, and nothing is written
    ensures refused { options_in words.now ≡ None → ((result ≡ Err ScriptFault.BadOptions) ⊎ (result ≡ Err ScriptFault.OutOfMemory)) × (reader.new ≡ reader.old) × (writer.new ≡ writer.old) }

    // no other words are refused
    ensures options { IfOptions words.now (λ options. IfErr result (λ f. f ≢ ScriptFault.BadOptions)) }

    // with `--check` the input is only read
    ensures checked { IfOptions words.now (λ options. options.check ≡ true → OnOk result (Appends (W.contents writer.old) (W.contents writer.new) (codes "ok\n"))) }

    // without it a script is replayed over the carrier of a topology, whatever the reader: in a world whose book keeps
    // the promise and of which all is written; or without host programs, where what crosses is a log that every host
    // may rely on; or among strangers, where the book keeps what is promised to hosts with programs
    ensures ran { IfReplayed words.now (λ book detail. OnOk result (Ran book detail (W.contents writer.old) (W.contents writer.new))) }

    // and of a reader whose octets are known these are the script and the topology that were read
    ensures replayed { IfReplayed words.now (λ book detail. OnOk result (IfSome (R.remaining reader.old) (λ octets. ReplaysInput book detail octets (W.contents writer.old) (W.contents writer.new)))) }

    // the reader is asked for the first octets only, and for an octet more than an input may have at most; unless a
    // read fails or memory runs out, it is asked for all of them
    ensures reads { ReadsFirst (R.remaining reader.old) (R.remaining reader.new) }
    ensures reads_all { IfOptions words.now (λ options. result ≢ Err ScriptFault.CannotRead → result ≢ Err ScriptFault.OutOfMemory → ReadsAll (R.remaining reader.old) (R.remaining reader.new)) }

    // what is read is an input, or the first fault is given
    ensures read { IfOptions words.now (λ options. R.failed reader.new ≡ false → IfSome (R.remaining reader.old) (λ octets. MatchResult result (λ _. IsSomeInput octets) (IsScriptFault octets))) }

    // where a read or a write fails it is reported, and nowhere else; by each call's `requires`, no more is asked of
    // what failed
    ensures cannot_read { (result ≡ Err ScriptFault.CannotRead) ↔ (R.failed reader.new ≡ true) }
    ensures cannot_write { (result ≡ Err ScriptFault.CannotWrite) ↔ (W.failed writer.new ≡ true) }

    // at the end all that was written is handed on
    ensures flushed { OnOk result (W.flushed writer.new ≡ true) }

    // a fault that is found before the replay leaves nothing written
    ensures untouched { IfErr result (λ f. f ≢ ScriptFault.CannotWrite → f ≢ ScriptFault.OutOfMemory → writer.new ≡ writer.old) }

    // after memory has run out the output is a prefix of what the replay would write
    ensures ran_in_part { result ≡ Err ScriptFault.OutOfMemory → IfDetail words.now (λ detail. NothingOr (RanInPart detail) (W.contents writer.old) (W.contents writer.new)) }
    ensures first_part { result ≡ Err ScriptFault.OutOfMemory → IfDetail words.now (λ detail. StopsKnown detail (R.remaining reader.old) (W.contents writer.old) (W.contents writer.new)) }
{
    match Options::read(alloc, words) {
        Ok(options) => run_script(
            alloc,
            reader,
            writer,
            options.book,
            options.check,
            options.detail(),
        ),
        Err(OptionsFault::BadOptions) => Err(ScriptFault::BadOptions),
        Err(OptionsFault::OutOfMemory) => Err(ScriptFault::OutOfMemory),
    }
}

/// Reads a topology, the marker line `%` and a script, and replays the script: it writes one line for each
/// crossing, each thing that a host's user is notified and each refusal, and a last line `end`. With `check` it only
/// reads, and writes `ok`. With `book` the lives of connections are before `end`; without host programs there
/// are none. Of a message it writes as much as `detail` says.
///
/// Errors, in this order:
/// - `CannotRead`: a read failed. Nothing more is asked of the reader.
/// - `TooLong`: the input has more than 268,435,456 octets.
/// - `BadTopology`: the input has no line `%`, or begins with no topology.
/// - `BadLine`: the first line of the script that is no event. Nothing is replayed and nothing is written.
/// - `CannotWrite`: a write or a flush failed. Nothing more is asked of the writer, which is the only one to know how
///   much was written.
///
/// `OutOfMemory` may come at any of these steps. What was written by then is a prefix of what the
/// replay would have written.
pub fn run_script<R: Source, W: Output>(
    alloc: Global,
    reader: &mut R,
    writer: &mut W,
    book: bool,
    check: bool,
    detail: Detail,
) -> Result<(), ScriptFault>
    // no read and no write has failed yet, and none has come to the end
    requires reads { R.failed reader.old ≡ false }
    requires more { R.ended reader.old ≡ false }
    requires writes { W.failed writer.old ≡ false }

    // with `check` the input is only read
    ensures checked { check ≡ true → OnOk result (Appends (W.contents writer.old) (W.contents writer.new) (codes "ok\n")) }

    // without it a script is replayed over the carrier of a topology, whatever the reader: in a world whose book keeps
    // the promise and of which all is written; or without host programs, where what crosses is a log that every host
    // may rely on; or among strangers, where the book keeps what is promised to hosts with programs
    ensures ran { check ≡ false → OnOk result (Ran book detail (W.contents writer.old) (W.contents writer.new)) }

    // and of a reader whose octets are known these are the script and the topology that were read
    ensures replayed { check ≡ false → OnOk result (IfSome (R.remaining reader.old) (λ octets. ReplaysInput book detail octets (W.contents writer.old) (W.contents writer.new))) }
    ensures options { IfErr result (λ f. f ≢ ScriptFault.BadOptions) }

    // the reader is asked for the first octets only, and for an octet more than an input may have at most; unless a
    // read fails or memory runs out, it is asked for all of them
    ensures reads { ReadsFirst (R.remaining reader.old) (R.remaining reader.new) }
    ensures reads_all { result ≢ Err ScriptFault.CannotRead → result ≢ Err ScriptFault.OutOfMemory → ReadsAll (R.remaining reader.old) (R.remaining reader.new) }

    // what is read is an input, or the first fault is given
    ensures read { R.failed reader.new ≡ false → IfSome (R.remaining reader.old) (λ octets. MatchResult result (λ _. IsSomeInput octets) (IsScriptFault octets)) }

    // where a read or a write fails it is reported, and nowhere else; by each call's `requires`, no more is asked of
    // what failed
    ensures cannot_read { (result ≡ Err ScriptFault.CannotRead) ↔ (R.failed reader.new ≡ true) }
    ensures cannot_write { (result ≡ Err ScriptFault.CannotWrite) ↔ (W.failed writer.new ≡ true) }

    // at the end all that was written is handed on
    ensures flushed { OnOk result (W.flushed writer.new ≡ true) }

    // a fault that is found before the replay leaves nothing written
    ensures untouched { IfErr result (λ f. f ≢ ScriptFault.CannotWrite → f ≢ ScriptFault.OutOfMemory → writer.new ≡ writer.old) }

    // after memory has run out the output is a prefix of what the replay would write
    ensures ran_in_part { result ≡ Err ScriptFault.OutOfMemory → NothingOr (RanInPart detail) (W.contents writer.old) (W.contents writer.new) }
    ensures first_part { result ≡ Err ScriptFault.OutOfMemory → StopsKnown detail (R.remaining reader.old) (W.contents writer.old) (W.contents writer.new) }

    // with `check` nothing is written when memory runs out
    ensures check_memory { check ≡ true → result ≡ Err ScriptFault.OutOfMemory → writer.new ≡ writer.old }
{
    let octets = read_octets(alloc, reader)?;
    follow(alloc, &octets, book, check, detail, writer)
}

/// Replays the input that octets are, or only reads it.
///
/// Errors: `BadTopology`, `BadLine`, `CannotWrite`, `OutOfMemory`, as [`run_script`].
fn follow<W: Output>(
    alloc: Global,
    octets: &[u8],
    book: bool,
    check: bool,
    detail: Detail,
    writer: &mut W,
) -> Result<(), ScriptFault>
    requires short { length octets.now ≤ MAX_INPUT }
    requires writes { W.failed writer.old ≡ false }
    ensures checked { check ≡ true → OnOk result (Appends (W.contents writer.old) (W.contents writer.new) (codes "ok\n")) }
    ensures replayed { check ≡ false → OnOk result (ReplaysInput book detail octets.now (W.contents writer.old) (W.contents writer.new)) }
    ensures read { OnOk result (IsSomeInput octets.now) }
    ensures stopped { result ≡ Err ScriptFault.OutOfMemory → NothingOr (StopsInput detail octets.now) (W.contents writer.old) (W.contents writer.new) }
    ensures check_memory { check ≡ true → result ≡ Err ScriptFault.OutOfMemory → writer.new ≡ writer.old }
    ensures fault { IfErr result (IsInputFault octets.now) }
    ensures failed { (result ≡ Err ScriptFault.CannotWrite) ↔ (W.failed writer.new ≡ true) }
    ensures flushed { OnOk result (W.flushed writer.new ≡ true) }
    ensures untouched { IfErr result (λ f. f ≢ ScriptFault.CannotWrite → f ≢ ScriptFault.OutOfMemory → writer.new ≡ writer.old) }
{
    let Input { network, events } = read_input(alloc, octets)?;
    if check {
        write_ok(writer)
    } else {
        replay_on(alloc, &network, events, book, detail, writer)
    }
}

/// Writes that what was read is an input.
///
/// Errors: `CannotWrite`.
fn write_ok<W: Output>(writer: &mut W) -> Result<(), ScriptFault>
    requires { W.failed writer.old ≡ false }
    ensures written { OnOk result (Appends (W.contents writer.old) (W.contents writer.new) (codes "ok\n")) }
    ensures fault { IfErr result (λ f. f ≡ ScriptFault.CannotWrite) }
    ensures failed { (result ≡ Err ScriptFault.CannotWrite) ↔ (W.failed writer.new ≡ true) }
    ensures flushed { OnOk result (W.flushed writer.new ≡ true) }
{
    Ok(write_last(writer, b"ok\n")?)
}
