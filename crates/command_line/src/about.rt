//! What the program says of itself, before it reads anything.

ghost use Rattle.std.specs.Prelude.{◌≡◌, ◌↔◌, Err, IfErr, OnOk, false, true};
ghost use Rattle.std.specs.Io.KnownBytes.{Appends};
ghost use Rattle.command_line.specs.About.{version_text};

use crate::carriers::write_last;
use crate::fault::ScriptFault;
use replay::Output;

/// The version of the program. What users write and read (options, scripts, topologies, printed lines, logs, traces) is
/// what a version promises to keep. Between releases it ends in `-dev`, so that a released number belongs to one program.
pub const VERSION: &str = "1.2.0-dev";

/// How the program is called, as it says itself.
pub const HELP: &str = "\
Replays a script on a network, and prints what its hosts see.

    arpasim [--book] [--check] [--texts] [INPUT]
    arpasim --log [INPUT]
    arpasim --trace [INPUT]
    arpasim --audit [LOG]
    arpasim --live [INPUT]
    arpasim --help
    arpasim --version

INPUT is a file that has a topology, a line `%` and a script; LOG one that has what --log prints. Without a file, and
where it is -, standard input is read.

  --book     prints the lives of connections before the last line
  --check    reads the input, replays nothing and prints `ok`
  --texts    prints the text of each message after its number of bits
  --log      prints only the log of the book that the replay leaves
  --trace    prints only what happens inside the network, one JSON object a line
  --audit    reads a log in place of an input, and says whether its book is safe
  --live     answers each line of the script as it comes, with what --texts prints of it and an empty line
  --help     prints this
  --version  prints the version of the program

Status: 0 the script was replayed to its end; 1 or 2 the arguments or the input are refused, and standard error says
why; 3 memory ran out, or a write failed; 4 an audited log has no safe book. docs/program.md has all of it.
";

/// Writes how the program is called.
///
/// Errors: `CannotWrite`.
pub fn write_help<W: Output>(writer: &mut W) -> Result<(), ScriptFault>
    requires { W.failed writer.old ≡ false }
    ensures written { OnOk result (Appends (W.contents writer.old) (W.contents writer.new) HELP.now) }
    ensures fault { IfErr result (λ f. f ≡ ScriptFault.CannotWrite) }
    ensures failed { (result ≡ Err ScriptFault.CannotWrite) ↔ (W.failed writer.new ≡ true) }
    ensures flushed { OnOk result (W.flushed writer.new ≡ true) }
{
    Ok(write_last(writer, HELP.as_bytes())?)
}

/// Writes the version of the program.
///
/// Errors: `CannotWrite`.
pub fn write_version<W: Output>(writer: &mut W) -> Result<(), ScriptFault>
    requires { W.failed writer.old ≡ false }
    ensures written { OnOk result (Appends (W.contents writer.old) (W.contents writer.new) version_text) }
    ensures fault { IfErr result (λ f. f ≡ ScriptFault.CannotWrite) }
    ensures failed { (result ≡ Err ScriptFault.CannotWrite) ↔ (W.failed writer.new ≡ true) }
    ensures flushed { OnOk result (W.flushed writer.new ≡ true) }
{
    writer.write_all(b"arpasim ")?;
    writer.write_all(VERSION.as_bytes())?;
    Ok(write_last(writer, b"\n")?)
}
