//! The input that the words of a command line name, and the program on it.

ghost use Rattle.std.specs.Prelude.{◌≡◌, Err, IfErr, IfOk, List, None, OnOk, Option, Some};
ghost use Rattle.std.specs.Prelude.{false, map, string_bytes, ℕ};
ghost use Rattle.simulator.specs.Named.{EndsNamed, IsNamePlace};
ghost use Rattle.simulator.specs.Named.{input_in, names_input, others_in, taken_name};

use crate::program::{Done, ProgramFault, run_program};
use command_line::{ScriptFault, Source};
use replay::Output;
use std::alloc::Global;

/// Where inputs are found by their names: `-` is standard input, and any other name that of a file.
pub trait Inputs {
    /// What an input is read from.
    type Reader: Source;

    /// The octets of the input of a name, where they are known.
    ghost octets_of: { Self → List ℕ → Option (List ℕ) };

    /// Returns the input of a name, of which nothing was read. Of one that can't be opened the first read fails.
    fn open(&self, name: &str) -> Self::Reader
        ensures octets { Self.Reader.remaining result ≡ octets_of self.now name.now }
        ensures failed { Self.Reader.failed result ≡ false }
        ensures ended { Self.Reader.ended result ≡ false };
}

/// Runs the program on the input that its words name: one word at most, `-` or a word that doesn't begin with `-`. Where
/// none does, it is standard input. The other words say what is done, as of [`run_program`].
///
/// Errors: `BadOptions` for words that name two inputs, with nothing opened and nothing written; else as
/// [`run_program`]: an input that can't be opened is one that can't be read.
pub fn run_named<I: Inputs, W: Output>(
    alloc: Global,
    mut words: Vec<String>,
    inputs: &I,
    writer: &mut W,
) -> Result<Done, ProgramFault>
where
    I::Reader: Drop,
    // no write has failed yet
    requires writes { W.failed writer.old ≡ false }

    // words that name two inputs are refused, and nothing is written
    ensures two { input_in words.items ≡ None → (result ≡ Err (ProgramFault.Script ScriptFault.BadOptions)) × (writer.new ≡ writer.old) }

    // on the input that they name it does what the others ask for
    ensures ends { EndsNamed words.items (I.octets_of inputs.now) (W.contents writer.old) (W.contents writer.new) (W.failed writer.new) (W.flushed writer.new) (writer.new ≡ writer.old) result }
{
    let name = take_name(&mut words).map_err(ProgramFault::Script)?;
    let name = name.as_ref().map_or("-", |name| name.as_str());
    let mut reader = inputs.open(name);
    run_program(alloc, &words, &mut reader, writer)
}

/// Takes the name of the input out of the words, where one of them is a name.
///
/// Errors: `BadOptions` where two are.
fn take_name(words: &mut Vec<String>) -> Result<Option<String>, ScriptFault>
    ensures named { IfOk result (λ name. input_in words.old.items ≡ Some (taken_name name)) }
    ensures others { OnOk result (map string_bytes words.new.items ≡ others_in words.old.items) }
    ensures two { IfErr result (λ f. (f ≡ ScriptFault.BadOptions) × (input_in words.old.items ≡ None)) }
{
    let Some(place) = name_place(words) else {
        return Ok(None);
    };
    let name = words.remove(place);
    match name_place(words) {
        None => Ok(Some(name)),
        Some(_) => Err(ScriptFault::BadOptions),
    }
}

/// Returns the place of the first word that names the input, where there is one.
fn name_place(words: &[String]) -> Option<usize>
    ensures { IsNamePlace words.now result }
{
    for (place, word) in words.iter().enumerate() {
        if names_input(word) {
            return Some(place);
        }
    }
    None
}

/// Returns whether a word names the input.
fn names_input(word: &String) -> bool
    ensures { result ≡ names_input (string_bytes word.now) }
{
    match word.as_bytes() {
        [] => false,
        [_] => true,
        [first, ..] => *first != b'-',
    }
}
