//! The program `arpasim`: it runs a network over a script and prints what its hosts see.
//!
//! Its input is a topology, a line `%` and a script, or for `--audit` a log: standard input, or the file that one of its
//! words names. The program itself is `simulator::run_named`; here it is given the words of the command line, the inputs
//! and standard output, and its fault becomes a line on standard error.
#![tactic(auto)]

ghost use Rattle.std.specs.Prelude.{None};

use simulator::{Done, Inputs, Printer, ProgramFault, Reader, ScriptFault, exit_status, run_named};
use std::io::{BufWriter, ErrorKind, Read};
use std::process::ExitCode;
use std::rt::{Env, Files};
use std::{env, fs, io};

fn main(rt: HostRuntime) -> ExitCode {
    let outcome = run_here(&rt);
    if let Err(fault) = outcome {
        let _ = eprintln!(rt; "{fault}");
    }
    ExitCode::from(exit_status(outcome))
}

/// Runs the program on the words of its command line, from the input that they name to standard output.
fn run_here<R: Env + Files + Input + Print + AllocGlobal>(rt: &R) -> Result<Done, ProgramFault> {
    let words = words_of(rt).map_err(ProgramFault::Script)?;
    let buffered = BufWriter::new(rt.alloc(), io::writer(rt));
    let buffered = buffered.map_err(|_| ProgramFault::Script(ScriptFault::OutOfMemory))?;
    let mut writer = Printer::new(buffered);
    let outcome = run_named(rt.alloc(), words, &Here { rt }, &mut writer);
    // what is still gathered where a write has failed is not written again
    let _ = writer.into_inner().into_parts();
    outcome
}

/// Returns the words of the command line after the program's name.
fn words_of<R: Env + AllocGlobal>(rt: &R) -> Result<Vec<String>, ScriptFault> {
    let arguments = match env::args(rt) {
        Ok(arguments) => arguments,
        Err(error) if error.kind() == ErrorKind::OutOfMemory => {
            return Err(ScriptFault::OutOfMemory);
        }
        Err(_) => return Err(ScriptFault::BadOptions),
    };
    let mut words = Vec::new(rt.alloc());
    for word in arguments.skip(1) {
        words.push(word)?;
    }
    Ok(words)
}

/// The inputs of this system: standard input, and its files.
#[derive(Drop)]
struct Here<'a, R> {
    /// The system.
    rt: &'a R,
}

impl<'a, R: Files + Input> Inputs for Here<'a, R> {
    type Reader = Reader<Opened<R::Reader, R::File>>;

    ghost octets_of = { λ here name. None };

    fn open(&self, name: &str) -> Reader<Opened<R::Reader, R::File>> {
        let opened = if name == "-" {
            Opened::Standard(self.rt.reader())
        } else {
            match fs::open(self.rt, name) {
                Ok(file) => Opened::File(file),
                Err(_) => Opened::Nothing,
            }
        };
        Reader::new(opened)
    }
}

/// What was opened for a name.
#[derive(Drop)]
enum Opened<S, F> {
    /// Standard input.
    Standard(S),
    /// A file.
    File(F),
    /// Nothing, since there is no such file, or it may not be read: each read fails.
    Nothing,
}

impl<S: Read, F: Read> Read for Opened<S, F> {
    fn read(&mut self, buf: &mut [u8]) -> io::Result<usize> {
        match self {
            Opened::Standard(reader) => reader.read(buf),
            Opened::File(file) => file.read(buf),
            Opened::Nothing => Err(io::Error::from(ErrorKind::NotFound)),
        }
    }
}
