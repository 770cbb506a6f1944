//! The options of the command line.

ghost use Rattle.std.specs.Prelude.{◌≡◌, codes, map, IfOk, string_bytes};
ghost use Rattle.std.specs.List.{list_any};
ghost use Rattle.std.specs.Str.{bytes_eq};
ghost use Rattle.clap.specs.Words.{app_of};
ghost use Rattle.command_line.specs.Options.{Asked, detail_of, options_of, task_of};
ghost use Rattle.command_line.specs.Parser.{command_line};

use clap::error::ErrorKind;
use clap::{Arg, ArgAction, Command};
use replay::Detail;
use std::alloc::{AllocError, Global};
use thiserror::Error;

/// What the command line asks for.
#[derive(Clone, Copy, Debug, PartialEq, Eq)]
pub struct Options {
    /// Whether the book of connections is printed before the end.
    pub book: bool,
    /// Whether the input is only read.
    pub check: bool,
    /// Whether the texts of messages are printed after their bits.
    pub texts: bool,
}

/// What a word asks for that is the only one, in place of a replay's output.
#[derive(Clone, Copy, Debug, PartialEq, Eq)]
pub enum Task {
    /// The log of the replay's book.
    Log,
    /// The trace of the replay.
    Trace,
    /// The audit of a log.
    Audit,
    /// A session: a replay of each line as it comes.
    Live,
    /// How the program is called.
    Help,
    /// The version of the program.
    Version,
}

impl Task {
    /// Returns what the words after the program's name ask for, where they are one word: `--log`, `--trace`, `--audit`,
    /// `--live`, `--help` or `--version`.
    pub fn of(words: &[String]) -> Option<Task>
        ensures { result ≡ task_of (map string_bytes words.now) }
    {
        if words.len() != 1 {
            return None;
        }
        if words[0].as_str() == "--log" {
            Some(Task::Log)
        } else if words[0].as_str() == "--trace" {
            Some(Task::Trace)
        } else if words[0].as_str() == "--audit" {
            Some(Task::Audit)
        } else if words[0].as_str() == "--live" {
            Some(Task::Live)
        } else if words[0].as_str() == "--help" {
            Some(Task::Help)
        } else if words[0].as_str() == "--version" {
            Some(Task::Version)
        } else {
            None
        }
    }
}

/// Why words are no options.
#[derive(Clone, Copy, Debug, Drop, PartialEq, Eq, Error)]
pub enum OptionsFault {
    /// A word that is no option, or an option given twice.
    #[error("bad options")]
    BadOptions,
    /// No memory was left.
    #[error("out of memory")]
    OutOfMemory,
}

impl From<AllocError> for OptionsFault {
    ghost use Rattle.command_line.specs.declared.options.OptionsFault.TheVariants.{OutOfMemory};

    ghost from_gives = { λ _ e. e ≡ OutOfMemory };

    fn from(_error: AllocError) -> OptionsFault {
        OptionsFault::OutOfMemory
    }
}

impl Options {
    /// Returns the options that the words after the program's name ask for: `--book`, `--check` and `--texts`, in any
    /// order, each at most once.
    ///
    /// Errors: `BadOptions` for anything else. `OutOfMemory` may come for any words, since the parser of words
    /// is built in memory.
    pub fn read(alloc: Global, words: &[String]) -> Result<Options, OptionsFault>
        ensures { Asked (options_of (map string_bytes words.now)) result }
    {
        let texts = texts_of(alloc, words)?;
        Options::read_texts(alloc, &texts)
    }

    /// Returns the options that these words ask for.
    fn read_texts(alloc: Global, words: &[&str]) -> Result<Options, OptionsFault>
        ensures { Asked (options_of (map (λ word. word.now) words.now)) result }
    {
        if has_double_hyphen(words) {
            return Err(OptionsFault::BadOptions);
        }
        match command(alloc)?.try_get_matches_from(words) {
            Ok(matches) => Ok(Options {
                book: matches.get_flag("book"),
                check: matches.get_flag("check"),
                texts: matches.get_flag("texts"),
            }),
            Err(error) if error.kind() == ErrorKind::OutOfMemory => Err(OptionsFault::OutOfMemory),
            Err(_) => Err(OptionsFault::BadOptions),
        }
    }

    /// Returns how much is printed of a message.
    pub fn detail(&self) -> Detail
        ensures { result ≡ detail_of self.now.texts }
    {
        if self.texts {
            Detail::Texts
        } else {
            Detail::Sizes
        }
    }
}

/// Returns the texts of these words. They are put into a list one by one: `collect` would continue where the room for
/// all of them is refused.
fn texts_of<'a>(alloc: Global, words: &'a [String]) -> Result<Vec<&'a str>, AllocError>
    ensures { IfOk result (λ texts. map (λ text. text.now) texts.items ≡ map string_bytes words.now) }
{
    let mut texts = Vec::new(alloc);
    for word in words {
        texts.push(word.as_str())?;
    }
    Ok(texts)
}

/// Returns whether `--` is one of the words.
fn has_double_hyphen(words: &[&str]) -> bool
    ensures { result ≡ list_any (λ word. bytes_eq word.now (codes "--")) words.now }
{
    words.contains(&"--")
}

/// Returns the command line as the parser of words knows it: three options, no help and no version.
fn command<'a>(alloc: Global) -> Result<Command<'a>, AllocError>
    ensures { IfOk result (λ command. app_of command ≡ command_line) }
{
    let book = Arg::new(alloc, "book")
        .long("book")
        .action(ArgAction::SetTrue);
    let check = Arg::new(alloc, "check")
        .long("check")
        .action(ArgAction::SetTrue);
    let texts = Arg::new(alloc, "texts")
        .long("texts")
        .action(ArgAction::SetTrue);
    Command::new(alloc, "arpasim")
        .no_binary_name(true)
        .disable_help_flag(true)
        .disable_version_flag(true)
        .arg(book)?
        .arg(check)?
        .arg(texts)
}
