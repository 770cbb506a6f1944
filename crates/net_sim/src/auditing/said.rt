//! What an audit says.

ghost use Rattle.std.specs.Prelude.{◌≡◌, Some};
ghost use Rattle.net_sim.specs.Audit.{number_of};

use std::fmt;

/// A part of a safe book.
#[derive(Clone, Copy, Debug, PartialEq, Eq)]
pub enum Part {
    /// A message that was answered by RFNM was taken once, and none is taken twice.
    Messages,
    /// No two ends hold one opening with different partners.
    Partners,
    /// What was taken is a prefix of what its one partner sent, and what was sent is a prefix of what was handed over.
    Streams,
    /// What was taken and sent is granted.
    Grants,
}

/// What an audit says of a book.
#[derive(Clone, Copy, Debug, PartialEq, Eq)]
pub enum Audit {
    /// It is well-formed, and a safe book.
    Kept,
    /// There isn't one list of bits for each life, or a stamp of a life names no request.
    Malformed,
    /// This part of a safe book is the first that fails.
    Broken(Part),
}

impl Part {
    /// Returns its number in a safe book, 1 to 4.
    pub fn number(self) -> u8
        ensures { result ≡ number_of self }
    {
        match self {
            Part::Messages => 1,
            Part::Partners => 2,
            Part::Streams => 3,
            Part::Grants => 4,
        }
    }
}

/// Prints `messages`, `partners`, `streams` or `grants`.
impl fmt::Display for Part {
    ghost use Rattle.net_sim.specs.Audit.{part_text};

    ghost output = { λ part. Some (part_text part) };

    fn fmt<W: fmt::Write>(&self, f: &mut fmt::Formatter<W>) -> fmt::Result {
        match self {
            Part::Messages => write!(f, "messages"),
            Part::Partners => write!(f, "partners"),
            Part::Streams => write!(f, "streams"),
            Part::Grants => write!(f, "grants"),
        }
    }
}
