//! The book of a world, as it is shown.

ghost use Rattle.std.specs.Prelude.{◌≡◌, reverse};
ghost use Rattle.net_sim.specs.Inside.Notes.{BeginsWith};

use crate::notes::Notes;
use host_services::Reported;
use interface::Crossing;
use promise::{BitLog, Called, Fate, Life, Told};
use std::marker::Model;

/// The book of a world: all that crossed, the notices to users, the contacts that they asked for, what services reported, a life for
/// each opened end of a connection, what was handed over to be sent in each, and how far each is. All of them are in their order, the
/// oldest first.
///
/// What crossed lies in the carrier's log, which the book borrows; all else is the world's own.
#[derive(Drop)]
pub struct Book<'a> {
    log: &'a [Crossing],
    notes: &'a Notes,
}

impl<'a> Model for Book<'a> {
    ghost use Rattle.std.specs.Prelude.{◌≡◌, reverse};
    ghost use Rattle.net_sim.specs.Book.{Kept};

    ghost Value = { Kept };

    ghost view = { λ b. b.notes.now };

    ghost invariant = { λ b. b.log.now ≡ reverse b.notes.now.book.crossings };
}

impl<'a> Book<'a> {
    /// Returns the book of these notes. What crossed is the oldest of the log.
    pub(crate) fn over(log: &'a [Crossing], notes: &'a Notes) -> Book<'a>
        requires { BeginsWith notes.now log.now }
        ensures { result ≡ notes.now }
    {
        Book {
            log: &log[..notes.crossed()],
            notes,
        }
    }

    /// Returns all that crossed, the oldest first.
    pub fn crossings(&self) -> &'a [Crossing]
        ensures { result.now ≡ reverse self.now.book.crossings }
    {
        self.log
    }

    /// Returns the notices to users.
    pub fn notices(&self) -> &'a [Told]
        ensures { result.now ≡ self.now.book.notices }
    {
        self.notes.notices()
    }

    /// Returns the contacts that users asked for.
    pub fn contacts(&self) -> &'a [Called]
        ensures { result.now ≡ self.now.book.contacts }
    {
        self.notes.contacts()
    }

    /// Returns what services reported.
    pub fn reports(&self) -> &'a [Reported]
        ensures { result.now ≡ self.now.book.reports }
    {
        self.notes.reports()
    }

    /// Returns the lives of connections.
    pub fn lives(&self) -> &'a [Life]
        ensures { result.now ≡ self.now.book.lives }
    {
        self.notes.lives()
    }

    /// Returns what was handed over to be sent, a list of bits for each life.
    pub fn handed(&self) -> &'a [BitLog]
        ensures { result.now ≡ self.now.handed }
    {
        self.notes.handed()
    }

    /// Returns how far each life is, and how those ended that are over.
    pub fn fates(&self) -> &'a [Fate]
        ensures { result.now ≡ self.now.fates }
    {
        self.notes.fates()
    }
}
