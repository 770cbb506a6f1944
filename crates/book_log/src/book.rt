//! The book that a log describes.

ghost use Rattle.std.specs.Prelude.{◌≡◌, ◌∷◌, ◌++◌, [], OnOk};
ghost use Rattle.book_log.specs.Log.{fates_of, lives_of};
ghost use Rattle.book_log.specs.Steps.{Adds, is_bare, opening_book};

use crate::lines::{Line, crossings_ahead};
use interface::Crossing;
use net_sim::{BitLog, Life};
use promise::Fate;
use std::alloc::{AllocError, Global};
use std::marker::Model;

/// The book that a log describes: its crossings, the oldest first, its lives with their fates, and lists of bits that were handed over.
/// A log may have more or fewer of these lists than lives.
#[derive(Drop)]
pub struct LoggedBook {
    crossings: Vec<Crossing>,
    lives: Vec<Life>,
    /// As many as there are lives.
    fates: Vec<Fate>,
    handed: Vec<BitLog>,
}

impl Model for LoggedBook {
    ghost use Rattle.std.specs.Prelude.{◌≡◌, length, zip};
    ghost use Rattle.book_log.specs.Log.{Book};

    ghost Value = { Book };

    ghost view = { λ b. record { crossings = b.crossings.items; lives = zip b.lives.items b.fates.items; handed = b.handed.items } };

    ghost invariant = { λ b. length b.fates.items ≡ length b.lives.items };
}

/// The lists of a book: its crossings, the oldest first, its lives, the fates of these, and what was handed over.
#[derive(Drop)]
pub struct BookLists {
    pub crossings: Vec<Crossing>,
    pub lives: Vec<Life>,
    pub fates: Vec<Fate>,
    pub handed: Vec<BitLog>,
}

impl LoggedBook {
    /// Returns a book in which nothing happened.
    pub(crate) fn new(alloc: Global) -> LoggedBook
        ensures { result ≡ opening_book }
    {
        LoggedBook {
            crossings: Vec::new(alloc),
            lives: Vec::new(alloc),
            fates: Vec::new(alloc),
            handed: Vec::new(alloc),
        }
    }

    /// Returns all that crossed, the oldest first.
    pub fn crossings(&self) -> &[Crossing]
        ensures { result.now ≡ self.now.crossings }
    {
        &self.crossings
    }

    /// Returns the lives of connections.
    pub fn lives(&self) -> &[Life]
        ensures { result.now ≡ lives_of self.now }
    {
        &self.lives
    }

    /// Returns the fates of these lives.
    pub fn fates(&self) -> &[Fate]
        ensures { result.now ≡ fates_of self.now }
    {
        &self.fates
    }

    /// Returns what was handed over to be sent.
    pub fn handed(&self) -> &[BitLog]
        ensures { result.now ≡ self.now.handed }
    {
        &self.handed
    }

    /// Returns the lists of the book.
    pub fn into_lists(self) -> BookLists
        ensures crossings { result.crossings.items ≡ self.crossings }
        ensures lives { result.lives.items ≡ lives_of self }
        ensures fates { result.fates.items ≡ fates_of self }
        ensures handed { result.handed.items ≡ self.handed }
    {
        BookLists {
            crossings: self.crossings,
            lives: self.lives,
            fates: self.fates,
            handed: self.handed,
        }
    }

    /// Puts what a line describes at the end of the book, and answers whether the line may be there: a crossing before all lives and lists,
    /// a life before all lists. The last line of a log describes nothing. The text begins with the line.
    ///
    /// Errors: `AllocError`.
    pub(crate) fn add(&mut self, line: Line, text: &[u8]) -> Result<bool, AllocError>
        ensures { Adds line self.old result self.new }
    {
        match line {
            Line::Crossed(crossing) if self.has_no_life() && self.has_no_list() => {
                self.add_crossing(crossing, text)?;
            }
            Line::Lived(life, fate) if self.has_no_list() => self.add_life(life, fate)?,
            Line::Handed(bits) => self.handed.push(bits)?,
            Line::Crossed(_) | Line::Lived(_, _) | Line::End => return Ok(false),
        }
        Ok(true)
    }

    /// Puts a crossing at the end. With the first, room is taken for all with which the text begins.
    ///
    /// Errors: `AllocError`.
    fn add_crossing(&mut self, crossing: Crossing, text: &[u8]) -> Result<(), AllocError>
        ensures { OnOk result (self.new ≡ record self.old { crossings = self.old.crossings ++ crossing ∷ [] }) }
    {
        let room = if self.crossings.is_empty() {
            crossings_ahead(text)
        } else {
            0
        };
        self.crossings.reserve_exact(room)?;
        self.crossings.push(crossing)?;
        Ok(())
    }

    /// Puts a life with its fate at the end.
    ///
    /// Errors: `AllocError`.
    fn add_life(&mut self, life: Life, fate: Fate) -> Result<(), AllocError>
        ensures { OnOk result (self.new ≡ record self.old { lives = self.old.lives ++ (life, fate) ∷ [] }) }
    {
        self.fates.push(fate)?;
        let Ok(()) = self.lives.push(life) else {
            self.fates.pop();
            return Err(AllocError);
        };
        Ok(())
    }

    /// Returns whether there is no life.
    fn has_no_life(&self) -> bool
        ensures { result ≡ is_bare self.now.lives }
    {
        self.lives().is_empty()
    }

    /// Returns whether there is no list.
    fn has_no_list(&self) -> bool
        ensures { result ≡ is_bare self.now.handed }
    {
        self.handed.is_empty()
    }
}
