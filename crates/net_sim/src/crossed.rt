//! How much has crossed.

ghost use Rattle.std.specs.Prelude.{◌≡◌, ◌+◌, ◌++◌, [], IfOk, length, reverse};

use crate::unwritten::Unwritten;
use interface::Crossing;
use std::alloc::AllocError;
use std::marker::Model;

/// All that crossed, seen as the crossings, the newest first. In memory is only how many they are: the carrier's log
/// has them.
#[derive(Drop)]
pub(crate) struct Crossed {
    count: usize,
    which: Unwritten,
}

impl Model for Crossed {
    ghost use Rattle.std.specs.Prelude.{◌≡◌, List, length};
    ghost use Rattle.interface.specs.declared.crossing.Crossing.{Crossing};

    ghost Value = { List Crossing };

    ghost view = { λ c. c.which.crossings };

    ghost invariant = { λ c. c.count ≡ length c.which.crossings };
}

impl Crossed {
    /// Returns that nothing has crossed.
    pub(crate) fn new() -> Crossed
        ensures { result ≡ [] }
    {
        Crossed {
            count: 0,
            which: Unwritten::new(),
        }
    }

    /// Returns how many crossings there are.
    pub(crate) fn count(&self) -> usize
        ensures { result ≡ length self.now }
    {
        self.count
    }

    /// Returns how many there are with these, unless that is more than a log in memory can have.
    pub(crate) fn count_with(&self, news: &[Crossing]) -> Result<usize, AllocError>
        ensures { IfOk result (λ count. count ≡ length self.now + length news.now) }
    {
        self.count.checked_add(news.len()).ok_or(AllocError)
    }

    /// Adds what crossed, with which there are this many crossings.
    pub(crate) fn grow(&mut self, news: &[Crossing], count: usize)
        requires { count ≡ length self.old + length news.now }
        ensures { self.new ≡ reverse news.now ++ self.old }
    {
        self.count = count;
        self.which.grow(news);
    }
}
