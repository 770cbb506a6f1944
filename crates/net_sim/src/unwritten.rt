//! What crossed, as a list that only clauses read.

ghost use Rattle.std.specs.Prelude.{◌≡◌, List, [], ◌++◌, reverse};
ghost use Rattle.std.specs.Borrow.{ftrue};
ghost use Rattle.interface.specs.declared.crossing.Crossing.{Crossing};

use interface::Crossing;
use std::marker::Model;

/// All that crossed, the newest first. It takes no memory, and its calls do nothing when they run.
#[derive(Drop)]
pub(crate) struct Unwritten {
    pub(crate) ghost crossings: { List Crossing },
}

impl Model for Unwritten {
    ghost also_owns = { λ _. ftrue };
}

impl Unwritten {
    /// Returns a list in which nothing has crossed.
    pub(crate) fn new() -> Unwritten
        ensures { result.crossings ≡ [] }
    {
        Unwritten {}
    }

    /// Adds what crossed, which is the oldest first.
    pub(crate) fn grow(&mut self, _news: &[Crossing])
        ensures { self.new.crossings ≡ reverse _news.now ++ self.old.crossings }
    {}
}
