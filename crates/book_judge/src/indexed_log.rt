//! A log with what all judges look up in it, found once.

ghost use Rattle.std.specs.Prelude.{◌≡◌, IfOk, false, length, reverse, true};
ghost use Rattle.book_judge.specs.Inside.Asked.{AreOuts};
ghost use Rattle.book_judge.specs.Inside.Begins.{AreCourses};
ghost use Rattle.book_judge.specs.Inside.Deeds.{deeds_in};
ghost use Rattle.book_judge.specs.Inside.Joined.{AreJoined};

use crate::fates::{Courses, courses_of};
use crate::joined::{Joined, join_data};
use crate::stamps::outs_of;
use interface::Crossing;
use std::alloc::{AllocError, Global};
use std::marker::Model;

/// What crossed, the oldest first, with what is looked up there: the data of each flow's messages, where the last message of a
/// flow had gone out before each that came in, and what changes lives.
#[derive(Drop)]
pub struct IndexedLog<'a> {
    log: &'a [Crossing],
    into: Joined,
    out: Joined,
    outs: Vec<Option<usize>>,
    courses: Courses,
}

impl<'a> Model for IndexedLog<'a> {
    ghost use Rattle.std.specs.Prelude.{List};
    ghost use Rattle.interface.specs.declared.crossing.Crossing.{Crossing};
    ghost use Rattle.book_judge.specs.Inside.Indexed.{AreFound};

    ghost Value = { List Crossing };

    ghost view = { λ i. i.log.now };

    ghost invariant = { λ i. AreFound i.log.now i.into i.out i.outs.items i.courses };
}

impl<'a> IndexedLog<'a> {
    /// Finds in a log what is looked up there. The log is the oldest first.
    ///
    /// Errors: `AllocError`.
    pub fn new(alloc: Global, log: &'a [Crossing]) -> Result<IndexedLog<'a>, AllocError>
        ensures { IfOk result (λ indexed. indexed ≡ log.now) }
    {
        let into = join_data(alloc, log, true)?;
        let out = join_data(alloc, log, false)?;
        let outs = outs_of(alloc, log)?;
        let courses = courses_of(alloc, log)?;
        Ok(IndexedLog {
            log,
            into,
            out,
            outs,
            courses,
        })
    }

    /// Returns what crossed, the oldest first.
    pub(crate) fn crossings(&self) -> &'a [Crossing]
        ensures { result.now ≡ self.now }
    {
        self.log
    }

    /// Returns the data of the messages that came in.
    pub(crate) fn came(&self) -> &Joined
        ensures { AreJoined true self.now result.now }
    {
        &self.into
    }

    /// Returns the data of the messages that went out.
    pub(crate) fn went(&self) -> &Joined
        ensures { AreJoined false self.now result.now }
    {
        &self.out
    }

    /// Returns, for each message that came in, where its flow's last message before that went out.
    pub(crate) fn outs(&self) -> &[Option<usize>]
        ensures { AreOuts (length self.now) result.now self.now }
    {
        &self.outs
    }

    /// Returns what changes lives, and what comes first of that.
    pub(crate) fn courses(&self) -> &Courses
        ensures { AreCourses (deeds_in (reverse self.now)) result.now }
    {
        &self.courses
    }
}
