//! Where the lines of a log are, and which of its lives are among hosts with programs.

ghost use Rattle.std.specs.Prelude.{◌≡◌, ◌≤◌, ◌+◌, [], IfOk, length, map};
ghost use Rattle.interface.specs.Host.{is_host};
ghost use Rattle.mixed_worlds.specs.Book as mixed;
ghost use Rattle.command_line.specs.Audits as audits;
ghost use Rattle.command_line.specs.Audits.{crossing_at, layout_of, life_at, lines_of, list_at, passed_one, place_in};

use crate::verdict::Lines;
use book_log::LoggedBook;
use interface::HostAddr;
use net_sim::{Finding, Life};
use std::alloc::{AllocError, Global};
use std::marker::Model;

/// Where the lines of a log are: how many strangers and crossings come before its lives, and of each life whether it is
/// among hosts with programs.
#[derive(Drop)]
pub(crate) struct Layout {
    strangers: usize,
    crossings: usize,
    among: Vec<bool>,
}

impl Model for Layout {
    ghost Value = { audits.Layout };

    ghost view = { λ l. record { strangers = l.strangers; crossings = l.crossings; among = l.among.items } };

    ghost invariant = { λ _. Unit {0} };
}

impl Layout {
    /// Returns the layout of the log of a book, in whose network these hosts are strangers.
    ///
    /// Errors: `AllocError`.
    pub fn of(
        alloc: Global,
        strangers: &[HostAddr],
        book: &LoggedBook,
    ) -> Result<Layout, AllocError>
        ensures { IfOk result (λ layout. layout ≡ layout_of strangers.now book.now) }
    {
        let among = lives_among(alloc, strangers, book.lives())?;
        Ok(Layout {
            strangers: strangers.len(),
            crossings: book.crossings().len(),
            among,
        })
    }

    /// Returns for each life whether it is among hosts with programs.
    pub fn among(&self) -> &[bool]
        ensures { result.now ≡ self.now.among }
    {
        &self.among
    }

    /// Returns the line of a crossing.
    pub fn crossing(&self, place: usize) -> u128
        ensures { result ≡ crossing_at self.now place }
    {
        self.strangers as u128 + place as u128 + 1
    }

    /// Returns the line of the life that has this place among those that are counted.
    pub fn life(&self, counted: &[bool], place: usize) -> u128
        ensures { result ≡ life_at self.now counted.now place }
    {
        self.strangers as u128 + self.crossings as u128 + place_in(counted, place) + 1
    }

    /// Returns the line of the life that has this place among all.
    pub fn any_life(&self, place: usize) -> u128
        ensures { result ≡ life_at self.now [] place }
    {
        self.strangers as u128 + self.crossings as u128 + place as u128 + 1
    }

    /// Returns the line of the life that has this place among hosts with programs.
    pub fn program_life(&self, place: usize) -> u128
        ensures { result ≡ life_at self.now self.now.among place }
    {
        self.life(&self.among, place)
    }

    /// Returns the line of a list.
    fn list(&self, place: usize) -> u128
        ensures { result ≡ list_at self.now place }
    {
        let before = self.strangers as u128 + self.crossings as u128 + self.among.len() as u128;
        before + place as u128 + 1
    }

    /// Returns the lines for what was found of the lives that are counted.
    fn lines(&self, counted: &[bool], found: Finding) -> Lines
        ensures { result ≡ lines_of self.now counted.now found }
    {
        match found {
            Finding::Crossing(place) => Lines::One(self.crossing(place)),
            Finding::Life(place) => Lines::One(self.life(counted, place)),
            Finding::Lives(place, other) => {
                Lines::Two(self.life(counted, place), self.life(counted, other))
            }
            Finding::List(place) => Lines::One(self.list(place)),
        }
    }

    /// Returns the lines for what was found of all lives.
    pub fn any_lines(&self, found: Finding) -> Lines
        ensures { result ≡ lines_of self.now [] found }
    {
        self.lines(&[], found)
    }

    /// Returns the lines for what was found of the lives among hosts with programs.
    pub fn program_lines(&self, found: Finding) -> Lines
        ensures { result ≡ lines_of self.now self.now.among found }
    {
        self.lines(&self.among, found)
    }
}

/// Returns how many of those that are counted are left before one, after one more; `None` where this is the one.
fn pass_one(counts: bool, left: usize) -> Option<usize>
    ensures { result ≡ passed_one counts left }
{
    if !counts {
        return Some(left);
    }
    if left == 0 {
        return None;
    }
    Some(left - 1)
}

/// Returns the place among all of the one that has this place among those that are counted.
fn place_in(counted: &[bool], place: usize) -> u128
    ensures same { result ≡ place_in counted.now place }
    ensures small { result ≤ length counted.now + place }
{
    let mut left = place;
    for (at, counts) in counted.iter().enumerate() {
        let Some(next) = pass_one(*counts, left) else {
            return at as u128;
        };
        left = next;
    }
    counted.len() as u128 + left as u128
}

/// Returns whether a host is one of these.
fn is_one(hosts: &[HostAddr], host: HostAddr) -> bool
    ensures { result ≡ is_host hosts.now host }
{
    hosts.iter().any(|other| host == *other)
}

/// Returns whether a life is one of a host with a program, with such a host.
fn is_among(strangers: &[HostAddr], life: &Life) -> bool
    ensures { result ≡ mixed.is_among (λ h. is_host strangers.now h) life.now }
{
    !is_one(strangers, life.host) && !is_one(strangers, life.peer)
}

/// Returns for each life whether it is among hosts with programs.
///
/// Errors: `AllocError`.
fn lives_among(
    alloc: Global,
    strangers: &[HostAddr],
    lives: &[Life],
) -> Result<Vec<bool>, AllocError>
    ensures { IfOk result (λ among. among.items ≡ map (λ x. mixed.is_among (λ h. is_host strangers.now h) x) lives.now) }
{
    let mut among = Vec::new(alloc);
    for life in lives {
        among.push(is_among(strangers, life))?;
    }
    Ok(among)
}
