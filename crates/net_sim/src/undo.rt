//! What was done to the lives, so that it can be taken back without memory.

ghost use Rattle.std.specs.Prelude.{◌≡◌};
ghost use Rattle.net_sim.specs.Inside.Lives.{state};
ghost use Rattle.net_sim.specs.Inside.Undo.{all_undone, undone};

use crate::life::put_back;
use promise::{Amount, BitLog, Fate, Life};

/// The counts of a life.
#[derive(Clone, Copy)]
pub(crate) struct Mark {
    /// How many bits it has sent or taken.
    pub(crate) bits: usize,
    /// How many messages that was.
    pub(crate) messages: u128,
    /// What was granted.
    pub(crate) granted: Amount,
    /// What was returned of that.
    pub(crate) returned: Amount,
}

/// How something that was done to the lives is taken back.
#[derive(Drop)]
pub(crate) enum Undo {
    /// A life began. Before that there were this many, this many lists of what was handed over, and this many fates.
    Begun {
        /// How many lives there were.
        lives: usize,
        /// How many lists.
        handed: usize,
        /// How many fates.
        fates: usize,
    },
    /// A life ended.
    Ended {
        /// Its place.
        at: usize,
    },
    /// The counts of a life grew.
    Changed {
        /// Its place.
        at: usize,
        /// The counts that it had.
        was: Mark,
    },
    /// Bits were handed over.
    Handed {
        /// The place of the life.
        at: usize,
        /// How many bits had been handed over.
        bits: usize,
    },
    /// The fate of a life changed.
    Turned {
        /// The place of the life.
        at: usize,
        /// What it was.
        was: Fate,
    },
}

/// Takes back one thing that was done.
fn take_one_back(lives: &mut Vec<Life>, handed: &mut Vec<BitLog>, fates: &mut Vec<Fate>, undo: Undo)
    ensures { state lives.new.items handed.new.items fates.new.items ≡ undone undo (state lives.old.items handed.old.items fates.old.items) }
{
    match undo {
        Undo::Begun {
            lives: lives_before,
            handed: handed_before,
            fates: fates_before,
        } => {
            lives.truncate(lives_before);
            handed.truncate(handed_before);
            fates.truncate(fates_before);
        }
        Undo::Ended { at } => {
            if at < lives.len() {
                lives[at].ended = false;
            }
        }
        Undo::Changed { at, was } => {
            if at < lives.len() {
                put_back(&mut lives[at], &was);
            }
        }
        Undo::Handed { at, bits } => {
            if at < handed.len() {
                handed[at].cut(bits);
            }
        }
        Undo::Turned { at, was } => {
            if at < fates.len() {
                fates[at] = was;
            }
        }
    }
}

/// Takes back all that was done, the last first.
pub(crate) fn take_back(
    lives: &mut Vec<Life>,
    handed: &mut Vec<BitLog>,
    fates: &mut Vec<Fate>,
    mut done: Vec<Undo>,
)
    ensures { state lives.new.items handed.new.items fates.new.items ≡ all_undone done.items (state lives.old.items handed.old.items fates.old.items) }
{
    'steps: while let Some(undo) = done.pop() {
        take_one_back(lives, handed, fates, undo);
    }
}
