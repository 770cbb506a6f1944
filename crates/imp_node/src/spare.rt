//! A list of frames whose memory is used again.

ghost use Rattle.std.specs.Prelude.{◌≡◌, []};

use crate::Outgoing;
use std::alloc::Global;
use std::marker::Model;
use std::mem;

/// An empty list of frames: a call takes it for the frames that it answers, and the list comes back when they are on
/// their lines, so that most calls need no fresh memory. Nothing that an IMP keeps is in it.
#[derive(Drop)]
pub(crate) struct Spare {
    frames: Vec<Outgoing>,
}

impl Model for Spare {
    ghost use Rattle.std.specs.Prelude.{◌≡◌, []};

    ghost Value = { Unit {0} };

    ghost view = { λ _. tt };

    ghost invariant = { λ s. s.frames.items ≡ [] };
}

impl Spare {
    /// Returns a list without memory.
    pub(crate) fn new(alloc: Global) -> Spare {
        Spare {
            frames: Vec::new(alloc),
        }
    }

    /// Takes the list. One without memory is in its place.
    pub(crate) fn take(&mut self, alloc: Global) -> Vec<Outgoing>
        ensures { result.items ≡ [] }
    {
        mem::replace(&mut self.frames, Vec::new(alloc))
    }

    /// Keeps a list for the next call.
    pub(crate) fn keep(&mut self, frames: Vec<Outgoing>)
        requires { frames.items ≡ [] }
    {
        self.frames = frames;
    }
}
