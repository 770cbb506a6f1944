//! A line between two IMPs, and the frames that are live on it.

ghost use Rattle.std.specs.Prelude.{◌≡◌, ◌<◌, [], length, slice_get, slice_set, IfOk, OnOk, OnErr, Some, true, option_copied};
ghost use Rattle.std.specs.VecDeque.{deque_len, deque_capacity};
ghost use Rattle.subnet.specs.Net as net;
ghost use Rattle.subnet.specs.Net.{ends_at, far_end, frames_on, followed_by, with_frame, dropping};
ghost use Rattle.subnet.specs.Inside.Calling.{copied_grows};
ghost use Rattle.subnet.specs.Inside.Losing.{LosesAll};
ghost use Rattle.subnet.specs.Inside.Taking.{hollow, hollowed};
ghost use Rattle.subnet.specs.Opening as start;

use imp_channel::{ACKS, Content, Frame};
use interface::Direction;
use std::alloc::{AllocError, Global};
use std::collections::VecDeque;
use std::marker::Model;
use std::mem;

/// How many frames can be live on a line each way.
const LINE_PLACES: usize = 256;

/// The numbers of the two IMPs that a line joins.
#[derive(Clone, Copy, Debug, PartialEq, Eq)]
pub struct Ends {
    /// The number of its first IMP.
    pub a: u8,
    /// The number of its second IMP.
    pub b: u8,
}

/// A line between two IMPs, and the frames that are live on it each way, the oldest first.
#[derive(Drop)]
pub struct Wire {
    ends: Ends,
    forward: VecDeque<Frame>,
    back: VecDeque<Frame>,
}

impl Model for Wire {
    ghost use Rattle.subnet.specs.Net as net;

    ghost Value = { net.Wire };

    ghost view = { λ w. record { a = w.ends.a; b = w.ends.b; forward = w.forward.items; back = w.back.items } };
}

impl Wire {
    /// Returns a line without frames.
    pub(crate) fn new(alloc: Global, ends: Ends) -> Wire
        ensures { result ≡ start.empty_wire ends }
    {
        Wire {
            ends,
            forward: VecDeque::new(alloc),
            back: VecDeque::new(alloc),
        }
    }

    /// Returns the numbers of the two IMPs that it joins.
    pub fn ends(&self) -> Ends
        ensures { result ≡ record { a = self.now.a; b = self.now.b } }
    {
        self.ends
    }

    /// Returns whether it has an end at this IMP.
    pub fn ends_at(&self, imp: u8) -> bool
        ensures { result ≡ ends_at imp self.now }
    {
        self.ends.a == imp || self.ends.b == imp
    }

    /// Returns the IMP that its frames of one direction go to.
    pub fn far_end(&self, direction: Direction) -> u8
        ensures { result ≡ far_end direction self.now }
    {
        match direction {
            Direction::Forward => self.ends.b,
            Direction::Back => self.ends.a,
        }
    }

    /// Returns the frames that are live one way, the oldest first.
    pub fn frames(&self, direction: Direction) -> &VecDeque<Frame>
        ensures { result.now.items ≡ frames_on direction self.now }
    {
        match direction {
            Direction::Forward => &self.forward,
            Direction::Back => &self.back,
        }
    }

    /// Returns how many frames are live one way.
    pub fn live(&self, direction: Direction) -> usize
        ensures { result ≡ length (frames_on direction self.now) }
    {
        match direction {
            Direction::Forward => self.forward.len(),
            Direction::Back => self.back.len(),
        }
    }

    /// Returns a copy of the frame at a place of those that go one way; `None` where there is none.
    ///
    /// Errors: memory runs out, and nothing else.
    pub(crate) fn copy(
        &self,
        direction: Direction,
        place: usize,
    ) -> Result<Option<Frame>, AllocError>
        ensures ok { IfOk result (λ frame. frame ≡ slice_get (frames_on direction self.now) place) }
        ensures memory { OnErr result (copied_grows (slice_get (frames_on direction self.now) place) ≡ true) }
    {
        match direction {
            Direction::Forward => copied(&self.forward, place),
            Direction::Back => copied(&self.back, place),
        }
    }

    /// Takes out the oldest frame that goes one way. An empty frame is in its place.
    pub(crate) fn take_first(&mut self, direction: Direction) -> Frame
        requires { 0 < length (frames_on direction self.old) }
        ensures frame { slice_get (frames_on direction self.old) 0 ≡ Some result }
        ensures line { self.new ≡ hollowed direction self.old }
    {
        match direction {
            Direction::Forward => take_first(&mut self.forward),
            Direction::Back => take_first(&mut self.back),
        }
    }

    /// Loses the frame at a place of those that go one way.
    #[inline(always)]
    pub(crate) fn lose(&mut self, direction: Direction, place: usize)
        requires { place < length (frames_on direction self.old) }
        ensures { self.new ≡ dropping direction place self.old }
    {
        match direction {
            Direction::Forward => lose(&mut self.forward, place),
            Direction::Back => lose(&mut self.back, place),
        }
    }

    /// Returns whether as many frames are live the way that leads from an IMP as can be: one more is lost.
    #[tactic(auto, using(crate::proofs::Calls::Losing::forward_full, crate::proofs::Calls::Losing::back_full))]
    pub(crate) fn is_full(&self, imp: u8) -> bool
        ensures { result ≡ true → LosesAll imp self.now }
    {
        if self.ends.a == imp {
            self.forward.len() >= LINE_PLACES
        } else {
            self.back.len() >= LINE_PLACES
        }
    }

    /// Puts a frame of an IMP on the line, after the others that go the same way. On a full line the frame is lost.
    ///
    /// Errors: memory runs out, and nothing else.
    #[inline(always)]
    pub(crate) fn put(&mut self, imp: u8, frame: Frame) -> Result<(), AllocError>
        ensures ok { OnOk result (self.new ≡ with_frame imp frame self.old) }
        ensures a { self.new.a ≡ self.old.a }
        ensures b { self.new.b ≡ self.old.b }
    {
        if self.ends.a == imp {
            follow(&mut self.forward, frame)
        } else {
            follow(&mut self.back, frame)
        }
    }
}

/// Returns the frame at a place.
fn frame_at(frames: &VecDeque<Frame>, place: usize) -> Option<&Frame>
    ensures { option_copied result ≡ slice_get frames.now.items place }
{
    frames.get(place)
}

/// Returns a copy of the frame at a place.
#[tactic(auto, using(crate::proofs::Calls::Delivering::copy_wanted))]
fn copied(frames: &VecDeque<Frame>, place: usize) -> Result<Option<Frame>, AllocError>
    ensures ok { IfOk result (λ frame. frame ≡ slice_get frames.now.items place) }
    ensures memory { OnErr result (copied_grows (slice_get frames.now.items place) ≡ true) }
{
    match frame_at(frames, place) {
        Some(frame) => Ok(Some(frame.clone()?)),
        None => Ok(None),
    }
}

/// Takes the oldest frame out, and puts an empty one in its place.
fn take_first(frames: &mut VecDeque<Frame>) -> Frame
    requires { 0 < length frames.old.items }
    ensures frame { slice_get frames.old.items 0 ≡ Some result }
    ensures frames { frames.new.items ≡ slice_set frames.old.items 0 hollow }
{
    let empty = Frame {
        acks: [false; ACKS],
        content: Content::Nothing,
    };
    mem::replace(&mut frames[0], empty)
}

/// Takes the frame at a place out.
#[inline(always)]
fn lose(frames: &mut VecDeque<Frame>, place: usize)
    requires { place < length frames.old.items }
    ensures { frames.new.items ≡ net.without_at place frames.old.items }
{
    if place == 0 {
        drop(frames.pop_front());
        if frames.is_empty() {
            rewind(frames);
        }
    } else {
        drop(frames.remove(place));
    }
}

/// Makes an empty queue begin at the start of its memory again. So the frames of one round lie where those of the last
/// one lay, and the processor still has that memory at hand.
fn rewind(frames: &mut VecDeque<Frame>)
    requires { frames.old.items ≡ [] }
    ensures { frames.new.items ≡ [] }
{
    let alloc = *frames.allocator();
    let empty = mem::replace(frames, VecDeque::new(alloc));
    let hollow = mem::replace(frames, VecDeque::from_vec(empty.into_vec()));
    hollow.destroy_empty();
}

/// Puts a frame after the others, if there is a place for it.
#[inline(always)]
fn follow(frames: &mut VecDeque<Frame>, frame: Frame) -> Result<(), AllocError>
    ensures { OnOk result (frames.new.items ≡ followed_by frames.old.items frame) }
{
    if frames.len() >= LINE_PLACES {
        return Ok(());
    }
    if frames.len() >= frames.capacity() {
        make_place(frames)?;
    }
    frames.push_back_reserved(frame);
    Ok(())
}

/// Makes a place for one frame more.
#[inline(never)]
fn make_place(frames: &mut VecDeque<Frame>) -> Result<(), AllocError>
    ensures frames { frames.new.items ≡ frames.old.items }
    ensures place { OnOk result (deque_len frames.new < deque_capacity frames.new) }
{
    frames.reserve(1)?;
    Ok(())
}
