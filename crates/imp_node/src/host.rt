//! A host of an IMP, and what waits for it.

ghost use Rattle.std.specs.Prelude.{◌≡◌, ℕ, ◌≤◌, ◌<◌, ◌∷◌, ◌++◌, [], length, drop, nat_lt, slice_get, option_copied, option_map, is_some, All, IfOk, IfSome, OnOk, OnErr, true, false};
ghost use Rattle.std.specs.List.{list_any};
ghost use Rattle.imp_node.specs.State.{no_host};
ghost use Rattle.imp_node.specs.Flows.{is_about, given};
ghost use Rattle.imp_node.specs.Room.{queue_places};
ghost use Rattle.imp_node.specs.Taking.{first_of};
ghost use Rattle.imp_node.specs.Inside.Parts.{IsPacketFlow, AreOfPackets};
ghost use Rattle.imp_node.specs.Inside.Seeking.{message_is};

use crate::seeking::Sought;
use crate::waiting::{Message, Told};
use circular_buffer::HeapCircularBuffer;
use interface::Flow;
use std::alloc::{AllocError, Global};
use std::collections::VecDeque;
use std::marker::Model;
use std::mem;

/// How many whole messages can wait for a host.
pub const QUEUE_PLACES: usize = 16;

/// A host of an IMP: up or down, the answers that wait for it, and the whole messages that wait for it,
/// the oldest first. The messages are in a ring that is never overwritten.
#[derive(Drop)]
pub struct Host {
    up: bool,
    answers: VecDeque<Told>,
    queue: HeapCircularBuffer<Message>,
}

impl Model for Host {
    ghost use Rattle.std.specs.Prelude.{◌≡◌};
    ghost use Rattle.imp_node.specs.State.{HostState};
    ghost use Rattle.imp_node.specs.Inside.Parts.{AreOfPackets};
    ghost use Rattle.imp_node.specs.Room.{queue_places};

    ghost Value = { HostState };

    ghost view = { λ h. record { up = h.up; answers = h.answers.items; queue = h.queue.items } };

    ghost invariant = { λ h. (h.queue.capacity ≡ queue_places) × AreOfPackets h.queue.items };
}

impl Host {
    /// Returns a host that is up or down, and for which nothing waits.
    pub(crate) fn new(alloc: Global, up: bool) -> Result<Host, AllocError>
        ensures { IfOk result (λ host. host ≡ record { up = up; answers = []; queue = [] }) }
    {
        Ok(Host {
            up,
            answers: VecDeque::new(alloc),
            queue: HeapCircularBuffer::with_capacity(alloc, QUEUE_PLACES)?,
        })
    }

    /// Returns whether it is up.
    pub fn is_up(&self) -> bool
        ensures { result ≡ self.now.up }
    {
        self.up
    }

    /// Returns how many messages wait for it.
    pub fn message_count(&self) -> usize
        ensures { result ≡ length self.now.queue }
    {
        self.queue.len()
    }

    /// Returns the message at a place of those that wait for it, 0 being the oldest; `None` past the newest.
    pub fn message_at(&self, place: usize) -> Option<&Message>
        ensures { option_copied result ≡ slice_get self.now.queue place }
    {
        self.queue.get(place)
    }

    /// Returns how many answers wait for it.
    pub fn answer_count(&self) -> usize
        ensures { result ≡ length self.now.answers }
    {
        self.answers.len()
    }

    /// Returns the answer at a place of those that wait for it, 0 being the oldest; `None` past the newest.
    pub fn answer_at(&self, place: usize) -> Option<&Told>
        ensures { option_copied result ≡ slice_get self.now.answers place }
    {
        self.answers.get(place)
    }

    /// Returns whether an answer about this flow waits.
    pub(crate) fn has_answer_about(&self, flow: &Flow) -> bool
        ensures { result ≡ list_any (is_about flow.now) self.now.answers }
    {
        self.answers.iter().any(|told| *flow == told.flow)
    }

    /// Returns whether one more message has room.
    pub(crate) fn has_room(&self) -> bool
        ensures { result ≡ nat_lt (length self.now.queue) queue_places }
    {
        self.queue.len() < self.queue.capacity()
    }

    /// Returns whether a message that waits is sought.
    pub(crate) fn has(&self, sought: &Sought) -> bool
        ensures { result ≡ list_any (message_is sought.now) self.now.queue }
    {
        self.queue.iter().any(|message| sought.is_message(message))
    }

    /// Lets the host come up.
    pub(crate) fn start(&mut self)
        ensures { self.new ≡ record self.old { up = true } }
    {
        self.up = true;
    }

    /// Queues an answer for the host if it is up.
    pub(crate) fn tell(&mut self, told: Told) -> Result<(), AllocError>
        ensures ok { OnOk result (self.new ≡ given self.old told) }
        ensures memory { OnErr result (self.old.up ≡ true) }
    {
        if self.up {
            self.answers.push_back(told)?;
        }
        Ok(())
    }

    /// Queues a message after the others. There is room for it.
    pub(crate) fn enqueue(&mut self, message: Message)
        requires room { nat_lt (length self.old.queue) queue_places ≡ true }
        requires flow { IsPacketFlow message.flow }
        ensures { self.new ≡ record self.old { queue = self.old.queue ++ message ∷ [] } }
    {
        if self.queue.try_push_back(message).is_err() {
            unreachable!();
        }
    }

    /// Returns whether an answer waits.
    pub(crate) fn has_answer(&self) -> bool
        ensures { result ≡ nat_lt 0 (length self.now.answers) }
    {
        !self.answers.is_empty()
    }

    /// Takes the oldest answer.
    pub(crate) fn take_answer(&mut self) -> Told
        requires { 0 < length self.old.answers }
        ensures first { self.old.answers ≡ result ∷ drop 1 self.old.answers }
        ensures rest { self.new ≡ record self.old { answers = drop 1 self.old.answers } }
    {
        self.answers.pop_front().unwrap()
    }

    /// Returns whether a message waits.
    pub(crate) fn has_message(&self) -> bool
        ensures { result ≡ nat_lt 0 (length self.now.queue) }
    {
        !self.queue.is_empty()
    }

    /// Returns whether an answer or a message waits.
    pub(crate) fn has_waiting(&self) -> bool
        ensures { result ≡ is_some (first_of self.now.answers self.now.queue) }
    {
        self.has_answer() || self.has_message()
    }

    /// Returns the flow of the oldest message.
    pub(crate) fn next_flow(&self) -> Option<Flow>
        ensures { result ≡ option_map (λ m. m.flow) (slice_get self.now.queue 0) }
    {
        match self.queue.front() {
            Some(message) => Some(message.flow),
            None => None,
        }
    }

    /// Takes the oldest message.
    #[tactic(auto, using(crate::proofs::Firsts::first_is))]
    pub(crate) fn take_message(&mut self) -> Message
        requires { 0 < length self.old.queue }
        ensures first { self.old.queue ≡ result ∷ drop 1 self.old.queue }
        ensures rest { self.new ≡ record self.old { queue = drop 1 self.old.queue } }
        ensures flow { IsPacketFlow result.flow }
    {
        self.queue.pop_front().unwrap()
    }

    /// Takes the host down. The answers that nobody will take are given back.
    pub(crate) fn stop(&mut self, alloc: Global) -> VecDeque<Told>
        ensures answers { result.items ≡ self.old.answers }
        ensures state { self.new ≡ record self.old { up = false; answers = [] } }
    {
        self.up = false;
        mem::replace(&mut self.answers, VecDeque::new(alloc))
    }

    /// Takes all messages that wait for the host.
    pub(crate) fn take_queue(
        &mut self,
        alloc: Global,
    ) -> Result<HeapCircularBuffer<Message>, AllocError>
        ensures queue { IfOk result (λ queue. queue.items ≡ self.old.queue) }
        ensures flows { IfOk result (λ queue. AreOfPackets queue.items) }
        ensures state { OnOk result (self.new ≡ record self.old { queue = [] }) }
    {
        let empty = HeapCircularBuffer::with_capacity(alloc, QUEUE_PLACES)?;
        Ok(mem::replace(&mut self.queue, empty))
    }
}
