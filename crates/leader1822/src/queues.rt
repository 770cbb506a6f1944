//! What waits for each host, oldest first.

ghost use Rattle.std.specs.Prelude.{◌≡◌, ◌<◌, ◌++◌, List, [], ◌∷◌, None, OnOk, length, filter, not, option_copied, slice_get};
ghost use Rattle.std.specs.FinMap as map;
ghost use Rattle.std.specs.VecDeque.{deque_len, deque_capacity};
ghost use Rattle.leader1822.specs.Boxes.{for_host, with_queue, queued_for, first_of_list, rest, is_of, is_rfnm_about};
ghost use Rattle.interface.specs.declared.crossing.Answer.TheVariants as answer;
ghost use Rattle.leader1822.specs.Inside.Shown.{waiting_in};

use interface::{Answer, Flow, HostAddr, HostMessage};
use std::alloc::{AllocError, Global};
use std::collections::{BTreeMap, VecDeque};
use std::marker::Model;

/// A queue for each host for which something has ever waited.
#[derive(Drop)]
pub(crate) struct Queues<T> {
    queues: BTreeMap<HostAddr, VecDeque<T>>,
    alloc: Global,
}

impl<T> Model for Queues<T> {
    ghost use Rattle.std.specs.Prelude.{List};
    ghost use Rattle.std.specs.Coded.{coded_list};
    ghost use Rattle.std.specs.FinMap as map;
    ghost use Rattle.interface.specs.Host.{host_cmp};
    ghost use Rattle.interface.specs.Codes.{coded_host};
    ghost use Rattle.leader1822.specs.Inside.Shown.{shown};

    ghost Value = { map.FinMap host_cmp (List T) };

    ghost coded = { map.code coded_host (coded_list T.code) };

    ghost view = { λ q. shown q.queues.entries };
}

impl<T: Drop> Queues<T> {
    /// Returns the queues in which nothing waits for any host.
    pub(crate) fn new(alloc: Global) -> Queues<T>
        ensures { result ≡ map.empty }
    {
        Queues {
            queues: BTreeMap::new(alloc),
            alloc,
        }
    }

    /// Returns how many wait for a host.
    pub(crate) fn count(&self, host: &HostAddr) -> usize
        ensures { result ≡ length (for_host self.now host.now) }
    {
        match self.queues.get(host) {
            Some(queue) => queue.len(),
            None => 0,
        }
    }

    /// Returns what is at a place of those that wait for a host, 0 being the oldest.
    pub(crate) fn at(&self, host: &HostAddr, place: usize) -> Option<&T>
        ensures { option_copied result ≡ slice_get (for_host self.now host.now) place }
    {
        match self.queues.get(host) {
            Some(queue) => queue.get(place),
            None => None,
        }
    }

    /// Proves that nothing changes if what waits for a host is put in its own place.
    ///
    /// It is there for the proof only, and does nothing: a caller that changes no queue learns this equation.
    pub(crate) fn stays(&self, host: &HostAddr)
        ensures { with_queue self.now host.now (for_host self.now host.now) ≡ self.now }
    {
        let _ = &self.queues;
        let _ = host;
    }

    /// Puts one more after what waits for a host.
    pub(crate) fn push(&mut self, host: HostAddr, item: T) -> Result<(), AllocError>
        ensures { OnOk result (self.new ≡ queued_for self.old host item) }
    {
        if let Some(queue) = self.queues.get_mut(&host) {
            queue.push_back(item)?;
            return Ok(());
        }
        let mut queue = VecDeque::new(self.alloc);
        queue.push_back(item)?;
        self.queues.insert(host, queue)?;
        Ok(())
    }

    /// Takes the oldest of what waits for a host.
    pub(crate) fn pop(&mut self, host: &HostAddr) -> Option<T>
        ensures oldest { result ≡ first_of_list (for_host self.old host.now) }
        ensures left { self.new ≡ with_queue self.old host.now (rest (for_host self.old host.now)) }
        ensures unchanged { result ≡ None → self.new ≡ self.old }
    {
        let Some(queue) = self.queues.get_mut(host) else {
            return None;
        };
        queue.pop_front()
    }

    /// Takes all that waits for a host, oldest first.
    pub(crate) fn take(&mut self, host: &HostAddr) -> Option<VecDeque<T>>
        ensures all { waiting_in result ≡ for_host self.old host.now }
        ensures left { self.new ≡ with_queue self.old host.now [] }
    {
        self.queues.remove(host)
    }
}

impl Queues<HostMessage> {
    /// Takes the one message of a flow out of its destination's queue.
    pub(crate) fn remove_message(&mut self, flow: &Flow)
        requires { length (filter (is_of flow.now) (for_host self.old flow.now.destination)) ≡ 1 }
        ensures { self.new ≡ with_queue self.old flow.now.destination (filter (λ m. not (is_of flow.now m)) (for_host self.old flow.now.destination)) }
    {
        let Some(queue) = self.queues.get_mut(&flow.destination) else {
            unreachable!();
        };
        remove_message(queue, flow);
    }
}

impl Queues<(Answer, Flow)> {
    /// Puts an answer after those that wait for the source of its flow.
    pub(crate) fn push_answer(&mut self, kind: Answer, flow: &Flow) -> Result<(), AllocError>
        ensures { OnOk result (self.new ≡ queued_for self.old flow.now.source (kind, flow.now)) }
    {
        self.push(flow.source, (kind, *flow))
    }

    /// Withdraws the one RFNM about a flow, and queues Incomplete for the flow's source, after the rest. The RFNM
    /// leaves room for it.
    pub(crate) fn replace_rfnm(&mut self, flow: &Flow)
        requires { length (filter (is_rfnm_about flow.now) (for_host self.old flow.now.source)) ≡ 1 }
        ensures { self.new ≡ with_queue self.old flow.now.source (filter (λ a. not (is_rfnm_about flow.now a)) (for_host self.old flow.now.source) ++ (answer.Incomplete, flow.now) ∷ []) }
    {
        let Some(queue) = self.queues.get_mut(&flow.source) else {
            unreachable!();
        };
        remove_rfnm(queue, flow);
        queue.push_back_reserved((Answer::Incomplete, *flow));
    }
}

/// Takes the one message of a flow out of a queue, which is looked through from both ends at once.
fn remove_message(queue: &mut VecDeque<HostMessage>, flow: &Flow)
    requires { length (filter (is_of flow.now) queue.old.items) ≡ 1 }
    ensures { queue.new.items ≡ filter (λ m. not (is_of flow.now m)) queue.old.items }
{
    let mut place = queue.len();
    'places: while place > 0 {
        place -= 1;
        if *flow == queue[place].flow {
            queue.remove(place);
            return;
        }
        let oldest = queue.len() - 1 - place;
        if *flow == queue[oldest].flow {
            queue.remove(oldest);
            return;
        }
    }
}

/// Takes the one RFNM about a flow out of a queue, which is looked through from both ends at once.
fn remove_rfnm(queue: &mut VecDeque<(Answer, Flow)>, flow: &Flow)
    requires { length (filter (is_rfnm_about flow.now) queue.old.items) ≡ 1 }
    ensures left { queue.new.items ≡ filter (λ a. not (is_rfnm_about flow.now a)) queue.old.items }
    ensures room { deque_len queue.new < deque_capacity queue.new }
{
    let mut place = queue.len();
    'places: while place > 0 {
        place -= 1;
        let (kind, about) = queue[place];
        if *flow == about && kind == Answer::Rfnm {
            queue.remove(place);
            return;
        }
        let oldest = queue.len() - 1 - place;
        let (kind, about) = queue[oldest];
        if *flow == about && kind == Answer::Rfnm {
            queue.remove(oldest);
            return;
        }
    }
}
