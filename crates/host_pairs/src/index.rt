//! Where the end of two sockets is among the ends of a pair of hosts.

ghost use Rattle.std.specs.Prelude.{◌≡◌, ◌++◌, ◌∷◌, ◌<◌, [], ℕ, List, Bool, filter, length, nat_lt, true, false, slice_index_or};
ghost use Rattle.std.specs.Bool.{OnTrue};
ghost use Rattle.std.specs.List.{remove};
ghost use Rattle.std.specs.List.Sorted.{IsPartitionPoint};
ghost use Rattle.host_pairs.specs.Entries.{is_at};
ghost use Rattle.host_pairs.specs.Inside.Held.{is_where};
ghost use Rattle.host_pairs.specs.Inside.Index.{AreBelow, AreIndexed, AreInOrder, AreKept, end_key, key_of};
ghost use Rattle.host_pairs.specs.declared.entry.Entry.{Entry};

use crate::entry::Entry;
use crate::held::Few;
use std::alloc::Global;
use std::collections::{BTreeMap, VecDeque};

/// From how many ends on those that aren't in order have an index.
const MANY: usize = 32;

/// The ends of a pair by their sockets.
///
/// Each end has a number, greater than those of the ends before it. So an end keeps its number when others go, and its place is
/// found by that number.
#[derive(Drop)]
pub(crate) struct Index {
    numbers: VecDeque<usize>,
    by_sockets: BTreeMap<u64, usize>,
    next: usize,
}

/// Returns two sockets as one number.
fn key_of(own: u32, foreign: u32) -> u64
    ensures { result ≡ key_of own foreign }
{
    u64::from(own) * 4_294_967_296 + u64::from(foreign)
}

impl Index {
    /// Returns the index of no ends.
    fn new(alloc: Global) -> Index
        ensures { AreIndexed result [] }
    {
        Index {
            numbers: VecDeque::new(alloc),
            by_sockets: BTreeMap::new(alloc),
            next: 0,
        }
    }

    /// Returns where the end of two sockets is.
    #[tactic(auto, using(crate::proofs::IndexLemmas::nowhere, crate::proofs::IndexLemmas::only_there))]
    fn find(&self, own: u32, foreign: u32) -> Few
        ensures { (es : List Entry) → AreIndexed self.now es → is_where (is_at own foreign) result es ≡ true }
    {
        let Some(number) = self.by_sockets.get(&key_of(own, foreign)) else {
            return Few::Nowhere;
        };
        let at = self.likely_place(*number);
        if self.has_at(at, *number) {
            return Few::At(at);
        }
        match self.numbers.binary_search(number) {
            Ok(at) => Few::At(at),
            Err(_) => Few::Anywhere,
        }
    }

    /// Returns the place of the end with a number, if no end between it and the first one has gone.
    fn likely_place(&self, number: usize) -> usize {
        match self.numbers.front() {
            Some(first) => number.saturating_sub(*first),
            None => 0,
        }
    }

    /// Returns whether the end at a place has a number.
    fn has_at(&self, at: usize, number: usize) -> bool
        ensures { OnTrue result ((at < length self.now.numbers.items) × ((d : ℕ) → slice_index_or self.now.numbers.items at d ≡ number)) }
    {
        if at >= self.numbers.len() {
            return false;
        }
        self.numbers[at] == number
    }

    /// Adds an end after the others. Returns whether that could be done: memory was there, and the index has no other end of
    /// the two sockets.
    fn add(&mut self, own: u32, foreign: u32) -> bool
        ensures { OnTrue result ((es : List Entry) (e : Entry) → e.own ≡ own → e.foreign ≡ foreign → AreIndexed self.old es → AreIndexed self.new (es ++ e ∷ [])) }
    {
        let number = self.next;
        let Some(next) = number.checked_add(1) else {
            return false;
        };
        let Ok(None) = self.by_sockets.insert(key_of(own, foreign), number) else {
            return false;
        };
        let Ok(()) = self.numbers.push_back(number) else {
            return false;
        };
        self.next = next;
        true
    }

    /// Removes the end at a place, which has these sockets.
    fn remove(&mut self, at: usize, own: u32, foreign: u32)
        ensures { (es : List Entry) (e : Entry) → at < length es → e ≡ slice_index_or es at e → e.own ≡ own → e.foreign ≡ foreign → AreIndexed self.old es → AreIndexed self.new (remove es at) }
    {
        let _ = self.by_sockets.remove(&key_of(own, foreign));
        let _ = self.numbers.remove(at);
    }
}

// ---- ends in order of their sockets

impl Entry {
    /// Returns its two sockets as one number.
    fn key(&self) -> u64
        ensures { result ≡ end_key self.now }
    {
        key_of(self.own, self.foreign)
    }
}

/// Returns whether all these ends, which are in order, come before that of two sockets. Only the last one is looked at.
fn are_before(ends: &[Entry], own: u32, foreign: u32) -> bool
    requires { AreInOrder ends.now }
    ensures { OnTrue result (AreBelow (key_of own foreign) ends.now) }
{
    if ends.is_empty() {
        return true;
    }
    let last = &ends[ends.len() - 1];
    last.key() < key_of(own, foreign)
}

/// Returns whether the end at a place is that of two sockets.
fn is_there(ends: &[Entry], at: usize, own: u32, foreign: u32) -> bool
    ensures { OnTrue result ((at < length ends.now) × ((d : Entry) → is_at own foreign (slice_index_or ends.now at d) ≡ true)) }
{
    if at >= ends.len() {
        return false;
    }
    let end = &ends[at];
    end.is_at(own, foreign)
}

/// Returns how many of these ends, which are in order, come before that of two sockets.
fn count_before(ends: &[Entry], own: u32, foreign: u32) -> usize
    requires { AreInOrder ends.now }
    ensures { IsPartitionPoint (λ e. nat_lt (end_key e) (key_of own foreign) ≡ true) (λ e. nat_lt (end_key e) (key_of own foreign) ≡ false) ends.now result }
{
    let key = key_of(own, foreign);
    ends.partition_point(|e| e.key() < key)
}

/// Returns where the end of two sockets is among ends in order. It is looked for at this place first, then at the next one.
#[tactic(auto, using(crate::proofs::OrderLemmas::none_before, crate::proofs::OrderLemmas::only_that, crate::proofs::OrderLemmas::parted))]
fn find_in_order(ends: &[Entry], near: usize, own: u32, foreign: u32) -> Few
    requires { AreInOrder ends.now }
    ensures { is_where (is_at own foreign) result ends.now ≡ true }
{
    if is_there(ends, near, own, foreign) {
        return Few::At(near);
    }
    let next = near.saturating_add(1);
    if is_there(ends, next, own, foreign) {
        return Few::At(next);
    }
    if are_before(ends, own, foreign) {
        return Few::Nowhere;
    }
    Few::At(count_before(ends, own, foreign))
}

// ---- what is known of the ends of a pair

/// What is known of the places of a pair's ends.
#[derive(Drop)]
pub(crate) enum Places {
    /// Nothing.
    Unknown,
    /// They are in order of their sockets.
    InOrder,
    /// They have an index.
    Indexed(Box<Index>),
}

impl Places {
    /// Returns where the end of two sockets is. In ends that are in order it is looked for near a place first.
    pub(crate) fn find(&self, ends: &[Entry], near: usize, own: u32, foreign: u32) -> Few
        requires { AreKept self.now ends.now }
        ensures { is_where (is_at own foreign) result ends.now ≡ true }
    {
        match self {
            Places::Unknown => Few::Anywhere,
            Places::InOrder => find_in_order(ends, near, own, foreign),
            Places::Indexed(index) => index.find(own, foreign),
        }
    }

    /// Returns whether these ends are in order with one more after them. They are where it is the only one.
    pub(crate) fn stay_in_order(&self, ends: &[Entry], end: &Entry) -> bool
        requires { AreKept self.now ends.now }
        ensures { OnTrue result (AreInOrder (ends.now ++ end.now ∷ [])) }
    {
        match self {
            Places::InOrder => are_before(ends, end.own, end.foreign),
            Places::Unknown | Places::Indexed(_) => ends.is_empty(),
        }
    }
}

/// Adds an end after the others to their index, if there is one. Ends of which two have the same sockets are left without an
/// index.
fn add_to_index(places: &mut Places, own: u32, foreign: u32)
    ensures { (es : List Entry) (e : Entry) → e.own ≡ own → e.foreign ≡ foreign → AreKept places.old es → AreKept places.new (es ++ e ∷ []) }
{
    let is_added = match places {
        Places::Indexed(index) => index.add(own, foreign),
        Places::InOrder | Places::Unknown => false,
    };
    if !is_added {
        *places = Places::Unknown;
    }
}

/// Adds an end after the others, and returns whether they were in order before, and aren't any more.
pub(crate) fn add_to(places: &mut Places, stay_in_order: bool, own: u32, foreign: u32) -> bool
    ensures { (es : List Entry) (e : Entry) → e.own ≡ own → e.foreign ≡ foreign → OnTrue stay_in_order (AreInOrder (es ++ e ∷ [])) → AreKept places.old es → AreKept places.new (es ++ e ∷ []) }
{
    if stay_in_order {
        *places = Places::InOrder;
        return false;
    }
    let were_in_order = matches!(places, Places::InOrder);
    add_to_index(places, own, foreign);
    were_in_order
}

/// Removes the end at a place, which has these sockets. Once there are none, there is no index either.
#[tactic(auto, using(crate::proofs::OrderLemmas::order_removed))]
pub(crate) fn remove_from(places: &mut Places, at: usize, own: u32, foreign: u32)
    ensures { (es : List Entry) (e : Entry) → at < length es → e ≡ slice_index_or es at e → e.own ≡ own → e.foreign ≡ foreign → AreKept places.old es → AreKept places.new (remove es at) }
{
    let is_empty = match places {
        Places::Indexed(index) => {
            index.remove(at, own, foreign);
            index.numbers.is_empty()
        }
        Places::InOrder | Places::Unknown => return,
    };
    if is_empty {
        *places = Places::Unknown;
    }
}

/// Forgets the index, if there is one, since some of the ends have gone. Those that are left are still in order.
#[tactic(auto, using(crate::proofs::OrderLemmas::order_left))]
pub(crate) fn thin_out(places: &mut Places)
    ensures { (stays : Entry → Bool) (es : List Entry) → AreKept places.old es → AreKept places.new (filter stays es) }
{
    match places {
        Places::Indexed(_) => *places = Places::Unknown,
        Places::InOrder | Places::Unknown => {}
    }
}

/// Returns the index of these ends, if no two of them have the same sockets.
fn index_of(alloc: Global, ends: &[Entry]) -> Places
    ensures { AreKept result ends.now }
{
    let mut index = Index::new(alloc);
    for end in ends {
        if !index.add(end.own, end.foreign) {
            return Places::Unknown;
        }
    }
    let Ok(index) = Box::new(alloc, index) else {
        return Places::Unknown;
    };
    Places::Indexed(index)
}

/// Makes an index of ends of whose places nothing is known, where they are many: at 32 of them, at twice as many each time,
/// and at once where it is wanted.
pub(crate) fn learn(places: &mut Places, alloc: Global, ends: &[Entry], is_wanted: bool)
    requires { AreKept places.old ends.now }
    ensures { AreKept places.new ends.now }
{
    let count = ends.len();
    if matches!(places, Places::Unknown)
        && count >= MANY
        && (is_wanted || count.is_power_of_two())
    {
        *places = index_of(alloc, ends);
    }
}
