//! The ends of a pair's connections, with what is remembered of them so that few are looked at.

ghost use Rattle.std.specs.Prelude.{◌≡◌, ◌++◌, ◌∷◌, ◌<◌, [], ℕ, List, Bool, true, false, not, IfOk, OnOk, OnErr, length, drop, take, filter, map};
ghost use Rattle.std.specs.Prelude.{MatchOption, None, Some, position, slice_set, slice_index_or};
ghost use Rattle.std.specs.Bool.{OnTrue};
ghost use Rattle.std.specs.List.{flat_map, list_any, remove};
ghost use Rattle.host_pairs.specs.Asked.{with_more_bits};
ghost use Rattle.host_pairs.specs.Commands.{asked_on_link, asked_with_size, granted, given_back, returned};
ghost use Rattle.host_pairs.specs.Data.{spent};
ghost use Rattle.host_pairs.specs.Entries.{called_off, changed_at, changed_first, closed_by_partner, closed_when, cls_of, ending};
ghost use Rattle.host_pairs.specs.Entries.{entry_at, is_at, is_due, is_mine_on, is_over, must_close, receives_on, sends_on};
ghost use Rattle.host_pairs.specs.Inside.Clauses.{IsFoundAt};
ghost use Rattle.host_pairs.specs.Inside.Index.{AreInOrder};
ghost use Rattle.host_pairs.specs.Inside.Held.{AreHeld, has_bits, is_where, none_but, waits};
ghost use Rattle.host_pairs.specs.Outgoing.{end_at};
ghost use Rattle.host_pairs.specs.Parcels as parcels;
ghost use Rattle.host_pairs.specs.Parcels.{asked_at, cls_sent};
ghost use Rattle.host_pairs.specs.declared.entry.Entry.{Entry};

use crate::Notice;
use crate::ends::{
    close, has_closing, has_due, own_place, place, queue_closings, receiver_place, sender_place,
    sweep, tell_endings,
};
use crate::entry::{Closing, Entry};
use crate::index::{Places, add_to, learn, remove_from, thin_out};
use crate::outgoing::lowest_link;
use crate::queue::Queue;
use bit_messages::Bits;
use interface::HostAddr;
use ncp_control::{ByteSize, ConnectionLink};
use std::alloc::{AllocError, Global};
use std::marker::Model;

/// Where the ends are that have a mark.
#[derive(Clone, Copy, Debug, PartialEq, Eq)]
pub(crate) enum Few {
    /// No end has it.
    Nowhere,
    /// No end has it, but perhaps the one at this place.
    At(usize),
    /// Any end may have it.
    Anywhere,
}

impl Few {
    /// Returns where they are once the end at a place has changed.
    #[tactic(auto, using(crate::proofs::HeldLemmas::one_set, crate::proofs::HeldLemmas::same_set))]
    fn noted(self, at: usize) -> Few
        ensures { (mark : Entry → Bool) (es : List Entry) (y : Entry) → is_where mark self es ≡ true → is_where mark result (slice_set es at y) ≡ true }
    {
        match self {
            Few::Nowhere => Few::At(at),
            Few::At(other) if other == at => self,
            _ => Few::Anywhere,
        }
    }

    /// Returns where they are once an end has joined the others at a place after them.
    #[tactic(auto, using(crate::proofs::HeldLemmas::one_more, crate::proofs::HeldLemmas::none_more, crate::proofs::HeldLemmas::same_more))]
    fn joined(self, at: usize, has: bool) -> Few
        ensures { (mark : Entry → Bool) (es : List Entry) (e : Entry) → length es ≡ at → mark e ≡ has → is_where mark self es ≡ true → is_where mark result (es ++ e ∷ []) ≡ true }
    {
        match self {
            Few::Nowhere if has => Few::At(at),
            Few::At(_) if has => Few::Anywhere,
            other => other,
        }
    }

    /// Returns where they are once the end at a place has gone.
    #[tactic(auto, using(crate::proofs::HeldLemmas::none_removed, crate::proofs::HeldLemmas::same_removed, crate::proofs::HeldLemmas::earlier_removed, crate::proofs::HeldLemmas::later_removed))]
    fn without(self, at: usize) -> Few
        ensures { (mark : Entry → Bool) (es : List Entry) → is_where mark self es ≡ true → is_where mark result (remove es at) ≡ true }
    {
        match self {
            Few::At(other) if other > at => Few::At(other - 1),
            Few::At(other) if other == at => Few::Nowhere,
            other => other,
        }
    }

    /// Returns where they are once some of the ends have gone.
    #[tactic(auto, using(crate::proofs::HeldLemmas::none_left))]
    fn left(self) -> Few
        ensures { (mark stays : Entry → Bool) (es : List Entry) → is_where mark self es ≡ true → is_where mark result (filter stays es) ≡ true }
    {
        match self {
            Few::Nowhere => Few::Nowhere,
            _ => Few::Anywhere,
        }
    }

    /// Returns the ends among which those are that have the mark.
    fn among<'a>(self, ends: &'a [Entry]) -> &'a [Entry]
        ensures some { (one mark : Entry → Bool) → ((e : Entry) → mark e ≡ false → one e ≡ false) → is_where mark self ends.now ≡ true → list_any one result.now ≡ list_any one ends.now }
        ensures passed { (one mark : Entry → Bool) → ((e : Entry) → mark e ≡ false → one e ≡ false) → is_where mark self ends.now ≡ true → filter one result.now ≡ filter one ends.now }
    {
        match self {
            Few::Nowhere => &[],
            Few::At(at) if at < ends.len() => &ends[at..at + 1],
            _ => ends,
        }
    }
}

/// The ends of a pair's connections, the oldest first.
///
/// Those that have gone are before the others until they are more than half, and go all at once then. Beside them it
/// is remembered where an end waits to close, where one is over, and where bits wait to be sent, and many ends have an
/// index by their sockets, where they aren't in order of them. So the first end goes at once, and one that closes is found
/// at once, however many there are. Ends mostly have their turns in order, so one is looked for where the last one was.
#[derive(Drop)]
pub struct Ends {
    ends: Vec<Entry>,
    gone: usize,
    alloc: Global,
    places: Places,
    recent: usize,
    due: Few,
    over: Few,
    bits: Few,
}

impl Model for Ends {
    ghost use Rattle.std.specs.Prelude.{List, drop};
    ghost use Rattle.host_pairs.specs.declared.entry.Entry.{Entry};
    ghost use Rattle.host_pairs.specs.Inside.Held.{AreHeld};

    ghost Value = { List Entry };

    ghost view = { λ a. drop a.gone a.ends.items };

    ghost invariant = { λ a. AreHeld a.gone a.places a.due a.over a.bits a.ends.items };
}

impl Ends {
    /// Returns no ends.
    pub(crate) fn new(alloc: Global) -> Ends
        ensures { result ≡ [] }
    {
        Ends {
            ends: Vec::new(alloc),
            gone: 0,
            alloc,
            places: Places::InOrder,
            recent: 0,
            due: Few::Nowhere,
            over: Few::Nowhere,
            bits: Few::Nowhere,
        }
    }

    /// Returns the ends, the oldest first.
    pub fn as_slice(&self) -> &[Entry]
        ensures { result.now ≡ self.now }
    {
        &self.ends[self.gone..]
    }

    /// Adds an end after the others.
    pub(crate) fn push(&mut self, end: Entry) -> Result<(), AllocError>
        ensures { OnOk result (self.new ≡ self.old ++ end ∷ []) }
    {
        let at = self.ends.len() - self.gone;
        let (own, foreign) = (end.own, end.foreign);
        let (due, over, bits) = (
            end.closing == Closing::Due,
            end.is_over(),
            !end.bits.is_empty(),
        );
        let stay_in_order = self.stay_in_order(&end);
        self.ends.push(end)?;
        self.due = self.due.joined(at, due);
        self.over = self.over.joined(at, over);
        self.bits = self.bits.joined(at, bits);
        let is_wanted = add_to(&mut self.places, stay_in_order, own, foreign);
        self.learn(is_wanted);
        Ok(())
    }

    /// Returns whether the ends are in order of their sockets with one more after them.
    fn stay_in_order(&self, end: &Entry) -> bool
        ensures { OnTrue result (AreInOrder (self.now ++ end.now ∷ [])) }
    {
        self.places.stay_in_order(&self.ends[self.gone..], end)
    }

    /// Makes an index of the ends where they have become many, or where it is wanted at once.
    fn learn(&mut self, is_wanted: bool)
        ensures { self.new ≡ self.old }
    {
        learn(
            &mut self.places,
            self.alloc,
            &self.ends[self.gone..],
            is_wanted,
        );
    }
}

// ---- found

/// Returns whether the first of these ends is that of two sockets. Requests are answered in their order, so often it is.
fn is_first(ends: &[Entry], own: u32, foreign: u32) -> bool
    ensures { OnTrue result (position (is_at own foreign) ends.now ≡ Some 0) }
{
    if ends.is_empty() {
        return false;
    }
    let end = &ends[0];
    end.is_at(own, foreign)
}

/// Returns the place of the end of two sockets, which is looked for where it may be.
fn first_among(ends: &[Entry], few: Few, own: u32, foreign: u32) -> Option<usize>
    requires { is_where (is_at own foreign) few ends.now ≡ true }
    ensures { result ≡ position (is_at own foreign) ends.now }
{
    match few {
        Few::Nowhere => None,
        Few::At(at) if at < ends.len() => place_there(ends, at, own, foreign),
        _ => place(ends, own, foreign),
    }
}

/// Returns a place, if the end there is at two sockets. No other end is.
fn place_there(ends: &[Entry], at: usize, own: u32, foreign: u32) -> Option<usize>
    requires there { at < length ends.now }
    requires only { none_but (is_at own foreign) at ends.now ≡ true }
    ensures { result ≡ position (is_at own foreign) ends.now }
{
    let end = &ends[at];
    if end.is_at(own, foreign) {
        Some(at)
    } else {
        None
    }
}

impl Ends {
    /// Returns the place of the end of two sockets.
    pub(crate) fn place(&self, own: u32, foreign: u32) -> Option<usize>
        ensures place { result ≡ position (is_at own foreign) self.now }
        ensures found { IsFoundAt (is_at own foreign) self.now result }
    {
        self.first_place(own, foreign)
    }

    /// Returns the same place, without what is found there.
    fn first_place(&self, own: u32, foreign: u32) -> Option<usize>
        ensures { result ≡ position (is_at own foreign) self.now }
    {
        let ends = self.as_slice();
        if is_first(ends, own, foreign) {
            return Some(0);
        }
        let few = self.places.find(ends, self.recent, own, foreign);
        first_among(ends, few, own, foreign)
    }
}

// ---- changed

impl Ends {
    /// Records the peer's request for a sending end, and the link that it names.
    pub(crate) fn ask_on_link(&mut self, own: u32, foreign: u32, stamp: usize, link: ConnectionLink)
        ensures { self.new ≡ changed_at own foreign (asked_on_link stamp link) self.old }
    {
        if let Some(at) = self.place(own, foreign) {
            self.recent = at;
            let end = &mut self.ends[self.gone + at];
            end.partner = Some(stamp);
            end.link = Some(link);
        }
    }

    /// Records the peer's request for a receiving end, and the byte size that it names.
    pub(crate) fn ask_with_size(&mut self, own: u32, foreign: u32, stamp: usize, size: ByteSize)
        ensures { self.new ≡ changed_at own foreign (asked_with_size stamp size) self.old }
    {
        if let Some(at) = self.place(own, foreign) {
            self.recent = at;
            let end = &mut self.ends[self.gone + at];
            end.partner = Some(stamp);
            end.size = Some(size);
        }
    }

    /// Records that this host's request for an end has gone out.
    pub(crate) fn ask(&mut self, own: u32, foreign: u32, stamp: usize)
        ensures { self.new ≡ changed_at own foreign (asked_at stamp) self.old }
    {
        if let Some(at) = self.place(own, foreign) {
            self.recent = at;
            let end = &mut self.ends[self.gone + at];
            end.asked = Some(stamp);
        }
    }

    /// Records that this host's CLS for an end has gone out.
    pub(crate) fn send_cls(&mut self, own: u32, foreign: u32)
        ensures { self.new ≡ changed_at own foreign cls_sent self.old }
    {
        if let Some(at) = self.place(own, foreign) {
            self.recent = at;
            let over = self.over.noted(at);
            self.over = over;
            let end = &mut self.ends[self.gone + at];
            end.closing = Closing::Sent;
        }
    }

    /// Records the partner's CLS for an end.
    pub(crate) fn close_by_partner(&mut self, alloc: Global, own: u32, foreign: u32)
        ensures { self.new ≡ changed_at own foreign closed_by_partner self.old }
    {
        if let Some(at) = self.place(own, foreign) {
            self.recent = at;
            let due = self.due.noted(at);
            let over = self.over.noted(at);
            self.due = due;
            self.over = over;
            let end = &mut self.ends[self.gone + at];
            end.close_by_partner(alloc);
        }
    }

    /// Lets the sender on a link send more.
    pub(crate) fn grant(&mut self, link: u8, messages: u16, bits: u32)
        ensures { self.new ≡ changed_first (sends_on link) (granted messages bits) self.old }
    {
        if let Some(at) = sender_place(self.as_slice(), link) {
            let end = &mut self.ends[self.gone + at];
            end.allocation.grant(messages, bits);
        }
    }

    /// Gives parts of the allocation of the sender on a link back, in 128ths.
    pub(crate) fn give_back(&mut self, link: u8, messages: u8, bits: u8)
        ensures { self.new ≡ changed_first (sends_on link) (given_back messages bits) self.old }
    {
        if let Some(at) = sender_place(self.as_slice(), link) {
            let end = &mut self.ends[self.gone + at];
            let _ = end.allocation.give_back(messages, bits);
        }
    }

    /// Subtracts what was returned from the allocation of the receiver on a link.
    pub(crate) fn take_back(&mut self, link: u8, messages: u16, bits: u32)
        ensures { self.new ≡ changed_first (receives_on link) (returned messages bits) self.old }
    {
        if let Some(at) = receiver_place(self.as_slice(), link) {
            let end = &mut self.ends[self.gone + at];
            end.allocation.messages = end.allocation.messages.saturating_sub(messages);
            end.allocation.bits = end.allocation.bits.saturating_sub(bits);
        }
    }

    /// Subtracts a message with these bits from the allocation of the receiver on a link.
    pub(crate) fn spend(&mut self, link: u8, bits: u32)
        ensures { self.new ≡ changed_first (receives_on link) (spent bits) self.old }
    {
        if let Some(at) = receiver_place(self.as_slice(), link) {
            let end = &mut self.ends[self.gone + at];
            end.allocation.messages = end.allocation.messages.saturating_sub(1);
            end.allocation.bits = end.allocation.bits.saturating_sub(bits);
        }
    }

    /// Grants the sender to this host's own end on a socket more.
    pub(crate) fn grant_more(&mut self, socket: u32, messages: u16, bits: u32)
        ensures { self.new ≡ changed_first (is_mine_on socket) (granted messages bits) self.old }
    {
        if let Some(at) = own_place(self.as_slice(), socket) {
            let receiver = &mut self.ends[self.gone + at];
            receiver.allocation.grant(messages, bits);
        }
    }

    /// Marks this host's own end on a socket to be closed by its user.
    pub(crate) fn call_off(&mut self, socket: u32)
        ensures { self.new ≡ changed_first (is_mine_on socket) called_off self.old }
    {
        if let Some(at) = own_place(self.as_slice(), socket) {
            let due = self.due.noted(at);
            self.due = due;
            let end = &mut self.ends[self.gone + at];
            end.call_off();
        }
    }

    /// Queues bits to be sent from this host's own end on a socket.
    pub(crate) fn add_bits(&mut self, socket: u32, bits: &Bits) -> Result<(), AllocError>
        ensures state { OnOk result (self.new ≡ changed_first (is_mine_on socket) (with_more_bits bits.now) self.old) }
        ensures memory { OnErr result (0 < length bits.now) }
    {
        if let Some(at) = own_place(self.as_slice(), socket) {
            let waiting = self.bits.noted(at);
            self.bits = waiting;
            let end = &mut self.ends[self.gone + at];
            let Ok(()) = end.bits.append(bits) else {
                return Err(AllocError);
            };
        }
        Ok(())
    }
}

// ---- closing

/// Returns where the ends are that wait to close.
fn due_among(ends: &[Entry]) -> Few
    ensures { is_where waits result ends.now ≡ true }
{
    if has_due(ends) {
        Few::Anywhere
    } else {
        Few::Nowhere
    }
}

impl Ends {
    /// Returns whether an end is to be closed when what it has sent is answered.
    pub(crate) fn has_due(&self) -> bool
        ensures { result ≡ list_any (λ e. is_due e.closing) self.now }
    {
        has_due(self.due.among(self.as_slice()))
    }

    /// Returns whether an end has to close now.
    pub(crate) fn has_closing(&self, busy: &[u8]) -> bool
        ensures { result ≡ list_any (must_close busy.now) self.now }
    {
        has_closing(self.due.among(self.as_slice()), busy)
    }

    /// Queues the CLS of each end that has to close now, and closes it.
    pub(crate) fn settle(&mut self, busy: &[u8], queue: &mut Queue) -> Result<(), AllocError>
        ensures ends { OnOk result (self.new ≡ map (λ e. closed_when (must_close busy.now e) e) self.old) }
        ensures queue { OnOk result (queue.new ≡ queue.old ++ map cls_of (filter (must_close busy.now) self.old)) }
        ensures memory { OnErr result (length queue.old < length (queue.old ++ map cls_of (filter (must_close busy.now) self.old))) }
    {
        queue_closings(self.due.among(self.as_slice()), busy, queue)?;
        self.close(busy);
        Ok(())
    }

    /// Closes each end that has to close now.
    fn close(&mut self, busy: &[u8])
        ensures { self.new ≡ map (λ e. closed_when (must_close busy.now e) e) self.old }
    {
        match self.due {
            Few::Nowhere => {}
            Few::At(at) => self.close_at(at, busy),
            Few::Anywhere => self.close_each(busy),
        }
    }

    /// Closes the end at a place if it has to close now. No other waits to close.
    fn close_at(&mut self, at: usize, busy: &[u8])
        requires { none_but waits at self.old ≡ true }
        ensures { self.new ≡ map (λ e. closed_when (must_close busy.now e) e) self.old }
    {
        if at >= self.as_slice().len() {
            return self.close_each(busy);
        }
        let end = &self.ends[self.gone + at];
        if end.closing != Closing::Due {
            self.due = Few::Nowhere;
            return;
        }
        if end.must_close(busy) {
            let end = &mut self.ends[self.gone + at];
            end.closing = Closing::Queued;
            self.due = Few::Nowhere;
        }
    }

    /// Closes each end that has to close now, wherever it is.
    fn close_each(&mut self, busy: &[u8])
        ensures { self.new ≡ map (λ e. closed_when (must_close busy.now e) e) self.old }
    {
        self.ends.drain(..self.gone);
        self.gone = 0;
        close(&mut self.ends, busy);
        self.due = due_among(&self.ends);
    }

    /// Drops those that have gone.
    fn drop_gone(&mut self)
        ensures { self.new ≡ self.old }
    {
        self.ends.drain(..self.gone);
        self.gone = 0;
    }

    /// Removes each end that is over, and notifies the user of each that was this host's own.
    pub(crate) fn sweep(
        &mut self,
        peer: HostAddr,
        notices: &mut Vec<Notice>,
    ) -> Result<(), AllocError>
        ensures ends { OnOk result (self.new ≡ filter (λ e. not (is_over e)) self.old) }
        ensures notices { OnOk result (notices.new.items ≡ notices.old.items ++ flat_map (ending peer) (filter is_over self.old)) }
        ensures memory { OnErr result (length notices.old.items < length (notices.old.items ++ flat_map (ending peer) (filter is_over self.old))) }
    {
        tell_endings(self.over.among(self.as_slice()), peer, notices)?;
        match self.over {
            Few::Nowhere => {}
            Few::At(at) => self.sweep_at(at),
            Few::Anywhere => self.sweep_each(),
        }
        Ok(())
    }

    /// Removes the end at a place if it is over. No other is.
    fn sweep_at(&mut self, at: usize)
        requires { none_but is_over at self.old ≡ true }
        ensures { self.new ≡ filter (λ e. not (is_over e)) self.old }
    {
        if at >= self.as_slice().len() {
            return self.sweep_each();
        }
        let end = &self.ends[self.gone + at];
        if end.is_over() {
            self.remove(at);
        } else {
            self.over = Few::Nowhere;
        }
    }

    /// Removes each end that is over, wherever it is.
    fn sweep_each(&mut self)
        ensures { self.new ≡ filter (λ e. not (is_over e)) self.old }
    {
        self.ends.drain(..self.gone);
        self.gone = 0;
        sweep(&mut self.ends);
        thin_out(&mut self.places);
        let (due, bits) = (self.due.left(), self.bits.left());
        self.due = due;
        self.over = Few::Nowhere;
        self.bits = bits;
    }

    /// Removes the end at a place. The first one goes without moving the others.
    fn remove(&mut self, at: usize)
        requires { at < length self.old }
        ensures { self.new ≡ remove self.old at }
    {
        let (due, over) = (self.due.without(at), self.over.without(at));
        let bits = self.bits.without(at);
        let end = &self.ends[self.gone + at];
        let (own, foreign) = (end.own, end.foreign);
        remove_from(&mut self.places, at, own, foreign);
        self.due = due;
        self.over = over;
        self.bits = bits;
        if at == 0 {
            self.gone += 1;
            self.make_room();
        } else {
            drop(self.ends.remove(self.gone + at));
        }
    }

    /// Drops those that have gone, if they are more than half of all.
    fn make_room(&mut self)
        ensures { self.new ≡ self.old }
    {
        if self.gone > self.ends.len() / 2 {
            self.drop_gone();
        }
    }
}

// ---- sending

/// Returns whether bits wait on an end.
fn have_bits(ends: &[Entry]) -> bool
    ensures { result ≡ list_any has_bits ends.now }
{
    ends.iter().any(|e| !e.bits.is_empty())
}

impl Ends {
    /// Returns the lowest link of the ends that may send now.
    #[tactic(auto, using(crate::proofs::HeldLemmas::without_bits))]
    pub(crate) fn lowest_link(&self, busy: &[u8]) -> Option<u8>
        ensures { result ≡ parcels.lowest_link (filter (parcels.may_send busy.now) self.now) }
    {
        lowest_link(self.bits.among(self.as_slice()), busy)
    }

    /// Counts bits of the end at a place as gone out in a message. Returns them.
    pub(crate) fn send(&mut self, alloc: Global, at: usize, bits: u32) -> Result<Bits, AllocError>
        requires { at < length self.old }
        ensures sent { IfOk result (λ sent. sent ≡ take bits (end_at self.old at).bits) }
        ensures gone { OnOk result (self.new ≡ slice_set self.old at (parcels.bits_gone bits (end_at self.old at))) }
    {
        let end = &mut self.ends[self.gone + at];
        end.send(alloc, bits)
    }

    /// Looks where bits wait, after an end has sent some.
    pub(crate) fn look_again(&mut self)
        ensures { self.new ≡ self.old }
    {
        if !have_bits(self.bits.among(self.as_slice())) {
            self.bits = Few::Nowhere;
        }
    }
}
