//! The data of each flow's messages, joined.

ghost use Rattle.std.specs.Prelude.{◌≡◌, ◌+◌, ◌<◌, [], Bool, IfOk, List, MatchBool, OnOk, Some, drop, length};
ghost use Rattle.std.specs.Prelude.{option_copied, take};
ghost use Rattle.interface.specs.declared.address.Flow.{Flow};
ghost use Rattle.interface.specs.declared.crossing.Crossing.{Crossing};
ghost use Rattle.book_judge.specs.Inside.Joined as tests;
ghost use Rattle.book_judge.specs.Inside.Joined.{AreJoined, Grows, HasNumber, IsFirst, IsFirstFrom, IsStream, PlaceOf, marked, texts_by};

use crate::bits::is_slice;
use crate::data::end_of;
use crate::flow_map::FlowMap;
use bit_messages::Bits;
use interface::{Crossing as Passage, Flow as MessageFlow, HostMessage};
use ncp_control::HEADER_BITS;
use net_sim::BitLog;
use std::alloc::{AllocError, Global};

/// One message of a flow.
#[derive(Clone, Copy, Drop)]
pub(crate) struct Piece {
    /// Where it crossed.
    place: usize,
    /// How many bits of data the flow's messages before it have.
    before: usize,
    /// How many of those have no data, since their headers can't be read.
    unread: usize,
}

/// All messages of a flow, the oldest first, and their data, one after the other.
#[derive(Drop)]
pub(crate) struct Stream {
    pieces: Vec<Piece>,
    bits: Bits,
    /// Where those crossed that have no data.
    unread: Vec<usize>,
}

/// The messages that came in, or those that went out, by their flows.
#[derive(Drop)]
pub(crate) struct Joined {
    numbers: FlowMap<usize>,
    streams: Vec<Stream>,
}

/// Returns how many of a flow's messages crossed before a place.
fn first_from(pieces: &[Piece], since: usize) -> usize
    ensures { IsFirstFrom pieces.now since result }
{
    pieces.partition_point(|piece| piece.place < since)
}

impl Stream {
    /// Returns the stream of a flow on which nothing has crossed.
    fn new(alloc: Global) -> Stream
        ensures { (comes : Bool) (f : Flow) → IsStream comes f [] result }
    {
        Stream {
            pieces: Vec::new(alloc),
            bits: Bits::new(alloc),
            unread: Vec::new(alloc),
        }
    }

    /// Puts the data of a text at the end, that crossed at this place.
    ///
    /// Errors: `AllocError`.
    fn append(
        &mut self,
        alloc: Global,
        comes: bool,
        place: usize,
        text: &Bits,
    ) -> Result<(), AllocError>
        ensures { OnOk result (Grows comes place text.now self.old self.new) }
    {
        self.pieces.push(Piece {
            place,
            before: self.bits.len(),
            unread: self.unread.len(),
        })?;
        let Some(end) = end_of(comes, text) else {
            self.unread.push(place)?;
            return Ok(());
        };
        let Ok(data) = text.slice(alloc, HEADER_BITS.min(end), end) else {
            return Err(AllocError);
        };
        let Ok(()) = self.bits.append(&data) else {
            return Err(AllocError);
        };
        Ok(())
    }

    /// Returns how many bits the first messages have, as many as this, and how many of these messages have none.
    fn before(&self, count: usize) -> (usize, usize)
        ensures { (comes : Bool) (f : Flow) (log : List Crossing) → IsStream comes f log self.now → result ≡ marked comes (take count (texts_by comes f log)) }
    {
        match self.pieces.get(count) {
            Some(piece) => (piece.before, piece.unread),
            None => (self.bits.len(), self.unread.len()),
        }
    }

    /// Returns whether the data of the first messages from a place on, as many as this, are these bits.
    fn has(&self, since: usize, count: u128, bits: &BitLog) -> bool
        ensures { (comes : Bool) (f : Flow) (log : List Crossing) → IsStream comes f log self.now → MatchBool result (IsFirst comes f log since count bits.now) (IsFirst comes f log since count bits.now → ⊥) }
    {
        let first = first_from(&self.pieces, since);
        let left = self.pieces.len() - first;
        let Ok(count) = usize::try_from(count) else {
            return false;
        };
        if count > left {
            return false;
        }
        let (from, unread) = self.before(first);
        let (to, unread_to) = self.before(first + count);
        unread == unread_to && is_slice(bits, &self.bits, from, to)
    }

    /// Returns where the message with a number crossed.
    fn place(&self, number: usize) -> Option<usize>
        ensures { (comes : Bool) (f : Flow) (log : List Crossing) → IsStream comes f log self.now → PlaceOf comes f log number result }
    {
        match self.pieces.get(number) {
            Some(piece) => Some(piece.place),
            None => None,
        }
    }

    /// Returns how many messages crossed before a place and not before another.
    fn between(&self, since: usize, until: usize) -> usize
        ensures { (comes : Bool) (f : Flow) (log : List Crossing) → IsStream comes f log self.now → result ≡ length (texts_by comes f (drop since (take until log))) }
    {
        let first = first_from(&self.pieces, since);
        let last = first_from(&self.pieces, until);
        if last < first {
            return 0;
        }
        last - first
    }
}

/// Returns the message that came in, or that went out, by a crossing.
pub(crate) fn message_of(comes: bool, crossing: &Passage) -> Option<&HostMessage>
    ensures { option_copied result ≡ tests.message_of comes crossing.now }
{
    match crossing {
        Passage::In(message) if comes => Some(message),
        Passage::Out(message) if !comes => Some(message),
        _ => None,
    }
}

impl Joined {
    /// Returns the streams before anything has crossed.
    fn new(alloc: Global) -> Joined
        ensures { (comes : Bool) → AreJoined comes [] result }
    {
        Joined {
            numbers: FlowMap::new(alloc),
            streams: Vec::new(alloc),
        }
    }

    /// Returns the number of a flow's stream. A flow that has none gets one.
    ///
    /// Errors: `AllocError`.
    fn number(&mut self, alloc: Global, flow: MessageFlow) -> Result<usize, AllocError>
        ensures { IfOk result (λ number. HasNumber number flow self.old self.new) }
    {
        if let Some(number) = self.numbers.get(&flow) {
            return Ok(number);
        }
        let number = self.streams.len();
        self.streams.push(Stream::new(alloc))?;
        self.numbers.set(flow, number)?;
        Ok(number)
    }

    /// Adds the message that crossed at a place, if one did, coming in or going out.
    ///
    /// Errors: `AllocError`.
    fn add(
        &mut self,
        alloc: Global,
        comes: bool,
        log: &[Passage],
        place: usize,
    ) -> Result<(), AllocError>
        requires place { place < length log.now }
        requires joined { AreJoined comes (take place log.now) self.old }
        ensures { OnOk result (AreJoined comes (take (place + 1) log.now) self.new) }
    {
        let Some(message) = message_of(comes, &log[place]) else {
            return Ok(());
        };
        let number = self.number(alloc, message.flow)?;
        self.streams[number].append(alloc, comes, place, message.text.bits())
    }

    /// Returns whether the data of the first messages of a flow from a place on, as many as this, are these bits.
    pub(crate) fn has(&self, flow: &MessageFlow, since: usize, count: u128, bits: &BitLog) -> bool
        ensures { (comes : Bool) (log : List Crossing) → AreJoined comes log self.now → MatchBool result (IsFirst comes flow.now log since count bits.now) (IsFirst comes flow.now log since count bits.now → ⊥) }
    {
        match self.numbers.get(flow) {
            Some(number) => match self.streams.get(number) {
                Some(stream) => stream.has(since, count, bits),
                None => false,
            },
            None => count == 0 && bits.len() == 0,
        }
    }

    /// Returns where the message of a flow with a number crossed.
    pub(crate) fn place(&self, flow: &MessageFlow, number: usize) -> Option<usize>
        ensures { (comes : Bool) (log : List Crossing) → AreJoined comes log self.now → PlaceOf comes flow.now log number result }
    {
        match self.numbers.get(flow) {
            Some(found) => match self.streams.get(found) {
                Some(stream) => stream.place(number),
                None => None,
            },
            None => None,
        }
    }

    /// Returns how many messages of a flow crossed before a place and not before another.
    pub(crate) fn between(&self, flow: &MessageFlow, since: usize, until: usize) -> usize
        ensures { (comes : Bool) (log : List Crossing) → AreJoined comes log self.now → result ≡ length (texts_by comes flow.now (drop since (take until log))) }
    {
        match self.numbers.get(flow) {
            Some(number) => match self.streams.get(number) {
                Some(stream) => stream.between(since, until),
                None => 0,
            },
            None => 0,
        }
    }
}

/// Returns the data of all messages of a log that came in, or that went out.
///
/// Errors: `AllocError`.
pub(crate) fn join_data(alloc: Global, log: &[Passage], comes: bool) -> Result<Joined, AllocError>
    ensures { IfOk result (λ joined. AreJoined comes log.now joined) }
{
    let mut joined = Joined::new(alloc);
    for place in 0..log.len() {
        joined.add(alloc, comes, log, place)?;
    }
    Ok(joined)
}
