//! Elementary events, and where they come from.

use script::RawEvent;

/// An elementary event: an event of a script that is no calm, or a part of a calm.
#[derive(Debug, Drop)]
pub struct Element {
    /// The round of the calm in which it happens, counted from 1; 0 in no calm.
    pub round: u32,
    /// The event, which is one call of the carrier.
    pub event: RawEvent,
}

/// Where in a script an event is.
#[derive(Clone, Copy, Debug)]
pub struct Spot {
    /// The number of its line, counted from 1.
    pub line: usize,
    /// Its number among the events, counted from 1.
    pub number: usize,
}
