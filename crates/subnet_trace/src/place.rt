//! Where a calm of a subnet has come to.

use interface::Direction;

/// A place in a calm of a subnet, between two of its elementary events.
#[derive(Clone, Copy, Debug)]
pub struct Place {
    /// The round, counted from 1; 0 before the first one.
    pub round: u32,
    /// How many rounds the calm has.
    pub rounds: u32,
    /// Where in the round.
    pub stage: Stage,
}

/// What comes next in a round of a calm.
#[derive(Clone, Copy, Debug)]
pub enum Stage {
    /// An IMP sends its distances and sends again, and then those after it do.
    Refreshing {
        /// The number of the IMP.
        imp: u8,
        /// Whether it has sent its distances.
        told: bool,
    },
    /// The frames of a line are delivered and dropped, the oldest first, and then those of the lines after it.
    Carrying {
        /// The line's number, from 0.
        line: u32,
        /// Which way the frames go.
        direction: Direction,
        /// How many frames are left of those that were live when this turn began, without the one that was delivered.
        frames: usize,
        /// Whether the oldest frame has been delivered, and is dropped next.
        delivered: bool,
    },
    /// A host takes, and then those after it do.
    Taking {
        /// The place of the host among those of the network.
        host: usize,
        /// How often it may still take in this round.
        times: u8,
    },
    /// The round is over.
    Over,
}
