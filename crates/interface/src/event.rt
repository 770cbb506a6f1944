//! What can happen inside a network, whatever its hosts do.

use crate::{Flow, HostAddr, ImpNumber};

/// A direction of a line: from its first IMP to its second, or back.
#[derive(Clone, Copy, Debug, PartialEq, Eq)]
pub enum Direction {
    /// From `a` to `b`.
    Forward,
    /// From `b` to `a`.
    Back,
}

/// An event inside a network. A carrier refuses what it has no part for.
#[derive(Clone, Copy, Debug, PartialEq, Eq)]
pub enum NetEvent {
    /// The frame at a place of a directed line, 0 being the oldest, arrives, and stays on the line.
    Deliver {
        /// The line's number, from 0.
        line: u32,
        /// Which way the frame goes.
        direction: Direction,
        /// The frame's place on the line, 0 being the oldest.
        frame: u32,
    },
    /// The frame at a place of a directed line is lost.
    Drop {
        /// The line's number, from 0.
        line: u32,
        /// Which way the frame goes.
        direction: Direction,
        /// The frame's place on the line, 0 being the oldest.
        frame: u32,
    },
    /// The frame at a place of a directed line arrives with a wrong checksum: its receiver refuses it, and it is lost.
    Garble {
        /// The line's number, from 0.
        line: u32,
        /// Which way the frame goes.
        direction: Direction,
        /// The frame's place on the line, 0 being the oldest.
        frame: u32,
    },
    /// An IMP sends again what is not acknowledged.
    Resend(ImpNumber),
    /// An IMP sends its neighbours its distances.
    Route(ImpNumber),
    /// An IMP claims from now on, until it stops, that it is at distance 0 from every IMP.
    Claim(ImpNumber),
    /// An IMP's end of a line stops.
    EndDown {
        /// The IMP whose end it is.
        imp: ImpNumber,
        /// The line's number, from 0.
        line: u32,
    },
    /// An IMP's end of a line starts.
    EndUp {
        /// The IMP whose end it is.
        imp: ImpNumber,
        /// The line's number, from 0.
        line: u32,
    },
    /// An IMP stops, and its hosts with it.
    ImpDown(ImpNumber),
    /// An IMP starts, empty and with all its hosts down.
    ImpUp(ImpNumber),
    /// A host stops, and nothing waits for it any more.
    HostDown(HostAddr),
    /// A host that was down starts.
    HostUp(HostAddr),
    /// The source's IMP gives up the outstanding message of a flow.
    GiveUp(Flow),
    /// An IMP drops the last numbers that it keeps of flows from another IMP.
    Forget {
        /// The IMP that forgets.
        at: ImpNumber,
        /// The IMP whose flows it forgets.
        from: ImpNumber,
    },
    /// The destination's IMP throws away the pieces that it holds of a flow's message.
    Abandon(Flow),
    /// The source's IMP asks the destination's what became of the outstanding message of a flow.
    Ask(Flow),
}
