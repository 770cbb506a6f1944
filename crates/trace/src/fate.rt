//! What becomes of a frame that is delivered.

ghost use Rattle.std.specs.Prelude.{◌≡◌};
ghost use Rattle.trace.specs.Texts.{fate_word};

/// What becomes of a frame at the end of its line.
#[derive(Clone, Copy, Debug, PartialEq, Eq)]
pub enum Fate {
    /// The IMP is down, and ignores it.
    ImpDown,
    /// The end of the line is down, and ignores it.
    EndDown,
    /// It has acknowledgement bits only.
    Acks,
    /// It has distances, which replace those heard before.
    Distances,
    /// Its packet's bit is not the one that is expected: the packet is taken for one given before, and thrown away.
    Repeat,
    /// There is no room for its fresh packet: the frame counts as lost.
    NoRoom,
    /// Its packet is for another IMP.
    Passing,
    /// Its packet is one more piece of a message that is not whole yet.
    Piece,
    /// Its packet makes its message whole.
    Whole,
    /// Its packet makes a body whole that has no mark.
    Unmarked,
    /// Its packet is a piece of an old message, or one that is there already or contradicts those that are, or a question
    /// that is not answered.
    Old,
    /// Its packet is a piece for a host that is down or not there.
    Dead,
    /// Its packet is a question about a new number.
    Never,
    /// Its packet is a question that is answered.
    Replied,
    /// Its packet answers the outstanding message of its flow.
    Answer,
    /// Its packet answers a message that is not outstanding.
    Stale,
}

impl Fate {
    /// Returns its word in a trace.
    pub fn word(self) -> &'static str
        ensures { result.now ≡ fate_word self }
    {
        match self {
            Fate::ImpDown => "impdown",
            Fate::EndDown => "enddown",
            Fate::Acks => "acks",
            Fate::Distances => "distances",
            Fate::Repeat => "repeat",
            Fate::NoRoom => "noroom",
            Fate::Passing => "passing",
            Fate::Piece => "piece",
            Fate::Whole => "whole",
            Fate::Unmarked => "unmarked",
            Fate::Old => "old",
            Fate::Dead => "dead",
            Fate::Never => "never",
            Fate::Replied => "replied",
            Fate::Answer => "answer",
            Fate::Stale => "stale",
        }
    }
}
