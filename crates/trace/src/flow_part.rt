//! What is known of flows: each flow is a part of its own, which comes and goes.

ghost use Rattle.std.specs.Prelude.{◌≡◌};
ghost use Rattle.trace.specs.Flows.{gone, same_flow_part, same_name, side_word, state_name, state_word, told};

use crate::json::Item;
use interface::{Flow, Number};
use replay::{Output, WriteFailed};

/// At which of the two IMPs of a flow it is known.
#[derive(Clone, Copy, Debug, PartialEq, Eq)]
pub enum Side {
    /// At the IMP of its source.
    Source,
    /// At the IMP of its destination.
    Kept,
}

impl Side {
    /// Returns the word with which the names of these parts begin.
    fn word(self) -> &'static str
        ensures { result.now ≡ side_word self }
    {
        match self {
            Side::Source => "source",
            Side::Kept => "kept",
        }
    }

    /// Returns the name of what is known.
    fn state_name(self) -> &'static str
        ensures { result.now ≡ state_name self }
    {
        match self {
            Side::Source => "state",
            Side::Kept => "fate",
        }
    }
}

/// What is known of the message that a flow began or noted last.
#[derive(Clone, Copy, Debug, PartialEq, Eq)]
pub enum FlowState {
    /// It is outstanding.
    Outstanding,
    /// It is answered, and the answer waits.
    Answered,
    /// Its answer was taken.
    Idle,
    /// It waits for the host.
    Waits,
    /// The host has taken it.
    Taken,
    /// At the destination: it ended before the host took it. At the source: a Dead that was given at once waits.
    Dead,
    /// It never came.
    Never,
}

impl FlowState {
    /// Returns its word.
    fn word(self) -> &'static str
        ensures { result.now ≡ state_word self }
    {
        match self {
            FlowState::Outstanding => "outstanding",
            FlowState::Answered => "answered",
            FlowState::Idle => "idle",
            FlowState::Waits => "waits",
            FlowState::Taken => "taken",
            FlowState::Dead => "dead",
            FlowState::Never => "never",
        }
    }
}

/// What an IMP knows of a flow.
#[derive(Clone, Copy, Debug)]
pub struct FlowPart {
    /// At which of its two IMPs.
    pub side: Side,
    /// The flow.
    pub flow: Flow,
    /// What is known of its last message.
    pub state: FlowState,
    /// The number of this message.
    pub number: Number,
}

impl FlowPart {
    /// Returns whether another part has the same name.
    pub(crate) fn has_name_of(&self, other: &FlowPart) -> bool
        ensures { result ≡ same_name self.now other.now }
    {
        self.side == other.side && self.flow == other.flow
    }

    /// Returns whether another part is the same.
    pub(crate) fn is_same(&self, other: &FlowPart) -> bool
        ensures { result ≡ same_flow_part self.now other.now }
    {
        self.has_name_of(other) && self.state == other.state && self.number == other.number
    }
}

/// What is known of a flow, with its name.
impl Item for FlowPart {
    ghost text = { told };

    fn print<W: Output>(&self, writer: &mut W) -> Result<(), WriteFailed> {
        let (side, flow, name) = (self.side.word(), self.flow, self.side.state_name());
        let (state, number) = (self.state.word(), self.number);
        write!(
            writer,
            "\"{side} {flow}\":{{\"{name}\":\"{state}\",\"number\":{number}}}"
        )
    }
}

/// That nothing is known of a flow any more: its name, and `null`.
#[derive(Drop)]
pub(crate) struct Gone<'a>(pub &'a FlowPart);

impl Item for Gone<'_> {
    ghost text = { λ part. gone part.0.now };

    fn print<W: Output>(&self, writer: &mut W) -> Result<(), WriteFailed> {
        let (side, flow) = (self.0.side.word(), self.0.flow);
        write!(writer, "\"{side} {flow}\":null")
    }
}
