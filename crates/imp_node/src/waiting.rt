//! What waits for a host.

use interface::{Answer, Flow, Number, Text};

/// An answer that waits for the source of its flow.
#[derive(Debug, Drop)]
pub struct Told {
    /// What became of the message.
    pub kind: Answer,
    /// The flow that it belongs to.
    pub flow: Flow,
}

/// A whole message that waits for its destination.
#[derive(Debug, Drop)]
pub struct Message {
    /// The flow that it belongs to.
    pub flow: Flow,
    /// Its message number.
    pub number: Number,
    /// The bits that it says.
    pub text: Text,
}
