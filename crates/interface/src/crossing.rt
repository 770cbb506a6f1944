//! What crosses the interface between a host and its IMP.

ghost use Rattle.std.specs.Prelude.{Some};

use crate::{Flow, HostAddr, HostMessage};
use std::fmt;

/// What became of a message (BBN Report 1822, the types of messages from an IMP to its host).
#[derive(Clone, Copy, Debug, Drop, PartialEq, Eq)]
pub enum Answer {
    /// Ready for next message: the destination took the whole message.
    Rfnm,
    /// The network gave the message up; it may have been taken all the same.
    Incomplete,
    /// The destination is down, not there or out of reach. It did not take the message, and never will.
    Dead,
    /// The destination did not take the message, and never will. Hosts get `Incomplete` for it.
    NotTaken,
}

/// One event at the interface of a host. A log is a list of these.
#[derive(Debug, Drop)]
pub enum Crossing {
    /// The message's source handed it to its IMP.
    Out(HostMessage),
    /// The message's destination took it from its IMP.
    In(HostMessage),
    /// The source of the flow learns what became of its outstanding message.
    Answer(Answer, Flow),
    /// The host went down.
    Down(HostAddr),
    /// The host came up.
    Up(HostAddr),
}

/// What a host takes from its IMP.
#[derive(Debug, Drop)]
pub enum Inbound {
    /// A message for the host.
    Message(HostMessage),
    /// What became of the host's own message on this flow.
    Answer(Answer, Flow),
}

/// Prints `rfnm`, `incomplete` or `dead`; `NotTaken` is printed as `incomplete`.
impl fmt::Display for Answer {
    ghost use Rattle.interface.specs.Printed.{answer_text};

    ghost output = { λ kind. Some (answer_text kind) };

    fn fmt<W: fmt::Write>(&self, f: &mut fmt::Formatter<W>) -> fmt::Result {
        match self {
            Answer::Rfnm => write!(f, "rfnm"),
            Answer::Incomplete | Answer::NotTaken => write!(f, "incomplete"),
            Answer::Dead => write!(f, "dead"),
        }
    }
}

/// Prints `out FLOW BITS`, `in FLOW BITS`, `answer WORD FLOW`, `down HOST` or `up HOST`, where `BITS` is
/// the number of bits of the text.
impl fmt::Display for Crossing {
    ghost use Rattle.interface.specs.Printed.{crossing_text};

    ghost output = { λ c. Some (crossing_text c) };

    fn fmt<W: fmt::Write>(&self, f: &mut fmt::Formatter<W>) -> fmt::Result {
        match self {
            Crossing::Out(message) => {
                let flow = &message.flow;
                let bits = message.text.bits().len();
                write!(f, "out {flow} {bits}")
            }
            Crossing::In(message) => {
                let flow = &message.flow;
                let bits = message.text.bits().len();
                write!(f, "in {flow} {bits}")
            }
            Crossing::Answer(kind, flow) => write!(f, "answer {kind} {flow}"),
            Crossing::Down(host) => write!(f, "down {host}"),
            Crossing::Up(host) => write!(f, "up {host}"),
        }
    }
}
