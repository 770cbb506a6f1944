//! The numbers of a flow's messages, at its source and at its destination.
//!
//! A flow's source numbers its messages, and sends the next one only when the host has taken the answer
//! to the last one. Its destination keeps the number that it noted last with the fate of its message, and
//! takes as new only what lies within a window ahead of it. Here live both tables, one entry for each flow,
//! and the arithmetic of numbers that wrap around.
//!
//! The layers above rely on each call changing the flow that it names and no other, on an answer freeing
//! a flow only with the outstanding number, and on the laws of the window. Nothing here knows of packets
//! or queues, or of what is in transit in the network.
#![tactic(auto)]

mod destination;
mod fault;
mod flow_map;
pub mod law;
pub mod numbers;
mod source;

pub use destination::{Age, Asked, DestFlows, Fate, Noted};
pub use fault::FlowFault;
pub use interface::Number;
pub use source::{Release, SourceFlows, Standing};
