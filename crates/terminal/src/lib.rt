//! The line terminal and the echo service: programs on two connections.
//!
//! An initial connection leaves each of two hosts with a socket on which it receives and one on which it
//! sends, both in octets. Here live the two programs that use them: one sends back what it receives, bit by
//! bit, the other sends lines that a user types and reports the lines that come in, read as octets. Each is
//! a machine: a notice of the network control program goes in, and requests to it come out.
//!
//! The layer above relies on what it says of lines (nothing that arrives is lost, and a line is reported once it
//! has ended), and on the exact requests. Nothing here knows how the connections came about.
#![tactic(auto)]

mod echo_service;
mod ends;
mod fault;
pub mod law;
mod line;
mod line_terminal;
mod octets;
pub mod worked;

pub use echo_service::EchoService;
pub use fault::TerminalFault;
pub use line::{Line, typed};
pub use line_terminal::{LineTerminal, Told};
