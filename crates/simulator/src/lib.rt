//! The whole simulator: what the words of its command line have it do, and how it ends.
//!
//! [`run_named`] is the whole program: its words may name the input. The others ask for a replay, for its log or its
//! trace, for the audit of a log, or for what the program says of itself ([`run_program`]). All but the trace is done by
//! `command_line`; [`run_trace`] is here.
//!
//! A caller may rely on what `command_line` says of a replay, a log and an audit. The input determines its trace, and a
//! plain output has the lines that its trace has as printed. Of each end the exit status is known, a failed read or
//! write is reported, and what was written before memory ran out is handed on.
//!
//! Nothing here knows where words and octets come from, nor what becomes of a fault.
#![tactic(auto)]

pub mod law;
mod named;
mod program;
mod tracing;

pub use command_line::{Printer, Reader, ScriptFault};
pub use named::{Inputs, run_named};
pub use program::{Done, ProgramFault, exit_status, run_program};
pub use tracing::run_trace;
