//! The command line of the simulator, and all that it asks for but a trace: a replay, its log, and the audit of a log.
//!
//! [`Task::of`] and [`Options::read`] say what words ask for. [`run`] replays an input or only reads it, as the options
//! ask, and [`run_script`] does the same for options that were read already; [`run_log`] writes the log of a replay, and
//! [`run_audit`] judges one. What the program says of itself is here, too ([`write_help`], [`write_version`]).
//!
//! An input is a topology, the marker line `%` and a script. A caller may rely on three things. Every input is
//! replayed or refused by name, with the first fault of the list. What is written is what the replay shows.
//! After memory has run out the output is a prefix of that.
//!
//! It reads from a [`Source`] and prints to an [`Output`], which say whether a read or a write failed. So `CannotRead`
//! and `CannotWrite` are answered where one failed, and nowhere else, and after that no more is asked of either.
//!
//! Nothing here knows where words and octets come from, nor what becomes of a fault.
#![tactic(auto)]

mod about;
mod auditing;
mod carriers;
mod fault;
mod input;
mod judging;
pub mod law;
mod layout;
mod logging;
mod options;
mod replaying;
mod source;
mod verdict;

pub use about::{HELP, VERSION, write_help, write_version};
pub use auditing::{AuditFault, audit_status, run_audit};
pub use carriers::subnet_of;
pub use fault::ScriptFault;
pub use input::{Events, Input, read_input, read_octets};
pub use logging::run_log;
pub use net_sim::Finding;
pub use options::{Options, OptionsFault, Task};
pub use replay::{Detail, Output, Printer, WriteFailed};
pub use replaying::{run, run_script};
pub use source::{ReadFailed, Reader, Source};
pub use verdict::Verdict;
