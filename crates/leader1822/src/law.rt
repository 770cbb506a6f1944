//! What leaders promise, as laws over their definitions. The functions here do nothing: each clause is the law.

ghost use Rattle.leader1822.specs.Laws.{Leaders, WorkedLeaders};

pub use interface::law::{
    hosts, mailboxes, messages, messages_not_taken, unsafe_logs, worked_boxes, worked_runs,
};

/// What a leader says is read again, and only its type, address and link are looked at (BBN Report 1822,
/// message leaders).
pub fn leaders()
    ensures { Leaders }
{}

/// Leaders octet by octet, and octets that are none.
pub fn worked_leaders()
    ensures { WorkedLeaders }
{}
