//! What services report.

use icp::Outcome;
use interface::HostAddr;
use terminal::Line;

/// What a service of a host reports.
#[derive(Debug, Drop)]
pub enum Report {
    /// What became of a server of an initial connection.
    Server(Outcome),
    /// What became of a user of an initial connection.
    User(Outcome),
    /// A whole line came to a terminal.
    Line(Line),
}

/// A report, as it is in a book.
#[derive(Debug, Drop)]
pub struct Reported {
    /// The host whose service reports.
    pub host: HostAddr,
    /// How many notices was in the book before it. The notice that it is about is the last of them.
    pub notices: usize,
    /// What it reports.
    pub report: Report,
}
