//! What a book has beside crossings and lives.

use host_pairs::Notice;
use interface::HostAddr;

/// A notice to the user of a host.
#[derive(Debug, Drop)]
pub struct Told {
    /// The host whose user it was.
    pub host: HostAddr,
    /// How many crossings there were.
    pub place: usize,
    /// The notice.
    pub notice: Notice,
}

/// A contact that the user of a host asked for.
#[derive(Clone, Copy, Debug, PartialEq, Eq)]
pub struct Called {
    /// The host whose user it was.
    pub host: HostAddr,
    /// How many crossings there were.
    pub place: usize,
    /// The peer that is contacted.
    pub peer: HostAddr,
}
