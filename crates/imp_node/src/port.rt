//! An IMP's end of a line.

use imp_channel::Line;

/// An IMP's end of a line: up or down, and its channels.
#[derive(Debug, Drop)]
pub struct Port {
    /// Whether it is up.
    pub up: bool,
    /// The eight channels of its line.
    pub line: Line,
}
