//! Where a calm of plain mailboxes has come to.

/// Whose turn it is in a calm of plain mailboxes.
#[derive(Clone, Copy, Debug)]
pub struct Turn {
    /// The round, counted from 1; 0 before the first one.
    pub round: u32,
    /// How many rounds the calm has.
    pub rounds: u32,
    /// The place of the host among those of the network.
    pub host: usize,
    /// How often it may still take in this round.
    pub times: u8,
}
