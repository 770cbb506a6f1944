//! What a line of a script asks for.

use interface::{HostAddr, HostMessage, NetEvent};

/// What a line of a script asks for.
#[derive(Debug, Drop)]
pub enum RawEvent {
    /// The source of this message hands it to its IMP.
    Out(HostMessage),
    /// This host takes what waits for it.
    Take(HostAddr),
    /// This happens inside the network.
    Net(NetEvent),
    /// This many rounds pass. In each the network has a quiet round, and then each host takes what waits for it.
    Calm(u32),
}
