//! What a line of a world's script asks for.

/// What a line of a world's script asks for.
#[derive(Debug, Drop)]
pub enum WorldEvent {
    /// This happens in the world.
    Happen(net_sim::Event),
    /// This many rounds pass. In each the network has a quiet round, and then each host that has a program and is up takes
    /// what came for it and offers what it has to send.
    Calm(u32),
}
