//! What may happen in a world, and why it is refused.

use host_services::TypedLine;
use interface::{CarrierFault, HostAddr, HostMessage, NetEvent};
use sockets::{NcpFault, Request};
use thiserror::Error;

/// What may happen in a world.
#[derive(Debug, Drop)]
pub enum Event {
    /// Something inside the network, or to a host. One that stops loses its program, and one that starts has a new
    /// one.
    Net(NetEvent),
    /// A quiet round of the network.
    Quiet,
    /// A host's next message goes to the network.
    Offer(HostAddr),
    /// A host takes what came for it.
    Take(HostAddr),
    /// A host's user asks for something.
    Ask(HostAddr, Request),
    /// The server of an initial connection begins on a host. Users ask it on the odd socket `listen`, and it serves the first on the
    /// even socket `base` and the one above it; the echo service follows it.
    Server {
        /// The host where it begins.
        host: HostAddr,
        /// The socket on which users ask.
        listen: u32,
        /// The socket on which it receives; it sends on the one above.
        base: u32,
    },
    /// The user of an initial connection begins on a host. It asks the socket `listen` of a peer from its own even socket; a line
    /// terminal follows it.
    User {
        /// The host where it begins.
        host: HostAddr,
        /// The server's host.
        peer: HostAddr,
        /// The server's socket.
        listen: u32,
        /// The own socket that asks; the terminal receives on the one two above and sends on the one three above.
        own: u32,
    },
    /// A line is typed at a host, at the terminal that came last.
    Typed {
        /// The host where it is typed.
        host: HostAddr,
        /// The line that is typed.
        line: TypedLine,
    },
    /// A stranger's message goes to the network as it is. Its source is the stranger; a host with a program says itself what goes out.
    Out(HostMessage),
}

/// Why an event is refused.
#[derive(Clone, Copy, Debug, Drop, PartialEq, Eq, Error)]
pub enum WorldFault {
    /// By the world, or by its carrier.
    #[error("{0}")]
    Carrier(CarrierFault),
    /// By the host's program.
    #[error("{0}")]
    Program(NcpFault),
    /// The host is a stranger, and runs no program that could be asked for it.
    #[error("no program")]
    NoProgram,
    /// The host runs the program, which says itself what goes out.
    #[error("has program")]
    HasProgram,
}
