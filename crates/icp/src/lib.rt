//! The initial connection: how a user and a server at two hosts come to a pair of connections.
//!
//! A server listens on a socket that users know. A user asks for a connection from there, over which the
//! server says the number of a socket, its base, in 32 bits. Then both have two connections, one each way,
//! between the base and the socket above it and two sockets of the user (RFC 165, A Proffered Official Initial
//! Connection Protocol). Here live the server's part and the user's part. Each is a machine: a notice of
//! the network control program goes in, requests to it come out, and at the end an outcome.
//!
//! The layer above relies on the exact requests and on `Done`, which names the two own sockets and comes only
//! when both are open to the right partners. Nothing here knows what the connections are used for.
#![tactic(auto)]

mod fault;
pub mod law;
mod notices;
mod outcome;
mod server;
mod sockets_said;
mod user;
pub mod worked;

pub use fault::StartFault;
pub use notices::Partner;
pub use outcome::{Failure, Outcome, Said};
pub use server::Server;
pub use user::User;
