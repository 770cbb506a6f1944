//! One host's network control program.
//!
//! A host and each of its peers reset what is between them, send each other control commands on link 0, and open
//! connections, each from an odd send socket to an even receive socket and on a link of its own (NIC 8246,
//! Host/Host Protocol for the ARPA Network). Here lives that program as a machine: what its user asks for,
//! what comes in from the IMP, and what goes out next.
//!
//! What it does with one peer is in `host_pairs`; here are the peers, the sockets that listen, and the calls.
//! Nothing here knows of IMPs, of the log or of programs above the sockets.
#![tactic(auto)]

mod accepting;
mod calls;
mod due;
mod fault;
pub mod law;
mod ncp;
mod offering;
mod owned;
mod peer;
mod peers;
mod refusals;
mod request;
mod sending;
pub mod worked;

pub use fault::NcpFault;
pub use host_pairs::{Closing, Entry, Listener, Notice, Pair, Phase, Queue};
pub use ncp::Ncp;
pub use peer::Peer;
pub use request::Request;
