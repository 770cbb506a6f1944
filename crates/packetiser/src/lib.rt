//! Packets: a message is cut into them at its source, and they rejoin at its destination (Heart et al., SJCC 1970).
//!
//! The subnet carries a message's body in one to eight packets of at most 1008 bits. Here live the packet
//! with its one spelling in octets, the cutting of a message, and reassembly: the pieces of a message may
//! come in any order and more than once, and eight slots hold those of messages that aren't whole yet.
//!
//! The layer above relies on a packet being read and written exactly, and on pieces rejoining to the
//! body. Nothing here knows of lines, routes or which numbers are new.
#![tactic(auto)]

mod cutting;
mod fault;
pub mod format;
pub mod law;
mod packet;
mod reassembly;
mod slot_table;

pub use cutting::cut;
pub use fault::PacketFault;
pub use packet::{Packet, PacketKind};
pub use reassembly::{Added, Held, Outcome, Reassembly};
