//! The control commands of the Host/Host Protocol, the counters of its allocation and the phases of its reset.
//!
//! Two hosts open, feed and close their connections by fourteen commands that they send each other on
//! link 0 (NIC 8246, Host/Host Protocol for the ARPA Network). Here live the commands as values and as
//! octets, the packing of commands into one control message, the 40 bits that precede every message's
//! data, the two counters by which a receiver grants and a sender spends, and how far a host's reset with a peer has
//! come.
//!
//! The layer above relies on each command having one spelling and one reading, on faults that say what
//! an ERR quotes, and on nothing being spent or given back that was not granted. Nothing here knows of
//! open connections or of what a command does to them.
#![tactic(auto)]

mod allocation;
mod byte_size;
mod command;
mod connection_link;
mod data_header;
mod fault;
pub mod law;
mod packing;
mod phase;
mod reading;
mod receive_socket;
mod send_socket;
mod writing;

pub use allocation::{Allocation, MAX_DATA_BITS, WHOLE};
pub use byte_size::ByteSize;
pub use command::{Command, MAX_QUOTED};
pub use connection_link::ConnectionLink;
pub use data_header::{DataHeader, HEADER_BITS};
pub use fault::ControlFault;
pub use packing::{MAX_CONTROL_OCTETS, pack, packed_count};
pub use phase::Phase;
pub use reading::read_one;
pub use receive_socket::ReceiveSocket;
pub use send_socket::SendSocket;
