//! Frames between two neighbouring IMPs, and the two ends of the line that carries them.
//!
//! A line loses frames and may bring one again. So a packet stays in its channel, and its frame is sent
//! again, until the neighbour has acknowledged it (Heart et al., "The interface message processor for the ARPA
//! computer network", SJCC 1970), by one bit for each channel (as the ARPANET did by 1972). This crate has
//! the frame with its one spelling in octets, and a line's end with its eight channels.
//!
//! The layer above may rely on each call being exact, and on two laws. [`law::in_order`]: what comes out of
//! a channel was put in, in order, once, whatever frames are lost or come again. [`law::holding`]: an end
//! holds, sends and gives only packets that were put in. No law says that a packet ever comes out. Nothing
//! here knows of routes, stores or hosts.
#![tactic(auto)]

mod channel;
mod fault;
mod frame;
pub mod law;
mod line;

pub use channel::{CHANNELS, Channel};
pub use fault::{ChannelFault, SubmitFault};
pub use frame::{ACKS, Carried, Content, Frame, VERSION};
pub use line::{Line, Received};
