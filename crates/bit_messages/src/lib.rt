//! Lists of bits, and the padding of a host's message.
//!
//! A host hands its IMP a text of 0 to 8063 bits. The network carries it as a body: the text, a 1 as
//! the mark of its end, and zeros up to a multiple of sixteen bits, so that the far end finds where the
//! text stopped. Here live the list of bits itself, the way between bits and octets (the most
//! significant bit comes first), padding and its reverse.
//!
//! The layers above see a [`Bits`] as a list of bits and rely on its calls being the list's operations,
//! and on a body giving its text back. Nothing here knows of messages, links or hosts.
#![tactic(auto)]

mod bits;
mod fault;
pub mod law;
mod octets;
mod store;

pub use bits::{BODY_UNIT, Bits, MAX_TEXT_BITS};
pub use fault::BitFault;
