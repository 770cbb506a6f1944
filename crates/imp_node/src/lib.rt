//! One IMP of the subnet (Heart et al., SJCC 1970).
//!
//! An IMP takes messages from its hosts and cuts them into packets, stores packets and forwards them over its
//! lines, puts messages together again for its hosts, and notifies sources of what became of theirs. Each call of
//! [`Imp`] is one event: it leaves one new state, and answers the frames to put on lines, or a fault.
//!
//! The layer above relies on each call being exact, on queries that say what an IMP holds, and on the
//! laws of [`law`]: which packets and flows a call changes, and how. Nothing here says that a packet ever
//! goes out or that room is found. What is on the lines between IMPs is kept by the layer above.
#![tactic(auto)]

mod arrival;
mod asking;
mod contents;
mod flows;
mod host;
mod imp;
pub mod law;
mod lines;
mod offering;
mod outgoing;
mod passing;
mod port;
mod pump;
mod queries;
mod resting;
mod seeking;
mod spare;
mod steps;
mod stopping;
mod taking;
mod waiting;

pub use host::{Host, QUEUE_PLACES};
pub use imp::{Imp, STORE_PLACES};
pub use outgoing::Outgoing;
pub use passing::Passed;
pub use port::Port;
pub use pump::target;
pub use waiting::{Message, Told};
