//! What runs on a host beside its network control program: servers and users of initial connections, and the echo services
//! and line terminals that follow them.
//!
//! Each of them is a machine (crates `icp` and `terminal`): a notice goes in, requests come out. Here lives the order in which
//! the machines of one host have their turns. A notice goes to each of them in the order in which they began, and what one
//! asks for is asked of the host's control program before the next one has its turn. A server that is done becomes an echo
//! service, a user that is done becomes a line terminal.
//!
//! The layer above relies on the exact state after a list of notices, on the requests that were served, in order, and on what
//! was reported. Nothing here knows of the carrier or of the book.
#![tactic(auto)]

mod block;
mod desk;
mod hearing;
pub mod law;
mod report;
mod service;
mod services;
mod typed_line;
pub mod worked;

pub use block::Block;
pub use desk::{Deeds, ServiceDesk, copy_of};
pub use report::{Report, Reported};
pub use service::Service;
pub use services::Services;
pub use typed_line::TypedLine;
