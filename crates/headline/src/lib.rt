//! The promise of the book of a world, on the call by which a program gets the book.
//!
//! [`book_of`] ensures it. All that a reader must believe of it is in the crate `promise`, with the mailboxes and the
//! reading of texts, to which its first page leads; but
//! `CountNothingLater`, `EachWasSent` and `EachIsBetween`, in `specs/Within.antt`, `specs/Sent.antt` and `specs/Between.antt`
//! of `world_keeps_streams`.
//! What the clause `lawful` says beside it needs the rules of a host's program.
//!
//! Each part is proved in a crate of its own: the messages in `net_sim`, the partners in `world_keeps_pairing`, what is about only one host
//! in `world_keeps_lives`, what is about two programs together in `world_keeps_streams`, and initial connections in
//! `world_keeps_connections`. Here they are as one statement, on the call by which a program gets the book. It asks for nothing: a carrier's
//! law and the programs of all hosts are part of what a `World` is.
#![tactic(auto)]

mod audits;
mod book;
pub mod worked;

pub use audits::audit_of;
pub use book::book_of;
