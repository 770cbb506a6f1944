//! What a book promises of hosts that run the program, in a network in which other hosts run anything.
//!
//! Each law of two hosts that run the program holds of these whatever others send and take, since no host can speak for
//! another. So the lives among them are safe, over all that crossed ([`law::among`], `safe`). Toward a stranger less is
//! promised, whatever that sends ([`law::toward`]): of each socket there is one end with one peer; the requests of a
//! life crossed, and its bits are those of messages on one link; and no host takes more than it granted, or sends more
//! than the ALLs of its peer name. That anything arrives nobody promises.
//!
//! A program gets the book of such a world by [`book_among`], which ensures what is promised of it. There is no other
//! code: the laws are the contracts of functions that do nothing.
#![tactic(auto)]

mod book;
pub mod law;

pub use book::book_among;
