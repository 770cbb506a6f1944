//! Logs of books: lines that this program writes, and that any program can write.
//!
//! A log has the crossings of a book with the texts of their messages, its lives with what each of them sent or took,
//! what was handed over in each life, and a last line `end`. [`print_log`] writes it, and [`read_log`] reads it.
//!
//! The log of a network with strangers begins with a line for each of them, which [`print_strangers`] writes.
//!
//! A caller may rely on this: octets are read exactly if they are the log of a network and its book, which are then what is answered. All
//! others are refused by the number of their first bad line. No two networks or books have one log, so what is written is read again.
//!
//! Nothing here says whether a book keeps the promise, nor whether it has as many lists of bits as lives: that an audit says.
#![tactic(auto)]

mod book;
mod fault;
pub mod law;
mod lines;
mod print;
mod ranges;
mod read;
mod strangers;
mod words;

pub use book::{BookLists, LoggedBook};
pub use fault::LogFault;
pub use print::{print_log, print_strangers};
pub use read::{Log, read_log};
