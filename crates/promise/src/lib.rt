//! The promise of the book of a world: all that a reader must believe of the headline, and the records that it speaks
//! of.
//!
//! Read in this order. No host program, packet, route or buffer occurs in any of it, and nothing else has to be read.
//! 1. What crosses between hosts and the network: `specs/Mailboxes.antt` of `interface`, and `specs/Messages.antt`
//!    there, which says what is safe of messages.
//! 2. What is promised: the fields of `KeepsPromise` in `specs/Promise.antt` of `headline`. Of them `specs/Fates.antt`
//!    says what a life has that its partner's CLS ended, by the lives' [`Fate`]s; `specs/Arrived.antt`, what an open
//!    life has and RFNM of data means; `specs/Ends.antt`, by what a life is over and what goes out after a contact; and
//!    four files of `world_keeps_streams`: `specs/Within.antt`, that a life counts nothing that crossed after it was
//!    over, `specs/Sent.antt`, which message of its partner each is that it counts, `specs/Between.antt`, that each
//!    message of data has two lives, and `specs/Granted.antt`, what the ALLs of its partner grant it. That the book has
//!    what crossed is said beside `KeepsPromise`, and `specs/Carriers.antt` of `net_sim` has what crosses in one event.
//! 3. What is written down of a world: `specs/Book.antt`, with [`Life`], [`Told`] and [`Called`].
//! 4. The other fields: a safe book (`specs/Safe.antt`), the messages that a life is made of (`specs/Formed.antt`)
//!    and that a notice reports (`specs/Notices.antt`), and the sockets that an initial connection pairs
//!    (`specs/Connections.antt`). For the last, how far a life is by what crossed: `specs/Ends.antt`.
//! 5. How the text of a message is read: `Control` and `Data` of `host_pairs`, `DataHeader`, `Numbers` and `Reading` of
//!    `ncp_control`, `Octets` of `bit_messages`.
//!
//! `docs/measured/promise.md` has these definitions on one page. `net_sim` writes the book, the crates from there to
//! `headline` prove its parts, and `headline::book_of` ensures them of the book of every world.
#![tactic(auto)]

mod bit_log;
mod book;
mod life;
pub mod worked;
pub mod worked_books;
pub mod worked_texts;

pub use bit_log::BitLog;
pub use book::{Called, Told};
pub use life::{Amount, Fate, Life};
