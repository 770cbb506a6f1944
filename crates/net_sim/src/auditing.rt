//! Whether a book is safe, whoever wrote its log.
//!
//! It takes no memory: what it has to know again it searches for again.

ghost use Rattle.std.specs.Prelude.{◌≡◌, ◌↔◌, reverse};
ghost use Rattle.net_sim.specs.Audit.{Says};
ghost use Rattle.net_sim.specs.Inside.Audit as tests;
ghost use Rattle.net_sim.specs.declared.auditing.said.Audit.{Audit as Answer};

mod findings;
mod grants;
mod messages;
mod partners;
mod requests;
mod said;
mod stamps;
mod streams;

pub use findings::{
    Finding, broken_grants, broken_messages, broken_partners, broken_streams, locate, malformed,
};
use interface::Crossing;
use promise::{BitLog, Life};
pub use said::{Audit, Part};

/// Returns whether a log, its lives and what was handed over in each of them are a safe book. The log is the oldest
/// first, as [`crate::Book::crossings`] has it.
///
/// `Malformed` where there isn't one list of bits for each life, or where a stamp names no request: its own stamp a message on link 0
/// that went out of the life's host to its peer, its partner's one that came in from the peer, of whose flow a message went out
/// before. Else `Kept` where the book is safe, and else `Broken` with the first part that fails.
///
/// It takes no memory. It searches: for a taking or an RFNM it goes back to the flow's last message out, and it looks at each
/// pair of lives.
pub fn audit(log: &[Crossing], lives: &[Life], handed: &[BitLog]) -> Audit
    ensures { (said : Answer) → (result ≡ said) ↔ Says said (reverse log.now) lives.now handed.now }
{
    judged(log, lives, handed)
}

/// Returns the answer, by the tests in their order.
fn judged(log: &[Crossing], lives: &[Life], handed: &[BitLog]) -> Audit
    ensures { result ≡ tests.judged (reverse log.now) lives.now handed.now }
{
    if !stamps::are_well_formed(log, lives, handed) {
        return Audit::Malformed;
    }
    if !messages::messages_hold(log) {
        return Audit::Broken(Part::Messages);
    }
    if !partners::partners_hold(log, lives) {
        return Audit::Broken(Part::Partners);
    }
    if !streams::streams_hold(log, lives, handed) {
        return Audit::Broken(Part::Streams);
    }
    if !grants::grants_hold(log, lives) {
        return Audit::Broken(Part::Grants);
    }
    Audit::Kept
}
