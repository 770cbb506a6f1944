//! Where it shows that a book isn't safe.

ghost use Rattle.std.specs.Prelude.{◌≡◌, ◌<◌, MatchOption, length, reverse};
ghost use Rattle.net_sim.specs.Audit.{IsWellFormed, Says};
ghost use Rattle.net_sim.specs.Findings.{AreFed, AreStamped, HaveGranted, Shows, ShowsCrossing, ShowsLife, ShowsMalformed, ShowsTwo, WithMatch, first_fed, first_granted};
ghost use Rattle.promise.specs.Safe.{SafePartners};
ghost use Rattle.interface.specs.Messages.{SafeMessages};
ghost use Rattle.net_sim.specs.declared.auditing.said.Audit.TheVariants as answer;

use super::grants::excess_at;
use super::messages::break_at;
use super::partners::odds_at;
use super::requests::match_at;
use super::said::{Audit, Part};
use super::stamps::unstamped_at;
use super::streams::unfed_at;
use interface::Crossing;
use promise::{BitLog, Life};

/// Where it shows that a book isn't safe. Places are counted from 0, each in its own list.
#[derive(Clone, Copy, Debug, PartialEq, Eq)]
pub enum Finding {
    /// At this crossing.
    Crossing(usize),
    /// At this life.
    Life(usize),
    /// At these two lives together.
    Lives(usize, usize),
    /// At this list of bits that were handed over.
    List(usize),
}

/// Returns where it shows what [`crate::audit`] says of a log, its lives and what was handed over in each of them.
/// `None` where the book is kept.
///
/// - Malformed: the first life that has no list, or the first list that has no life; else the first life with a stamp that
///   names no request.
/// - Messages: the first crossing with which they are broken, an RFNM or a taking.
/// - Partners: two lives that can't both be in one book, the second of which is the first that is at odds with an earlier
///   one. They have a request in common, or only one has the other for its partner.
/// - Streams: the first life that took something else than its sender sent, or sent something else than was handed over; of a
///   receiving one with the life that it matches, where there is one.
/// - Grants: the first receiving life that granted less than it took, or than was sent to it; with the life that it matches,
///   where there is one.
///
/// It takes no memory, and searches as [`crate::audit`] does.
pub fn locate(said: Audit, log: &[Crossing], lives: &[Life], handed: &[BitLog]) -> Option<Finding>
    requires { Says said (reverse log.now) lives.now handed.now }
    ensures { MatchOption result (said ≡ answer.Kept) (λ found. Shows said found (reverse log.now) lives.now handed.now) }
{
    match said {
        Audit::Kept => None,
        Audit::Malformed => malformed(log, lives, handed),
        Audit::Broken(Part::Messages) => broken_messages(log),
        Audit::Broken(Part::Partners) => broken_partners(log, lives),
        Audit::Broken(Part::Streams) => broken_streams(log, lives, handed),
        Audit::Broken(Part::Grants) => broken_grants(log, lives),
    }
}

/// Returns where it shows that a book is malformed: the first life that has no list, or the first list that has no life; else
/// the first life with a stamp that names no request. `None` where it is well-formed.
pub fn malformed(log: &[Crossing], lives: &[Life], handed: &[BitLog]) -> Option<Finding>
    ensures { MatchOption result (IsWellFormed (reverse log.now) lives.now handed.now) (λ found. ShowsMalformed found (reverse log.now) lives.now handed.now) }
{
    if handed.len() < lives.len() {
        return Some(Finding::Life(handed.len()));
    }
    if lives.len() < handed.len() {
        return Some(Finding::List(lives.len()));
    }
    let place = unstamped_at(log, lives)?;
    Some(Finding::Life(place))
}

/// Returns the first crossing with which messages are broken, an RFNM or a taking. `None` where they are kept.
pub fn broken_messages(log: &[Crossing]) -> Option<Finding>
    ensures { MatchOption result (SafeMessages (reverse log.now)) (λ found. ShowsCrossing found (reverse log.now)) }
{
    let place = break_at(log)?;
    Some(Finding::Crossing(place))
}

/// Returns two lives that can't both be in one book, the second of which is the first that is at odds with an earlier one;
/// `None` where partners are kept. The stamps of each life name requests.
pub fn broken_partners(log: &[Crossing], lives: &[Life]) -> Option<Finding>
    requires { AreStamped (reverse log.now) lives.now }
    ensures { MatchOption result (SafePartners (reverse log.now) lives.now) (λ found. ShowsTwo found (reverse log.now) lives.now) }
{
    let (first, second) = odds_at(log, lives)?;
    Some(Finding::Lives(first, second))
}

/// Returns the first life that took something else than a life that it matches sent, or sent something else than was handed
/// over; of a receiving one with the life that it matches, where there is one. `None` where there is no such life. There is one
/// list for each life.
pub fn broken_streams(log: &[Crossing], lives: &[Life], handed: &[BitLog]) -> Option<Finding>
    requires { length lives.now ≡ length handed.now }
    ensures { MatchOption result (AreFed (reverse log.now) lives.now lives.now handed.now) (λ found. ShowsLife (first_fed (reverse log.now) lives.now handed.now) found (reverse log.now) lives.now) }
{
    let place = unfed_at(log, lives, handed)?;
    Some(with_match(log, lives, place))
}

/// Returns the first receiving life that granted less than it took, or than was sent to it; with the life that it matches,
/// where there is one. `None` where grants are kept.
pub fn broken_grants(log: &[Crossing], lives: &[Life]) -> Option<Finding>
    ensures { MatchOption result (HaveGranted (reverse log.now) lives.now lives.now) (λ found. ShowsLife (first_granted (reverse log.now) lives.now) found (reverse log.now) lives.now) }
{
    let place = excess_at(log, lives)?;
    Some(with_match(log, lives, place))
}

/// Returns a life, with the first one that it matches where it receives and there is one.
fn with_match(log: &[Crossing], lives: &[Life], place: usize) -> Finding
    requires { place < length lives.now }
    ensures { WithMatch result place (reverse log.now) lives.now }
{
    match match_at(log, lives, &lives[place]) {
        Some(other) => Finding::Lives(place, other),
        None => Finding::Life(place),
    }
}
