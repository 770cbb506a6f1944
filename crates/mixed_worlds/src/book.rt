//! What is promised of the book of a world with strangers.

ghost use Rattle.std.specs.Prelude.{◌≡◌};
ghost use Rattle.mixed_worlds.specs.Laws.{KeepsAmong, KeepsToward};
ghost use Rattle.net_sim.specs.Steps.{strange_in};

use crate::law::worlds;
use interface::Carrier;
use net_sim::{Book, MixedWorld};

/// Returns the book of a world with strangers. It keeps this promise, whatever the world's carrier is made of, and
/// whatever strangers send and take:
///
/// - `among`: `KeepsAmong`, of hosts that run the program among each other. What crossed is a run of the mailboxes;
///   lives and notices of data are made of what crossed; the lives are safe; an orderly close loses nothing; what
///   crossed leaves each life its fate, after a contact an RST goes out next, and a life that is over counts nothing
///   later; the k-th message that a receiving one counts is the k-th of the one that it matches; each message of data
///   is one of a sending life, which a receiving one matches; RFNM of data among these hosts means that they arrived,
///   unless the receiving end was closing or gone; and a finished initial connection pairs the right four sockets.
/// - `toward`: `KeepsToward`, of each such host toward all others, strangers too. Both requests of a life crossed, and are
///   no other life's; its bits are those of messages on one link, which one of the two names; what was sent is a prefix
///   of what was handed over, and within what the peer's ALLs name on that link; and what was taken is within what was
///   granted.
///
/// Nothing is promised to arrive, and of a stranger nothing at all.
pub fn book_among<C: Carrier>(world: &MixedWorld<C>) -> Book<'_>
    ensures value { result ≡ world.now.kept }
    ensures among { KeepsAmong (strange_in world.now) (C.calls.seen world.now.carrier).hosts world.now }
    ensures toward { KeepsToward (strange_in world.now) world.now }
{
    worlds::<C>();
    world.book()
}
