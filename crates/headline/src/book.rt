//! What is promised of the book of a world.

ghost use Rattle.std.specs.Prelude.{◌≡◌};
ghost use Rattle.headline.specs.Promise.{IsExact, KeepsPromise};

use interface::Carrier;
use mixed_worlds::law::among;
use net_sim::{Book, World};

/// Returns the book of a world. It keeps the promise, whatever the world's carrier is made of and whatever happened
/// (`KeepsPromise`): what each field says is in the comment above it. They speak of crossings, notices, contacts, lives
/// and fates, and of no program.
///
/// By `lawful` the world is exact (`IsExact`): the book says what the programs of all hosts make of what crossed and of
/// what their users asked for.
pub fn book_of<C: Carrier>(world: &World<C>) -> Book<'_>
    ensures value { result ≡ world.now.kept }
    ensures promise { KeepsPromise (C.calls.seen world.now.carrier).hosts (C.calls.seen world.now.carrier).log world.now.stopped result }
    ensures lawful { IsExact C.calls.seen world.now }
{
    among();
    world.book()
}
