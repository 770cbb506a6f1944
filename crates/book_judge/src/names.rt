//! The names of requests.

ghost use Rattle.std.specs.Prelude.{◌≡◌};
ghost use Rattle.promise.specs.Safe as safe;
ghost use Rattle.book_judge.specs.Inside.Asked as tests;

use net_sim::Life;
use std::marker::Model;

/// A request: the place where the message that holds it went out, and its two sockets as its sender sees them.
#[derive(Clone, Copy, PartialEq, Eq)]
pub(crate) struct Name {
    place: usize,
    own: u32,
    foreign: u32,
}

impl Model for Name {
    ghost use Rattle.promise.specs.Safe as safe;

    ghost Value = { safe.Name };

    ghost view = { λ n. record { place = n.place; own = n.own; foreign = n.foreign } };

    ghost inverse = { λ n. record { place = n.place; own = n.own; foreign = n.foreign } };
}

impl Name {
    /// Returns the own request of a life.
    pub(crate) fn own_of(life: &Life) -> Name
        ensures { result ≡ safe.own_request life.now }
    {
        Name {
            place: life.own_stamp,
            own: life.socket,
            foreign: life.foreign,
        }
    }

    /// Returns the request of a life's partner, which went out at this place.
    pub(crate) fn partner_of(life: &Life, place: usize) -> Name
        ensures { result ≡ record { place = place; own = life.now.foreign; foreign = life.now.socket } }
    {
        Name {
            place,
            own: life.foreign,
            foreign: life.socket,
        }
    }

    /// Returns its key.
    pub(crate) fn key(&self) -> u128
        ensures { result ≡ tests.key self.now }
    {
        let place = self.place as u128;
        let own = self.own as u128;
        let foreign = self.foreign as u128;
        place * 18_446_744_073_709_551_616 + own * 4_294_967_296 + foreign
    }
}

/// Returns whether these are one request.
pub(crate) fn same_name(a: &Name, b: &Name) -> bool
    ensures { result ≡ tests.same_name a.now b.now }
{
    *a == *b
}
