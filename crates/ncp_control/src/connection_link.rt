//! The link of a connection.

ghost use Rattle.std.specs.Prelude.{true, ◌≡◌, ℕ, IsTrue, Some, None, if◌then◌else◌};
ghost use Rattle.ncp_control.specs.Numbers.{is_connection_link};

use std::marker::Model;

/// A link that a connection may have: 2 to 31 (link 0 carries commands; this network gives links 1 and
/// 32 to 255 to no connection).
#[derive(Clone, Copy, Debug, PartialEq, Eq)]
pub struct ConnectionLink {
    number: u8,
}

impl Model for ConnectionLink {
    ghost Value = { ℕ };

    ghost view = { λ l. l.number };

    ghost invariant = { λ l. is_connection_link l.number ≡ true };

    ghost inverse = { λ n. record { number = n } };
}

impl ConnectionLink {
    /// Returns the link of this number; `None` outside 2 to 31.
    pub fn new(number: u8) -> Option<Self>
        ensures { result ≡ (if is_connection_link number then Some number else None) }
    {
        if number >= 2 && number <= 31 {
            Some(ConnectionLink { number })
        } else {
            None
        }
    }

    /// Returns the link's number, 2 to 31.
    pub fn number(self) -> u8
        ensures value { result ≡ self }
        ensures range { IsTrue (is_connection_link result) }
    {
        self.number
    }
}
