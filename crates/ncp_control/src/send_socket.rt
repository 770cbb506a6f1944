//! The socket of a sending end.

ghost use Rattle.std.specs.Prelude.{true, ◌≡◌, ℕ, IsTrue, Some, None, if◌then◌else◌};
ghost use Rattle.ncp_control.specs.Numbers.{is_send_socket};

use std::marker::Model;

/// The socket of a sending end: an odd number (NIC 8246, sockets).
#[derive(Clone, Copy, Debug, PartialEq, Eq)]
pub struct SendSocket {
    number: u32,
}

impl Model for SendSocket {
    ghost Value = { ℕ };

    ghost view = { λ s. s.number };

    ghost invariant = { λ s. is_send_socket s.number ≡ true };

    ghost inverse = { λ n. record { number = n } };
}

impl SendSocket {
    /// Returns the send socket of this number; `None` for an even number.
    pub fn new(number: u32) -> Option<Self>
        ensures { result ≡ (if is_send_socket number then Some number else None) }
    {
        if number % 2 == 1 {
            Some(SendSocket { number })
        } else {
            None
        }
    }

    /// Returns the socket's number, which is odd.
    pub fn number(self) -> u32
        ensures value { result ≡ self }
        ensures odd { IsTrue (is_send_socket result) }
    {
        self.number
    }
}
