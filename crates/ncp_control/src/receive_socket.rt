//! The socket of a receiving end.

ghost use Rattle.std.specs.Prelude.{true, ◌≡◌, ℕ, IsTrue, Some, None, if◌then◌else◌};
ghost use Rattle.ncp_control.specs.Numbers.{is_receive_socket};

use std::marker::Model;

/// The socket of a receiving end: an even number (NIC 8246, sockets).
#[derive(Clone, Copy, Debug, PartialEq, Eq)]
pub struct ReceiveSocket {
    number: u32,
}

impl Model for ReceiveSocket {
    ghost Value = { ℕ };

    ghost view = { λ s. s.number };

    ghost invariant = { λ s. is_receive_socket s.number ≡ true };

    ghost inverse = { λ n. record { number = n } };
}

impl ReceiveSocket {
    /// Returns the receive socket of this number; `None` for an odd number.
    pub fn new(number: u32) -> Option<Self>
        ensures { result ≡ (if is_receive_socket number then Some number else None) }
    {
        if number % 2 == 0 {
            Some(ReceiveSocket { number })
        } else {
            None
        }
    }

    /// Returns the socket's number, which is even.
    pub fn number(self) -> u32
        ensures value { result ≡ self }
        ensures even { IsTrue (is_receive_socket result) }
    {
        self.number
    }
}
