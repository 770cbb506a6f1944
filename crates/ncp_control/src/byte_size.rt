//! The size of a byte.

ghost use Rattle.std.specs.Prelude.{true, ◌≡◌, ℕ, IsTrue, Some, None, if◌then◌else◌};
ghost use Rattle.ncp_control.specs.Numbers.{is_byte_size};

use std::marker::Model;

/// How many bits a byte of a connection has: 1 to 255 (NIC 8246, STR).
#[derive(Clone, Copy, Debug, PartialEq, Eq)]
pub struct ByteSize {
    bits: u8,
}

impl Model for ByteSize {
    ghost Value = { ℕ };

    ghost view = { λ s. s.bits };

    ghost invariant = { λ s. is_byte_size s.bits ≡ true };

    ghost inverse = { λ n. record { bits = n } };
}

impl ByteSize {
    /// Returns the size of this many bits; `None` for 0.
    pub fn new(bits: u8) -> Option<Self>
        ensures { result ≡ (if is_byte_size bits then Some bits else None) }
    {
        if bits > 0 {
            Some(ByteSize { bits })
        } else {
            None
        }
    }

    /// Returns its number of bits.
    pub fn bits(self) -> u8
        ensures value { result ≡ self }
        ensures some { IsTrue (is_byte_size result) }
    {
        self.bits
    }
}
