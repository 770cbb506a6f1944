//! A list of bits that can be cut back.

ghost use Rattle.std.specs.Prelude.{◌≡◌, ◌++◌, ◌≤◌, [], length, slice_get, take, OnErr, OnOk};

use bit_messages::Bits;
use std::alloc::{AllocError, Global};
use std::marker::Model;

/// A list of bits that grows at its end, and can be cut back to what it was without memory.
///
/// Only this many of the bits count. Where it was cut back, the others go when it grows again.
#[derive(Debug, Drop)]
pub struct BitLog {
    bits: Bits,
    len: usize,
    alloc: Global,
}

impl Model for BitLog {
    ghost use Rattle.std.specs.Prelude.{◌≤◌, Bool, List, length, take};

    ghost Value = { List Bool };

    ghost view = { λ b. take b.len b.bits };

    ghost invariant = { λ b. b.len ≤ length b.bits };
}

impl BitLog {
    /// Returns the empty list.
    pub fn new(alloc: Global) -> BitLog
        ensures { result ≡ [] }
    {
        BitLog {
            bits: Bits::new(alloc),
            len: 0,
            alloc,
        }
    }

    /// Returns these bits.
    pub fn from_bits(alloc: Global, bits: Bits) -> BitLog
        ensures { result ≡ bits }
    {
        let len = bits.len();
        BitLog { bits, len, alloc }
    }

    /// Returns how many bits there are.
    pub fn len(&self) -> usize
        ensures { result ≡ length self.now }
    {
        self.len
    }

    /// Returns the bit at place `i`, counted from 0; `None` past the end.
    pub fn get(&self, i: usize) -> Option<bool>
        ensures { result ≡ slice_get self.now i }
    {
        if i >= self.len {
            return None;
        }
        self.bits.get(i)
    }

    /// Puts these bits at the end.
    pub fn append(&mut self, more: &Bits) -> Result<(), AllocError>
        ensures done { OnOk result (self.new ≡ self.old ++ more.now) }
        ensures kept { OnErr result (self.new ≡ self.old) }
    {
        if self.len < self.bits.len() {
            let Ok(counted) = self.bits.slice(self.alloc, 0, self.len) else {
                return Err(AllocError);
            };
            self.bits = counted;
        }
        let Ok(()) = self.bits.append(more) else {
            return Err(AllocError);
        };
        self.len = self.bits.len();
        Ok(())
    }

    /// Keeps only the first `len` bits.
    pub fn cut(&mut self, len: usize)
        ensures { self.new ≡ take len self.old }
    {
        if len < self.len {
            self.len = len;
        }
    }
}
