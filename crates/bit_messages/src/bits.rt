//! A list of bits, kept eight an octet.

ghost use Rattle.std.specs.Prelude.{◌≡◌, ℕ, ◌+◌, ◌-◌, ◌*◌, ◌≤◌, ◌<◌, Bool, List, [], ◌∷◌, ◌++◌, length, take, drop, slice_get, true, false, ◌==◌, IfOk, IfSome, OnErr, None, Err};
ghost use Rattle.bit_messages.specs.Body.{body, has_mark, text_of, strip_fault, pad_fault, slice_fault};
ghost use Rattle.bit_messages.specs.Faults.{Decided};
ghost use Rattle.bit_messages.specs.Octets.{bits_of, octets_of, octets_fault, octets_at_fault};
ghost use Rattle.bit_messages.specs.Packed.{IsPacked};
ghost use Rattle.bit_messages.specs.declared.fault.BitFault.TheVariants as fault;

use crate::BitFault;
use crate::octets::{are_octets, bit_in, copied, last_one, part, put, put_bit, put_mark};
use crate::store::Octets;
use std::alloc::{AllocError, Global};
use std::marker::Model;

/// The most bits that a text has (BBN Report 1822: a message is at most 8095 bits with its leader).
pub const MAX_TEXT_BITS: usize = 8063;

/// A body's length is a multiple of this many bits.
pub const BODY_UNIT: usize = 16;

/// A list of bits, of any length.
///
/// It is kept as octets, the first bit of the list the most significant bit of the first octet. Bits of the
/// last octet that the list doesn't use are zero.
#[derive(Debug, Drop)]
pub struct Bits {
    octets: Octets,
}

impl Model for Bits {
    ghost Value = { List Bool };

    ghost view = { λ b. take b.octets.len (bits_of b.octets.octets) };

    ghost invariant = { λ b. IsPacked b.octets.octets b.octets.len };
}

impl Bits {
    /// Returns the empty list.
    pub fn new(alloc: Global) -> Self
        ensures { result ≡ [] }
    {
        Bits {
            octets: Octets::new(alloc),
        }
    }

    /// Returns how many bits there are.
    pub fn len(&self) -> usize
        ensures { result ≡ length self.now }
    {
        self.octets.len()
    }

    /// Returns whether there are no bits.
    pub fn is_empty(&self) -> bool
        ensures { result ≡ (length self.now == 0) }
    {
        self.octets.len() == 0
    }

    /// Returns the bit at place `i`, counted from 0; `None` past the end.
    pub fn get(&self, i: usize) -> Option<bool>
        ensures { result ≡ slice_get self.now i }
    {
        if i >= self.octets.len() {
            return None;
        }
        Some(bit_in(self.octets.as_slice(), i))
    }

    /// Puts a bit at the end.
    ///
    /// Errors: `OutOfMemory`, and then nothing changes.
    pub fn push(&mut self, bit: bool) -> Result<(), BitFault>
        ensures decided { Decided None (λ _. self.new ≡ self.old ++ bit ∷ []) result }
        ensures err { OnErr result (self.new ≡ self.old) }
    {
        put_bit(&mut self.octets, bit)?;
        Ok(())
    }

    /// Puts the bits of `other` at the end.
    ///
    /// Errors: `OutOfMemory` where `other` has bits, and then nothing changes.
    pub fn append(&mut self, other: &Bits) -> Result<(), BitFault>
        ensures decided { Decided None (λ _. self.new ≡ self.old ++ other.now) result }
        ensures memory { result ≡ Err fault.OutOfMemory → 0 < length other.now }
        ensures err { OnErr result (self.new ≡ self.old) }
    {
        put(
            &mut self.octets,
            other.octets.as_slice(),
            other.octets.len(),
        )?;
        Ok(())
    }

    /// Returns the bits from place `from` up to and without place `to`.
    ///
    /// Errors: `Range` where `from` passes `to` or `to` passes the end; `OutOfMemory` only for a part that has bits.
    pub fn slice(&self, alloc: Global, from: usize, to: usize) -> Result<Bits, BitFault>
        ensures decided { Decided (slice_fault from to self.now) (λ part. part ≡ drop from (take to self.now)) result }
        ensures memory { result ≡ Err fault.OutOfMemory → from < to }
    {
        if from > to || to > self.len() {
            return Err(BitFault::Range);
        }
        Ok(Bits {
            octets: part(alloc, self.octets.as_slice(), from, to - from)?,
        })
    }

    /// Returns the first `count` bits of the octets, the most significant bit of each octet first.
    ///
    /// Errors: `Range` where the octets have fewer bits; `OutOfMemory` only where `count` isn't 0.
    pub fn from_octets(alloc: Global, octets: &[u8], count: usize) -> Result<Bits, BitFault>
        ensures decided { Decided (octets_fault octets.now count) (λ bits. bits ≡ take count (bits_of octets.now)) result }
        ensures memory { result ≡ Err fault.OutOfMemory → 0 < count }
    {
        if count.div_ceil(8) > octets.len() {
            return Err(BitFault::Range);
        }
        Ok(Bits {
            octets: part(alloc, octets, 0, count)?,
        })
    }

    /// Returns the bits in octets, the last octet filled with zeros. The octets are lent.
    pub fn as_octets(&self) -> &[u8]
        ensures { result.now ≡ octets_of self.now }
    {
        let octets = self.octets.as_slice();
        are_octets(octets);
        octets
    }

    /// Returns the bits in octets, the last octet filled with zeros.
    ///
    /// Errors: `OutOfMemory` where there are bits.
    pub fn to_octets(&self, alloc: Global) -> Result<Vec<u8>, BitFault>
        ensures decided { Decided None (λ octets. octets.items ≡ octets_of self.now) result }
        ensures memory { result ≡ Err fault.OutOfMemory → 0 < length self.now }
    {
        Ok(copied(alloc, self.as_octets())?)
    }

    /// Returns the `8 * n` bits from place `from` on, as octets.
    ///
    /// Errors: `Range` where they pass the end; `OutOfMemory` only where `n` isn't 0.
    pub fn octets_at(&self, alloc: Global, from: usize, n: usize) -> Result<Vec<u8>, BitFault>
        ensures decided { Decided (octets_at_fault from n self.now) (λ octets. octets.items ≡ octets_of (take (8 * n) (drop from self.now))) result }
        ensures memory { result ≡ Err fault.OutOfMemory → 0 < n }
    {
        if from > self.len() || n > (self.len() - from) / 8 {
            return Err(BitFault::Range);
        }
        let part = part(alloc, self.octets.as_slice(), from, 8 * n)?;
        let octets = part.as_slice();
        are_octets(octets);
        Ok(copied(alloc, octets)?)
    }

    /// Returns the body of this text: its bits, a 1, and the fewest zeros that make a multiple of sixteen bits.
    ///
    /// Errors: `TooLong` for a text of more than 8063 bits, then `OutOfMemory`.
    pub fn pad16(&self, alloc: Global) -> Result<Bits, BitFault>
        ensures decided { Decided (pad_fault self.now) (λ padded. padded ≡ body self.now) result }
    {
        let len = self.len();
        if len > MAX_TEXT_BITS {
            return Err(BitFault::TooLong);
        }
        let mut octets = self.octets.copied(alloc)?;
        put_mark(&mut octets, BODY_UNIT - len % BODY_UNIT)?;
        Ok(Bits { octets })
    }

    /// Returns the text of this body: what precedes its last 1.
    ///
    /// Errors: `NoMark` where no bit is a 1, `TooLong` where the text has more than 8063 bits, `Range`
    /// where the body isn't a multiple of sixteen bits; `OutOfMemory` only for a text that has bits.
    pub fn strip(&self, alloc: Global) -> Result<Bits, BitFault>
        ensures decided { Decided (strip_fault self.now) (λ text. text ≡ text_of self.now) result }
        ensures memory { result ≡ Err fault.OutOfMemory → 0 < length (text_of self.now) }
    {
        let Some(mark) = self.mark() else {
            return Err(BitFault::NoMark);
        };
        if mark > MAX_TEXT_BITS {
            return Err(BitFault::TooLong);
        }
        if self.len() % BODY_UNIT != 0 {
            return Err(BitFault::Range);
        }
        self.slice(alloc, 0, mark)
    }

    /// Returns whether any bit is a 1, as a body's mark is.
    pub fn has_mark(&self) -> bool
        ensures { result ≡ has_mark self.now }
    {
        self.mark().is_some()
    }

    /// Returns the place of the last 1.
    fn mark(&self) -> Option<usize>
        ensures none { result ≡ None → has_mark self.now ≡ false }
        ensures some { IfSome result (λ mark. (has_mark self.now ≡ true) × (mark < length self.now) × (text_of self.now ≡ take mark self.now)) }
    {
        last_one(self.octets.as_slice(), self.octets.len())
    }
}

/// A clone has the same bits. An empty list is cloned without memory.
impl Clone for Bits {
    ghost is_clone = { λ x y. y ≡ x };

    ghost is_infallible = { λ x. x ≡ [] };

    fn clone(&self) -> Result<Bits, AllocError> {
        Ok(Bits {
            octets: self.octets.copied(self.octets.alloc())?,
        })
    }
}

/// Two lists are equal where they have the same bits.
impl PartialEq for Bits {
    ghost use Rattle.std.specs.Bool.{beq};
    ghost use Rattle.std.specs.Cmp.Lexicographic.{pointwise};
    ghost use Rattle.std.proofs.Common.{rules};
    ghost use Rattle.std.specs.Cmp.Rules.{comparing};

    ghost eq = { λ x y. pointwise beq x y };

    ghost laws = { Prim.search (comparing, rules) };

    fn eq(&self, other: &Bits) -> bool {
        if self.octets.len() != other.octets.len() {
            return false;
        }
        let ours = self.octets.as_slice();
        let theirs = other.octets.as_slice();
        are_octets(ours);
        are_octets(theirs);
        ours == theirs
    }
}
