//! Runs of bits in octets: the most significant bit of an octet comes first.
//!
//! Here a list of bits is a slice of octets and a number of bits. Bits are moved by whole octets, across the
//! borders of octets by shifts.

ghost use Rattle.std.specs.Prelude.{◌≡◌, ℕ, ◌+◌, ◌-◌, ◌*◌, ◌/◌, ◌%◌, ◌<◌, ◌≤◌, ◌^◌, ◌++◌, ◌∷◌, [], All, length, take, drop, replicate, slice_index, slice_index_or, true, false, ◌≢◌, None, IfOk, IfSome, OnOk, OnErr};
ghost use Rattle.bit_messages.specs.Body.{has_mark, text_of};
ghost use Rattle.bit_messages.specs.Octets.{bits_of, octet_bits};
ghost use Rattle.bit_messages.specs.Packed.{IsPacked, Packs};
ghost use Rattle.bit_messages.specs.Store.{octets_for};

use crate::store::Octets;
use std::alloc::{AllocError, Global};

/// Returns the bit at a place.
pub(crate) fn bit_in(octets: &[u8], place: usize) -> bool
    requires there { place < 8 * length octets.now }
    ensures { result ≡ slice_index_or (bits_of octets.now) place false }
{
    octets[place / 8] >> (7 - place % 8) & 1 == 1
}

/// Returns these octets in a vector of their own.
pub(crate) fn copied(alloc: Global, octets: &[u8]) -> Result<Vec<u8>, AllocError>
    ensures same { IfOk result (λ copy. copy.items ≡ octets.now) }
    ensures memory { OnErr result (0 < length octets.now) }
{
    let mut copy = Vec::new(alloc);
    copy.extend_from_slice(octets)?;
    Ok(copy)
}

/// Returns the octets of `count` bits from place `from` on.
pub(crate) fn part(
    alloc: Global,
    octets: &[u8],
    from: usize,
    count: usize,
) -> Result<Octets, AllocError>
    requires there { from + count ≤ 8 * length octets.now }
    ensures packed { IfOk result (λ part. Packs part.octets (take count (drop from (bits_of octets.now)))) }
    ensures size { IfOk result (λ part. length part.octets ≡ octets_for count) }
    ensures len { IfOk result (λ part. part.len ≡ count) }
    ensures memory { OnErr result (0 < count) }
{
    let mut part = begun(alloc, octets, from, count)?;
    let used = count % 8;
    if used == 0 {
        return Ok(part);
    }
    let last = cleared(part.as_slice()[count / 8], used);
    part.set(count / 8, last);
    Ok(part)
}

/// Returns the octets that `count` bits from place `from` on begin; in the last octet other bits may follow them.
fn begun(alloc: Global, octets: &[u8], from: usize, count: usize) -> Result<Octets, AllocError>
    requires there { from + count ≤ 8 * length octets.now }
    ensures bits { IfOk result (λ part. take count (bits_of part.octets) ≡ take count (drop from (bits_of octets.now))) }
    ensures size { IfOk result (λ part. length part.octets ≡ octets_for count) }
    ensures len { IfOk result (λ part. part.len ≡ count) }
    ensures memory { OnErr result (0 < count) }
{
    let (_, rest) = octets.split_at(from / 8);
    let size = count.div_ceil(8);
    if from % 8 == 0 {
        return Octets::from_slice(alloc, rest.split_at(size).0, count);
    }
    shifted(alloc, rest, from % 8, count)
}

/// Returns the octets of the bits after the first `by` bits that `count` bits need, with zeros after the last bit.
fn shifted(alloc: Global, octets: &[u8], by: usize, count: usize) -> Result<Octets, AllocError>
    requires some { 0 < by }
    requires few { by < 8 }
    requires there { octets_for count ≤ length octets.now }
    ensures bits { IfOk result (λ part. bits_of part.octets ≡ take (8 * octets_for count) (drop by (bits_of octets.now ++ replicate 8 false))) }
    ensures size { IfOk result (λ part. length part.octets ≡ octets_for count) }
    ensures len { IfOk result (λ part. part.len ≡ count) }
    ensures memory { OnErr result (0 < count) }
{
    let size = count.div_ceil(8);
    let mut part = Octets::from_slice(alloc, octets.split_at(size).0, count)?;
    for i in 0..size {
        part.set(i, joined(octets[i], octet_at(octets, i + 1), by));
    }
    Ok(part)
}

/// Returns the octet at a place; a zero past the end.
fn octet_at(octets: &[u8], place: usize) -> u8
    ensures { result ≡ slice_index octets.now place }
{
    octets.get(place).copied().unwrap_or(0)
}

/// Returns the octet of the eight bits after the first `by` bits of two octets.
fn joined(first: u8, second: u8, by: usize) -> u8
    requires some { 0 < by }
    requires few { by < 8 }
    ensures { octet_bits result ≡ drop by (octet_bits first) ++ take by (octet_bits second) }
{
    first << by | second >> (8 - by)
}

/// Returns the first `used` bits of an octet, and zeros after them.
fn cleared(octet: u8, used: usize) -> u8
    requires some { 0 < used }
    requires few { used < 8 }
    ensures { octet_bits result ≡ take used (octet_bits octet) ++ replicate (8 - used) false }
{
    octet & (u8::MAX << (8 - used))
}

/// Returns an octet of `used` bits, filled up with the first bits of the next one.
fn filled(octet: u8, used: usize, next: u8) -> u8
    requires some { 0 < used }
    requires few { used < 8 }
    requires zeros { octet_bits octet ≡ take used (octet_bits octet) ++ replicate (8 - used) false }
    ensures { octet_bits result ≡ take used (octet_bits octet) ++ take (8 - used) (octet_bits next) }
{
    octet | next >> used
}

/// Puts the first `more_len` bits of `more` after those of `octets`.
pub(crate) fn put(octets: &mut Octets, more: &[u8], more_len: usize) -> Result<(), AllocError>
    requires packed { IsPacked octets.old.octets octets.old.len }
    requires more { IsPacked more.now more_len }
    ensures ok { OnOk result (Packs octets.new.octets (take octets.old.len (bits_of octets.old.octets) ++ take more_len (bits_of more.now))) }
    ensures len { OnOk result (octets.new.len ≡ octets.old.len + more_len) }
    ensures err { OnErr result (octets.new ≡ octets.old) }
    ensures memory { OnErr result (0 < more_len) }
{
    if more.is_empty() {
        return Ok(());
    }
    let len = octets.len();
    let Some(all) = len.checked_add(more_len) else {
        return Err(AllocError);
    };
    let used = len % 8;
    if used == 0 {
        return octets.append(more, all);
    }
    let room = 8 - used;
    let tail = part(octets.alloc(), more, room, more_len.saturating_sub(room))?;
    octets.append(tail.as_slice(), all)?;
    let last = filled(octets.as_slice()[len / 8], used, more[0]);
    octets.set(len / 8, last);
    Ok(())
}

/// Puts a bit after those of `octets`.
pub(crate) fn put_bit(octets: &mut Octets, bit: bool) -> Result<(), AllocError>
    requires packed { IsPacked octets.old.octets octets.old.len }
    ensures ok { OnOk result (Packs octets.new.octets (take octets.old.len (bits_of octets.old.octets) ++ bit ∷ [])) }
    ensures len { OnOk result (octets.new.len ≡ octets.old.len + 1) }
    ensures err { OnErr result (octets.new ≡ octets.old) }
{
    put(octets, &[octet_with(bit)], 1)
}

/// Puts a 1 and zeros after the bits of `octets`, which are `count` bits together.
pub(crate) fn put_mark(octets: &mut Octets, count: usize) -> Result<(), AllocError>
    requires packed { IsPacked octets.old.octets octets.old.len }
    requires some { 0 < count }
    requires few { count ≤ 16 }
    ensures ok { OnOk result (Packs octets.new.octets (take octets.old.len (bits_of octets.old.octets) ++ true ∷ replicate (count - 1) false)) }
    ensures len { OnOk result (octets.new.len ≡ octets.old.len + count) }
{
    if count > 8 {
        return put(octets, &[128, 0], count);
    }
    put(octets, &[128], count)
}

/// Returns the octet that begins with this bit and has zeros after it.
fn octet_with(bit: bool) -> u8
    ensures { octet_bits result ≡ bit ∷ replicate 7 false }
{
    if bit { 128 } else { 0 }
}

/// Proves that octets are below 256. The function is there for the proof only, and does nothing: its clause is what
/// the type says of the octets.
pub(crate) fn are_octets(octets: &[u8])
    ensures { All (λ n. n < 256) octets.now }
{
    let _octets = octets;
}

/// Returns the place of the last 1 in the octets of `len` bits.
pub(crate) fn last_one(octets: &[u8], len: usize) -> Option<usize>
    requires few { 8 * length octets.now < len + 8 }
    ensures none { result ≡ None → has_mark (bits_of octets.now) ≡ false }
    ensures some { IfSome result (λ mark. (has_mark (bits_of octets.now) ≡ true) × (mark < 8 * length octets.now) × (text_of (bits_of octets.now) ≡ take mark (bits_of octets.now))) }
{
    let mut end = octets.len();
    'octets: while end > 0 {
        end -= 1;
        if octets[end] != 0 {
            return Some(8 * end + 7 - octets[end].trailing_zeros() as usize);
        }
    }
    None
}
