//! The words of a line: numbers, hosts and bits.

ghost use Rattle.std.specs.Prelude.{◌≡◌, ◌≢◌, ℕ, ◌<◌, ◌≤◌, ◌==◌, ◌^◌, false, List, ◌∷◌, ◌++◌, [], length, ◌*◌, take, slice_index, Ok, MatchOption, IfOk, IfErr, IsTrue, ◌↔◌};
ghost use Rattle.std.specs.List.{All};
ghost use Rattle.std.specs.Fmt.{decimal};
ghost use Rattle.std.specs.Str.Parse.{AllDigits, digits_value};
ghost use Rattle.bit_messages.specs.Octets.{bits_of};
ghost use Rattle.interface.specs.Printed.{host_text};
ghost use Rattle.script.specs.Steps.{begins_wrong, IsDirection, Lacks};
ghost use Rattle.script.specs.Spelling.{ReadsAs, IsHost, IsImp, IsHex, direction_text, octets_text};

use crate::hexadecimal::read_octets;
use bit_messages::{BitFault, Bits, MAX_TEXT_BITS};
use interface::{Direction, HostAddr, ImpNumber, Text};
use std::alloc::{AllocError, Global};

/// Returns what precedes the first separator, and what follows it. `None` where there is no separator.
#[inline]
pub fn cut(text: &[u8], separator: u8) -> Option<(&[u8], &[u8])>
    ensures { MatchOption result (All (λ x. (x == separator) ≡ false) text.now) (λ parts. (text.now ≡ parts.0.now ++ separator ∷ parts.1.now) × All (λ x. (x == separator) ≡ false) parts.0.now) }
{
    let at = place_of(text, separator);
    if at == text.len() {
        return None;
    }
    Some((&text[..at], &text[at + 1..]))
}

/// Returns the place of the first separator, or the number of octets where there is none. Four octets are looked at in
/// each turn, since all that is read is searched so.
fn place_of(text: &[u8], separator: u8) -> usize
    ensures inside { result ≤ length text.now }
    ensures lacks { Lacks separator (take result text.now) }
    ensures found { result < length text.now → slice_index text.now result ≡ separator }
{
    let mut at = 0;
    'fours: while text.len() - at >= 4 {
        if text[at] == separator {
            return at;
        }
        if text[at + 1] == separator {
            return at + 1;
        }
        if text[at + 2] == separator {
            return at + 2;
        }
        if text[at + 3] == separator {
            return at + 3;
        }
        at += 4;
    }
    'rest: while at < text.len() && text[at] != separator {
        at += 1;
    }
    at
}

/// Returns whether a word is this one. Where their lengths differ, no octet is looked at. A key is short, and known
/// where a word is compared with it, so that each of its octets becomes one test there.
#[inline(always)]
pub fn is_word(word: &[u8], key: &[u8]) -> bool
    ensures { IsTrue result ↔ (word.now ≡ key.now) }
{
    if word.len() != key.len() {
        return false;
    }
    let mut at = 0;
    'same: while at < key.len() {
        if word[at] != key[at] {
            return false;
        }
        at += 1;
    }
    true
}

/// Returns the number up to `most` that a word spells, without sign and leading zeros.
pub fn read_number(word: &[u8], most: u32) -> Option<u32>
    ensures { ReadsAs decimal (λ n. n ≤ most) word.now result }
{
    let number = plain_number(word)?;
    if number <= most { Some(number) } else { None }
}

/// Returns the number of 32 bits that a word spells.
pub fn plain_number(word: &[u8]) -> Option<u32>
    ensures { ReadsAs decimal (λ n. n < 2 ^ 32) word.now result }
{
    if word.len() == 1 {
        return Some(u32::from(read_digit(word[0])?));
    }
    if word.len() > 10 || begins_wrong(word) {
        None
    } else {
        spelled_number(word)
    }
}

/// Returns the number of 32 bits that at most ten digits spell, read from the first to the last. `None` where one of
/// them is no digit, and where the number has more bits.
fn spelled_number(word: &[u8]) -> Option<u32>
    requires { length word.now ≤ 10 }
    ensures { MatchOption result (AllDigits 10 word.now → 2 ^ 32 ≤ digits_value 10 word.now) (λ n. AllDigits 10 word.now × (n ≡ digits_value 10 word.now) × (n < 2 ^ 32)) }
{
    let mut number: u64 = 0;
    for octet in word {
        if *octet < b'0' || *octet > b'9' {
            return None;
        }
        number = number * 10 + (*octet - b'0') as u64;
    }
    u32::try_from(number).ok()
}

/// Returns whether the first octet shows that a word is no number.
fn begins_wrong(word: &[u8]) -> bool
    ensures { result ≡ begins_wrong word.now }
{
    match word.split_first() {
        Some((first, rest)) => *first == b'+' || (*first == b'0' && !rest.is_empty()),
        None => true,
    }
}

/// Returns the number from 0 to 255 that a word spells.
pub(crate) fn read_octet(word: &[u8]) -> Option<u8>
    ensures { ReadsAs decimal (λ n. n < 256) word.now result }
{
    if word.len() == 1 {
        return read_digit(word[0]);
    }
    if word.len() == 2 {
        return read_two_digits(word[0], word[1]);
    }
    let number = read_number(word, 255)?;
    u8::try_from(number).ok()
}

/// Returns the number that one digit spells.
#[inline]
fn read_digit(digit: u8) -> Option<u8>
    ensures octet { ReadsAs decimal (λ n. n < 256) (digit ∷ []) result }
    ensures wide { ReadsAs decimal (λ n. n < 2 ^ 32) (digit ∷ []) result }
{
    if digit < b'0' || digit > b'9' {
        return None;
    }
    Some(digit - b'0')
}

/// Returns the number that two digits spell.
#[inline]
fn read_two_digits(tens: u8, ones: u8) -> Option<u8>
    ensures { ReadsAs decimal (λ n. n < 256) (tens ∷ ones ∷ []) result }
{
    if tens < b'1' || tens > b'9' || ones < b'0' || ones > b'9' {
        return None;
    }
    Some((tens - b'0') * 10 + (ones - b'0'))
}

/// Returns the IMP that a word spells by its number, 1 to 63.
pub(crate) fn read_imp(word: &[u8]) -> Option<ImpNumber>
    ensures { ReadsAs decimal IsImp word.now result }
{
    ImpNumber::new(read_octet(word)?)
}

/// Returns the direction of a line that a word spells: `+` is from its first IMP to its second, `-` is back.
pub(crate) fn read_direction(word: &[u8]) -> Option<Direction>
    ensures { ReadsAs direction_text IsDirection word.now result }
{
    if is_word(word, b"+") {
        Some(Direction::Forward)
    } else if is_word(word, b"-") {
        Some(Direction::Back)
    } else {
        None
    }
}

/// Returns the host that a word spells as `host/imp`. The number of each host has one digit.
#[inline]
pub fn read_host(word: &[u8]) -> Option<HostAddr>
    ensures { ReadsAs host_text IsHost word.now result }
{
    if word.len() < 2 || word[1] != b'/' {
        return None;
    }
    let host = read_digit(word[0])?;
    let (_, imp) = word.split_at(2);
    let imp = read_octet(imp)?;
    HostAddr::new(host, imp)
}

/// Returns the text of `count` bits whose octets a word spells, as [`read_bits`] reads them.
///
/// Errors: `AllocError`, only for a word of hexadecimal octets.
pub(crate) fn read_text(
    alloc: Global,
    count: usize,
    word: &[u8],
) -> Result<Option<Text>, AllocError>
    requires { count ≤ 8063 }
    ensures read { IfOk result (ReadsAs octets_text (λ bits. length bits ≡ count) word.now) }
    ensures memory { IfErr result (λ _. IsHex word.now) }
{
    match read_bits(alloc, count, word)? {
        Some(bits) => Ok(Text::new(bits)),
        None => Ok(None),
    }
}

/// Returns the `count` bits whose octets a word spells: in upper case hexadecimal with unused bits zero, or as `-` for
/// no bits.
///
/// Errors: `AllocError`, only for a word of hexadecimal octets.
pub fn read_bits(alloc: Global, count: usize, word: &[u8]) -> Result<Option<Bits>, AllocError>
    ensures read { IfOk result (ReadsAs octets_text (λ bits. length bits ≡ count) word.now) }
    ensures memory { IfErr result (λ _. IsHex word.now) }
{
    if count == 0 {
        return Ok(if is_word(word, b"-") {
            Some(Bits::new(alloc))
        } else {
            None
        });
    }
    let Some(octets) = read_octets(alloc, word)? else {
        return Ok(None);
    };
    let Some(bits) = first_bits(alloc, &octets, count)? else {
        return Ok(None);
    };
    if bits.as_octets() == octets.as_slice() {
        Ok(Some(bits))
    } else {
        Ok(None)
    }
}

/// Returns the first `count` bits of these octets. `None` where they have fewer.
///
/// Errors: `AllocError`, only where there are this many.
fn first_bits(alloc: Global, octets: &[u8], count: usize) -> Result<Option<Bits>, AllocError>
    ensures read { IfOk result (λ read. MatchOption read (8 * length octets.now < count) (λ bits. (count ≤ 8 * length octets.now) × (bits ≡ take count (bits_of octets.now)))) }
    ensures memory { IfErr result (λ _. (0 < count) × (count ≤ 8 * length octets.now)) }
{
    match Bits::from_octets(alloc, octets, count) {
        Ok(bits) => Ok(Some(bits)),
        Err(BitFault::OutOfMemory) => Err(AllocError),
        Err(BitFault::NoMark | BitFault::TooLong | BitFault::Range) => Ok(None),
    }
}

/// Returns the number of bits of a message's text that a word spells.
pub(crate) fn read_count(word: &[u8]) -> Option<usize>
    ensures { ReadsAs decimal (λ n. n ≤ 8063) word.now result }
{
    let number = read_number(word, MAX_TEXT_BITS as u32)?;
    Some(number as usize)
}
