//! Octets in upper case hexadecimal.
//!
//! The digits of a text can't be foretold, so a branch for each of them would be costly. They are tested and
//! read by arithmetic only.

ghost use Rattle.std.specs.Prelude.{◌≡◌, ◌<◌, ◌%◌, true, length, slice_index, MatchOption, IfOk, IfErr};
ghost use Rattle.std.specs.List.{list_all};
ghost use Rattle.hex.specs.Hex.{encode_upper, upper_digits};
ghost use Rattle.script.specs.Spelling.{IsHex, is_upper_digit};
ghost use Rattle.script.specs.Steps.{Spells, SpellsNone};

use std::alloc::{AllocError, Global};

/// Returns the octets that a word spells in upper case hexadecimal. A word that spells none is refused before memory is
/// taken.
///
/// Errors: `AllocError`, only for a word of hexadecimal octets.
pub(crate) fn read_octets(alloc: Global, word: &[u8]) -> Result<Option<Vec<u8>>, AllocError>
    ensures read { IfOk result (λ read. MatchOption read (SpellsNone word.now) (λ octets. Spells word.now octets.items)) }
    ensures memory { IfErr result (λ _. IsHex word.now) }
{
    if word.len() % 2 != 0 || !has_upper_digits(word) {
        return Ok(None);
    }
    Ok(Some(spelled_octets(alloc, word)?))
}

/// Returns whether each octet of a word is an upper case hexadecimal digit.
fn has_upper_digits(word: &[u8]) -> bool
    ensures { result ≡ list_all is_upper_digit word.now }
{
    let mut all = true;
    for octet in word {
        all &= is_upper_digit(*octet);
    }
    all
}

/// Returns whether an octet is an upper case hexadecimal digit.
fn is_upper_digit(octet: u8) -> bool
    ensures { result ≡ is_upper_digit octet }
{
    (48 <= octet) & (octet <= 57) | (65 <= octet) & (octet <= 70)
}

/// Returns the octets that these digits spell, two digits each.
fn spelled_octets(alloc: Global, word: &[u8]) -> Result<Vec<u8>, AllocError>
    requires even { length word.now % 2 ≡ 0 }
    requires digits { list_all is_upper_digit word.now ≡ true }
    ensures { IfOk result (λ octets. word.now ≡ encode_upper octets.items) }
{
    let size = word.len() / 2;
    let mut octets = vec![in alloc; 0u8; size]?;
    for i in 0..size {
        octets[i] = 16 * value_of(word[2 * i]) + value_of(word[2 * i + 1]);
    }
    Ok(octets)
}

/// Returns the value of an upper case hexadecimal digit.
fn value_of(digit: u8) -> u8
    requires { is_upper_digit digit ≡ true }
    ensures small { result < 16 }
    ensures same { slice_index upper_digits result ≡ digit }
{
    digit % 16 + digit / 64 * 9
}
