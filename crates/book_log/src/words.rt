//! The words of a line, read one after the other.

ghost use Rattle.std.specs.Prelude.{◌≡◌, ◌∷◌, ◌<◌, ◌≤◌, ◌^◌, [], MatchOption, IfOk, length};
ghost use Rattle.std.specs.Fmt.{decimal};
ghost use Rattle.interface.specs.Printed.{flow_text, host_text};
ghost use Rattle.script.specs.Spelling.{IsFlow, IsHost, ReadsAs, octets_text};
ghost use Rattle.book_log.specs.Steps.{TakesAs, TakesWords, begins_wrong, flow_words, is_over, words_behind, words_in, words_left};

use bit_messages::Bits;
use interface::{Flow, HostAddr, Link};
use script::reading::{cut, plain_number, read_bits, read_host, read_number};
use std::alloc::{AllocError, Global};
use std::str;

/// What is left of a line: words with one space between each two. `None` where no word is left.
#[derive(Drop)]
pub(crate) struct Words<'a> {
    /// The text of the words that are left.
    rest: Option<&'a [u8]>,
}

impl<'a> Words<'a> {
    /// Returns the words of a line. There is at least one, which may be empty.
    pub(crate) fn of(line: &'a [u8]) -> Words<'a>
        ensures { words_left result ≡ words_in line.now }
    {
        Words { rest: Some(line) }
    }

    /// Returns the next word.
    pub(crate) fn next(&mut self) -> Option<&'a [u8]>
        ensures { MatchOption result ((words_left self.old ≡ []) × (words_left self.new ≡ [])) (λ word. words_left self.old ≡ word.now ∷ words_left self.new) }
    {
        let Some(text) = self.rest else {
            return None;
        };
        let (word, rest) = first_word(text);
        self.rest = rest;
        Some(word)
    }

    /// Returns whether no word is left.
    pub(crate) fn is_over(&self) -> bool
        ensures { result ≡ is_over (words_left self.now) }
    {
        match self.rest {
            Some(_) => false,
            None => true,
        }
    }

    /// Returns the host that the next word spells.
    pub(crate) fn host(&mut self) -> Option<HostAddr>
        ensures { TakesAs host_text IsHost (words_left self.old) result (words_left self.new) }
    {
        read_host(self.next()?)
    }

    /// Returns the number of 128 bits that the next word spells.
    pub(crate) fn count(&mut self) -> Option<u128>
        ensures { TakesAs decimal (λ n. n < 2 ^ 128) (words_left self.old) result (words_left self.new) }
    {
        read_wide(self.next()?)
    }

    /// Returns the number of 64 bits that the next word spells.
    pub(crate) fn place(&mut self) -> Option<usize>
        ensures { TakesAs decimal (λ n. n < 2 ^ 64) (words_left self.old) result (words_left self.new) }
    {
        read_place(self.next()?)
    }

    /// Returns the number of 32 bits that the next word spells.
    pub(crate) fn number(&mut self) -> Option<u32>
        ensures { TakesAs decimal (λ n. n < 2 ^ 32) (words_left self.old) result (words_left self.new) }
    {
        plain_number(self.next()?)
    }

    /// Returns the number of 8 bits that the next word spells.
    pub(crate) fn octet(&mut self) -> Option<u8>
        ensures { TakesAs decimal (λ n. n < 256) (words_left self.old) result (words_left self.new) }
    {
        read_octet(self.next()?)
    }

    /// Returns the flow that the next three words spell.
    pub(crate) fn flow(&mut self) -> Option<Flow>
        ensures { TakesWords flow_words IsFlow (words_left self.old) result (words_left self.new) }
    {
        let source = self.host()?;
        let destination = self.host()?;
        let link = Link(self.octet()?);
        Some(Flow {
            source,
            destination,
            link,
        })
    }

    /// Returns the `count` bits whose octets the next word spells.
    ///
    /// Errors: `AllocError`.
    pub(crate) fn bits(&mut self, alloc: Global, count: usize) -> Result<Option<Bits>, AllocError>
        ensures { IfOk result (λ read. TakesAs octets_text (λ bits. length bits ≡ count) (words_left self.old) read (words_left self.new)) }
    {
        match self.next() {
            Some(word) => read_bits(alloc, count, word),
            None => Ok(None),
        }
    }
}

/// Returns the first word of a text, and the text after the space after it, where there is one.
fn first_word(text: &[u8]) -> (&[u8], Option<&[u8]>)
    ensures { words_in text.now ≡ result.0.now ∷ words_behind result.1 }
{
    match cut(text, b' ') {
        Some((word, more)) => (word, Some(more)),
        None => (text, None),
    }
}

/// Returns the number from 0 to 255 that a word spells.
fn read_octet(word: &[u8]) -> Option<u8>
    ensures { ReadsAs decimal (λ n. n < 256) word.now result }
{
    let number = read_number(word, 255)?;
    u8::try_from(number).ok()
}

/// Returns the number of 64 bits that a word spells.
fn read_place(word: &[u8]) -> Option<usize>
    ensures { ReadsAs decimal (λ n. n < 2 ^ 64) word.now result }
{
    let number = read_wide(word)?;
    usize::try_from(number).ok()
}

/// Returns the number of 128 bits that a word spells, without sign and leading zeros.
fn read_wide(word: &[u8]) -> Option<u128>
    ensures { ReadsAs decimal (λ n. n < 2 ^ 128) word.now result }
{
    if begins_wrong(word) {
        return None;
    }
    match str::from_utf8(word) {
        Ok(text) => text.parse::<u128>().ok(),
        Err(_) => None,
    }
}

/// Returns whether the first octet shows that a word is no number.
fn begins_wrong(word: &[u8]) -> bool
    ensures { result ≡ begins_wrong word.now }
{
    match word.split_first() {
        Some((first, rest)) => *first == b'+' || (*first == b'0' && !rest.is_empty()),
        None => true,
    }
}
