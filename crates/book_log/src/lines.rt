//! The lines of a log.

ghost use Rattle.promise.specs.Fates.{is_over};
ghost use Rattle.std.specs.Bool.{OnTrue};
ghost use Rattle.std.specs.Prelude.{◌≡◌, ◌↔◌, ◌*◌, ◌≤◌, IfOk, IsTrue, MatchResult, length};
ghost use Rattle.script.specs.Spelling.{IsHost, IsMessage, ReadsAs};
ghost use Rattle.world_replay.specs.Printed.{kind_text};
ghost use Rattle.book_log.specs.Log.{HasOctets, IsAmount, IsHanded, IsLived, answer_name, fate_name};
ghost use Rattle.book_log.specs.Steps.{AreCounts, AreEnds, IsAnswer, IsFate, IsKind, IsLine, ReadsShort, ReadsWords, TakesWords, amount_words, answer_words, counts_words, ends_words, handed_words};
ghost use Rattle.book_log.specs.Steps.{host_words, life_of, life_words, line_text, message_words, words_left};

use crate::words::Words;
use bit_messages::Bits;
use interface::{Answer, Crossing, Flow, HostAddr, HostMessage, Text};
use net_sim::{Amount, BitLog, Life};
use promise::Fate;
use script::reading::cut;
use std::alloc::{AllocError, Global};

/// What a line of a log describes.
#[derive(Drop)]
pub(crate) enum Line {
    /// What crossed.
    Crossed(Crossing),
    /// A life, and how far it is.
    Lived(Life, Fate),
    /// What was handed over in a life.
    Handed(BitLog),
    /// That nothing follows.
    End,
}

/// Returns how many of the lines with which a text begins look like crossings, up to the first that doesn't.
pub(crate) fn crossings_ahead(text: &[u8]) -> usize
    ensures { 6 * result ≤ length text.now }
{
    let mut count = 0;
    let mut left = text;
    'lines: while let Some((line, more)) = cut(left, b'\n') {
        if !may_cross(line) {
            return count;
        }
        count += 1;
        left = more;
    }
    count
}

/// Returns whether a line is as long as that of a crossing, and begins as `out`, `in`, `answer`, `down` or `up`.
fn may_cross(line: &[u8]) -> bool
    ensures { OnTrue result (6 ≤ length line.now) }
{
    line.len() >= 6 && matches!(line[0], b'o' | b'i' | b'a' | b'd' | b'u')
}

/// Returns what a line describes. `None` where it is no line of a log.
///
/// Errors: `AllocError`, only for a message, a life, or what was handed over.
pub(crate) fn read_line(alloc: Global, line: &[u8]) -> Result<Option<Line>, AllocError>
    ensures { MatchResult result (ReadsAs line_text IsLine line.now) (λ _. HasOctets line.now) }
{
    let mut words = Words::of(line);
    let Some(first) = words.next() else {
        return Ok(None);
    };
    if first == b"out".as_slice() {
        let Some(message) = read_message(alloc, words)? else {
            return Ok(None);
        };
        return Ok(Some(Line::Crossed(Crossing::Out(message))));
    }
    if first == b"in".as_slice() {
        let Some(message) = read_message(alloc, words)? else {
            return Ok(None);
        };
        return Ok(Some(Line::Crossed(Crossing::In(message))));
    }
    if first == b"life".as_slice() {
        let Some((life, fate)) = read_life(alloc, words)? else {
            return Ok(None);
        };
        return Ok(Some(Line::Lived(life, fate)));
    }
    if first == b"handed".as_slice() {
        let Some(bits) = read_handed(alloc, words)? else {
            return Ok(None);
        };
        return Ok(Some(Line::Handed(bits)));
    }
    Ok(read_short(first, words))
}

/// Returns what a line without octets describes, by its first word and those after it.
fn read_short(first: &[u8], words: Words<'_>) -> Option<Line>
    ensures { ReadsShort first.now (words_left words.entry) result }
{
    if first == b"answer".as_slice() {
        let (answer, flow) = read_answer(words)?;
        return Some(Line::Crossed(Crossing::Answer(answer, flow)));
    }
    if first == b"down".as_slice() {
        return Some(Line::Crossed(Crossing::Down(read_one(words)?)));
    }
    if first == b"up".as_slice() {
        return Some(Line::Crossed(Crossing::Up(read_one(words)?)));
    }
    if first == b"end".as_slice() && words.is_over() {
        return Some(Line::End);
    }
    None
}

/// Reads `HOST`
fn read_one(mut words: Words<'_>) -> Option<HostAddr>
    ensures { ReadsWords host_words IsHost (words_left words.entry) result }
{
    let host = words.host()?;
    if words.is_over() { Some(host) } else { None }
}

/// Reads `KIND S D N`
fn read_answer(mut words: Words<'_>) -> Option<(Answer, Flow)>
    ensures { ReadsWords answer_words IsAnswer (words_left words.entry) result }
{
    let answer = read_kind(words.next()?)?;
    let flow = words.flow()?;
    if words.is_over() {
        Some((answer, flow))
    } else {
        None
    }
}

/// Returns the answer that a word names.
fn read_kind(word: &[u8]) -> Option<Answer>
    ensures { ReadsAs answer_name IsKind word.now result }
{
    if word == b"rfnm".as_slice() {
        Some(Answer::Rfnm)
    } else if word == b"dead".as_slice() {
        Some(Answer::Dead)
    } else if word == b"incomplete".as_slice() {
        Some(Answer::Incomplete)
    } else if word == b"nottaken".as_slice() {
        Some(Answer::NotTaken)
    } else {
        None
    }
}

/// Reads `BITS OCTETS`
///
/// Errors: `AllocError`.
fn read_handed(alloc: Global, mut words: Words<'_>) -> Result<Option<BitLog>, AllocError>
    ensures { IfOk result (ReadsWords handed_words IsHanded (words_left words.entry)) }
{
    match read_counted(alloc, &mut words)? {
        Some(bits) if words.is_over() => Ok(Some(BitLog::from_bits(alloc, bits))),
        _ => Ok(None),
    }
}

/// Reads `S D N BITS OCTETS`
///
/// Errors: `AllocError`.
fn read_message(alloc: Global, mut words: Words<'_>) -> Result<Option<HostMessage>, AllocError>
    ensures { IfOk result (ReadsWords message_words IsMessage (words_left words.entry)) }
{
    let Some(flow) = words.flow() else {
        return Ok(None);
    };
    let Some(bits) = read_counted(alloc, &mut words)? else {
        return Ok(None);
    };
    if !words.is_over() {
        return Ok(None);
    }
    let Some(text) = Text::new(bits) else {
        return Ok(None);
    };
    Ok(Some(HostMessage { flow, text }))
}

/// Reads `BITS OCTETS`, and what is after them.
///
/// Errors: `AllocError`.
fn read_counted(alloc: Global, words: &mut Words<'_>) -> Result<Option<Bits>, AllocError>
    ensures { IfOk result (λ read. TakesWords handed_words IsHanded (words_left words.old) read (words_left words.new)) }
{
    let Some(count) = words.place() else {
        return Ok(None);
    };
    words.bits(alloc, count)
}

/// Both ends of a life, and its requests.
#[derive(Drop)]
pub(crate) struct Ends {
    pub host: HostAddr,
    pub socket: u32,
    pub peer: HostAddr,
    pub foreign: u32,
    pub own_stamp: usize,
    pub partner_stamp: usize,
}

/// The counts of a life, and how far it is.
#[derive(Drop)]
pub(crate) struct Counts {
    pub messages: u128,
    pub bits: usize,
    pub granted: Amount,
    pub returned: Amount,
    pub fate: Fate,
}

/// Reads `HOST SOCKET PEER FOREIGN OWN PARTNER KIND MESSAGES BITS GM GB RM RB FATE OCTETS`
///
/// Errors: `AllocError`.
fn read_life(alloc: Global, mut words: Words<'_>) -> Result<Option<(Life, Fate)>, AllocError>
    ensures { IfOk result (ReadsWords life_words IsLived (words_left words.entry)) }
{
    let Some(ends) = read_ends(&mut words) else {
        return Ok(None);
    };
    let Some(counts) = read_counts(&mut words) else {
        return Ok(None);
    };
    let Some(bits) = words.bits(alloc, counts.bits)? else {
        return Ok(None);
    };
    if !words.is_over() {
        return Ok(None);
    }
    let fate = counts.fate;
    let life = life_of(ends, counts, BitLog::from_bits(alloc, bits));
    Ok(Some((life, fate)))
}

/// Returns the life with these ends, counts and bits.
fn life_of(ends: Ends, counts: Counts, bits: BitLog) -> Life
    ensures { result ≡ life_of ends counts bits }
{
    Life {
        host: ends.host,
        socket: ends.socket,
        peer: ends.peer,
        foreign: ends.foreign,
        own_stamp: ends.own_stamp,
        partner_stamp: ends.partner_stamp,
        bits,
        messages: counts.messages,
        granted: counts.granted,
        returned: counts.returned,
        ended: is_over(counts.fate),
    }
}

/// Reads `HOST SOCKET PEER FOREIGN OWN PARTNER KIND`
fn read_ends(words: &mut Words<'_>) -> Option<Ends>
    ensures { TakesWords ends_words AreEnds (words_left words.old) result (words_left words.new) }
{
    let host = words.host()?;
    let socket = words.number()?;
    let peer = words.host()?;
    let foreign = words.number()?;
    let own_stamp = words.place()?;
    let partner_stamp = words.place()?;
    let kind = words.next()?;
    if !is_kind(kind, socket) {
        return None;
    }
    Some(Ends {
        host,
        socket,
        peer,
        foreign,
        own_stamp,
        partner_stamp,
    })
}

/// Returns whether a word names the kind of a socket's life.
fn is_kind(word: &[u8], socket: u32) -> bool
    ensures { IsTrue result ↔ (word.now ≡ kind_text socket) }
{
    if socket % 2 == 0 {
        word == b"receive".as_slice()
    } else {
        word == b"send".as_slice()
    }
}

/// Reads `MESSAGES BITS GM GB RM RB FATE`
fn read_counts(words: &mut Words<'_>) -> Option<Counts>
    ensures { TakesWords counts_words AreCounts (words_left words.old) result (words_left words.new) }
{
    let messages = words.count()?;
    let bits = words.place()?;
    let granted = read_amount(words)?;
    let returned = read_amount(words)?;
    let state = words.next()?;
    let fate = read_fate(state)?;
    Some(Counts {
        messages,
        bits,
        granted,
        returned,
        fate,
    })
}

/// Reads messages and bits.
fn read_amount(words: &mut Words<'_>) -> Option<Amount>
    ensures { TakesWords amount_words IsAmount (words_left words.old) result (words_left words.new) }
{
    let messages = words.count()?;
    let bits = words.count()?;
    Some(Amount { messages, bits })
}

/// Returns the fate that a word names.
fn read_fate(word: &[u8]) -> Option<Fate>
    ensures { ReadsAs fate_name IsFate word.now result }
{
    if word == b"open".as_slice() {
        Some(Fate::Open)
    } else if word == b"closed".as_slice() {
        Some(Fate::Closed)
    } else if word == b"ended".as_slice() {
        Some(Fate::Ended)
    } else if word == b"reset".as_slice() {
        Some(Fate::Reset)
    } else if word == b"stopped".as_slice() {
        Some(Fate::Stopped)
    } else {
        None
    }
}

/// Returns whether a life with this fate is over.
fn is_over(fate: Fate) -> bool
    ensures { result ≡ is_over fate }
{
    match fate {
        Fate::Open | Fate::Closing => false,
        Fate::Closed | Fate::Ended | Fate::Reset | Fate::Stopped => true,
    }
}
