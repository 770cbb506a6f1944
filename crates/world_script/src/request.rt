//! What a user asks for, from the words after its host.

ghost use Rattle.std.specs.Prelude.{◌≡◌, ◌≢◌, ◌≤◌, ◌++◌, ◌∷◌, List, ℕ, ◌<◌, ◌^◌, IfOk, IfErr, MatchOption};
ghost use Rattle.std.specs.Fmt.{decimal};
ghost use Rattle.script.specs.Spelling.{ReadsAs};
ghost use Rattle.world_script.specs.Steps.{AreThree, AreTwo, IsSendRest, ReadsRequest, three_text, two_text};
ghost use Rattle.world_script.specs.declared.verb.Verb.TheVariants as verb_at;

use crate::verb::Verb;
use script::reading::{cut, plain_number, read_bits, read_host, read_number};
use sockets::Request;
use std::alloc::{AllocError, Global};

/// Returns the request that a verb and its arguments ask for.
///
/// Errors: `AllocError`, only for the octets to send.
pub(crate) fn read_request(
    alloc: Global,
    verb: Verb,
    words: &[u8],
) -> Result<Option<Request>, AllocError>
    ensures read { IfOk result (ReadsRequest verb words.now) }
    ensures memory { IfErr result (λ _. (verb ≡ verb_at.Send) × IsSendRest words.now) }
{
    Ok(match verb {
        Verb::Contact => read_contact(words),
        Verb::Echo => read_echo(words),
        Verb::Listen => read_listen(words),
        Verb::OpenSend => read_open_send(words),
        Verb::OpenReceive => read_open_receive(words),
        Verb::Send => read_send(alloc, words)?,
        Verb::Grant => read_grant(words),
        Verb::AskBack => read_ask_back(words),
        Verb::Interrupt => read_interrupt(words),
        Verb::Close => read_close(words),
    })
}

/// Reads `PEER`
fn read_contact(words: &[u8]) -> Option<Request>
    ensures { ReadsRequest verb_at.Contact words.now result }
{
    let peer = read_host(words)?;
    Some(Request::Contact { peer })
}

/// Reads `PEER OCTET`
fn read_echo(words: &[u8]) -> Option<Request>
    ensures { ReadsRequest verb_at.Echo words.now result }
{
    let (host, rest) = cut(words, b' ')?;
    let peer = read_host(host)?;
    let octet = read_number(rest, 255)?;
    Some(Request::Echo {
        peer,
        octet: octet as u8,
    })
}

/// Reads `SOCKET SIZE`
fn read_listen(words: &[u8]) -> Option<Request>
    ensures { ReadsRequest verb_at.Listen words.now result }
{
    let (socket, size) = read_two(words, u32::MAX, 255)?;
    Some(Request::Listen {
        socket,
        size: size as u8,
    })
}

/// Reads `PEER OWN FOREIGN SIZE`
fn read_open_send(words: &[u8]) -> Option<Request>
    ensures { ReadsRequest verb_at.OpenSend words.now result }
{
    let (host, rest) = cut(words, b' ')?;
    let peer = read_host(host)?;
    let (own, foreign, size) = read_three(rest, u32::MAX, u32::MAX, 255)?;
    Some(Request::OpenSend {
        peer,
        own,
        foreign,
        size: size as u8,
    })
}

/// Reads `PEER OWN FOREIGN`
fn read_open_receive(words: &[u8]) -> Option<Request>
    ensures { ReadsRequest verb_at.OpenReceive words.now result }
{
    let (host, rest) = cut(words, b' ')?;
    let peer = read_host(host)?;
    let (own, foreign) = read_two(rest, u32::MAX, u32::MAX)?;
    Some(Request::OpenReceive { peer, own, foreign })
}

/// Reads `SOCKET BITS OCTETS`
///
/// Errors: `AllocError`, only where all words but the last are good and the last one is hexadecimal.
fn read_send(alloc: Global, words: &[u8]) -> Result<Option<Request>, AllocError>
    ensures read { IfOk result (ReadsRequest verb_at.Send words.now) }
    ensures memory { IfErr result (λ _. IsSendRest words.now) }
{
    let Some((socket, rest)) = cut_number(words) else {
        return Ok(None);
    };
    let Some((count, octets)) = cut_number(rest) else {
        return Ok(None);
    };
    let Some(bits) = read_bits(alloc, count as usize, octets)? else {
        return Ok(None);
    };
    Ok(Some(Request::Send { socket, bits }))
}

/// Reads `SOCKET MESSAGES BITS`
fn read_grant(words: &[u8]) -> Option<Request>
    ensures { ReadsRequest verb_at.Grant words.now result }
{
    let (socket, messages, bits) = read_three(words, u32::MAX, 65_535, u32::MAX)?;
    Some(Request::Grant {
        socket,
        messages: messages as u16,
        bits,
    })
}

/// Reads `SOCKET MESSAGES BITS`, in 128ths
fn read_ask_back(words: &[u8]) -> Option<Request>
    ensures { ReadsRequest verb_at.AskBack words.now result }
{
    let (socket, messages, bits) = read_three(words, u32::MAX, 255, 255)?;
    Some(Request::AskBack {
        socket,
        messages: messages as u8,
        bits: bits as u8,
    })
}

/// Reads `SOCKET`
fn read_interrupt(words: &[u8]) -> Option<Request>
    ensures { ReadsRequest verb_at.Interrupt words.now result }
{
    let socket = plain_number(words)?;
    Some(Request::Interrupt { socket })
}

/// Reads `SOCKET`
fn read_close(words: &[u8]) -> Option<Request>
    ensures { ReadsRequest verb_at.Close words.now result }
{
    let socket = plain_number(words)?;
    Some(Request::Close { socket })
}

/// Returns the number of 32 bits that is before the first space, and what is after that.
fn cut_number(words: &[u8]) -> Option<(u32, &[u8])>
    ensures { MatchOption result ((n : ℕ) (rest : List ℕ) → n < 2 ^ 32 → words.now ≢ decimal n ++ 32 ∷ rest) (λ parts. (words.now ≡ decimal parts.0 ++ 32 ∷ parts.1.now) × (parts.0 < 2 ^ 32)) }
{
    let (number, rest) = cut(words, b' ')?;
    Some((plain_number(number)?, rest))
}

/// Returns two numbers, each up to its limit.
pub(crate) fn read_two(words: &[u8], first: u32, second: u32) -> Option<(u32, u32)>
    ensures { ReadsAs two_text (AreTwo first second) words.now result }
{
    let (one, two) = cut(words, b' ')?;
    Some((read_number(one, first)?, read_number(two, second)?))
}

/// Returns three numbers, each up to its limit.
fn read_three(words: &[u8], first: u32, second: u32, third: u32) -> Option<(u32, u32, u32)>
    ensures { ReadsAs three_text (AreThree first second third) words.now result }
{
    let (one, rest) = cut(words, b' ')?;
    let one = read_number(one, first)?;
    let (two, three) = read_two(rest, second, third)?;
    Some((one, two, three))
}
