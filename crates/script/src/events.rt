//! Scripts: one event a line.

ghost use Rattle.std.specs.Prelude.{◌≡◌, ◌≢◌, ◌==◌, ◌≤◌, false, ◌∷◌, ◌++◌, length, codes, MatchOption, MatchResult, IfOk, IfErr};
ghost use Rattle.std.proofs.Common.{inr};
ghost use Rattle.interface.specs.Printed.{flow_text};
ghost use Rattle.script.specs.Script.{lines_of, is_passed_over, AskFor, IsLineFault};
ghost use Rattle.script.specs.Spelling.{ReadsAs, IsFlow, IsMessage, IsEvent, IsTextRead, WantsMemory, message_text, spelling};
ghost use Rattle.script.specs.Steps.{AreCutTwice, AreTooFew, Lacks, ReadsFlow};

use crate::event::RawEvent;
use crate::fault::LineFault;
use crate::input::MAX_INPUT;
use crate::network::read_net;
use crate::scripts::{ScriptEvent, read_events};
use crate::word::{cut, is_word, plain_number, read_count, read_host, read_octet, read_text};
use interface::{Flow, HostMessage, Link};
use std::alloc::{AllocError, Global};

/// Returns the events of a script, in order. Empty lines and lines that begin with `#` are ignored, but they are
/// counted.
///
/// Errors: `BadLine` with the number of the first line, counted from 1, that is not an event. `OutOfMemory` only
/// at a line that needs memory, an event or a message whose octets are hexadecimal, with no bad line before
/// it.
pub fn read_script(alloc: Global, text: &[u8]) -> Result<Vec<RawEvent>, LineFault>
    requires { length text.now ≤ MAX_INPUT }
    ensures { MatchResult result (λ events. AskFor events.items (lines_of text.now)) (IsLineFault text.now) }
{
    read_events(alloc, text, false)
}

impl ScriptEvent for RawEvent {
    ghost spelled = { spelling };

    ghost is_meant = { λ strangers. IsEvent };

    ghost wants = { λ strangers. WantsMemory };

    fn read(alloc: Global, line: &[u8], _strangers: bool) -> Result<Option<RawEvent>, AllocError> {
        read_event(alloc, line)
    }

    ghost kept = { λ strangers e line same meant. inr (e, same, meant) };
}

/// Returns whether a line is empty or a comment.
pub fn is_passed_over(line: &[u8]) -> bool
    ensures { result ≡ is_passed_over line.now }
{
    match line.split_first() {
        Some((octet, _)) => *octet == b'#',
        None => true,
    }
}

/// Returns the event that a line asks for. `None` if the line is not a valid event.
///
/// Errors: `AllocError`, only for a message.
fn read_event(alloc: Global, line: &[u8]) -> Result<Option<RawEvent>, AllocError>
    ensures read { IfOk result (ReadsAs spelling IsEvent line.now) }
    ensures memory { IfErr result (λ _. WantsMemory line.now) }
{
    let Some((word, rest)) = cut(line, b' ') else {
        return Ok(None);
    };
    if is_word(word, b"out") {
        return Ok(read_message(alloc, rest)?.map(RawEvent::Out));
    }
    Ok(read_plain(word, rest))
}

/// Returns the event of a line without a text, from its first word and what follows it.
fn read_plain(word: &[u8], rest: &[u8]) -> Option<RawEvent>
    requires word { Lacks 32 word.now }
    requires not_out { word.now ≢ codes "out" }
    ensures { ReadsAs spelling IsEvent (word.now ++ 32 ∷ rest.now) result }
{
    if is_word(word, b"take") {
        return Some(RawEvent::Take(read_host(rest)?));
    }
    if is_word(word, b"calm") {
        return Some(RawEvent::Calm(plain_number(rest)?));
    }
    Some(RawEvent::Net(read_net(word, rest)?))
}

/// Returns the first two words, and what follows them.
#[inline]
pub(crate) fn cut_twice(words: &[u8]) -> Option<(&[u8], &[u8], &[u8])>
    ensures { MatchOption result (AreTooFew words.now) (λ parts. AreCutTwice words.now parts.0.now parts.1.now parts.2.now) }
{
    let (first, rest) = cut(words, b' ')?;
    let (second, rest) = cut(rest, b' ')?;
    Some((first, second, rest))
}

/// Returns the flow that three words spell.
fn read_flow(source: &[u8], destination: &[u8], link: &[u8]) -> Option<Flow>
    ensures { ReadsFlow source.now destination.now link.now result }
{
    Some(Flow {
        source: read_host(source)?,
        destination: read_host(destination)?,
        link: Link(read_octet(link)?),
    })
}

/// Returns the flow that is spelled `source destination link`.
pub(crate) fn read_three(words: &[u8]) -> Option<Flow>
    ensures { ReadsAs flow_text IsFlow words.now result }
{
    let (source, destination, link) = cut_twice(words)?;
    read_flow(source, destination, link)
}

/// Returns the message that is spelled `source destination link bits octets`.
///
/// Errors: `AllocError`, only where all words but the last are good and the last one is hexadecimal.
pub fn read_message(alloc: Global, words: &[u8]) -> Result<Option<HostMessage>, AllocError>
    ensures read { IfOk result (ReadsAs message_text IsMessage words.now) }
    ensures memory { IfErr result (λ _. IsTextRead words.now) }
{
    let Some((source, destination, rest)) = cut_twice(words) else {
        return Ok(None);
    };
    let Some((link, count, octets)) = cut_twice(rest) else {
        return Ok(None);
    };
    let Some(flow) = read_flow(source, destination, link) else {
        return Ok(None);
    };
    let Some(count) = read_count(count) else {
        return Ok(None);
    };
    let Some(text) = read_text(alloc, count, octets)? else {
        return Ok(None);
    };
    Ok(Some(HostMessage { flow, text }))
}
