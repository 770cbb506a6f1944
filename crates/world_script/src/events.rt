//! Scripts of worlds: one event a line.

ghost use Rattle.std.specs.Prelude.{◌≡◌, ◌≢◌, ℕ, ◌≤◌, List, ◌∷◌, ◌++◌, codes, length, MatchResult, IfOk, IfErr};
ghost use Rattle.std.proofs.Common.{inr};
ghost use Rattle.script.specs.Script.{lines_of};
ghost use Rattle.script.specs.Spelling.{ReadsAs};
ghost use Rattle.script.specs.Steps.{Lacks};
ghost use Rattle.world_script.specs.Steps.{IsVerb, ReadsAnywhere, verb_text};
ghost use Rattle.world_script.specs.WorldScript.{AskFor, IsLineFault};
ghost use Rattle.world_script.specs.WorldSpelling.{IsSendRead, IsWorldEvent, WantsMemory, world_spelling};
ghost use Rattle.world_script.specs.declared.verb.Verb.{Verb as VerbName};

use crate::event::WorldEvent;
use crate::request::read_request;
use crate::services::{read_server, read_typed, read_user};
use crate::verb::{Verb, read_verb};
use net_sim::Event;
use script::reading::{
    ScriptEvent, cut, is_word, plain_number, read_events, read_host, read_message, read_net,
};
use script::{LineFault, MAX_INPUT};
use std::alloc::{AllocError, Global};

/// Returns the events of a world's script, in order, where some hosts are strangers and where none is. Empty lines and
/// lines that begin with `#` are ignored, but they are counted. What a stranger sends is a line only among strangers.
///
/// Errors: `BadLine` with the number of the first line, counted from 1, that is not an event. `OutOfMemory` only
/// at a line that needs memory, with no bad line before it: an event, a `send` whose octets are hexadecimal, or, where
/// there are strangers, a message whose octets are.
pub fn read_world_script(
    alloc: Global,
    text: &[u8],
    strangers: bool,
) -> Result<Vec<WorldEvent>, LineFault>
    requires { length text.now ≤ MAX_INPUT }
    ensures { MatchResult result (λ events. AskFor strangers events.items (lines_of text.now)) (IsLineFault strangers text.now) }
{
    read_events(alloc, text, strangers)
}

impl ScriptEvent for WorldEvent {
    ghost spelled = { world_spelling };

    ghost is_meant = { IsWorldEvent };

    ghost wants = { WantsMemory };

    fn read(alloc: Global, line: &[u8], strangers: bool) -> Result<Option<WorldEvent>, AllocError> {
        read_event(alloc, line, strangers)
    }

    ghost kept = { λ strangers e line same meant. inr (inr (e, same, meant)) };
}

/// Returns the event that a line asks for. `None` if the line is not a valid event.
///
/// Errors: `AllocError`, only for octets to send, for a line that is typed and for what a stranger sends.
fn read_event(alloc: Global, line: &[u8], strangers: bool) -> Result<Option<WorldEvent>, AllocError>
    ensures read { IfOk result (ReadsAs world_spelling (IsWorldEvent strangers) line.now) }
    ensures memory { IfErr result (λ _. WantsMemory strangers line.now) }
{
    let Some((word, rest)) = cut(line, b' ') else {
        return Ok(None);
    };
    if let Some(verb) = read_verb(word) {
        return read_ask(alloc, verb, rest);
    }
    if is_word(word, b"type") {
        return read_typed(alloc, rest);
    }
    if is_word(word, b"out") {
        return read_out(alloc, rest, strangers);
    }
    Ok(read_plain(word, rest))
}

/// What the user of a host asks for, from its verb and what follows it.
///
/// Errors: `AllocError`, only for octets to send.
fn read_ask(alloc: Global, verb: Verb, words: &[u8]) -> Result<Option<WorldEvent>, AllocError>
    ensures read { IfOk result (ReadsAnywhere (verb_text verb ++ 32 ∷ words.now)) }
    ensures memory { IfErr result (λ _. IsSendRead (verb_text verb ++ 32 ∷ words.now)) }
{
    let Some((host, rest)) = cut(words, b' ') else {
        return Ok(None);
    };
    let Some(host) = read_host(host) else {
        return Ok(None);
    };
    let Some(request) = read_request(alloc, verb, rest)? else {
        return Ok(None);
    };
    Ok(Some(WorldEvent::Happen(Event::Ask(host, request))))
}

/// Returns what a stranger sends, from what follows the first word. `None` where there are no strangers.
///
/// Errors: `AllocError`, only for a message of a stranger.
fn read_out(alloc: Global, words: &[u8], strangers: bool) -> Result<Option<WorldEvent>, AllocError>
    ensures read { IfOk result (ReadsAs world_spelling (IsWorldEvent strangers) (codes "out " ++ words.now)) }
    ensures memory { IfErr result (λ _. WantsMemory strangers (codes "out " ++ words.now)) }
{
    if !strangers {
        return Ok(None);
    }
    let Some(message) = read_message(alloc, words)? else {
        return Ok(None);
    };
    Ok(Some(WorldEvent::Happen(Event::Out(message))))
}

/// Returns the event of a line that needs no memory to be read, from its first word and what follows it.
fn read_plain(word: &[u8], rest: &[u8]) -> Option<WorldEvent>
    requires word { Lacks 32 word.now }
    requires not_asked { (v : VerbName) → IsVerb v → word.now ≢ verb_text v }
    requires not_typed { word.now ≢ codes "type" }
    requires not_out { word.now ≢ codes "out" }
    ensures { ReadsAnywhere (word.now ++ 32 ∷ rest.now) result }
{
    if is_word(word, b"offer") {
        return Some(WorldEvent::Happen(Event::Offer(read_host(rest)?)));
    }
    if is_word(word, b"take") {
        return Some(WorldEvent::Happen(Event::Take(read_host(rest)?)));
    }
    if is_word(word, b"server") {
        return read_server(rest);
    }
    if is_word(word, b"user") {
        return read_user(rest);
    }
    if is_word(word, b"calm") {
        return Some(WorldEvent::Calm(plain_number(rest)?));
    }
    Some(WorldEvent::Happen(Event::Net(read_net(word, rest)?)))
}
