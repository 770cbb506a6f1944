//! Lines of what happens inside a network.

ghost use Rattle.std.specs.Prelude.{◌≡◌, ℕ, ◌==◌, false, ◌∷◌, ◌++◌};
ghost use Rattle.std.specs.List.{All};
ghost use Rattle.script.specs.Spelling.{ReadsAs, IsNetEvent, net_spelling};
ghost use Rattle.script.specs.Steps.{Lacks, IsOfHosts, IsOfImps, IsOfLines, frame_text, IsFrame, pair_text, IsEnd, AreImps};

use crate::events::{cut_twice, read_three};
use crate::word::{cut, is_word, plain_number, read_direction, read_host, read_imp};
use interface::{Direction, ImpNumber, NetEvent};

/// Returns what happens inside a network by a line, from its first word and what follows it. Frames come first, as the
/// most frequent.
pub fn read_net(word: &[u8], rest: &[u8]) -> Option<NetEvent>
    requires { All (λ x. (x == 32) ≡ false) word.now }
    ensures { ReadsAs net_spelling IsNetEvent (word.now ++ 32 ∷ rest.now) result }
{
    if let Some(event) = read_line_event(word, rest) {
        return Some(event);
    }
    if let Some(event) = read_host_event(word, rest) {
        return Some(event);
    }
    read_imp_event(word, rest)
}

/// Returns the event that a line names by a host or a flow.
fn read_host_event(word: &[u8], rest: &[u8]) -> Option<NetEvent>
    requires { Lacks 32 word.now }
    ensures { ReadsAs net_spelling IsOfHosts (word.now ++ 32 ∷ rest.now) result }
{
    if is_word(word, b"giveup") {
        Some(NetEvent::GiveUp(read_three(rest)?))
    } else if is_word(word, b"abandon") {
        Some(NetEvent::Abandon(read_three(rest)?))
    } else if is_word(word, b"ask") {
        Some(NetEvent::Ask(read_three(rest)?))
    } else if is_word(word, b"hostdown") {
        Some(NetEvent::HostDown(read_host(rest)?))
    } else if is_word(word, b"hostup") {
        Some(NetEvent::HostUp(read_host(rest)?))
    } else {
        None
    }
}

/// Returns the event that a line names by IMPs only.
fn read_imp_event(word: &[u8], rest: &[u8]) -> Option<NetEvent>
    requires { Lacks 32 word.now }
    ensures { ReadsAs net_spelling IsOfImps (word.now ++ 32 ∷ rest.now) result }
{
    if is_word(word, b"resend") {
        Some(NetEvent::Resend(read_imp(rest)?))
    } else if is_word(word, b"route") {
        Some(NetEvent::Route(read_imp(rest)?))
    } else if is_word(word, b"claim") {
        Some(NetEvent::Claim(read_imp(rest)?))
    } else if is_word(word, b"impdown") {
        Some(NetEvent::ImpDown(read_imp(rest)?))
    } else if is_word(word, b"impup") {
        Some(NetEvent::ImpUp(read_imp(rest)?))
    } else if is_word(word, b"forget") {
        let (at, from) = read_two_imps(rest)?;
        Some(NetEvent::Forget { at, from })
    } else {
        None
    }
}

/// Returns the event that a line names by a line of the network.
fn read_line_event(word: &[u8], rest: &[u8]) -> Option<NetEvent>
    requires { Lacks 32 word.now }
    ensures { ReadsAs net_spelling IsOfLines (word.now ++ 32 ∷ rest.now) result }
{
    if is_word(word, b"deliver") {
        let (line, direction, frame) = read_frame(rest)?;
        Some(NetEvent::Deliver {
            line,
            direction,
            frame,
        })
    } else if is_word(word, b"drop") {
        let (line, direction, frame) = read_frame(rest)?;
        Some(NetEvent::Drop {
            line,
            direction,
            frame,
        })
    } else if is_word(word, b"garble") {
        let (line, direction, frame) = read_frame(rest)?;
        Some(NetEvent::Garble {
            line,
            direction,
            frame,
        })
    } else if is_word(word, b"enddown") {
        let (imp, line) = read_end(rest)?;
        Some(NetEvent::EndDown { imp, line })
    } else if is_word(word, b"endup") {
        let (imp, line) = read_end(rest)?;
        Some(NetEvent::EndUp { imp, line })
    } else {
        None
    }
}

/// Returns the frame that is spelled `line direction place`.
#[inline(always)]
fn read_frame(words: &[u8]) -> Option<(u32, Direction, u32)>
    ensures { ReadsAs frame_text IsFrame words.now result }
{
    let (line, direction, frame) = cut_twice(words)?;
    Some((
        plain_number(line)?,
        read_direction(direction)?,
        plain_number(frame)?,
    ))
}

/// Returns the end of a line that is spelled `imp line`.
fn read_end(words: &[u8]) -> Option<(ImpNumber, u32)>
    ensures { ReadsAs pair_text IsEnd words.now result }
{
    let (imp, line) = cut(words, b' ')?;
    Some((read_imp(imp)?, plain_number(line)?))
}

/// Returns the two IMPs that are spelled `imp imp`.
fn read_two_imps(words: &[u8]) -> Option<(ImpNumber, ImpNumber)>
    ensures { ReadsAs pair_text AreImps words.now result }
{
    let (first, second) = cut(words, b' ')?;
    Some((read_imp(first)?, read_imp(second)?))
}
