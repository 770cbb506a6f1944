//! The first words of what a user may ask.

ghost use Rattle.std.specs.Prelude.{◌≡◌};
ghost use Rattle.script.specs.Spelling.{ReadsAs};
ghost use Rattle.world_script.specs.Steps.{IsVerb, verb_text};

use script::reading::is_word;

/// What a user asks for, by its first word.
#[derive(Clone, Copy, Debug)]
pub(crate) enum Verb {
    Contact,
    Echo,
    Listen,
    OpenSend,
    OpenReceive,
    Send,
    Grant,
    AskBack,
    Interrupt,
    Close,
}

/// Returns the verb that a word spells.
pub(crate) fn read_verb(word: &[u8]) -> Option<Verb>
    ensures { ReadsAs verb_text IsVerb word.now result }
{
    if is_word(word, b"contact") {
        Some(Verb::Contact)
    } else if is_word(word, b"echo") {
        Some(Verb::Echo)
    } else if is_word(word, b"listen") {
        Some(Verb::Listen)
    } else if is_word(word, b"opensend") {
        Some(Verb::OpenSend)
    } else if is_word(word, b"openrecv") {
        Some(Verb::OpenReceive)
    } else if is_word(word, b"send") {
        Some(Verb::Send)
    } else if is_word(word, b"grant") {
        Some(Verb::Grant)
    } else if is_word(word, b"askback") {
        Some(Verb::AskBack)
    } else if is_word(word, b"interrupt") {
        Some(Verb::Interrupt)
    } else if is_word(word, b"close") {
        Some(Verb::Close)
    } else {
        None
    }
}
