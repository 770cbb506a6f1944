//! Lines of what runs on a host beside its program: servers and users of initial connections, and terminals.

ghost use Rattle.std.specs.Prelude.{Bool, ◌++◌, codes, IfOk, IfErr};
ghost use Rattle.world_script.specs.Steps.{ReadsAnywhere};
ghost use Rattle.world_script.specs.WorldSpelling.{WantsMemory};

use crate::event::WorldEvent;
use crate::request::read_two;
use net_sim::{Event, TypedLine};
use script::reading::{cut, read_host};
use std::alloc::{AllocError, Global};
use terminal::TerminalFault;

/// Reads `HOST LISTEN BASE`: a server of initial connections begins.
pub(crate) fn read_server(words: &[u8]) -> Option<WorldEvent>
    ensures { ReadsAnywhere (codes "server " ++ words.now) result }
{
    let (host, sockets) = cut(words, b' ')?;
    let host = read_host(host)?;
    let (listen, base) = read_two(sockets, u32::MAX, u32::MAX)?;
    Some(WorldEvent::Happen(Event::Server { host, listen, base }))
}

/// Reads `HOST PEER LISTEN OWN`: a user of an initial connection begins.
pub(crate) fn read_user(words: &[u8]) -> Option<WorldEvent>
    ensures { ReadsAnywhere (codes "user " ++ words.now) result }
{
    let (host, rest) = cut(words, b' ')?;
    let host = read_host(host)?;
    let (peer, sockets) = cut(rest, b' ')?;
    let peer = read_host(peer)?;
    let (listen, own) = read_two(sockets, u32::MAX, u32::MAX)?;
    Some(WorldEvent::Happen(Event::User {
        host,
        peer,
        listen,
        own,
    }))
}

/// Reads `HOST TEXT`: a line is typed at a host's terminal. Its text is all that is after the host's space, and
/// may be empty.
///
/// Errors: `AllocError`, only for a text that may be typed.
pub(crate) fn read_typed(alloc: Global, words: &[u8]) -> Result<Option<WorldEvent>, AllocError>
    ensures read { IfOk result (ReadsAnywhere (codes "type " ++ words.now)) }
    ensures memory { IfErr result (λ _. (strangers : Bool) → WantsMemory strangers (codes "type " ++ words.now)) }
{
    let Some((host, text)) = cut(words, b' ') else {
        return Ok(None);
    };
    let Some(host) = read_host(host) else {
        return Ok(None);
    };
    match TypedLine::new(alloc, text) {
        Ok(line) => Ok(Some(WorldEvent::Happen(Event::Typed { host, line }))),
        Err(TerminalFault::NotPrintable) => Ok(None),
        Err(TerminalFault::OutOfMemory) => Err(AllocError),
    }
}
