//! What the requests in a control message name.

ghost use Rattle.std.specs.Option.{option_or};
ghost use Rattle.std.specs.Prelude.{◌≡◌, ◌+◌, ◌<◌, ◌≤◌, ℕ, drop, length};
ghost use Rattle.host_pairs.specs.Control.{orders_of, orders_within};
ghost use Rattle.promise.specs.Formed as formed;
ghost use Rattle.promise.specs.Formed.{named_in};

use bit_messages::Bits;
use host_pairs::control_octets;
use ncp_control::{Command, ControlFault, read_one};

/// Returns what a command names, where it is the request of these two sockets: an RTS its link, an STR its byte size.
fn named_by(own: u32, foreign: u32, command: &Command) -> Option<u8>
    ensures { result ≡ formed.named_by own foreign command.now }
{
    match command {
        Command::Rts {
            receive,
            send,
            link,
        } if own % 2 == 0 && own == receive.number() && foreign == send.number() => {
            Some(link.number())
        }
        Command::Str {
            send,
            receive,
            size,
        } if own % 2 == 1 && own == send.number() && foreign == receive.number() => {
            Some(size.bits())
        }
        _ => None,
    }
}

/// Returns what the command that the octets begin with names, and how many octets are read by it: all of them, where the
/// reading ends.
#[tactic(auto, using(crate::proofs::Identities::Named::orders_of_none))]
fn first_named(own: u32, foreign: u32, octets: &[u8]) -> (Option<u8>, usize)
    requires { 0 < length octets.now }
    ensures named { (more : ℕ) → named_in own foreign (orders_within (1 + more) octets.now) ≡ option_or result.0 (named_in own foreign (orders_within more (drop result.1 octets.now))) }
    ensures some { 0 < result.1 }
    ensures there { result.1 ≤ length octets.now }
{
    match read_one(octets) {
        Ok((command, used)) => (named_by(own, foreign, &command), used),
        Err(ControlFault::Erroneous { quoted }) => (None, quoted),
        Err(ControlFault::IllegalCode { .. } | ControlFault::Short { .. }) => (None, octets.len()),
        Err(ControlFault::OutOfMemory) => unreachable!(),
    }
}

/// Returns what the first request of these two sockets names in a control message.
pub(crate) fn named_in(own: u32, foreign: u32, text: &Bits) -> Option<u8>
    ensures { result ≡ formed.named_in own foreign (orders_of text.now) }
{
    let mut rest = control_octets(text)?;
    'orders: while !rest.is_empty() {
        let (named, read) = first_named(own, foreign, rest);
        if named.is_some() {
            return named;
        }
        (_, rest) = rest.split_at(read);
    }
    None
}
