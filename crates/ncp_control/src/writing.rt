//! The fields of commands as octets, the most significant octet first.

ghost use Rattle.std.specs.Prelude.{◌≡◌, [], ◌∷◌, ◌++◌, OnOk};
ghost use Rattle.ncp_control.specs.Command.{IsCommand};
ghost use Rattle.ncp_control.specs.declared.command.Command.TheVariants as command;
ghost use Rattle.std.specs.Int.{w16, w32, to_be_bytes};

use crate::MAX_QUOTED;
use std::alloc::AllocError;

/// Puts a code and two sockets at the end.
pub(crate) fn append_sockets(
    octets: &mut Vec<u8>,
    code: u8,
    first: u32,
    second: u32,
) -> Result<(), AllocError>
    ensures { OnOk result (octets.new.items ≡ octets.old.items ++ (code ∷ to_be_bytes w32 first ++ to_be_bytes w32 second)) }
{
    let [a, b, c, d] = first.to_be_bytes();
    let [e, f, g, h] = second.to_be_bytes();
    octets.extend_from_slice(&[code, a, b, c, d, e, f, g, h])
}

/// Puts a code, two sockets and a last octet at the end.
pub(crate) fn append_request(
    octets: &mut Vec<u8>,
    code: u8,
    own: u32,
    foreign: u32,
    last: u8,
) -> Result<(), AllocError>
    ensures { OnOk result (octets.new.items ≡ octets.old.items ++ (code ∷ to_be_bytes w32 own ++ to_be_bytes w32 foreign ++ last ∷ [])) }
{
    let [a, b, c, d] = own.to_be_bytes();
    let [e, f, g, h] = foreign.to_be_bytes();
    octets.extend_from_slice(&[code, a, b, c, d, e, f, g, h, last])
}

/// Puts a code, a link and counts of messages and bits at the end.
pub(crate) fn append_counts(
    octets: &mut Vec<u8>,
    code: u8,
    link: u8,
    messages: u16,
    bits: u32,
) -> Result<(), AllocError>
    ensures { OnOk result (octets.new.items ≡ octets.old.items ++ (code ∷ link ∷ to_be_bytes w16 messages ++ to_be_bytes w32 bits)) }
{
    let [high, low] = messages.to_be_bytes();
    let [a, b, c, d] = bits.to_be_bytes();
    octets.extend_from_slice(&[code, link, high, low, a, b, c, d])
}

/// Puts the octets of an ERR at the end.
pub(crate) fn append_error(
    octets: &mut Vec<u8>,
    code: u8,
    detail: &[u8; MAX_QUOTED],
) -> Result<(), AllocError>
    ensures spelled { OnOk result (octets.new.items ≡ octets.old.items ++ (11 ∷ code ∷ detail.now)) }
    ensures command { IsCommand (command.Err code detail.now) }
{
    octets.extend_from_slice(&[11, code])?;
    octets.extend_from_slice(detail)?;
    Ok(())
}
