//! Lines that are typed.

ghost use Rattle.std.specs.Prelude.{◌≡◌, IfOk, length};
ghost use Rattle.bit_messages.specs.Octets.{bits_of};
ghost use Rattle.host_services.specs.TypedLines.{line_bits};
ghost use Rattle.sockets.specs.declared.request.Request.TheVariants as request;
ghost use Rattle.terminal.specs.Lines.{Decided, line_fault};

use bit_messages::{BitFault, Bits};
use sockets::Request;
use std::alloc::{AllocError, Global};
use std::marker::Model;
use terminal::{TerminalFault, typed};

/// A line that a user types: its text, octets from 32 to 126. The bits in which it is sent, with its end, are kept
/// beside it.
#[derive(Debug, Drop)]
pub struct TypedLine {
    text: Vec<u8>,
    bits: Bits,
}

impl Model for TypedLine {
    ghost use Rattle.std.specs.Prelude.{ℕ, List};
    ghost use Rattle.host_services.specs.TypedLines.{IsTyped};

    ghost Value = { List ℕ };

    ghost view = { λ l. l.text.items };

    ghost invariant = { λ l. IsTyped l.text.items l.bits };
}

/// Returns all bits of these octets.
fn all_bits(alloc: Global, octets: &[u8]) -> Result<Bits, AllocError>
    ensures { IfOk result (λ bits. bits ≡ bits_of octets.now) }
{
    let Some(count) = octets.len().checked_mul(8) else {
        return Err(AllocError);
    };
    match Bits::from_octets(alloc, octets, count) {
        Ok(bits) => Ok(bits),
        Err(BitFault::OutOfMemory) => Err(AllocError),
        Err(BitFault::NoMark | BitFault::TooLong | BitFault::Range) => unreachable!(),
    }
}

impl TypedLine {
    /// Returns a line with this text.
    ///
    /// Errors: `NotPrintable` where an octet of the text isn't from 32 to 126, then `OutOfMemory`.
    pub fn new(alloc: Global, text: &[u8]) -> Result<TypedLine, TerminalFault>
        ensures { Decided (line_fault text.now) (λ line. line ≡ text.now) result }
    {
        let octets = typed(alloc, text)?;
        let bits = all_bits(alloc, &octets)?;
        let mut kept = Vec::new(alloc);
        kept.extend_from_slice(text)?;
        Ok(TypedLine { text: kept, bits })
    }

    /// Returns its text.
    pub fn text(&self) -> &[u8]
        ensures { result.now ≡ self.now }
    {
        &self.text
    }

    /// Returns how many bits are sent of it.
    pub fn bits(&self) -> usize
        ensures { result ≡ length (line_bits self.now) }
    {
        self.bits.len()
    }

    /// Returns the request to send this line on a socket.
    pub fn request(&self, socket: u32) -> Result<Request, AllocError>
        ensures { IfOk result (λ asked. asked ≡ request.Send socket (line_bits self.now)) }
    {
        let bits = self.bits.clone()?;
        Ok(Request::Send { socket, bits })
    }
}
