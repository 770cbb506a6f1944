//! Messages: a text on a flow.

ghost use Rattle.std.specs.Prelude.{◌≡◌, ◌≤◌, Bool, List, length, nat_le, Option, Some, None, if◌then◌else◌, IfSome, IsSome, ◌↔◌};

use crate::Flow;
use bit_messages::{Bits, MAX_TEXT_BITS};
use std::alloc::AllocError;
use std::marker::Model;

/// The text of a message: 0 to 8063 bits (BBN Report 1822, the length of a message).
#[derive(Debug, Drop)]
pub struct Text {
    bits: Bits,
}

impl Model for Text {
    ghost use Rattle.std.specs.Prelude.{◌≤◌, Bool, List, length};
    ghost use Rattle.bit_messages.specs.Body.{most_text_bits};

    ghost Value = { List Bool };

    ghost view = { λ t. t.bits };

    ghost invariant = { λ t. length t.bits ≤ most_text_bits };
}

impl Text {
    /// Returns these bits as a text; `None` for more than 8063 of them.
    pub fn new(bits: Bits) -> Option<Text>
        ensures short { IsSome result ↔ (length bits ≤ MAX_TEXT_BITS) }
        ensures same { IfSome result (λ text. text ≡ bits) }
    {
        if bits.len() <= MAX_TEXT_BITS {
            Some(Text { bits })
        } else {
            None
        }
    }

    /// Returns its bits, at most 8063.
    pub fn bits(&self) -> &Bits
        ensures same { result.now ≡ self.now }
        ensures short { length self.now ≤ MAX_TEXT_BITS }
    {
        &self.bits
    }
}

/// A clone has the same bits. An empty text is cloned without memory.
impl Clone for Text {
    ghost use Rattle.std.specs.Prelude.{[]};

    ghost is_clone = { λ t copy. copy ≡ t };

    ghost is_infallible = { λ t. t ≡ [] };

    fn clone(&self) -> Result<Text, AllocError> {
        Ok(Text {
            bits: self.bits.clone()?,
        })
    }
}

/// A message: a text from one host to another, on a link.
#[derive(Debug, Drop)]
pub struct HostMessage {
    /// Who sends it to whom, and on which link.
    pub flow: Flow,
    /// The bits that the message says.
    pub text: Text,
}

/// A clone has the same flow and text. A message of no bits is cloned without memory.
impl Clone for HostMessage {
    ghost use Rattle.std.specs.Prelude.{[]};

    ghost is_clone = { λ m copy. copy ≡ m };

    ghost is_infallible = { λ m. m.text ≡ [] };

    fn clone(&self) -> Result<HostMessage, AllocError> {
        Ok(HostMessage {
            flow: self.flow,
            text: self.text.clone()?,
        })
    }
}
