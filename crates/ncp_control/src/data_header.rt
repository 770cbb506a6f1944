//! The header of a host message, which precedes its data.

ghost use Rattle.std.specs.Prelude.{◌≡◌, ◌*◌, ◌≤◌, MatchResult, length};
ghost use Rattle.bit_messages.specs.declared.fault.BitFault.TheVariants.{OutOfMemory};
ghost use Rattle.ncp_control.specs.DataHeader.{fields_of, header_of, header_bits, data_bits};

use bit_messages::{BitFault, Bits};
use std::alloc::Global;

/// How many bits precede the data.
pub const HEADER_BITS: usize = 40;

/// The byte size and the byte count that precede a message's data (NIC 8246, message format). Of the 40
/// bits the first eight and the last eight are zeros; they are ignored when read.
#[derive(Clone, Copy, Debug, PartialEq, Eq)]
pub struct DataHeader {
    /// How many bits a byte has.
    pub size: u8,
    /// How many bytes there are.
    pub count: u16,
}

impl DataHeader {
    /// Returns the header that a text begins with; `None` where the text is malformed: it has fewer than 40 bits, or
    /// fewer bits of data than size times count. What follows these isn't looked at.
    pub fn read(text: &Bits) -> Option<DataHeader>
        ensures { result ≡ header_of text.now }
    {
        if text.len() < HEADER_BITS {
            return None;
        }
        let header = fields_of(text);
        if text.len() - HEADER_BITS < header.data_bits() as usize {
            return None;
        }
        Some(header)
    }

    /// Returns the 40 bits that spell it.
    pub fn write(&self, alloc: Global) -> Result<Bits, BitFault>
        ensures { MatchResult result (λ bits. bits ≡ header_bits self.now) (λ fault. fault ≡ OutOfMemory) }
    {
        let [high, low] = self.count.to_be_bytes();
        Bits::from_octets(alloc, &[0, self.size, high, low, 0], HEADER_BITS)
    }

    /// Returns how many bits of data it announces: size times count.
    pub fn data_bits(&self) -> u32
        ensures { result ≡ data_bits self.now }
    {
        self.size as u32 * self.count as u32
    }
}

/// Returns the size and the count that are in a text's header.
fn fields_of(text: &Bits) -> DataHeader
    requires { HEADER_BITS ≤ length text.now }
    ensures { result ≡ fields_of text.now }
{
    let octets = text.as_octets();
    DataHeader {
        size: octets[1],
        count: u16::from_be_bytes([octets[2], octets[3]]),
    }
}
