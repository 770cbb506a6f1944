//! A socket number in 32 bits.

ghost use Rattle.std.specs.Prelude.{◌≡◌, ◌<◌, ◌≤◌, ◌++◌, length, take, IfOk, OnErr};
ghost use Rattle.std.specs.Int.{w32};
ghost use Rattle.icp.specs.Sockets.{socket_bits, socket_of};
ghost use Rattle.ncp_control.specs.Reading.{number_at};

use bit_messages::{BitFault, Bits};
use std::alloc::{AllocError, Global};

/// How many bits a socket number has.
pub(crate) const SOCKET_BITS: usize = 32;

/// Returns a socket number in 32 bits, the most significant first.
pub(crate) fn socket_bits(alloc: Global, socket: u32) -> Result<Bits, AllocError>
    ensures { IfOk result (λ bits. bits ≡ socket_bits socket) }
{
    match Bits::from_octets(alloc, &socket.to_be_bytes(), SOCKET_BITS) {
        Ok(bits) => Ok(bits),
        Err(BitFault::OutOfMemory) => Err(AllocError),
        Err(BitFault::NoMark | BitFault::TooLong | BitFault::Range) => unreachable!(),
    }
}

/// Returns the number in the first four octets.
fn number(octets: &[u8]) -> u32
    requires there { 4 ≤ length octets.now }
    ensures { result ≡ number_at w32 octets.now 0 }
{
    u32::from_be_bytes([octets[0], octets[1], octets[2], octets[3]])
}

/// Returns the number in the first 32 bits.
#[tactic(auto, using(crate::proofs::SocketLemmas::four_octets))]
pub(crate) fn socket_of(alloc: Global, bits: &Bits) -> Result<u32, AllocError>
    requires there { 32 ≤ length bits.now }
    ensures { IfOk result (λ socket. socket ≡ socket_of (take 32 bits.now)) }
{
    match bits.slice(alloc, 0, SOCKET_BITS) {
        Ok(first) => Ok(number(first.as_octets())),
        Err(BitFault::OutOfMemory) => Err(AllocError),
        Err(BitFault::NoMark | BitFault::TooLong | BitFault::Range) => unreachable!(),
    }
}

/// Puts bits after those that were kept.
pub(crate) fn join(kept: &mut Bits, bits: &Bits) -> Result<(), AllocError>
    ensures joined { IfOk result (λ _. kept.new ≡ kept.old ++ bits.now) }
    ensures memory { OnErr result (0 < length bits.now) }
{
    match kept.append(bits) {
        Ok(()) => Ok(()),
        Err(BitFault::OutOfMemory) => Err(AllocError),
        Err(BitFault::NoMark | BitFault::TooLong | BitFault::Range) => unreachable!(),
    }
}
