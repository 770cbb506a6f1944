//! Bits that come in pieces, as whole octets.

ghost use Rattle.std.specs.Prelude.{◌≡◌, ◌<◌, ◌++◌, length, IfOk, IfErr, OnOk};
ghost use Rattle.bit_messages.specs.declared.fault.BitFault.TheVariants as fault;
ghost use Rattle.terminal.specs.Octets.{whole, part};

use bit_messages::{BitFault, Bits};
use std::alloc::{AllocError, Global};

/// Puts bits after those that were kept. Gives what is whole octets now, and keeps the rest.
fn join_bits(alloc: Global, kept: &mut Bits, bits: &Bits) -> Result<Bits, BitFault>
    ensures octets { IfOk result (λ octets. octets ≡ whole (kept.old ++ bits.now)) }
    ensures kept { OnOk result (kept.new ≡ part (kept.old ++ bits.now)) }
    ensures fault { IfErr result (λ e. e ≡ fault.OutOfMemory) }
{
    kept.append(bits)?;
    let len = kept.len();
    let end = 8 * (len / 8);
    let octets = kept.slice(alloc, 0, end)?;
    *kept = kept.slice(alloc, end, len)?;
    Ok(octets)
}

/// Puts bits after those that were kept. Gives what is whole octets now, and keeps the rest. It fails only
/// when memory runs out, and then nothing is kept.
#[tactic(auto, using(crate::proofs::OctetLemmas::part_few))]
pub(crate) fn join(alloc: Global, kept: &mut Bits, bits: &Bits) -> Result<Bits, AllocError>
    ensures octets { IfOk result (λ octets. octets ≡ whole (kept.old ++ bits.now)) }
    ensures kept { OnOk result (kept.new ≡ part (kept.old ++ bits.now)) }
    ensures few { length kept.new < 8 }
{
    match join_bits(alloc, kept, bits) {
        Ok(octets) => Ok(octets),
        Err(BitFault::OutOfMemory) => {
            *kept = Bits::new(alloc);
            Err(AllocError)
        }
        Err(BitFault::NoMark | BitFault::TooLong | BitFault::Range) => unreachable!(),
    }
}
