//! What padding and octets promise, as laws over their definitions. The functions here do nothing: each
//! clause is the law.

ghost use Rattle.std.specs.Prelude.{◌≡◌, ℕ, ◌+◌, ◌*◌, ◌%◌, ◌<◌, ◌≤◌, Bool, true, false, List, ◌∷◌, ◌++◌, length, replicate, None, Some, All};
ghost use Rattle.bit_messages.specs.Body.{body, filling, IsBodyOf, has_mark, text_of, strip_fault};
ghost use Rattle.bit_messages.specs.Octets.{bits_of, octets_of, spare_bits};
ghost use Rattle.bit_messages.specs.declared.fault.BitFault.{BitFault};
ghost use Rattle.bit_messages.specs.declared.fault.BitFault.TheVariants as fault;

/// A body gives its text back, and is the shortest list that does (BBN Report 1822, padding).
pub fn padding()
    // stripping a text's body gives the text
    ensures given_back { (text : List Bool) → length text ≤ 8063 → (strip_fault (body text) ≡ None) × (text_of (body text) ≡ text) }

    // so does stripping a text that is too long for a body
    ensures unbounded { (text : List Bool) → text_of (body text) ≡ text }

    // a body is a text, its mark and zeros, in full units of sixteen bits
    ensures a_body { (text : List Bool) → length text ≤ 8063 → IsBodyOf text (body text) }

    // no fewer zeros fill the last unit
    ensures least { (text : List Bool) (zeros : ℕ) → length (text ++ true ∷ replicate zeros false) % 16 ≡ 0 → filling (length text) ≤ zeros }

    // a list of bits is stripped to a text exactly where it is that text, its mark and zeros
    ensures stripped { (text bits : List Bool) → IsBodyOf text bits → (strip_fault bits ≡ None) × (text_of bits ≡ text) }
    ensures only_bodies { (bits : List Bool) → strip_fault bits ≡ None → IsBodyOf (text_of bits) bits }
    ensures unmarked { (bits : List Bool) → has_mark bits ≡ false → strip_fault bits ≡ Some fault.NoMark }
{}

/// Octets and bits are two spellings of one thing.
pub fn octets()
    // octets read as bits and written again are the same octets
    ensures again { (octets : List ℕ) → All (λ n. n < 256) octets → octets_of (bits_of octets) ≡ octets }

    // bits written as octets are the bits, and zeros in what is left of the last octet
    ensures filled { (bits : List Bool) → bits_of (octets_of bits) ≡ bits ++ replicate (spare_bits (length bits)) false }

    // whole octets are written one list after another
    ensures joined { (front back : List Bool) → length front % 8 ≡ 0 → octets_of (front ++ back) ≡ octets_of front ++ octets_of back }
    ensures octet_range { (bits : List Bool) → All (λ n. n < 256) (octets_of bits) }
{}
