//! What packets, cutting and reassembly promise, as laws over the definitions that their calls cite. The
//! functions here do nothing: each clause is a law.

ghost use Rattle.std.specs.Prelude.{◌≡◌, ℕ, ◌<◌, ◌≤◌, Bool, true, false, List, [], ◌∷◌, length, map, None, Ok, Err, All};
ghost use Rattle.bit_messages.specs.Body.{body, most_text_bits};
ghost use Rattle.bit_messages.specs.Octets.{bits_of};
ghost use Rattle.interface.specs.declared.address.Flow.{Flow};
ghost use Rattle.packetiser.specs.PacketFields.{PacketFields, IsPacket, flow_of};
ghost use Rattle.packetiser.specs.Examples.{flow, request, request_packet, header, with_octet, with_octets, sixteen_bits, about_it};
ghost use Rattle.packetiser.specs.Format.{spelling, read_of, is_bad_length};
ghost use Rattle.packetiser.specs.Pieces.{piece_count, places, packets_of, IsBodySize, CarriesPieceOf};
ghost use Rattle.packetiser.specs.Slots.{SlotState, IsPieceFor, slot_of, kept_for, joined_pieces, is_whole_from, answer_of, added, without};
ghost use Rattle.packetiser.specs.declared.fault.PacketFault.TheVariants as fault;
ghost use Rattle.packetiser.specs.declared.packet.PacketKind.TheVariants as kind;
ghost use Rattle.packetiser.specs.declared.reassembly.Added.TheVariants as answer;
ghost use Rattle.packetiser.specs.Laws.{Rejoining, Holding, NotGathered};

/// Each packet has one spelling, and only spellings are read.
pub fn spellings()
    // what is written is read again
    ensures again { (p : PacketFields) → IsPacket p → read_of (spelling p) ≡ Ok p }

    // what is read is a packet, and was its spelling: nothing is after its end
    ensures read { (octets : List ℕ) (p : PacketFields) → All (λ n. n < 256) octets → read_of octets ≡ Ok p → IsPacket p × (octets ≡ spelling p) }

    // two packets are spelled differently
    ensures one { (p q : PacketFields) → IsPacket p → IsPacket q → spelling p ≡ spelling q → p ≡ q }
{}

/// Packets octet by octet, and octets that are none.
#[tactic(auto, unfolding(crate::specs::Format::is_bad_length, crate::specs::Format::is_not_canonical, crate::specs::Format::is_short, bit_messages::specs::Octets::octets_of))]
pub fn worked_packets()
    // a request for connection is cut into one packet
    ensures request { map spelling (packets_of (flow 0) 0 (body (bits_of request))) ≡ request_packet ∷ [] }

    // answers and questions: the kind, and source, destination, link and number of the message that they are about
    ensures answers { (read_of (header 1 128 0) ≡ Ok (about_it kind.Rfnm)) × (read_of (header 2 128 0) ≡ Ok (about_it kind.Dead)) × (read_of (header 4 128 0) ≡ Ok (about_it kind.Never)) }
    ensures question { read_of (header 3 128 0) ≡ Ok (about_it kind.Ask) }

    // a piece at place 7 that is the last, with one unit of sixteen bits
    ensures piece { read_of (with_octets 0 135 16) ≡ Ok (record (about_it kind.Data) { place = 7; bits = sixteen_bits }) }
    ensures piece_again { spelling (record (about_it kind.Data) { place = 7; bits = sixteen_bits }) ≡ with_octets 0 135 16 }

    // other hosts at its ends: the upper two bits of an address are the host
    ensures hosts { read_of (1 ∷ 65 ∷ 255 ∷ 5 ∷ 1 ∷ 2 ∷ 128 ∷ 0 ∷ 0 ∷ []) ≡ Ok (record (about_it kind.Rfnm) { source = record { imp = 1; host = 1 }; destination = record { imp = 63; host = 3 } }) }

    // too few octets: for a header, and for the bits that it counts
    ensures short { (read_of [] ≡ Err fault.Short) × (read_of (9 ∷ 0 ∷ 0 ∷ 0 ∷ 0 ∷ 0 ∷ 0 ∷ 0 ∷ []) ≡ Err fault.Short) × (read_of (with_octet 0 128 9 128) ≡ Err fault.Short) }

    // no such kind, IMP 0
    ensures no_kind { read_of (header 5 128 0) ≡ Err fault.NotCanonical }
    ensures no_imp { (read_of (1 ∷ 64 ∷ 3 ∷ 5 ∷ 1 ∷ 2 ∷ 128 ∷ 0 ∷ 0 ∷ []) ≡ Err fault.NotCanonical) × (read_of (1 ∷ 1 ∷ 192 ∷ 5 ∷ 1 ∷ 2 ∷ 128 ∷ 0 ∷ 0 ∷ []) ≡ Err fault.NotCanonical) }

    // a bit between place and last flag, place 7 without the flag, an answer at another place or without the flag, an octet more
    ensures between { (read_of (with_octets 0 136 16) ≡ Err fault.NotCanonical) × (read_of (with_octets 0 192 16) ≡ Err fault.NotCanonical) }
    ensures unmarked { read_of (with_octets 0 7 16) ≡ Err fault.NotCanonical }
    ensures answer_place { (read_of (header 1 129 0) ≡ Err fault.NotCanonical) × (read_of (header 4 0 0) ≡ Err fault.NotCanonical) }
    ensures after_end { (read_of (with_octet 1 128 0 0) ≡ Err fault.NotCanonical) × (read_of (with_octets 0 128 8) ≡ Err fault.NotCanonical) }

    // a piece without bits, with part of a unit, that isn't the last and isn't full; an answer and a question with bits
    ensures no_bits { read_of (header 0 128 0) ≡ Err fault.BadLength }
    ensures part_of_unit { read_of (with_octet 0 128 8 128) ≡ Err fault.BadLength }
    ensures not_full { read_of (with_octets 0 1 16) ≡ Err fault.BadLength }
    ensures answer_bits { (read_of (with_octets 2 128 16) ≡ Err fault.BadLength) × (read_of (with_octets 3 128 16) ≡ Err fault.BadLength) }

    // 1008 bits are the most, and are full; 1024 are too many
    ensures most { (is_bad_length (0 ∷ 1 ∷ 3 ∷ 5 ∷ 1 ∷ 2 ∷ 0 ∷ 3 ∷ 240 ∷ []) ≡ false) × (is_bad_length (0 ∷ 1 ∷ 3 ∷ 5 ∷ 1 ∷ 2 ∷ 128 ∷ 4 ∷ 0 ∷ []) ≡ true) }

    // a missing octet comes before IMP 0, and an octet too many before a bad length
    ensures order { (read_of (1 ∷ 0 ∷ 3 ∷ 5 ∷ 1 ∷ 2 ∷ 128 ∷ 0 ∷ 8 ∷ []) ≡ Err fault.Short) × (read_of (with_octets 1 128 8) ≡ Err fault.NotCanonical) }
{}

/// A message is cut into pieces that are its body.
pub fn cutting()
    // each packet is a piece of its body, with its flow and number
    ensures pieces { (flow : Flow) (number : ℕ) (w : List Bool) → All (IsPieceFor flow number) (packets_of flow number w) × All (CarriesPieceOf w) (packets_of flow number w) }

    // they are the whole of it, in order
    ensures whole { (flow : Flow) (number : ℕ) (w : List Bool) → 0 < length w → is_whole_from 0 (packets_of flow number w) ≡ true }
    ensures rejoined { (flow : Flow) (number : ℕ) (w : List Bool) → joined_pieces (packets_of flow number w) ≡ w }

    // a body has one to eight pieces
    ensures bodies { (text : List Bool) → length text ≤ most_text_bits → IsBodySize (length (body text)) }
    ensures few { (w : List Bool) → IsBodySize (length w) → (1 ≤ piece_count w) × (piece_count w ≤ 8) }
{}

/// Pieces of one body, one for each of its places, are the body, whatever packets they came in.
pub fn joining()
    // pieces at the places from 0 on, one after another, up to a marked one
    ensures up_to_last { (w : List Bool) (ps : List PacketFields) → All (CarriesPieceOf w) ps → is_whole_from 0 ps ≡ true → joined_pieces ps ≡ w }

    // pieces at all places
    ensures all_places { (w : List Bool) (ps : List PacketFields) → All (CarriesPieceOf w) ps → map (λ q. q.place) ps ≡ places (piece_count w) → joined_pieces ps ≡ w }
{}

/// The pieces of one message rejoin to its body, in whatever order and however often they come.
pub fn rejoining()
    ensures { Rejoining }
{}

/// A message of one packet needs no slot, and empties that of an older message of its flow.
pub fn single()
    ensures whole { (slots : List SlotState) (p : PacketFields) → p.place ≡ 0 → p.last ≡ true → kept_for slots p ≡ [] → answer_of slots p ≡ answer.Whole p.bits }
    ensures emptied { (slots : List SlotState) (p : PacketFields) → p.place ≡ 0 → p.last ≡ true → kept_for slots p ≡ [] → added slots p ≡ without slots (flow_of p) }
    ensures none_taken { (slots : List SlotState) (f : Flow) → slot_of slots f ≡ None → without slots f ≡ slots }
    ensures old { (slots : List SlotState) (p : PacketFields) → p.place ≡ 0 → p.last ≡ true → 0 < length (kept_for slots p) → (answer_of slots p ≡ answer.Old) × (added slots p ≡ slots) }
{}

/// What slots hold came in packets, and nothing is made of pieces of two messages.
pub fn holding()
    ensures { Holding }
{}

/// What is no gathered message: each list of pieces has one thing wrong.
pub fn not_gathered()
    ensures { NotGathered }
{}
