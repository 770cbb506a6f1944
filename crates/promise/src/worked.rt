//! Worked examples of requests, texts, contacts and crossings. The functions here do nothing: each clause is a row,
//! computed over the definitions.
#![tactic(auto, unfolding(ncp_control::specs::Reading::command_of, bit_messages::specs::Octets::octets_of, host_pairs::specs::Control::orders_of, ncp_control::specs::Reading::read_of))]

ghost use Rattle.std.specs.Prelude.{◌≡◌, true, false, [], ◌∷◌, Some, None};
ghost use Rattle.host_pairs.specs.Control.{Legal, Wrong, is_control};
ghost use Rattle.interface.specs.declared.crossing.Answer.TheVariants as answer;
ghost use Rattle.interface.specs.declared.crossing.Crossing.TheVariants as crossing;
ghost use Rattle.ncp_control.specs.declared.command.Command.TheVariants as command;
ghost use Rattle.promise.specs.Arrived.{IsCounted};
ghost use Rattle.promise.specs.Ends.{AreContacts, asks_for, contacts_now, crosses, said, still_contacts};
ghost use Rattle.promise.specs.Fates.{is_over};
ghost use Rattle.promise.specs.Formed.{named_by, named_in, request, texts_of};
ghost use Rattle.promise.specs.Worked.{contact, dropped, first, four_taken, goes, message, one_bit, opened};
ghost use Rattle.promise.specs.Worked.{rst, rst_on_one, rts, second, stopped, str, taken, taker, third, told, turned};
ghost use Rattle.promise.specs.declared.life.Fate.TheVariants as fate;

/// Which commands are requests for two sockets, and what they name.
pub fn worked_requests()
    // its sender's own socket first
    ensures rts { asks_for 16 33 (command.Rts 16 33 2) ≡ true }
    ensures rts_own { asks_for 16 33 (command.Rts 18 33 2) ≡ false }
    ensures rts_foreign { asks_for 16 33 (command.Rts 16 35 2) ≡ false }
    ensures rts_turned { asks_for 16 33 (command.Rts 33 16 2) ≡ false }
    ensures str { asks_for 33 16 (command.Str 33 16 8) ≡ true }
    ensures str_own { asks_for 33 16 (command.Str 35 16 8) ≡ false }
    ensures str_foreign { asks_for 33 16 (command.Str 33 18 8) ≡ false }
    ensures str_turned { asks_for 33 16 (command.Str 16 33 8) ≡ false }
    ensures cls { asks_for 16 33 (command.Cls 16 33) ≡ false }

    // an RTS names the link, and an STR the byte size
    ensures link { named_by 16 33 (command.Rts 16 33 2) ≡ Some 2 }
    ensures size { named_by 33 16 (command.Str 33 16 8) ≡ Some 8 }

    // of other sockets, or where the own one is of the other kind, they name nothing
    ensures other_receiver { named_by 16 33 (command.Rts 18 33 2) ≡ None }
    ensures of_other { named_by 16 33 (command.Rts 16 35 2) ≡ None }
    ensures other_sender { named_by 33 16 (command.Str 35 16 8) ≡ None }
    ensures to_other { named_by 33 16 (command.Str 33 18 8) ≡ None }
    ensures odd { named_by 33 16 (command.Rts 33 16 2) ≡ None }
    ensures even { named_by 16 33 (command.Str 16 33 8) ≡ None }

    // the first of them in a text counts, after others and errors
    ensures first { named_in 16 33 (Legal (command.Rts 16 33 2) ∷ Legal (command.Rts 16 33 4) ∷ []) ≡ Some 2 }
    ensures after { named_in 16 33 (Wrong 1 [] ∷ Legal command.Rst ∷ Legal (command.Rts 16 33 2) ∷ []) ≡ Some 2 }

    // an even socket asks by an RTS, an odd one by an STR
    ensures asked { request 16 33 2 ≡ command.Rts 16 33 2 }
    ensures answered { request 33 16 8 ≡ command.Str 33 16 8 }
{}

/// Which headers are of control messages: bytes of eight bits, at most 120 of them.
pub fn worked_headers()
    ensures longest { is_control (record { size = 8; count = 120 }) ≡ true }
    ensures longer { is_control (record { size = 8; count = 121 }) ≡ false }
    ensures size { is_control (record { size = 9; count = 120 }) ≡ false }
{}

/// The texts on a flow after two places, the oldest first.
pub fn worked_texts()
    ensures own_last { texts_of true one_bit.flow 1 0 four_taken ≡ (false ∷ []) ∷ (true ∷ true ∷ []) ∷ [] }
    ensures partner_last { texts_of true one_bit.flow 0 1 four_taken ≡ (false ∷ []) ∷ (true ∷ true ∷ []) ∷ [] }
{}

/// Which messages a life counts that takes one, after both of its requests.
pub fn worked_counted()
    ensures first { IsCounted opened 4 one_bit taker }

    // not the next one, nor one on another link
    ensures second { IsCounted (crossing.In one_bit ∷ opened) 5 one_bit taker → ⊥ }
    ensures link { IsCounted opened 4 (message second first 3 []) taker → ⊥ }

    // nor at the place of a request
    ensures partner { IsCounted opened 3 one_bit taker → ⊥ }
    ensures own { IsCounted (crossing.Out rts ∷ crossing.In str ∷ []) 1 one_bit turned → ⊥ }
{}

/// A crossing of a life that goes, at place 5.
pub fn worked_crossings()
    // an RST goes out, or an RRP, which drops nothing where it was owed
    ensures rst { said taker 5 command.Rst (goes true) ≡ dropped true }
    ensures rrp { said taker 5 command.Rrp (goes false) ≡ dropped false }
    ensures owed { said taker 5 command.Rrp (goes true) ≡ goes false }

    // an RST crosses, to its peer and from it
    ensures out { crosses taker 5 (crossing.Out (rst first second)) (goes false) ≡ dropped false }
    ensures taken { crosses taker 5 (crossing.In (rst second first)) (goes false) ≡ dropped true }

    // a message to its peer fails, which drops nothing where an RRP is owed, nor does RFNM, or the failure of another
    ensures failed { crosses taker 5 (told answer.Dead first second) (goes false) ≡ dropped false }
    ensures owing { crosses taker 5 (told answer.Dead first second) (goes true) ≡ goes true }
    ensures rfnm { crosses taker 5 (told answer.Rfnm first second) (goes false) ≡ goes false }
    ensures from { crosses taker 5 (told answer.Dead third second) (goes false) ≡ goes false }
    ensures to { crosses taker 5 (told answer.Dead first third) (goes false) ≡ goes false }

    // its host stops or starts, and owes nothing any more, or its peer does
    ensures down { crosses taker 5 (crossing.Down first) (goes true) ≡ stopped }
    ensures up { crosses taker 5 (crossing.Up first) (goes true) ≡ goes false }
    ensures peer_down { crosses taker 5 (crossing.Down second) (goes true) ≡ goes true }
    ensures peer_up { crosses taker 5 (crossing.Up second) (goes true) ≡ goes true }
{}

/// Whether the first host has contacted the second, and nothing went out to it since.
pub fn worked_contacting()
    ensures out { still_contacts first second (crossing.Out (message first second 0 [])) true ≡ false }
    ensures elsewhere { still_contacts first second (crossing.Out (message first third 0 [])) true ≡ true }
    ensures others { still_contacts first second (crossing.Out (message third second 0 [])) true ≡ true }
    ensures uncalled { still_contacts first second (crossing.Out (message first third 0 [])) false ≡ false }
    ensures stopped { still_contacts first second (crossing.Down first) true ≡ false }
    ensures peer { still_contacts first second (crossing.Down second) true ≡ true }
    ensures peer_uncalled { still_contacts first second (crossing.Down second) false ≡ false }

    // at the beginning, where one of its contacts is with the second; and where something came in after that
    ensures beginning { contacts_now (contact 0 third ∷ contact 0 second ∷ []) first second [] ≡ true }
    ensures later { contacts_now (contact 1 second ∷ []) first second [] ≡ false }
    ensures calling { contacts_now (contact 0 second ∷ []) first second (taken [] ∷ []) ≡ true }
    ensures went { contacts_now (contact 0 second ∷ []) first second (crossing.Out rts ∷ []) ≡ false }

    // after what went out
    ensures again { contacts_now (contact 0 third ∷ contact 1 second ∷ []) first second (crossing.Out rts ∷ []) ≡ true }
{}

/// What goes out next after a contact: an RST, on link 0.
pub fn worked_next()
    ensures rst { AreContacts (contact 0 second ∷ []) (crossing.Out (rst first second) ∷ []) }
    ensures uncalled { AreContacts [] (crossing.Out rts ∷ []) }
    ensures rts { AreContacts (contact 0 second ∷ []) (crossing.Out rts ∷ []) → ⊥ }
    ensures link { AreContacts (contact 0 second ∷ []) (rst_on_one ∷ []) → ⊥ }

    // whatever crosses later
    ensures out { AreContacts (contact 0 second ∷ []) (crossing.Out rts ∷ crossing.Out rts ∷ []) → ⊥ }
    ensures taken { AreContacts (contact 0 second ∷ []) (taken [] ∷ crossing.Out rts ∷ []) → ⊥ }
{}

/// Which fates are those of lives that are over.
pub fn worked_over()
    ensures open { is_over fate.Open ≡ false }
    ensures closing { is_over fate.Closing ≡ false }
    ensures closed { is_over fate.Closed ≡ true }
    ensures ended { is_over fate.Ended ≡ true }
    ensures reset { is_over fate.Reset ≡ true }
    ensures stopped { is_over fate.Stopped ≡ true }
{}
