//! Worked examples of how texts are read. The functions here do nothing: each clause is a row, computed over the
//! definitions.
#![tactic(auto, unfolding(ncp_control::specs::Reading::command_of, bit_messages::specs::Octets::octets_of, host_pairs::specs::Control::orders_of, ncp_control::specs::Reading::read_of))]

ghost use Rattle.std.specs.Prelude.{◌≡◌, true, false, [], ◌∷◌, ◌++◌, Some, None, Ok, Err, take};
ghost use Rattle.bit_messages.specs.Octets.{bits_of, octets_of};
ghost use Rattle.host_pairs.specs.Control.{Legal, Wrong, orders_in, orders_of};
ghost use Rattle.ncp_control.specs.DataHeader.{fields_of, header_of, octet_at};
ghost use Rattle.ncp_control.specs.Numbers.{is_byte_size, is_connection_link, is_receive_socket, is_send_socket};
ghost use Rattle.ncp_control.specs.Reading.{read_of};
ghost use Rattle.ncp_control.specs.declared.command.Command.TheVariants as command;
ghost use Rattle.ncp_control.specs.declared.fault.ControlFault.TheVariants as fault;
ghost use Rattle.promise.specs.Worked.{no_size, ten, with_sockets};

/// Octets of bits, of which the last are filled with zeros.
pub fn worked_octets()
    ensures one { octets_of (true ∷ []) ≡ 128 ∷ [] }
    ensures two { octets_of (false ∷ true ∷ []) ≡ 64 ∷ [] }
    ensures three { octets_of (false ∷ true ∷ true ∷ []) ≡ 96 ∷ [] }
    ensures four { octets_of (false ∷ true ∷ true ∷ true ∷ []) ≡ 112 ∷ [] }
    ensures five { octets_of (false ∷ true ∷ true ∷ true ∷ true ∷ []) ≡ 120 ∷ [] }
    ensures six { octets_of (false ∷ true ∷ true ∷ true ∷ true ∷ true ∷ []) ≡ 124 ∷ [] }
    ensures seven { octets_of (false ∷ true ∷ true ∷ true ∷ true ∷ true ∷ true ∷ []) ≡ 126 ∷ [] }
    ensures eight { octets_of (false ∷ true ∷ false ∷ true ∷ false ∷ true ∷ false ∷ true ∷ []) ≡ 85 ∷ [] }

    // an octet in a text, whatever is before and after it, and where the text ends
    ensures after_ones { octet_at (bits_of (255 ∷ 85 ∷ 0 ∷ [])) 8 ≡ 85 }
    ensures after_zeros { octet_at (bits_of (0 ∷ 85 ∷ 0 ∷ [])) 8 ≡ 85 }
    ensures ended { octet_at [] 0 ≡ 0 }
{}

/// Headers: the size of bytes, and how many there are.
pub fn worked_headers()
    ensures fields { fields_of (bits_of (0 ∷ 8 ∷ 1 ∷ 2 ∷ 0 ∷ [])) ≡ record { size = 8; count = 258 } }
    ensures empty { header_of (bits_of (0 ∷ 8 ∷ 0 ∷ 0 ∷ 0 ∷ [])) ≡ Some (record { size = 8; count = 0 }) }
    ensures whole { header_of (bits_of (0 ∷ 8 ∷ 0 ∷ 1 ∷ 0 ∷ 255 ∷ [])) ≡ Some (record { size = 8; count = 1 }) }

    // the data end too early, or the header does
    ensures cut { header_of (bits_of (0 ∷ 8 ∷ 0 ∷ 1 ∷ 0 ∷ [])) ≡ None }
    ensures short { header_of (take 39 (bits_of (0 ∷ 8 ∷ 0 ∷ 0 ∷ 0 ∷ []))) ≡ None }

    // what comes after the commands that a header counts isn't read
    ensures more { orders_of (bits_of (0 ∷ 8 ∷ 0 ∷ 1 ∷ 0 ∷ 12 ∷ 12 ∷ [])) ≡ Legal command.Rst ∷ [] }
{}

/// Sockets, links and sizes.
pub fn worked_numbers()
    ensures even { is_receive_socket 16 ≡ true }
    ensures odd { is_receive_socket 33 ≡ false }
    ensures sends { is_send_socket 33 ≡ true }
    ensures receives { is_send_socket 16 ≡ false }
    ensures first_link { is_connection_link 2 ≡ true }
    ensures last_link { is_connection_link 31 ≡ true }
    ensures link_1 { is_connection_link 1 ≡ false }
    ensures link_32 { is_connection_link 32 ≡ false }
    ensures a_bit { is_byte_size 1 ≡ true }
    ensures no_bit { is_byte_size 0 ≡ false }
{}

/// Commands, of which other octets may follow.
pub fn worked_commands()
    ensures nop { read_of (0 ∷ 99 ∷ []) ≡ Ok (command.Nop, 1) }
    ensures rts { read_of (with_sockets 1 16 33 ++ 2 ∷ 99 ∷ []) ≡ Ok (command.Rts 16 33 2, 10) }
    ensures str { read_of (with_sockets 2 33 16 ++ 8 ∷ 99 ∷ []) ≡ Ok (command.Str 33 16 8, 10) }
    ensures cls { read_of (with_sockets 3 16 33 ++ 99 ∷ []) ≡ Ok (command.Cls 16 33, 9) }
    ensures all { read_of (4 ∷ 2 ∷ 1 ∷ 3 ∷ 0 ∷ 0 ∷ 1 ∷ 4 ∷ 99 ∷ []) ≡ Ok (command.All 2 259 260, 8) }
    ensures gvb { read_of (5 ∷ 2 ∷ 64 ∷ 128 ∷ 99 ∷ []) ≡ Ok (command.Gvb 2 64 128, 4) }
    ensures ret { read_of (6 ∷ 2 ∷ 1 ∷ 3 ∷ 0 ∷ 0 ∷ 1 ∷ 4 ∷ 99 ∷ []) ≡ Ok (command.Ret 2 259 260, 8) }
    ensures inr { read_of (7 ∷ 2 ∷ 99 ∷ []) ≡ Ok (command.Inr 2, 2) }
    ensures ins { read_of (8 ∷ 2 ∷ 99 ∷ []) ≡ Ok (command.Ins 2, 2) }
    ensures eco { read_of (9 ∷ 65 ∷ 99 ∷ []) ≡ Ok (command.Eco 65, 2) }
    ensures erp { read_of (10 ∷ 65 ∷ 99 ∷ []) ≡ Ok (command.Erp 65, 2) }
    ensures err { read_of (11 ∷ 77 ∷ ten ++ 99 ∷ []) ≡ Ok (command.Err 77 ten, 12) }
    ensures rst { read_of (12 ∷ 99 ∷ []) ≡ Ok (command.Rst, 1) }
    ensures rrp { read_of (13 ∷ 99 ∷ []) ≡ Ok (command.Rrp, 1) }
{}

/// Errors: a code that no command has, octets that are missing, and fields out of range.
pub fn worked_errors()
    ensures nothing { read_of [] ≡ Err (fault.Short 0) }
    ensures short { read_of (7 ∷ []) ≡ Err (fault.Short 1) }
    ensures illegal { read_of (14 ∷ 99 ∷ []) ≡ Err (fault.IllegalCode 2) }
    ensures at_most_ten { read_of (14 ∷ ten) ≡ Err (fault.IllegalCode 10) }
    ensures odd { read_of (with_sockets 1 17 33 ++ 2 ∷ []) ≡ Err (fault.Erroneous 10) }
    ensures link { read_of (with_sockets 1 16 33 ++ 1 ∷ []) ≡ Err (fault.Erroneous 10) }
    ensures even { read_of (with_sockets 2 32 16 ++ 8 ∷ []) ≡ Err (fault.Erroneous 10) }
    ensures size { read_of no_size ≡ Err (fault.Erroneous 10) }

    // reading continues after a field out of range, and ends with a code that no command has, or with what is missing
    ensures goes_on { orders_in (no_size ++ 12 ∷ []) ≡ Wrong 3 no_size ∷ Legal command.Rst ∷ [] }
    ensures ends { orders_in (14 ∷ 99 ∷ []) ≡ Wrong 1 (14 ∷ 99 ∷ []) ∷ [] }
    ensures missing { orders_in (13 ∷ 7 ∷ []) ≡ Legal command.Rrp ∷ Wrong 2 (7 ∷ []) ∷ [] }
{}
