//! What the definitions of the two programs come to: one worked row for each reading of a rule that would be
//! wrong. The functions do nothing; each clause is a row.

ghost use Rattle.std.specs.Prelude.{◌≡◌, [], ◌∷◌, None, Some};
ghost use Rattle.terminal.specs.Lines.{lines_heard, line_fault, spelled};
ghost use Rattle.terminal.specs.Machines.{echo_turn, terminal_turn};
ghost use Rattle.terminal.specs.declared.fault.TerminalFault.TheVariants as fault;
ghost use Rattle.terminal.specs.Laws.{WorkedEcho, WorkedTerminal};

/// Lines that go out, and octets that come in.
pub fn worked_lines()
    // a line is its text, 13 and 10, in this order; it may be empty
    ensures typed { spelled (72 ∷ 73 ∷ []) ≡ 72 ∷ 73 ∷ 13 ∷ 10 ∷ [] }
    ensures typed_empty { spelled [] ≡ 13 ∷ 10 ∷ [] }

    // the space and the tilde may be typed, what lies beside them not
    ensures printable { line_fault (32 ∷ 126 ∷ []) ≡ None }
    ensures below { line_fault (65 ∷ 31 ∷ []) ≡ Some fault.NotPrintable }
    ensures above { line_fault (127 ∷ 65 ∷ []) ≡ Some fault.NotPrintable }

    // two lines and the beginning of a third
    ensures two_lines { lines_heard [] (72 ∷ 13 ∷ 10 ∷ 73 ∷ 74 ∷ 13 ∷ 10 ∷ 75 ∷ []) ≡ ((72 ∷ []) ∷ (73 ∷ 74 ∷ []) ∷ [], 75 ∷ []) }

    // an empty line is a line
    ensures empty_line { lines_heard [] (13 ∷ 10 ∷ 13 ∷ 10 ∷ []) ≡ ([] ∷ [] ∷ [], []) }

    // neither a 10 only, nor a 13 only, nor the two in the other order end a line
    ensures no_end { lines_heard [] (72 ∷ 10 ∷ 13 ∷ 73 ∷ 10 ∷ 13 ∷ []) ≡ ([], 72 ∷ 10 ∷ 13 ∷ 73 ∷ 10 ∷ 13 ∷ []) }

    // a 13 before the end is the line's own
    ensures own_return { lines_heard [] (72 ∷ 13 ∷ 13 ∷ 10 ∷ []) ≡ ((72 ∷ 13 ∷ []) ∷ [], []) }

    // the end may come in two parts
    ensures end_in_parts { lines_heard (72 ∷ 13 ∷ []) (10 ∷ 73 ∷ []) ≡ ((72 ∷ []) ∷ [], 73 ∷ []) }

    // octets of any value are kept
    ensures any_octet { lines_heard [] (0 ∷ 255 ∷ 13 ∷ 10 ∷ []) ≡ ((0 ∷ 255 ∷ []) ∷ [], []) }
{}

/// What the echo service does, with the sockets 100 and 101.
#[tactic(auto, unfolding(crate::specs::Machines::echo_turn))]
pub fn worked_echo()
    ensures { WorkedEcho }
{}

/// What the line terminal does, with the sockets 18 and 19.
#[tactic(auto, unfolding(crate::specs::Machines::terminal_turn, crate::specs::Machines::terminal_heard, bit_messages::specs::Octets::octets_of))]
pub fn worked_terminal()
    ensures { WorkedTerminal }
{}
