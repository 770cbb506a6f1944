//! Laws of the two programs, over their definitions. The functions here do nothing: each clause is the law.

ghost use Rattle.std.specs.Prelude.{◌≡◌, ℕ, ◌*◌, ◌<◌, true, false, Bool, List, [], ◌∷◌, ◌++◌, length};
ghost use Rattle.std.specs.List.{flat_map, list_all};
ghost use Rattle.bit_messages.specs.Octets.{bits_of, octets_of};
ghost use Rattle.host_pairs.specs.declared.notice.Notice.{Notice};
ghost use Rattle.terminal.specs.Lines.{AreLines, has_end, lines_heard, is_printable, spelled};
ghost use Rattle.terminal.specs.Machines.{EchoState, TerminalState};
ghost use Rattle.terminal.specs.Octets.{part, whole};
ghost use Rattle.terminal.specs.Played.{arrivals, echo_played, kept, line_bits, bits_sent, terminal_played};

/// What lines are of the octets that came.
pub fn lines_of_octets()
    // nothing is lost: the lines with their ends, and what came since, are the octets
    ensures nothing_lost { (rest octets : List ℕ) → flat_map spelled (lines_heard rest octets).0 ++ (lines_heard rest octets).1 ≡ rest ++ octets }

    // a line is reported once it has ended, and not before: there is no end within a line, nor in what came since
    ensures whole_lines { (rest octets : List ℕ) → has_end rest ≡ false → AreLines (rest ++ octets) (lines_heard rest octets).0 (lines_heard rest octets).1 }

    // and octets are lines in no other way
    ensures one_reading { (octets : List ℕ) (lines : List (List ℕ)) (rest : List ℕ) → AreLines octets lines rest → lines_heard [] octets ≡ (lines, rest) }

    // what is typed at one terminal is reported at the other
    ensures there { (text : List ℕ) → list_all is_printable text ≡ true → lines_heard [] (spelled text) ≡ (text ∷ [], []) }
{}

/// What octets are of the bits that came.
pub fn octets_of_bits()
    // the bits are those of whole octets, and fewer than eight more
    ensures all { (bits : List Bool) → whole bits ++ part bits ≡ bits }
    ensures few { (bits : List Bool) → length (part bits) < 8 }
    ensures octets { (bits : List Bool) → bits_of (octets_of (whole bits)) ≡ whole bits }
{}

/// Whatever a host is notified of, the two programs lose nothing of what arrives on their socket.
pub fn nothing_is_lost()
    // what the service asks to be sent is what arrived, in order, whatever came last
    ensures echoed { (s : EchoState) (ns : List Notice) → bits_sent (echo_played s ns).1 ≡ arrivals s.receive ns }

    // the lines that the terminal reports, with their ends, and what it keeps are what it had and what arrived in order
    ensures told { (s : TerminalState) (ns : List Notice) → kept s ++ arrivals s.receive ns ≡ line_bits (terminal_played s ns).1 ++ kept (terminal_played s ns).0 }
{}
