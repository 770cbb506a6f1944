//! What logs promise, as laws over their definitions. The functions here do nothing: each clause is the law.

ghost use Rattle.std.specs.Prelude.{◌≡◌, ◌↔◌, ◌∷◌, ◌++◌, ℕ, true, false, List, [], codes};
ghost use Rattle.interface.specs.Host.{Host, host_before};
ghost use Rattle.script.specs.Input.{ended_line};
ghost use Rattle.script.specs.Spelling.{IsHost};
ghost use Rattle.book_log.specs.Log.{AreStrangers, Begins, Book, HasOctets, IsBook, IsLog, IsBadLine, RanOut};
ghost use Rattle.book_log.specs.Log.{is_of_octets};
ghost use Rattle.book_log.specs.Log.{log_text, stranger_line, strangers_text};

/// There is one reading: octets are the log of one network and one book, or have one first bad line, and never both.
pub fn one_reading()
    ensures books { (octets : List ℕ) (strangers others : List Host) (book other : Book) → IsLog octets strangers book → IsLog octets others other → book ≡ other }
    ensures strangers { (octets : List ℕ) (strangers others : List Host) (book other : Book) → IsLog octets strangers book → IsLog octets others other → strangers ≡ others }
    ensures lines { (octets : List ℕ) (number other : ℕ) → IsBadLine octets number → IsBadLine octets other → number ≡ other }
{}

/// A network without strangers has the log of its book, and no book's lines begin with that of a stranger: so octets that
/// don't begin so are read as if there were no strangers.
pub fn no_strangers()
    ensures alone { (octets : List ℕ) (b : Book) → IsLog octets [] b ↔ ((octets ≡ log_text b) × IsBook b) }
    ensures book { (b : Book) (h : Host) (rest : List ℕ) → log_text b ≡ ended_line (stranger_line h) ++ rest → ⊥ }
{}

/// Before the line of a stranger there are only those of earlier ones, by IMP and then by number.
pub fn strangers_first()
    ensures { (before : List (List ℕ)) (line : List ℕ) (h : Host) → IsHost h → Begins (before ++ line ∷ stranger_line h ∷ []) → (last : Host) × (line ≡ stranger_line last) × (host_before last h ≡ true) }
{}

/// What precedes a log: each stranger has its line, in their order.
pub fn worked_strangers()
    ensures none { strangers_text [] ≡ [] }
    ensures two { strangers_text (record { host = 1; imp = 2 } ∷ record { host = 0; imp = 13 } ∷ []) ≡ codes "foreign 1/2\nforeign 0/13\n" }

    // by IMP, then by number, each once
    ensures by_imp { AreStrangers (record { host = 1; imp = 2 } ∷ record { host = 0; imp = 13 } ∷ []) }
    ensures by_number { AreStrangers (record { host = 0; imp = 2 } ∷ record { host = 1; imp = 2 } ∷ []) }
    ensures falling { AreStrangers (record { host = 0; imp = 13 } ∷ record { host = 1; imp = 2 } ∷ []) → ⊥ }
    ensures falling_number { AreStrangers (record { host = 1; imp = 2 } ∷ record { host = 0; imp = 2 } ∷ []) → ⊥ }
    ensures twice { AreStrangers (record { host = 1; imp = 2 } ∷ record { host = 1; imp = 2 } ∷ []) → ⊥ }
    ensures no_host { AreStrangers (record { host = 4; imp = 2 } ∷ []) → ⊥ }
{}

/// Where memory may run out as a log is read.
pub fn worked_memory()
    // octets are in the lines of messages, of lives and of what was handed over
    ensures sent { is_of_octets (codes "out") ≡ true }
    ensures taken { is_of_octets (codes "in") ≡ true }
    ensures lived { is_of_octets (codes "life") ≡ true }
    ensures handed { HasOctets (codes "handed 0 -") }

    // and in no other, be its first word only longer
    ensures none { HasOctets (codes "up 0/1") → ⊥ }
    ensures longer { is_of_octets (codes "outer") ≡ false }

    // not at a line with which nothing begins, and not after lines with which nothing begins
    ensures unwanted { RanOut (λ lines. lines ≡ []) (codes "up\n") → ⊥ }
    ensures begun { (octets : List ℕ) → RanOut (λ lines. ⊥) octets → ⊥ }
{}
