//! What sessions promise, as laws over their definitions. The functions here do nothing: their clauses are the laws.

ghost use Rattle.std.specs.Prelude.{◌≡◌, [], Bool, List, codes};
ghost use Rattle.session.specs.Laws.{Echoes, OneSession, Prefixes, two};
ghost use Rattle.session.specs.Turns.{AnswersInTurn, Prints, Turn, session_of};

use crate::stage::Stage;
use replay::Output;
use script::reading::ScriptEvent;

/// Without its empty lines a session is what is printed of its script: the answers to all lines together.
pub fn one_session<E: ScriptEvent, W: Output, S: Stage<E, W>>()
    ensures { (strangers : Bool) (opening : S) (turns : List Turn) → OneSession (Prints E.spelled (E.is_meant strangers) S.replays opening) turns }
{}

/// What is printed of the first lines is the first part of what is printed of all, where a script determines what is
/// printed of it.
pub fn prefixes<E: ScriptEvent, W: Output, S: Stage<E, W>>()
    ensures { (strangers : Bool) (opening : S) (turns : List Turn) → Prefixes (Prints E.spelled (E.is_meant strangers) S.replays opening) turns }
{}

/// Sessions on a network on which each line is answered by itself.
pub fn worked_sessions()
    // two lines, each answered in its turn, and what is written of them
    ensures in_turn { AnswersInTurn Echoes (two (codes "a\n") (codes "b\n")) }
    ensures written { session_of (two (codes "a\n") (codes "b\n")) ≡ codes "a\n\nb\n\n" }

    // an answer that is withheld, and one that is joined with the next
    ensures withheld { AnswersInTurn Echoes (two [] (codes "b\n")) → ⊥ }
    ensures joined { AnswersInTurn Echoes (two [] (codes "a\nb\n")) → ⊥ }

    // an answer before its line is there, and one that has an empty line of its own
    ensures early { AnswersInTurn Echoes (two (codes "a\nb\n") []) → ⊥ }
    ensures empty_line { AnswersInTurn Echoes (two (codes "a\n\n") (codes "b\n")) → ⊥ }
{}
