//! Worked examples of resets in a book. The functions here do nothing: each clause is a row, computed over the definitions.

ghost use Rattle.std.specs.Prelude.{◌≡◌, [], ◌∷◌, Some, None, true};
ghost use Rattle.interface.specs.declared.crossing.Crossing.TheVariants as crossing;
ghost use Rattle.net_sim.specs.Clean.{IsFresh, IsText, clean_point, is_through};
ghost use Rattle.net_sim.specs.Worked.{message};
ghost use Rattle.net_sim.specs.WorkedResets.{call, contacts, reset_on, rst, text};
ghost use Rattle.sockets.specs.Worked.{first, second};
ghost use Rattle.net_sim.specs.Laws.Rows.{WorkedEvents};

/// Crossings and contacts in one list.
pub fn worked_events()
    ensures { WorkedEvents }
{}

/// A whole reset, and what was sent before and after it.
pub fn worked_clean()
    // both hosts are through, each with a clean point of its own: the second's is where it took the RST, the first's where it took the RRP
    ensures through { (is_through first second contacts (reset_on []) ≡ true) × (is_through second first contacts (reset_on []) ≡ true) }
    ensures points { (clean_point first second contacts (reset_on []) ≡ Some 4) × (clean_point second first contacts (reset_on []) ≡ Some 1) }

    // where no contact was asked for, an RRP is no clean point
    ensures uncalled { clean_point first second [] (reset_on []) ≡ None }

    // what goes out after the reset is fresh, and what went out before it isn't
    ensures fresh { IsFresh text contacts (crossing.Out text ∷ reset_on []) }
    ensures stale { IsFresh text (call first 1 second ∷ []) (reset_on (crossing.Out text ∷ [])) → ⊥ }

    // what never went out isn't fresh
    ensures unsent { IsFresh text contacts (reset_on []) → ⊥ }

    // an RST is no text, though link 0 has texts too
    ensures signal { IsText (rst first second) → ⊥ }
    ensures control { IsText (message first second 0) }
{}
