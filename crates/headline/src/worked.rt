//! Worked examples of what a book has of its network's log. The function does nothing: each clause is a row, computed
//! over the definitions.

ghost use Rattle.std.specs.Prelude.{[], ◌∷◌, true, false, drop};
ghost use Rattle.interface.specs.declared.crossing.Crossing.TheVariants as crossing;
ghost use Rattle.headline.specs.Promise.{HasLog};
ghost use Rattle.promise.specs.Worked.{first, opened, second};

/// Four crossings, in the log of a network.
pub fn worked_logs()
    ensures all { HasLog opened false opened }

    // nothing may be left out, nor may anything be put in its place
    ensures empty { HasLog opened false [] → ⊥ }
    ensures last { HasLog opened false (drop 1 opened) → ⊥ }
    ensures other { HasLog opened true (crossing.Down first ∷ drop 1 opened) → ⊥ }

    // but for what crossed in the event in which memory ran out: one crossing, or the stops of an IMP's hosts
    ensures stopped { HasLog opened true (drop 1 opened) }
    ensures two { HasLog opened true (drop 2 opened) → ⊥ }
    ensures stops { HasLog (crossing.Down first ∷ crossing.Down second ∷ opened) true opened }
{}
