//! Worked examples of how connections close. The functions here do nothing: each clause is a row, computed over the
//! definitions.

ghost use Rattle.std.specs.Prelude.{[], ◌∷◌, ◌++◌};
ghost use Rattle.net_sim.specs.Worked.{crossings, eight, four, giver, over, taker, taker_of_nothing, giver_of_nothing};
ghost use Rattle.promise.specs.Fates.{ClosesWhole};
ghost use Rattle.promise.specs.declared.life.Fate.TheVariants as fate;

/// A connection on which eight bits were handed over and sent, and whose sender's user closed.
pub fn whole_closes()
    // the receiver took them
    ensures whole { ClosesWhole crossings (over giver ∷ over taker ∷ []) (eight ∷ [] ∷ []) (fate.Closed ∷ fate.Ended ∷ []) }

    // it may lack them if its own user had closed, or its pair was reset
    ensures closed { ClosesWhole crossings (over giver ∷ over taker_of_nothing ∷ []) (eight ∷ [] ∷ []) (fate.Closed ∷ fate.Closed ∷ []) }
    ensures reset { ClosesWhole crossings (over giver ∷ over taker_of_nothing ∷ []) (eight ∷ [] ∷ []) (fate.Closed ∷ fate.Reset ∷ []) }

    // otherwise not, nor may it have other bits, or another number of messages
    ensures less { ClosesWhole crossings (over giver ∷ over taker_of_nothing ∷ []) (eight ∷ [] ∷ []) (fate.Closed ∷ fate.Ended ∷ []) → ⊥ }
    ensures other { ClosesWhole crossings (over (record giver { bits = four }) ∷ over taker ∷ []) (eight ∷ [] ∷ []) (fate.Closed ∷ fate.Ended ∷ []) → ⊥ }
    ensures messages { ClosesWhole crossings (over giver ∷ over (record taker { messages = 2 }) ∷ []) (eight ∷ [] ∷ []) (fate.Closed ∷ fate.Ended ∷ []) → ⊥ }

    // nor may more have been handed over than was sent, also if nothing was
    ensures handed { ClosesWhole crossings (over giver ∷ over taker ∷ []) ((eight ++ four) ∷ [] ∷ []) (fate.Closed ∷ fate.Ended ∷ []) → ⊥ }
    ensures unsent { ClosesWhole crossings (over giver_of_nothing ∷ over taker_of_nothing ∷ []) (eight ∷ [] ∷ []) (fate.Closed ∷ fate.Ended ∷ []) → ⊥ }
    ensures nothing { ClosesWhole crossings (over giver_of_nothing ∷ over taker_of_nothing ∷ []) ([] ∷ [] ∷ []) (fate.Closed ∷ fate.Ended ∷ []) }
{}
