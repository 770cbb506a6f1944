//! Worked examples of the rounds of a calm, and of how one ends early. The functions here do nothing: each clause is a
//! row, computed over the definitions.

ghost use Rattle.std.specs.Prelude.{◌≡◌, List, [], ◌∷◌};
ghost use Rattle.net_sim.specs.declared.event.Event.{Event};
ghost use Rattle.net_sim.specs.declared.event.Event.TheVariants.{Offer, Quiet, Take};
ghost use Rattle.sockets.specs.Worked.{first};
ghost use Rattle.world_replay.specs.Output.{Shown};
ghost use Rattle.world_replay.specs.Replay.{HappensInCalm};
ghost use Rattle.world_replay.specs.Rounds.{Again, EndsRepeated, EndsRound, Repeated, RoundOf, turns_in};
ghost use Rattle.world_replay.specs.Worked.{Fails, Ticks, after, counting, tally};

/// An event again and again.
pub fn worked_repeats()
    // until nothing crosses by it: the third time
    ensures until { Repeated Ticks Quiet 16 (tally 0) (tally 2) (Quiet ∷ Quiet ∷ Quiet ∷ []) }

    // not while something does, and not once more
    ensures too_early { ¬ (Repeated Ticks Quiet 16 (tally 0) (tally 2) (Quiet ∷ Quiet ∷ [])) }
    ensures too_late { ¬ (Repeated Ticks Quiet 16 (tally 0) (tally 2) (Quiet ∷ Quiet ∷ Quiet ∷ Quiet ∷ [])) }

    // and at most this many times
    ensures twice { Repeated Ticks Quiet 2 (tally 0) (tally 2) (Quiet ∷ Quiet ∷ []) }
    ensures three_times { ¬ (Repeated Ticks Quiet 2 (tally 0) (tally 2) (Quiet ∷ Quiet ∷ Quiet ∷ [])) }
    ensures never { ¬ (Repeated Ticks Quiet 0 (tally 0) (tally 1) (Quiet ∷ [])) }

    // what could happen again happens once where nothing crosses by it
    ensures once { Again (HappensInCalm counting) (after 3) (Quiet, 16) (after 4) [] }
    ensures again { (shown : List Shown) → ¬ (Again (HappensInCalm counting) (after 3) (Quiet, 16) (after 5) shown) }
{}

/// A round.
pub fn worked_rounds()
    // the hosts that are up have turns, and take before they offer
    ensures turns { turns_in (tally 0).seats ≡ (Quiet, 1) ∷ (Take first, 16) ∷ (Offer first, 32) ∷ [] }

    // a message crosses in the quiet round, and one by the first taking; by the second nothing does, nor by the first
    // offer
    ensures round { RoundOf Ticks (tally 0) (tally 2) (Quiet ∷ Take first ∷ Take first ∷ Offer first ∷ []) }
    ensures no_offer { ¬ (RoundOf Ticks (tally 0) (tally 2) (Quiet ∷ Take first ∷ Take first ∷ [])) }
    ensures offer_first { ¬ (RoundOf Ticks (tally 0) (tally 2) (Quiet ∷ Offer first ∷ Offer first ∷ Take first ∷ [])) }
{}

/// A round that ends in one of its events.
pub fn worked_ends()
    // the last of an event's repetitions fails: the first one, or one after which something crossed
    ensures first { EndsRepeated Ticks Fails Quiet 16 (tally 0) (tally 0) [] }
    ensures second { EndsRepeated Ticks Fails Quiet 16 (tally 0) (tally 1) (Quiet ∷ []) }

    // after one by which nothing crossed there is none
    ensures silent { ¬ (EndsRepeated Ticks Fails Quiet 16 (tally 2) (tally 2) (Quiet ∷ [])) }

    // nor after the last one that may be
    ensures too_many { ¬ (EndsRepeated Ticks Fails Quiet 1 (tally 0) (tally 1) (Quiet ∷ [])) }
    ensures none { ¬ (EndsRepeated Ticks Fails Quiet 0 (tally 0) (tally 0) []) }

    // in a round the turns before it are whole
    ensures in_a_taking { EndsRound Ticks Fails (tally 0) (tally 2) (Quiet ∷ Take first ∷ []) }
    ensures in_an_offer { EndsRound Ticks Fails (tally 0) (tally 2) (Quiet ∷ Take first ∷ Take first ∷ []) }
    ensures skipped { ¬ (EndsRound Ticks Fails (tally 2) (tally 2) (Take first ∷ [])) }

    // and one of its events fails
    ensures whole { ¬ (EndsRound Ticks Fails (tally 2) (tally 2) (Quiet ∷ Take first ∷ Offer first ∷ [])) }
{}
