//! Worked examples of the two lives between which a message of data went. The functions here do nothing: each clause is
//! a row, computed over the definitions.

ghost use Rattle.std.specs.Prelude.{[], ◌∷◌};
ghost use Rattle.net_sim.specs.WorkedMoments.{eight_sent};
ghost use Rattle.promise.specs.Worked.{opened};
ghost use Rattle.world_keeps_lives.specs.WorkedFormed.{gave, sent_log, stray, stray_log, took, two_log, untaken_log, zeros_sent};
ghost use Rattle.world_keeps_streams.specs.Between.{EachIsBetween, IsBetween};

/// A message of eight bits, which a sending life counts, and the receiving one that matches this.
pub fn worked_between()
    ensures both { IsBetween sent_log (took ∷ gave ∷ []) 15 eight_sent }

    // an empty book has neither, and a book without its receiving lives, or without its sending ones, has one
    ensures empty { EachIsBetween sent_log [] → ⊥ }
    ensures waiting { EachIsBetween untaken_log [] → ⊥ }
    ensures untaken { EachIsBetween sent_log (gave ∷ []) → ⊥ }
    ensures unsent { EachIsBetween sent_log (took ∷ []) → ⊥ }

    // two receiving lives, which match no sending one, and two sending ones
    ensures takers { EachIsBetween sent_log (took ∷ took ∷ []) → ⊥ }
    ensures givers { EachIsBetween sent_log (gave ∷ gave ∷ []) → ⊥ }

    // the sending life doesn't count the second message, and it isn't on link 3
    ensures second { IsBetween two_log (took ∷ gave ∷ []) 18 zeros_sent → ⊥ }
    ensures link { IsBetween stray_log (took ∷ gave ∷ []) 12 stray → ⊥ }

    // nothing is asked of requests: whether they opened a connection is said by nothing that crosses
    ensures control { EachIsBetween opened [] }
{}
