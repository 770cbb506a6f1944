//! Worked examples of where it shows that a book isn't safe: at the first place, and at no other. The functions here do
//! nothing: each clause is a row.

ghost use Rattle.std.specs.Prelude.{Bool, List, [], ◌∷◌};
ghost use Rattle.interface.specs.declared.crossing.Crossing.{Crossing};
ghost use Rattle.net_sim.specs.Findings.{ShowsMalformed, ShowsTwo, WithMatch};
ghost use Rattle.net_sim.specs.Worked.{crossings, giver, taker};
ghost use Rattle.net_sim.specs.declared.auditing.findings.Finding.TheVariants as finding;
ghost use Rattle.promise.specs.declared.life.Life.{Life};

/// Of two lives in a log in which nothing crossed it shows at the first.
pub fn first_places()
    ensures first { (x y : Life) (h i : List Bool) → ShowsMalformed (finding.Life 0) [] (x ∷ y ∷ []) (h ∷ i ∷ []) }
    ensures second { (x y : Life) (h i : List Bool) → ShowsMalformed (finding.Life 1) [] (x ∷ y ∷ []) (h ∷ i ∷ []) → ⊥ }
{}

/// The receiving life of a connection is there twice, after the sending one: with that it is at peace.
pub fn odd_pairs()
    ensures twice { ShowsTwo (finding.Lives 1 2) crossings (giver ∷ taker ∷ taker ∷ []) }
    ensures sender { ShowsTwo (finding.Lives 0 2) crossings (giver ∷ taker ∷ taker ∷ []) → ⊥ }
{}

/// A receiving life is named with the one that it matches, and a sending one, of whatever log, with none.
pub fn matched_lives()
    ensures receiver { WithMatch (finding.Lives 1 0) 1 crossings (giver ∷ taker ∷ []) }
    ensures sender { (log : List Crossing) (y : Life) → WithMatch (finding.Lives 0 1) 0 log (giver ∷ y ∷ []) → ⊥ }
{}
