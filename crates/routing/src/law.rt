//! The laws of route tables, stated over their definitions. The functions here do nothing: each clause is
//! a law.

ghost use Rattle.std.specs.Prelude.{true, false, ◌≡◌, ◌≢◌, ℕ, ◌<◌, ◌≤◌, Some, [], ◌∷◌};
ghost use Rattle.interface.specs.Host.{most_imps};
ghost use Rattle.routing.specs.Vector.{IsVector, infinite};
ghost use Rattle.routing.specs.Settle.{IsNearer};
ghost use Rattle.routing.specs.Walks.{IsDistance};
ghost use Rattle.routing.specs.RouteTable.{Table, claiming, distance_in, distance_to, vector_of, next_of, IsNext};
ghost use Rattle.routing.specs.Laws.{Settling, WorkedRounds};

/// A table's vector announces its distances, and its next line attains the distance to another IMP.
pub fn tables()
    ensures vector { (t : Table) → IsVector (vector_of t) }
    ensures told { (t : Table) (imp : ℕ) → 0 < imp → imp ≤ most_imps → t.claims ≡ false → distance_in (vector_of t) imp ≡ distance_to t imp }

    // unless the IMP claims to be at distance 0 from every IMP; its next lines don't change by that
    ensures claimed { (t : Table) (imp : ℕ) → 0 < imp → imp ≤ most_imps → t.claims ≡ true → distance_in (vector_of t) imp ≡ 0 }
    ensures same_next { (t : Table) (imp : ℕ) → next_of (claiming t) imp ≡ next_of t imp }

    // a distance is 0 to the IMP itself only
    ensures own { (t : Table) (imp : ℕ) → distance_to t imp ≡ 0 → imp ≡ t.own }

    // where another IMP is at a finite distance, the next line leads there
    ensures next { (t : Table) (imp : ℕ) → imp ≢ t.own → distance_to t imp < infinite → (port : ℕ) × (next_of t imp ≡ Some port) × IsNext t imp port }
{}

/// Tables that exchange true vectors in rounds, while the lines stay as they are. After as many rounds as the
/// infinite distance, from whatever the tables had heard before, each table is right: its distances are
/// those of shortest walks over the live lines, and its next lines lead nearer.
pub fn settling()
    ensures { Settling }
{}

/// What one round is: three IMPs in a row that have heard nothing.
pub fn worked_rounds()
    ensures { WorkedRounds }
{}

/// Ports that lead no nearer.
pub fn wrong_next_lines()
    // in a row the line back, and in a triangle the line to an IMP that is as near
    ensures back { IsNearer ((1, 2) ∷ (2, 3) ∷ []) 2 3 1 0 → ⊥ }
    ensures as_near { IsNearer ((1, 2) ∷ (2, 3) ∷ (1, 3) ∷ []) 1 3 1 0 → ⊥ }

    // a port that isn't there
    ensures no_port { IsNearer ((1, 2) ∷ []) 1 3 64 1 → ⊥ }
{}

/// What is no distance in a network.
pub fn wrong_distances()
    // the length of the longer one of two walks, or less than that of any
    ensures longer { IsDistance ((1, 2) ∷ (2, 3) ∷ (1, 3) ∷ []) 1 3 2 → ⊥ }
    ensures shorter { IsDistance ((1, 2) ∷ []) 1 2 0 → ⊥ }

    // infinite where there is a walk, and finite where there is none
    ensures joined { IsDistance ((1, 2) ∷ []) 1 2 63 → ⊥ }
    ensures apart { IsDistance [] 1 2 1 → ⊥ }
{}
