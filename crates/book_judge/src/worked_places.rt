//! Where a part of a book is broken can't be anywhere: wrong places, of whatever book.
//!
//! The functions here do nothing: each clause is a row.

ghost use Rattle.std.specs.Prelude.{◌+◌, ℕ, Bool, List, Some, [], ◌∷◌, length};
ghost use Rattle.net_sim.specs.declared.auditing.findings.Finding.TheVariants as finding;
ghost use Rattle.promise.specs.declared.life.Life.{Life};
ghost use Rattle.book_judge.specs.Broken.{unbroken};
ghost use Rattle.book_judge.specs.WorkedPlaces.{NeverAt, NeverOf};

/// Partners are broken at two lives, the second one after the first.
pub fn worked_pairs()
    ensures one { (n : ℕ) (xs : List Life) → NeverOf (record unbroken { partners = Some (finding.Life n) }) xs }
    ensures twice { (n : ℕ) (xs : List Life) → NeverOf (record unbroken { partners = Some (finding.Lives n n) }) xs }
    ensures exchanged { (n : ℕ) (xs : List Life) → NeverOf (record unbroken { partners = Some (finding.Lives (n + 1) n) }) xs }
{}

/// Streams, grants and closes are broken at a life of the book, and at no crossing and no list.
pub fn worked_places()
    ensures crossing { (n : ℕ) (xs : List Life) → NeverOf (record unbroken { streams = Some (finding.Crossing n) }) xs }
    ensures list { (n : ℕ) (xs : List Life) → NeverOf (record unbroken { grants = Some (finding.List n) }) xs }
    ensures past { (xs : List Life) → NeverOf (record unbroken { closes = Some (finding.Life (length xs)) }) xs }
    ensures match_past { (xs : List Life) → NeverOf (record unbroken { streams = Some (finding.Lives 0 (length xs)) }) xs }
{}

/// A life without a list, and a list without a life, are the first ones.
pub fn worked_counts()
    ensures later_life { (x : Life) → NeverAt (finding.Life 1) (x ∷ []) [] }
    ensures earlier_life { (x y : Life) (h : List Bool) → NeverAt (finding.Life 0) (x ∷ y ∷ []) (h ∷ []) }
    ensures later_list { (h : List Bool) → NeverAt (finding.List 1) [] (h ∷ []) }
{}
