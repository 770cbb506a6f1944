//! What becomes of requests. The functions here do nothing: each clause is the law.

ghost use Rattle.std.specs.Prelude.{◌≡◌, ℕ, true, false, List, [], ◌∷◌, Some, None};
ghost use Rattle.pairing_law.specs.Marks.{Mark, Ask, Close};
ghost use Rattle.pairing_law.specs.Ends.{nothing, fits};
ghost use Rattle.pairing_law.specs.Sides.{Event, One, Two, Meet, Say, Hear, both, IsRun};
ghost use Rattle.pairing_law.specs.Partners.{IsOpen, OwnOnce, PartnerOnce, SafePartners};
ghost use Rattle.pairing_law.specs.Links.{Sockets, Word, Sender, Step, Hears, events_at, receiver, sender, IsUnused, AreSteps};
ghost use Rattle.pairing_law.specs.Example.{over, again, anew, stale, unreset};
ghost use Rattle.pairing_law.specs.Laws.{Places, Resets, WorkedConnection, WorkedLinks, WorkedPlaces, WorkedStays};

/// Whatever two hosts say of one pair of their sockets, and whenever they leave and meet again. What is assumed of them is in
/// `IsRun`: the rules by which a host speaks, and what a reset gives.
pub fn partners()
    // no two ends have one request, their own or their partner's, and partners are partners both ways
    ensures safe { (events : List Event) → IsRun events → SafePartners (both events) }

    // where both have an open end, each is the other's partner
    ensures live { (events : List Event) (p q r s : ℕ) → IsRun events → IsOpen p q (both events).one.end → IsOpen r s (both events).two.end → (q ≡ r) × (s ≡ p) }

    // all that a host takes of its peer is in order: it never answers with an error
    ensures one { (events : List Event) (mark : Mark) → IsRun (One (Hear mark) ∷ events) → fits mark (both events).one.end ≡ true }
    ensures two { (events : List Event) (mark : Mark) → IsRun (Two (Hear mark) ∷ events) → fits mark (both events).two.end ≡ true }
{}

/// Whatever two hosts say of all their connections one way, of which a receiver's request names the link. What is assumed is
/// in `AreSteps`.
pub fn links()
    // for each pair of their sockets it is as above
    ensures at { (steps : List Step) → AreSteps steps → (s : Sockets) → IsRun (events_at s steps) }
    ensures safe { (steps : List Step) → AreSteps steps → (s : Sockets) → SafePartners (both (events_at s steps)) }
    ensures live { (steps : List Step) (p q r t : ℕ) → AreSteps steps → (s : Sockets) → IsOpen p q (receiver s steps).end → IsOpen r t (sender s steps).end → (q ≡ r) × (t ≡ p) }

    // where the receiver names a link that none of its ends has, none of the sender's has it either when the request is taken: it is
    // never refused for its link
    ensures unused { (steps : List Step) (word : Word) (p : ℕ) → AreSteps (Hears Sender word ∷ steps) → word.mark ≡ Ask p → IsUnused word.link steps }
{}

/// What a reset gives, over the law of resets only: where a host hears its peer, and how they meet.
pub fn resets()
    ensures { Resets }
{}

/// What was heard is a prefix of what was said with its places too: each text begins with the place where it went out.
pub fn places()
    ensures { Places }
{}

/// A message and its place.
pub fn worked_places()
    ensures { WorkedPlaces }
{}

/// A connection that is opened, closed, and opened again.
pub fn worked_connection()
    ensures { WorkedConnection }
{}

/// Hosts that leave, and begin anew.
pub fn worked_stays()
    ensures { WorkedStays }
{}

/// Lists of events that may be, so the laws don't speak of nothing; and two that may not, which would break them.
pub fn worked_runs()
    ensures again { IsRun again }
    ensures anew { IsRun anew }

    // a host that takes a request of before a reset: it may not happen, and the ends aren't partners both ways
    ensures stale { IsRun stale → ⊥ }
    ensures stale_breaks { SafePartners (both stale) → ⊥ }

    // a host that restarts and isn't reset
    ensures unreset { IsRun unreset → ⊥ }
    ensures unreset_breaks { SafePartners (both unreset) → ⊥ }
{}

/// Two pairs of sockets, and a link.
pub fn worked_links()
    ensures { WorkedLinks }
{}

/// What a host may not do.
pub fn worked_rules()
    // it asks once for a connection, not after its CLS
    ensures twice { IsRun (One (Say (Ask 4)) ∷ One (Say (Ask 3)) ∷ Meet ∷ []) → ⊥ }
    ensures behind { IsRun (One (Say (Ask 7)) ∷ One (Say Close) ∷ One (Hear (Ask 3)) ∷ Two (Say (Ask 3)) ∷ Meet ∷ []) → ⊥ }

    // the place of a request is that of one request, and a later one than those before
    ensures older { IsRun (One (Say (Ask 3)) ∷ over) → ⊥ }

    // what it says out of a stay isn't said in one, and is dropped before both meet
    ensures outside { ((both (One (Say (Ask 3)) ∷ [])).one.said ≡ []) × ((both (One (Say (Ask 3)) ∷ [])).one.end.asked ≡ Some 3) }
    ensures meets { IsRun (Meet ∷ One (Say (Ask 3)) ∷ []) → ⊥ }

    // no life has what another has, also with one between them
    ensures own { OwnOnce (record { own = 3; partner = 1 } ∷ record { own = 4; partner = 2 } ∷ record { own = 3; partner = 5 } ∷ []) → ⊥ }
    ensures partner { PartnerOnce (record { own = 1; partner = 3 } ∷ record { own = 2; partner = 4 } ∷ record { own = 5; partner = 3 } ∷ []) → ⊥ }
{}

/// What is out of order.
pub fn worked_errors()
    // a CLS of what nobody asked for, a second request, a request after a CLS, a second CLS
    ensures nobody { fits Close nothing ≡ false }
    ensures second { fits (Ask 7) (record { asked = None; partner = Some 3; gone = false; taken = false }) ≡ false }
    ensures behind { fits (Ask 7) (record { asked = Some 3; partner = None; gone = false; taken = true }) ≡ false }
    ensures twice { fits Close (record { asked = Some 3; partner = Some 5; gone = false; taken = true }) ≡ false }

    // a first request is in order, also where the own CLS is out
    ensures first { fits (Ask 7) (record { asked = Some 3; partner = None; gone = true; taken = false }) ≡ true }
{}
