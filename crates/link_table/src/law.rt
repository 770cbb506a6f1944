//! What the window and the two tables promise, as laws over their definitions. The functions here do
//! nothing: each clause is the law.

ghost use Rattle.std.specs.Prelude.{◌≡◌, ◌≢◌, ℕ, ◌+◌, ◌-◌, ◌*◌, ◌<◌, ◌≤◌, ◌==◌, false, true, Option, Some, None, ◌↔◌, IsSome, if◌then◌else◌};
ghost use Rattle.std.specs.Option.{option_map};
ghost use Rattle.std.specs.FinMap as map;
ghost use Rattle.interface.specs.Host.{Host, same_host};
ghost use Rattle.interface.specs.Mailboxes.{same_flow};
ghost use Rattle.interface.specs.declared.address.Flow.{Flow};
ghost use Rattle.link_table.specs.Flows.{Sources, Destinations, noted, ended, ended_in, begun, flow_answered, given_up, handed, number_in, last_in, outstanding_in, is_idle_in, answered_in};
ghost use Rattle.link_table.specs.Flows.{given_up_in, handed_in, release_in, has_outstanding, has_outstanding_to};
ghost use Rattle.link_table.specs.Keys.{is_from, drop_from, has_from};
ghost use Rattle.link_table.specs.declared.destination.Fate.{Fate};
ghost use Rattle.link_table.specs.declared.source.Standing.{Standing};
ghost use Rattle.link_table.specs.declared.source.Standing.TheVariants as standing;
ghost use Rattle.link_table.specs.declared.source.Release.TheVariants as release;
ghost use Rattle.link_table.specs.Window.{next_of, oldest_of, is_new_of, NearOf};
ghost use Rattle.link_table.specs.Numbers.{modulus, window, next, oldest, is_new, Near};
ghost use Rattle.link_table.specs.Laws.{WorkedFates};

/// Any window over numbers that wrap around, where there are more than twice as many numbers as the window
/// is wide: what lies before the last number and what lies ahead of it never meet.
pub fn any_window()
    // the next number is a number
    ensures next_in { (m w n : ℕ) → 2 * w + 1 ≤ m → next_of m n < m }

    // a number lies within the window before itself
    ensures near_same { (m w l : ℕ) → 2 * w + 1 ≤ m → l < m → NearOf m w l l }

    // nothing within the window before the last number is new against it
    ensures near_old { (m w l n : ℕ) → 2 * w + 1 ≤ m → NearOf m w l n → is_new_of m w (Some l) n ≡ false }

    // with the number at the window's far end gone, what lay within the window still does after one more
    ensures near_next { (m w l n : ℕ) → 2 * w + 1 ≤ m → NearOf m w l n → n ≢ oldest_of m w l → NearOf m w (next_of m l) n }

    // of two numbers or more, the next one does not lie within the window before the last
    ensures not_next { (m w l : ℕ) → 2 * w + 1 ≤ m → 1 < m → NearOf m w l (next_of m l) → ⊥ }

    // the next number is new against the last one
    ensures next_new { (m w l : ℕ) → 2 * w + 1 ≤ m → 1 ≤ w → l < m → is_new_of m w (Some l) (next_of m l) ≡ true }

    // number 0 is new again against the number from which `w` steps lead round to it: so it must not outlive the window
    ensures new_again { (m w : ℕ) → 2 * w + 1 ≤ m → 1 ≤ w → is_new_of m w (Some (m - w)) 0 ≡ true }
{}

/// The window of this network.
pub fn window_holds()
    // all that the laws below ask of the two numbers: there are more than twice as many numbers as the
    // window is wide, and two at least
    ensures wide { (2 * window + 1 ≤ modulus) × (1 < modulus) }

    // the next number is a number
    ensures next_in { (n : ℕ) → next n < modulus }

    // a number lies within the window before itself
    ensures near_same { (l : ℕ) → l < modulus → Near l l }

    // nothing within the window before the last number is new against it
    ensures near_old { (l n : ℕ) → Near l n → is_new (Some l) n ≡ false }

    // with the number at the window's far end gone, what lay within the window still does after one more
    ensures near_next { (l n : ℕ) → Near l n → n ≢ oldest l → Near (next l) n }

    // the next number does not lie within the window before the last one
    ensures not_next { (l : ℕ) → Near l (next l) → ⊥ }

    // and is new against it
    ensures next_new { (l : ℕ) → l < modulus → is_new (Some l) (next l) ≡ true }
{}

/// Numbers at the ends of the window, and where numbers wrap around.
pub fn worked_numbers()
    // after 5, numbers are new up to 32,772
    ensures last_new { is_new (Some 5) 32772 ≡ true }
    ensures first_old { is_new (Some 5) 32773 ≡ false }

    // 0 follows 65,535, and is new against it
    ensures round { (next 65535 ≡ 0) × (is_new (Some 65535) 0 ≡ true) }

    // where 0 to 32,767 were begun, the next is 32,768, and the window reaches back to 0 until it is begun
    ensures begun { (number_in (Some (standing.Idle 32767)) ≡ 32768) × (oldest 32767 ≡ 0) }
{}

/// What the calls of a source do to each flow: the named one changes, and no other.
pub fn source_flows()
    // begin
    ensures begun { (m : Sources) (f g : Flow) → map.get (begun m f) g ≡ (if same_flow g f then Some (standing.Outstanding (number_in (map.get m f))) else map.get m g) }

    // answer
    ensures answered { (m : Sources) (f g : Flow) (n : ℕ) → map.get (flow_answered m f n) g ≡ (if same_flow g f then option_map (answered_in n) (map.get m f) else map.get m g) }

    // give_up
    ensures given_up { (m : Sources) (f g : Flow) → map.get (given_up m f) g ≡ (if same_flow g f then option_map given_up_in (map.get m f) else map.get m g) }

    // handed
    ensures handed { (m : Sources) (f g : Flow) → map.get (handed m f) g ≡ (if same_flow g f then option_map handed_in (map.get m f) else map.get m g) }

    // what is outstanding was begun last
    ensures outstanding_last { (s : Option Standing) (n : ℕ) → outstanding_in s ≡ Some n → last_in s ≡ Some n }

    // what is begun is a number
    ensures number { (s : Option Standing) → number_in s < modulus }

    // a host has a message without an answer exactly if one of its flows has one outstanding
    ensures outstanding_none { (m : Sources) (h : Host) → has_outstanding h m ≡ false → (g : Flow) → same_host g.source h ≡ true → outstanding_in (map.get m g) ≡ None }
    ensures outstanding_one { (m : Sources) (h : Host) → has_outstanding h m ≡ true → (g : Flow) × (same_host g.source h ≡ true) × IsSome (outstanding_in (map.get m g)) }

    // a message to a host at an IMP has no answer exactly if a flow to such a host has one outstanding
    ensures outstanding_to_none { (m : Sources) (imp : ℕ) → has_outstanding_to imp m ≡ false → (g : Flow) → (g.destination.imp == imp) ≡ true → outstanding_in (map.get m g) ≡ None }
    ensures outstanding_to_one { (m : Sources) (imp : ℕ) → has_outstanding_to imp m ≡ true → (g : Flow) × ((g.destination.imp == imp) ≡ true) × IsSome (outstanding_in (map.get m g)) }

    // an answer frees a flow only with the outstanding number, and always with it
    ensures freed { (s : Option Standing) (n : ℕ) → (release_in n s ≡ release.Freed) ↔ (outstanding_in s ≡ Some n) }
{}

/// What an answer, a giving up and a taking leave of the numbers of each flow.
pub fn numbers_of_sources()
    // none of them changes the number that was begun last
    ensures answered_last { (m : Sources) (f g : Flow) (n : ℕ) → last_in (map.get (flow_answered m f n) g) ≡ last_in (map.get m g) }
    ensures given_up_last { (m : Sources) (f g : Flow) → last_in (map.get (given_up m f) g) ≡ last_in (map.get m g) }
    ensures handed_last { (m : Sources) (f g : Flow) → last_in (map.get (handed m f) g) ≡ last_in (map.get m g) }

    // an answer to the outstanding message ends it, and every other answer changes nothing
    ensures answered_frees { (m : Sources) (f : Flow) (n : ℕ) → outstanding_in (map.get m f) ≡ Some n → outstanding_in (map.get (flow_answered m f n) f) ≡ None }
    ensures answered_stale { (m : Sources) (f g : Flow) (n : ℕ) → release_in n (map.get m f) ≡ release.Stale → map.get (flow_answered m f n) g ≡ map.get m g }

    // nothing of a flow is outstanding after its message was given up
    ensures given_up_frees { (m : Sources) (f : Flow) → outstanding_in (map.get (given_up m f) f) ≡ None }

    // the host may send no sooner for an answer or for a giving up
    ensures answered_idle { (m : Sources) (f g : Flow) (n : ℕ) → is_idle_in (map.get (flow_answered m f n) g) ≡ is_idle_in (map.get m g) }
    ensures given_up_idle { (m : Sources) (f g : Flow) → is_idle_in (map.get (given_up m f) g) ≡ is_idle_in (map.get m g) }

    // it may when it took the answer, and a message that is outstanding stays so
    ensures handed_idle { (m : Sources) (f : Flow) → outstanding_in (map.get m f) ≡ None → is_idle_in (map.get (handed m f) f) ≡ true }
    ensures handed_outstanding { (m : Sources) (f g : Flow) → outstanding_in (map.get (handed m f) g) ≡ outstanding_in (map.get m g) }
{}

/// The fate that is kept with a number.
pub fn worked_fates()
    ensures { WorkedFates }
{}

/// What the calls of a destination do to each flow.
pub fn destination_flows()
    // note
    ensures noted { (m : Destinations) (f g : Flow) (n : ℕ) (new : Fate) → map.get (noted m f n new) g ≡ (if same_flow g f then Some (record { number = n; fate = new }) else map.get m g) }

    // end
    ensures ended { (m : Destinations) (f g : Flow) (n : ℕ) (new : Fate) → map.get (ended m f n new) g ≡ (if same_flow g f then option_map (ended_in n new) (map.get m f) else map.get m g) }

    // forget
    ensures forgotten { (m : Destinations) (imp : ℕ) (g : Flow) → map.get (drop_from imp m) g ≡ (if is_from imp g then None else map.get m g) }

    // keeps: where it says no, nothing is kept of any flow from there
    ensures keeps_none { (m : Destinations) (imp : ℕ) → has_from imp m ≡ false → (g : Flow) → is_from imp g ≡ true → map.get m g ≡ None }

    // keeps: where it says yes, there is such a flow
    ensures keeps_one { (m : Destinations) (imp : ℕ) → has_from imp m ≡ true → (g : Flow) × (is_from imp g ≡ true) × IsSome (map.get m g) }
{}
