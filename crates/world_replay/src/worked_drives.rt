//! Worked examples of the calls of its carrier that a world makes. The functions here do nothing: each clause is a row,
//! computed over the definitions.

ghost use Rattle.std.specs.Prelude.{◌≡◌, List, [], ◌∷◌, None, Some};
ghost use Rattle.interface.specs.Calls.{Seen};
ghost use Rattle.interface.specs.declared.crossing.Crossing.TheVariants as crossing;
ghost use Rattle.interface.specs.declared.carrier.CarrierFault.TheVariants as fault;
ghost use Rattle.interface.specs.declared.event.NetEvent.TheVariants as net;
ghost use Rattle.net_sim.specs.Worked.{any_carrier, busy, down, fresh, message};
ghost use Rattle.net_sim.specs.declared.event.Event.TheVariants as event;
ghost use Rattle.replay.specs.Output.{Crossed, Refused};
ghost use Rattle.script.specs.declared.event.RawEvent.TheVariants as raw;
ghost use Rattle.sockets.specs.Worked.{control, first, second, third};
ghost use Rattle.sockets.specs.declared.request.Request.TheVariants as request;
ghost use Rattle.world_replay.specs.Driven.{Brings, Drive, Drives, Goes, IsCourse, IsDriven, IsDrivenIn, IsShown, Raw, Round, call_of};
ghost use Rattle.world_replay.specs.Worked.{after, booked, came, counting, went};
ghost use Rattle.world_script.specs.declared.event.WorldEvent.TheVariants.{Calm, Happen};

/// Which call an event makes.
pub fn worked_calls()
    // a host offers what its program has to send next: where its user has asked for a contact, an RST on link 0
    ensures offer { call_of busy.seats (event.Offer first) ≡ Some (Raw (raw.Out (control first second (12 ∷ [])))) }

    // nothing, if that is nothing, or if it is down or isn't there
    ensures nothing { call_of busy.seats (event.Offer second) ≡ None }
    ensures down_and_silent { call_of down.seats (event.Offer second) ≡ None }
    ensures no_host { call_of busy.seats (event.Offer third) ≡ None }

    // a host that is up takes, whether or not anything waits for it
    ensures take { call_of fresh.seats (event.Take second) ≡ Some (Raw (raw.Take second)) }
    ensures down { call_of down.seats (event.Take second) ≡ None }
    ensures nobody { call_of fresh.seats (event.Take third) ≡ None }

    // events of the network and quiet rounds are calls themselves, whatever hosts there are
    ensures net { call_of [] (event.Net (net.HostUp second)) ≡ Some (Raw (raw.Net (net.HostUp second))) }
    ensures quiet { call_of [] event.Quiet ≡ Some Round }

    // what is asked for, typed and begun makes none
    ensures asked { call_of busy.seats (event.Ask first (request.Contact second)) ≡ None }
    ensures typed { call_of busy.seats (event.Typed first []) ≡ None }
    ensures served { call_of busy.seats (event.Server first 1 32) ≡ None }
    ensures used { call_of busy.seats (event.User first second 1 32) ≡ None }
{}

/// What crosses by a call.
pub fn worked_brings()
    // the message that is offered goes out, and once
    ensures out { (s : Seen) → Brings s (raw.Out (message first second 0)) (went ∷ []) }
    ensures another { (s : Seen) → ¬ (Brings s (raw.Out (message second first 0)) (went ∷ [])) }
    ensures lost { (s : Seen) → ¬ (Brings s (raw.Out (message first second 0)) []) }
    ensures twice { (s : Seen) → ¬ (Brings s (raw.Out (message first second 0)) (went ∷ went ∷ [])) }

    // what is taken comes in, for this host; or nothing waited
    ensures take { (s : Seen) → Brings s (raw.Take second) (came ∷ []) }
    ensures waited { (s : Seen) → Brings s (raw.Take second) [] }
    ensures for_another { (s : Seen) → ¬ (Brings s (raw.Take first) (came ∷ [])) }
    ensures went_out { (s : Seen) → ¬ (Brings s (raw.Take second) (went ∷ [])) }
    ensures two { (s : Seen) → ¬ (Brings s (raw.Take second) (came ∷ came ∷ [])) }

    // hosts stop one by one, in their order; and where the network does what no host sees nothing crosses
    ensures stops { Brings (record fresh.carrier { hosts = first ∷ record first { host = 1 } ∷ [] }) (raw.Net (net.ImpDown 1)) (crossing.Down first ∷ crossing.Down (record first { host = 1 }) ∷ []) }
    ensures starts { Brings down.carrier (raw.Net (net.HostUp second)) (crossing.Up second ∷ []) }
    ensures resent { ¬ (Brings fresh.carrier (raw.Net (net.Resend 1)) (came ∷ [])) }
    ensures calm { (s : Seen) → ¬ (Brings s (raw.Calm 0) []) }

    // a call that is refused shows its refusal, and brings nothing
    ensures refused { (s : Seen) → IsShown s (raw.Out (message first second 0)) (Refused fault.Blocked ∷ []) }
    ensures silent { (s : Seen) → ¬ (IsShown s (raw.Out (message first second 0)) []) }
    ensures both { (s : Seen) → ¬ (IsShown s (raw.Out (message first second 0)) (Crossed went ∷ Refused fault.Blocked ∷ [])) }
{}

/// How calls go, one by one and together.
pub fn worked_drives()
    // each call is made once
    ensures once { Goes counting 3 Round 4 [] }
    ensures twice { ¬ (Goes counting 3 Round 5 []) }
    ensures raw_once { Goes counting 3 (Raw (raw.Take first)) 4 [] }
    ensures raw_twice { ¬ (Goes counting 3 (Raw (raw.Take first)) 5 []) }

    // in a quiet round nothing crosses, nor by an offer that isn't done
    ensures quiet { ¬ (Goes counting 3 Round 4 (Crossed came ∷ [])) }
    ensures offered { ¬ (Goes counting 3 (Raw (raw.Out (message first second 0))) 4 []) }

    // an event makes the one call that it makes, and what crosses by it is what the book gains
    ensures event { IsDriven any_carrier fresh (event.Take first) fresh (Raw (raw.Take first) ∷ []) }
    ensures left_out { ¬ (IsDriven any_carrier fresh (event.Take first) fresh []) }
    ensures another { ¬ (IsDriven any_carrier fresh (event.Take first) fresh (Raw (raw.Take second) ∷ [])) }
    ensures uncalled { ¬ (IsDriven counting (after 3) (event.Typed first []) (after 4) []) }
    ensures not_crossed { ¬ (IsDriven any_carrier fresh (event.Typed first []) (booked fresh) []) }

    // so it is of several, none of which is a calm of the network
    ensures all { Drives counting (after 3) (after 5) (Round ∷ Raw (raw.Take first) ∷ []) }
    ensures too_few { ¬ (Drives counting (after 3) (after 5) (Round ∷ [])) }
    ensures not_in_the_book { ¬ (Drives counting (after 3) (booked (after 3)) []) }
    ensures calm { ¬ (Drives counting (after 3) (after 5) (Raw (raw.Calm 2) ∷ [])) }
{}

/// The events that an event of a script is.
pub fn worked_courses()
    // itself, once
    ensures itself { IsCourse (Happen (event.Typed first [])) (event.Typed first [] ∷ []) }
    ensures not_at_all { ¬ (IsCourse (Happen event.Quiet) []) }
    ensures again { ¬ (IsCourse (Happen event.Quiet) (event.Quiet ∷ event.Quiet ∷ [])) }

    // of a calm its quiet rounds, and what hosts take and offer
    ensures calm { IsCourse (Calm 1) (event.Quiet ∷ event.Take first ∷ event.Offer first ∷ []) }
    ensures too_few { ¬ (IsCourse (Calm 1) []) }
    ensures too_many { ¬ (IsCourse (Calm 1) (event.Quiet ∷ event.Quiet ∷ [])) }
    ensures typed { ¬ (IsCourse (Calm 1) (event.Quiet ∷ event.Typed first [] ∷ [])) }

    // each of them makes its call
    ensures called { IsDrivenIn counting (after 3) (Calm 1) (after 4) (Round ∷ []) }
    ensures uncalled { (drives : List Drive) → ¬ (IsDrivenIn counting (after 3) (Happen (event.Take first)) (after 4) drives) }
{}
