//! Worked examples of a replay with a stranger. The functions here do nothing: each clause is a row, computed over the
//! definitions.

ghost use Rattle.std.specs.Prelude.{◌≡◌, ℕ, [], ◌∷◌, codes};
ghost use Rattle.interface.specs.declared.carrier.CarrierFault.TheVariants as fault;
ghost use Rattle.interface.specs.declared.crossing.Crossing.TheVariants as crossing;
ghost use Rattle.net_sim.specs.Worked.{accepting_carrier, any_carrier, message};
ghost use Rattle.net_sim.specs.WorkedStrangers.{fourth, waiting_carrier};
ghost use Rattle.net_sim.specs.declared.event.Event.TheVariants.{Ask, Offer, Out, Take};
ghost use Rattle.net_sim.specs.declared.event.WorldFault.TheVariants.{Carrier, HasProgram, NoProgram};
ghost use Rattle.sockets.specs.Worked.{first, second, third};
ghost use Rattle.sockets.specs.declared.request.Request.TheVariants as request;
ghost use Rattle.world_replay.specs.Output.{Crossed, Refused};
ghost use Rattle.world_replay.specs.Printed.{refusal_text};
ghost use Rattle.world_replay.specs.WorkedStrangers.{MayShow, ShowsOneTaken, ShowsOnly, hail, hailed};
ghost use Rattle.world_script.specs.declared.event.WorldEvent.TheVariants.{Calm, Happen};

/// The words of a refusal.
pub fn worked_refusals()
    // by its name only, whoever refused
    ensures no_program { refusal_text NoProgram ≡ codes "refused NoProgram" }
    ensures has_program { refusal_text HasProgram ≡ codes "refused HasProgram" }
    ensures world { refusal_text (Carrier fault.NoSuch) ≡ codes "refused NoSuch" }
{}

/// What is shown of a stranger.
pub fn worked_strangers()
    // what it says is taken by a program, of which its user is notified, and answered
    ensures hailed { MayShow any_carrier (Happen (Out hail) ∷ Happen (Take first) ∷ Happen (Take third) ∷ []) hailed }

    // its message crosses, and so does what it takes, of which nobody is notified
    ensures says { ShowsOnly accepting_carrier (Happen (Out (message third first 2))) (Crossed (crossing.Out (message third first 2)) ∷ []) }
    ensures takes { ShowsOneTaken waiting_carrier (Happen (Take third)) }

    // it is asked for nothing, and no other host is to say what its program doesn't say
    ensures offered { ShowsOnly any_carrier (Happen (Offer third)) (Refused NoProgram ∷ []) }
    ensures asked { ShowsOnly any_carrier (Happen (Ask third (request.Echo second 65))) (Refused NoProgram ∷ []) }
    ensures program { ShowsOnly any_carrier (Happen (Out (message first second 2))) (Refused HasProgram ∷ []) }
    ensures nobody { ShowsOnly any_carrier (Happen (Out (message fourth second 2))) (Refused (Carrier fault.NoSuch) ∷ []) }

    // in a calm it takes nothing, though something waits for it
    ensures waits { (rounds : ℕ) → ShowsOnly waiting_carrier (Calm rounds) [] }
{}
