//! Worked examples of what a world with a stranger continues after, and what it ends at. The functions here do nothing:
//! each clause is a row, computed over the definitions.

ghost use Rattle.std.specs.Prelude.{◌∷◌, [], Err, Ok};
ghost use Rattle.interface.specs.declared.carrier.CarrierFault.TheVariants as fault;
ghost use Rattle.interface.specs.declared.crossing.Crossing.TheVariants as crossing;
ghost use Rattle.net_sim.specs.Worked.{any_carrier, message};
ghost use Rattle.net_sim.specs.declared.event.Event.TheVariants.{Offer, Out, Server, Take, Typed, User};
ghost use Rattle.net_sim.specs.declared.event.WorldFault.TheVariants.{Carrier, HasProgram, NoProgram};
ghost use Rattle.sockets.specs.Worked.{first, second, third};
ghost use Rattle.world_replay.specs.Output.{Crossed, Refused};
ghost use Rattle.world_replay.specs.WorkedBeside.{AnswersAs, EndsAs, closed_carrier, empty_carrier, event, saying, tired_carrier};
ghost use Rattle.world_replay.specs.WorkedStrangers.{MayShow, ShowsOnly, hail};

/// What is refused of strangers, and that a replay continues after it.
pub fn worked_asked()
    // after a question to the stranger, and after a host with a program was to say what its program doesn't
    ensures after_question { MayShow any_carrier (event (Offer third) ∷ saying hail ∷ []) (Refused NoProgram ∷ Crossed (crossing.Out hail) ∷ []) }
    ensures after_saying { MayShow any_carrier (saying (message first second 2) ∷ saying hail ∷ []) (Refused HasProgram ∷ Crossed (crossing.Out hail) ∷ []) }

    // nothing is typed there, and no service begins there
    ensures typed { ShowsOnly any_carrier (event (Typed third [])) (Refused NoProgram ∷ []) }
    ensures server { ShowsOnly any_carrier (event (Server third 1 32)) (Refused NoProgram ∷ []) }
    ensures user { ShowsOnly any_carrier (event (User third first 1 32)) (Refused NoProgram ∷ []) }
{}

/// What a carrier answers a stranger is what the world answers.
pub fn worked_answered()
    // it has nothing for it, and it doesn't take its message
    ensures nothing { AnswersAs empty_carrier (Take third) (Ok tt) }
    ensures blocked { AnswersAs closed_carrier (Out hail) (Err (Carrier fault.Blocked)) }

    // a list of events ends where memory runs out, and not where a message is refused
    ensures memory { EndsAs tired_carrier (Out hail ∷ Offer third ∷ []) (Err (Carrier fault.OutOfMemory)) }
    ensures refused { EndsAs closed_carrier (Out hail ∷ Offer third ∷ []) (Ok tt) }
{}
