//! Worked examples of traces among strangers. The functions here do nothing: each clause is a row, computed over the
//! definitions.

ghost use Rattle.std.specs.Prelude.{◌≡◌, [], ◌∷◌, codes, true};
ghost use Rattle.interface.specs.declared.crossing.Crossing.TheVariants as crossing;
ghost use Rattle.net_sim.specs.Carriers.{shown};
ghost use Rattle.net_sim.specs.Worked.{accepting_carrier, any_carrier, message};
ghost use Rattle.net_sim.specs.declared.event.Event.TheVariants.{Offer, Out, Take};
ghost use Rattle.sockets.specs.Worked.{first, second, third};
ghost use Rattle.world_script.specs.declared.event.WorldEvent.TheVariants.{Happen};
ghost use Rattle.world_trace.specs.Laws.{WorkedAmong};
ghost use Rattle.world_trace.specs.MixedTraces.{foreign_member};
ghost use Rattle.world_trace.specs.Texts.{event_text};
ghost use Rattle.world_trace.specs.Worked.{TracesOnly, short_message};

use interface::Carrier;

/// The texts of events, and of who the strangers are.
pub fn worked_texts()
    ensures said { event_text (Happen (Out short_message)) ≡ codes "out 0/3 0/1 5 1 80" }
    ensures taken { event_text (Happen (Take third)) ≡ codes "take 0/3" }
    ensures named { foreign_member (second ∷ third ∷ []) ≡ codes "\"foreign\":[\"0/2\",\"0/3\"]" }
    ensures nobody { foreign_member [] ≡ codes "\"foreign\":[]" }
{}

/// Events beside a stranger, each of which has one line.
pub fn worked_events()
    // what it says crosses
    ensures said { TracesOnly accepting_carrier (Out (message third first 2)) (crossing.Out (message third first 2) ∷ []) (codes "out 0/3 0/1 2 8\n") }

    // it is asked for nothing, and no other host is to say what its program doesn't say
    ensures asked { TracesOnly any_carrier (Offer third) [] (codes "refused NoProgram\n") }
    ensures program { TracesOnly any_carrier (Out (message first second 2)) [] (codes "refused HasProgram\n") }
{
    world_replay::worked_strangers::worked_strangers();
}

/// What is written of a world with strangers, and where its trace ends early.
pub fn worked_among<C: Carrier>()
    ensures { WorkedAmong (shown C.calls) }
{}
