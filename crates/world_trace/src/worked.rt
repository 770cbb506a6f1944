//! Worked examples of the texts of a world's trace, and of which events of a calm have lines. The functions here do
//! nothing: each clause is a row, over the definitions.

ghost use Rattle.std.specs.Prelude.{◌≡◌, [], ◌∷◌, codes};
ghost use Rattle.net_sim.specs.Carriers.{shown};
ghost use Rattle.net_sim.specs.declared.event.Event.TheVariants as event;
ghost use Rattle.script.specs.declared.event.RawEvent.TheVariants as raw;
ghost use Rattle.sockets.specs.Worked.{first, second};
ghost use Rattle.world_replay.specs.Driven.{Raw, Round};
ghost use Rattle.world_script.specs.declared.event.WorldEvent.TheVariants as world;
ghost use Rattle.world_trace.specs.Carriers.{AreMade};
ghost use Rattle.world_trace.specs.Texts.{event_text, lines_text};
ghost use Rattle.world_trace.specs.Laws.{WorkedEvents, WorkedFailures, WorkedHosts, WorkedPairs, WorkedReached};

use interface::Carrier;

/// Pairs, ends and commands.
pub fn worked_pairs()
    ensures { WorkedPairs }
{}

/// Programs and services.
pub fn worked_hosts()
    ensures { WorkedHosts }
{}

/// Events and printed lines.
pub fn worked_lines()
    // what is typed can have octets to escape
    ensures typed { event_text (world.Happen (event.Typed first (codes "A\"\\"))) ≡ codes "type 0/1 A\\\"\\\\" }
    ensures offered { event_text (world.Happen (event.Offer second)) ≡ codes "offer 0/2" }
    ensures quiet { event_text (world.Happen event.Quiet) ≡ codes "quiet" }

    // a line feed ends a line, and no string is empty after the last one
    ensures lines { lines_text (codes "line 0/1 \"\nend\n") ≡ codes "[\"line 0/1 \\\"\",\"end\"]" }
    ensures nothing { lines_text [] ≡ codes "[]" }
{}

/// What is known of a world where a write failed: the event had happened, and its line is not among those that are
/// known.
pub fn worked_failures<C: Carrier>()
    ensures { WorkedFailures (shown C.calls) }
{}

/// Calls of a carrier as events of a raw network.
pub fn worked_carriers()
    // each event is itself, and none is left out
    ensures event { AreMade (Raw (raw.Take first) ∷ []) (raw.Take first ∷ []) }
    ensures another { AreMade (Raw (raw.Take first) ∷ []) (raw.Take second ∷ []) → ⊥ }
    ensures left_out { AreMade (Raw (raw.Take first) ∷ []) [] → ⊥ }

    // a quiet round takes nothing for a host
    ensures quiet { AreMade (Round ∷ []) (raw.Take first ∷ []) → ⊥ }
{}

/// An event without a line leaves all as it is, and one with a line prints or changes something.
pub fn worked_events<C: Carrier>()
    ensures { WorkedEvents (shown C.calls) }
{}

/// A replay comes to a world by events that a script may ask for, and all that crossed there can be named.
pub fn worked_reached<C: Carrier>()
    ensures { WorkedReached C.calls }
{}
