//! Worked examples of a replay that ends at a failed write, and of what a long calm hands on. The functions here do
//! nothing: each clause is a row, over a carrier that counts its calls, or over rounds that count.

ghost use Rattle.std.specs.Prelude.{◌≡◌, List, [], ◌∷◌};
ghost use Rattle.interface.specs.declared.event.NetEvent.{NetEvent};
ghost use Rattle.replay.specs.Laws.{WorkedSeen};
ghost use Rattle.replay.specs.Output.{Shown};
ghost use Rattle.replay.specs.Replay.{MayDo};
ghost use Rattle.replay.specs.Worked.{counting};
ghost use Rattle.script.specs.declared.event.RawEvent.TheVariants as script_event;

/// What a carrier may have done where a write failed, and what not.
pub fn worked_failures()
    // the event was processed once
    ensures once { (e : NetEvent) → MayDo counting 3 (script_event.Net e) 4 [] }

    // not at all, or twice
    ensures never { (e : NetEvent) (shown : List Shown) → ¬ (MayDo counting 3 (script_event.Net e) 3 shown) }
    ensures twice { (e : NetEvent) (shown : List Shown) → ¬ (MayDo counting 3 (script_event.Net e) 5 shown) }

    // of a calm its first rounds passed, and none that wasn't asked for
    ensures rounds { MayDo counting 3 (script_event.Calm 2) 4 [] }
    ensures more { (shown : List Shown) → ¬ (MayDo counting 3 (script_event.Calm 2) 6 shown) }

    // nothing is claimed of what the event's lines left
    ensures unknown { (e : NetEvent) (s : Shown) → ¬ (MayDo counting 3 (script_event.Net e) 4 (s ∷ [])) }
{}

/// When what the rounds of a long calm print has to be handed on.
pub fn worked_seen()
    ensures { WorkedSeen }
{}
