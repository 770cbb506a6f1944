//! What scripts of worlds promise, as laws over their definitions. The functions here do nothing: each clause is
//! the law.

ghost use Rattle.std.specs.Prelude.{◌≡◌, Bool, ℕ, List};
ghost use Rattle.world_script.specs.WorldScript.{AskFor};
ghost use Rattle.world_script.specs.WorldSpelling.{IsWorldEvent, world_spelling};
ghost use Rattle.world_script.specs.declared.event.WorldEvent.{WorldEvent};

/// There is one reading, with strangers and without: a line determines its event, and lines ask for one list of events.
pub fn one_reading()
    ensures event { (strangers : Bool) (event other : WorldEvent) → IsWorldEvent strangers event → IsWorldEvent strangers other → world_spelling event ≡ world_spelling other → event ≡ other }
    ensures events { (strangers : Bool) (lines : List (List ℕ)) (events others : List WorldEvent) → AskFor strangers events lines → AskFor strangers others lines → events ≡ others }
{}
