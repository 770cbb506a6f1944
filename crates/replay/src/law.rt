//! What replays promise, as laws over their definitions. The functions here do nothing: their clauses are the
//! laws.

ghost use Rattle.std.specs.Prelude.{◌≡◌};
ghost use Rattle.interface.specs.declared.crossing.Crossing.TheVariants as crossing;
ghost use Rattle.interface.specs.declared.message.HostMessage.{HostMessage};
ghost use Rattle.replay.specs.Output.{crossing_line};
ghost use Rattle.replay.specs.declared.print.Detail.TheVariants.{Texts};
ghost use Rattle.script.specs.Spelling.{spelling};
ghost use Rattle.script.specs.declared.event.RawEvent.TheVariants as script_event;
ghost use Rattle.replay.specs.Laws.{OneReplay};

use interface::Carrier;

/// A carrier whose calls leave no choice leaves none to a replay: events have one outcome and show one list of
/// lines. What is shown where memory runs out is a prefix of that list.
pub fn one_replay<C: Carrier>()
    ensures { OneReplay C.calls }
{}

/// What is printed of a message that goes out, with its text, is the line of a script that asks for this message.
pub fn printed_again()
    ensures { (m : HostMessage) → crossing_line Texts (crossing.Out m) ≡ spelling (script_event.Out m) }
{}
