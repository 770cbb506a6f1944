//! What traces promise, as laws over their definitions. The functions here do nothing: each clause is the law.

ghost use Rattle.std.specs.Prelude.{◌≡◌, ℕ, List};
ghost use Rattle.std.specs.List.{All};
ghost use Rattle.leader1822.specs.Boxes.{Boxes, plain_calls};
ghost use Rattle.replay.specs.Output.{Shown};
ghost use Rattle.replay.specs.Replay.{Happens, IsOneCall, Replays};
ghost use Rattle.script.specs.declared.event.RawEvent.{RawEvent};
ghost use Rattle.trace.specs.Elements.{elements_of, events_of};
ghost use Rattle.topology.specs.Topology.{IsTopology, TopologyFields};
ghost use Rattle.trace.specs.Texts.{opening_line};
ghost use Rattle.trace.specs.Laws.{Changes, Refusal, Rest, Saying, Whole};

/// An event of a script is its elementary events one after another: each of them only, as a line of a script,
/// leaves what the event leaves and prints what it prints. So a calm is a list of takings.
pub fn elementary()
    ensures course { (old new : Boxes) (e : RawEvent) (shown : List Shown) → Happens plain_calls old e new shown → Replays plain_calls old (events_of (elements_of old e)) new shown }

    // each is one call of the mailboxes, and none a calm
    ensures one_call { (old : Boxes) (e : RawEvent) → All IsOneCall (events_of (elements_of old e)) }
{}

/// What is traced of an event says all of it, though a calm is traced up to its first still round only: the
/// elementary events that have a line leave what the whole event leaves, and print what it prints.
pub fn says_all()
    ensures { Saying }
{}

/// What an elementary event's parts do not name is as before.
pub fn rest()
    ensures { Rest }
{}

/// A refused event changes no part.
pub fn refused()
    ensures { Refusal }
{}

/// The texts of all parts determine the whole state, but for the log, in every state that a replay comes to.
pub fn whole()
    ensures { Whole }
{}

/// What a line says of all parts. A reader who puts the parts of a line in the place of those before has all, where
/// `null` is the text of a flow that is there no more.
pub fn changes()
    ensures { Changes }
{}

/// The first line of a trace describes the network but for its strangers: which carrier it has, its IMPs with their
/// hosts, and its lines in their order. A raw network has no strangers.
pub fn network()
    ensures one { (one other : TopologyFields) (parts rest : List ℕ) → IsTopology one → IsTopology other → one.strangers ≡ other.strangers → opening_line one parts ≡ opening_line other rest → one ≡ other }
{}
