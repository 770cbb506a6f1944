//! What the replay of a world's script promises, as laws over its definitions. The functions here do nothing: their
//! clauses are the laws.

ghost use Rattle.world_replay.specs.Laws.{Apart, CalmRounds, Driven, OneReplay};

use interface::Carrier;

/// A carrier whose calls leave no choice leaves none to the replay of a world over it: events have one outcome and show
/// one list of lines, whatever strangers say and take. What is shown where memory runs out is a prefix of that list.
pub fn one_replay<C: Carrier>()
    ensures { OneReplay C.calls }
{}

/// A calm is its rounds, one after another: they leave the world that it leaves, and show the lines that it shows.
pub fn calm<C: Carrier>()
    ensures { CalmRounds C.calls }
{}

/// A world's carrier is the network that its hosts drive: it changes by its own calls only. Each event makes the one
/// that it names, and an offer that of the message which the host's program has to send next. Here are no strangers.
pub fn driven<C: Carrier>()
    ensures { Driven C.calls }
{}

/// An event at a host concerns no other one, and an event of a calm by which nothing crosses concerns no host.
pub fn apart<C: Carrier>()
    ensures { Apart C.calls }
{}
