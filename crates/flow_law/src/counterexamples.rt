//! Counterexamples: without any one of these needs of a move the law of a flow does not hold. The functions
//! here do nothing: each clause says that a machine which lacks one need only has a history that the flow's
//! mailbox does not allow. The law itself rests on none of this.

ghost use Rattle.flow_law.specs.Counterexamples.{Breaks};
ghost use Rattle.flow_law.specs.Counterexamples.{OffersDown, offers_down, NotIdle, not_idle, NotAnswered, not_answered, AnyNumber, any_number, BeginsKept, begins_kept};
ghost use Rattle.flow_law.specs.Counterexamples.{NotesNothing, notes_nothing, NotesAway, notes_away, NotesOld, notes_old, NotesTaken, notes_taken};
ghost use Rattle.flow_law.specs.Counterexamples.{QueuesOld, queues_old, JoinsAny, joins_any, FreedByNothing, freed_by_nothing, FreedByAny, freed_by_any};
ghost use Rattle.flow_law.specs.Counterexamples.{FreedByData, freed_by_data};
ghost use Rattle.flow_law.specs.Counterexamples.{TakesNothing, takes_nothing, TakesDown, takes_down, ToldNothing, told_nothing, SourceStopsTwice, source_stops_twice};
ghost use Rattle.flow_law.specs.Counterexamples.{DestinationStopsTwice, destination_stops_twice, SourceStartsTwice, source_starts_twice, DestinationStartsTwice, destination_starts_twice, StartsAway};
ghost use Rattle.flow_law.specs.Counterexamples.{starts_away};
ghost use Rattle.flow_law.specs.Counterexamples.{StartsUnsettled, starts_unsettled};
ghost use Rattle.flow_law.specs.Counterexamples.{StartsAlive, starts_alive, StartsQueued, starts_queued, ReturnsAlive, returns_alive, ForgetsAlive, forgets_alive};
ghost use Rattle.flow_law.specs.Counterexamples.{GivesUpNothing, gives_up_nothing, GivesUpAlive, gives_up_alive, GivesUpQueued, gives_up_queued};
ghost use Rattle.flow_law.specs.Counterexamples.{ReturnsAwaited, returns_awaited, ForgetsAwaited, forgets_awaited, AsksAnything, asks_anything};
ghost use Rattle.flow_law.specs.Counterexamples.{RepliesToNothing, replies_to_nothing, RepliesToAny, replies_to_any, RepliesFalsely, replies_falsely};
ghost use Rattle.flow_law.specs.Counterexamples.{NeverOfWaiting, never_of_waiting, NeverOfTaken, never_of_taken, NeverUnnoted, never_unnoted};

/// Each need of an offer counts: a machine that lacks only it has a history that its mailbox doesn't allow.
pub fn needs_of_offers()
    // a message is offered by a source that is down
    ensures offers_down { Breaks OffersDown offers_down }

    // or while another one is outstanding
    ensures not_idle { Breaks NotIdle not_idle }

    // or while an answer waits for the source
    ensures not_answered { Breaks NotAnswered not_answered }

    // a number is begun while a packet lies at the window's far end
    ensures any_number { Breaks AnyNumber any_number }

    // or one that the destination's IMP keeps as the flow's last
    ensures begins_kept { Breaks BeginsKept begins_kept }
{}

/// Each need at a packet's arrival counts, in the same way.
pub fn needs_of_arrivals()
    // a number is noted though no packet came
    ensures notes_nothing { Breaks NotesNothing notes_nothing }

    // or at an IMP that is down
    ensures notes_away { Breaks NotesAway notes_away }

    // or for data that isn't new
    ensures notes_old { Breaks NotesOld notes_old }

    // or with the fate of a message that was taken
    ensures notes_taken { Breaks NotesTaken notes_taken }

    // a message is queued for data that isn't new
    ensures queues_old { Breaks QueuesOld queues_old }

    // or with another text than its packets make
    ensures joins_any { Breaks JoinsAny joins_any }

    // an outstanding message is freed though no packet came
    ensures freed_by_nothing { Breaks FreedByNothing freed_by_nothing }

    // or by an answer with another number
    ensures freed_by_any { Breaks FreedByAny freed_by_any }

    // or by a packet that brings another answer
    ensures freed_by_data { Breaks FreedByData freed_by_data }
{}

/// Each need of what a host takes, and of its going down and coming up, counts, in the same way.
pub fn needs_of_hosts()
    // a message is taken that isn't queued
    ensures takes_nothing { Breaks TakesNothing takes_nothing }

    // or by a host that is down
    ensures takes_down { Breaks TakesDown takes_down }

    // an answer is taken that doesn't wait
    ensures told_nothing { Breaks ToldNothing told_nothing }

    // a host goes down that is down, or comes up that is up
    ensures source_stops_twice { Breaks SourceStopsTwice source_stops_twice }
    ensures destination_stops_twice { Breaks DestinationStopsTwice destination_stops_twice }
    ensures source_starts_twice { Breaks SourceStartsTwice source_starts_twice }
    ensures destination_starts_twice { Breaks DestinationStartsTwice destination_starts_twice }

    // a host comes up at an IMP that is down
    ensures starts_away { Breaks StartsAway starts_away }

    // or while a message of it is outstanding
    ensures starts_unsettled { Breaks StartsUnsettled starts_unsettled }
{}

/// Each need of an IMP's coming up, forgetting and giving up counts, in the same way.
pub fn needs_of_imps()
    // the source's IMP comes up while a packet is alive
    ensures starts_alive { Breaks StartsAlive starts_alive }

    // or while a message is queued
    ensures starts_queued { Breaks StartsQueued starts_queued }

    // the destination's IMP comes up while data is alive
    ensures returns_alive { Breaks ReturnsAlive returns_alive }

    // or while a message is outstanding
    ensures returns_awaited { Breaks ReturnsAwaited returns_awaited }

    // it forgets its number while data is alive
    ensures forgets_alive { Breaks ForgetsAlive forgets_alive }

    // or while a message is outstanding
    ensures forgets_awaited { Breaks ForgetsAwaited forgets_awaited }

    // a message is given up though none is outstanding
    ensures gives_up_nothing { Breaks GivesUpNothing gives_up_nothing }

    // or while a piece of it is alive
    ensures gives_up_alive { Breaks GivesUpAlive gives_up_alive }

    // or while it is queued
    ensures gives_up_queued { Breaks GivesUpQueued gives_up_queued }
{}

/// Each need of a question, and of what is notified of it, counts, in the same way.
pub fn needs_of_questions()
    // a message is asked for that isn't outstanding
    ensures asks_anything { Breaks AsksAnything asks_anything }

    // something is said though no packet is there
    ensures replies_to_nothing { Breaks RepliesToNothing replies_to_nothing }

    // or of another message than the one noted last
    ensures replies_to_any { Breaks RepliesToAny replies_to_any }

    // or that isn't true
    ensures replies_falsely { Breaks RepliesFalsely replies_falsely }

    // that the message never came is reported while it waits, after it was taken, or without its number being noted
    ensures never_of_waiting { Breaks NeverOfWaiting never_of_waiting }
    ensures never_of_taken { Breaks NeverOfTaken never_of_taken }
    ensures never_unnoted { Breaks NeverUnnoted never_unnoted }
{}
