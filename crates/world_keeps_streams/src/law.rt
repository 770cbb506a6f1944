//! What two programs of a world do on each link. The functions here do nothing: each clause is a law.

ghost use Rattle.std.specs.Prelude.{◌≡◌, true, [], ◌∷◌, ◌++◌, length};
ghost use Rattle.interface.specs.declared.crossing.Crossing.TheVariants as crossing;
ghost use Rattle.sockets.specs.Worked as dialogue;
ghost use Rattle.sockets.specs.declared.request.Request.TheVariants as request;
ghost use Rattle.net_sim.specs.Story.{Asked, Crossed};
ghost use Rattle.net_sim.specs.Timeline.{crossings_of};
ghost use Rattle.net_sim.specs.Told.{kept_in, notices_by};
ghost use Rattle.net_sim.specs.Worked.{eight};
ghost use Rattle.net_sim.specs.WorkedMoments.{all_given, bits_sent, eight_sent, sent_moments};
ghost use Rattle.promise.specs.Formed.{texts_for};
ghost use Rattle.world_keeps_streams.specs.Worked.{close_back, ended_moments, over_eight, over_gave, quit_moments, stopped_moments, took, took_eight};
ghost use Rattle.world_keeps_streams.specs.Worked.{asked_moments, calm_moments, giving_end, granted_moments, granted_more, granting_moments, left_at, returned_moments, returning_moments, taking_end};
ghost use Rattle.world_keeps_streams.specs.Answered.{HasArrived};
ghost use Rattle.world_keeps_streams.specs.Arrivals.{Arrives, ComesBetween, ComesFor};
ghost use Rattle.world_keeps_streams.specs.Came.{CameAll, HadTakenCls, HasTakenCls};
ghost use Rattle.world_keeps_streams.specs.Rests.{Agree, AreAtRest, AreCalm, AreSettled};
ghost use Rattle.world_keeps_lives.specs.WorkedFormed.{gave};
ghost use Rattle.world_keeps_streams.specs.Closes.{IsClosedByPartner, TookHanded, WasClosedBy, WasClosedByPartner};
ghost use Rattle.world_keeps_streams.specs.Laws.{Programs, Streams, Among, Lives, Worlds, WorkedCalls};

use interface::Carrier;

/// What each host's program does with a peer, over every list of moments in which what crosses is a run of the mailboxes.
pub fn programs()
    ensures { Programs }
{}

/// Two programs that stay together since both were through a reset, link by link and connection by connection. A connection is given by its two sockets
/// and how many connections of theirs are over, which both count alike.
pub fn streams()
    ensures { Streams }
{}

/// The lives between two hosts with programs, whatever strangers do.
pub fn among()
    ensures { Among }
{}

/// The lives of a book, over every list of moments in which what crosses is a run of the mailboxes.
pub fn lives()
    ensures { Lives }
{}

/// The same of the book of every world, whatever its carrier is made of.
pub fn worlds<C: Carrier>()
    ensures { Worlds C.calls.seen }
{}

/// Data that are taken: eight bits, for an end that is open, and for one that its user has closed.
pub fn worked_arrivals()
    ensures open { ComesFor eight_sent bits_sent took }
    ensures arrives { Arrives eight_sent bits_sent took }

    // where its user has closed the end, they don't come for the life, though it continues; and nobody is notified of them
    ensures closing { ComesFor eight_sent (Asked dialogue.first (request.Close 16) ∷ bits_sent) took → ⊥ }
    ensures dropped { notices_by (Crossed (crossing.In eight_sent)) (Asked dialogue.first (request.Close 16) ∷ bits_sent) ≡ [] }

    // they come from the sending life that it matches: no message on another link or from another host does, and none once its user has closed
    ensures between { ComesBetween eight_sent bits_sent took gave }
    ensures link { ComesBetween (dialogue.message dialogue.second dialogue.first 3 []) bits_sent took gave → ⊥ }
    ensures host { ComesBetween (dialogue.message dialogue.first dialogue.second 2 []) bits_sent took gave → ⊥ }
    ensures unclosed { ComesBetween eight_sent (Asked dialogue.first (request.Close 16) ∷ bits_sent) took gave → ⊥ }
    ensures itself { ComesBetween eight_sent bits_sent took took → ⊥ }
{}

/// RFNM of data: of eight bits that arrived.
pub fn worked_answers()
    ensures taken { HasArrived (dialogue.on_link dialogue.second dialogue.first 2) sent_moments }

    // not while they wait to be taken, nor where they were taken twice
    ensures waits { HasArrived (dialogue.on_link dialogue.second dialogue.first 2) bits_sent → ⊥ }
    ensures twice { HasArrived (dialogue.on_link dialogue.second dialogue.first 2) (Crossed (crossing.In eight_sent) ∷ sent_moments) → ⊥ }
{}

/// Eight bits that were sent: taken, and waiting to be taken; and where the receiving user has closed.
pub fn worked_rests()
    ensures rests { AreAtRest sent_moments took_eight gave }
    ensures waits { AreAtRest bits_sent took gave → ⊥ }
    ensures closing { AreAtRest (Asked dialogue.first (request.Close 16) ∷ sent_moments) took_eight gave → ⊥ }
{}

/// Lives at rest that agree on one message and 92 bits more; and while a grant, or what is returned, is on its way.
pub fn worked_settled()
    ensures settled { AreSettled sent_moments took_eight gave }
    ensures agree { Agree took_eight (left_at 1 92 taking_end) (left_at 1 92 giving_end) }

    // a sender that may send less, and two that may have lost a grant
    ensures less { Agree took_eight (left_at 1 92 taking_end) (left_at 1 91 giving_end) → ⊥ }
    ensures lost { Agree took_eight (left_at 1 91 taking_end) (left_at 1 91 giving_end) → ⊥ }
    ensures message { Agree took_eight (left_at 0 92 taking_end) (left_at 0 92 giving_end) → ⊥ }

    // a grant is queued, and waits to be taken
    ensures granting { AreSettled granting_moments granted_more gave → ⊥ }
    ensures granted { AreSettled granted_moments granted_more gave → ⊥ }

    // what the receiver asked back is queued at the sender, and waits to be taken
    ensures returning { AreSettled returning_moments took_eight gave → ⊥ }
    ensures returned { AreSettled returned_moments took_eight gave → ⊥ }
{}

/// Lives whose hosts have nothing left to do, and where something is left.
pub fn worked_calm()
    ensures calm { AreCalm calm_moments took_eight gave }

    // eight bits were taken, and their RFNM wasn't; and a grant went out
    ensures unanswered { AreCalm sent_moments took_eight gave → ⊥ }
    ensures out { AreCalm (Crossed (crossing.Out all_given) ∷ Asked dialogue.first (request.Grant 16 2 100) ∷ calm_moments) took_eight gave → ⊥ }

    // a grant is queued, and what the receiver asked back
    ensures granting { AreCalm (Asked dialogue.first (request.Grant 16 1 8) ∷ calm_moments) granted_more gave → ⊥ }
    ensures returning { AreCalm asked_moments took_eight gave → ⊥ }

    // the receiver's user has closed, and its CLS is queued
    ensures closing { AreCalm (Asked dialogue.first (request.Close 16) ∷ calm_moments) took_eight gave → ⊥ }
{}

/// A connection that its partner closes: after all was taken, and after the receiving user had closed it and eight bits were dropped.
pub fn worked_closes()
    ensures ended { IsClosedByPartner ended_moments took_eight }

    // it was so once its own CLS has gone out, and once its host has stopped instead
    ensures over { WasClosedByPartner (Crossed (crossing.Out close_back) ∷ ended_moments) over_eight }
    ensures stopped { WasClosedByPartner (Crossed (crossing.Down dialogue.first) ∷ ended_moments) over_eight }
    ensures open { IsClosedByPartner sent_moments took_eight → ⊥ }

    // the life that it matches isn't over, or is since its host has stopped: all that was handed over there is what was taken, and not less
    ensures whole { WasClosedBy ended_moments gave took_eight }
    ensures left { WasClosedBy stopped_moments over_gave took_eight }
    ensures handed { TookHanded ended_moments took_eight (gave ∷ []) (eight ∷ []) }
    ensures unsent { TookHanded ended_moments took_eight (gave ∷ []) ((eight ++ true ∷ []) ∷ []) → ⊥ }
    ensures quit { IsClosedByPartner quit_moments took → ⊥ }
{}

/// What came in for a receiver before its end took the sender's CLS: eight bits that were taken, and that were dropped since its user had closed.
pub fn worked_came()
    ensures taken { HasTakenCls ended_moments took_eight }
    ensures closing { HasTakenCls quit_moments took }
    ensures open { HasTakenCls sent_moments took_eight → ⊥ }

    // it was so of the life as it was then, once the sender's host has stopped
    ensures had { HadTakenCls (Crossed (crossing.Down dialogue.second) ∷ quit_moments) took }

    // one message came in and one was sent, though none was taken
    ensures dropped { CameAll (crossings_of quit_moments) (crossings_of quit_moments) (kept_in quit_moments).book.lives took 2 }
    ensures counts { (length (texts_for took 2 (crossings_of quit_moments)) ≡ 1) × (gave.messages ≡ 1) × (took.messages ≡ 0) }

    // it isn't so while the message waits to be taken, nor of what comes in later, nor of another link
    ensures late { CameAll (crossings_of bits_sent) (crossings_of quit_moments) (kept_in quit_moments).book.lives took 2 → ⊥ }
    ensures waits { CameAll (crossings_of bits_sent) (crossings_of bits_sent) (kept_in bits_sent).book.lives took 2 → ⊥ }
    ensures link { CameAll (crossings_of quit_moments) (crossings_of quit_moments) (kept_in quit_moments).book.lives took 3 → ⊥ }
{}

/// The calls of two programs: the first asks for a connection, and the second's socket listens. Here a connection is given by its receiving socket.
pub fn worked_calls()
    ensures { WorkedCalls }
{}
