//! What a host's own program promises of its lives. The functions here do nothing: each clause is a law.

ghost use Rattle.std.specs.Prelude.{◌≡◌, true, false, List, [], ◌∷◌, ◌++◌};
ghost use Rattle.promise.specs.declared.life.Life.{Life};
ghost use Rattle.promise.specs.Formed.{IsFormed};
ghost use Rattle.world_keeps_lives.specs.Firsts.{DetermineBits};
ghost use Rattle.promise.specs.Notices.{FormedNotices, data_told};
ghost use Rattle.promise.specs.Safe.{sends};
ghost use Rattle.net_sim.specs.Story.{Moment};
ghost use Rattle.net_sim.specs.Told.{kept_in};
ghost use Rattle.host_pairs.specs.Asked.{with_more_bits};
ghost use Rattle.host_pairs.specs.Commands as commands;
ghost use Rattle.host_pairs.specs.Entries.{receiving_end, refused_end, sending_end};
ghost use Rattle.host_pairs.specs.Parcels.{asked_at};
ghost use Rattle.host_pairs.specs.declared.entry.Closing.TheVariants as closing;
ghost use Rattle.sockets.specs.Pairs.{opening_state};
ghost use Rattle.host_pairs.specs.declared.notice.Notice.TheVariants as notice;
ghost use Rattle.sockets.specs.Worked.{first, second, third};
ghost use Rattle.net_sim.specs.Book.{carried, life_ended, granted, new_life, opening_kept, returned};
ghost use Rattle.world_keeps_lives.specs.Lives.{AreRefusing, EachOn, HasOpenEnd, IsBounded, IsFreeSocket, IsFresh, IsLifeOf, IsOwned, IsSafe, IsSteady, NoneOf, at_socket, mine_on};
ghost use Rattle.world_keeps_lives.specs.Drained.{AllSent, ClosedFirst, ClosesFirst, all_lives};
ghost use Rattle.world_keeps_lives.specs.Firsts.{AreApart, FirstBook};
ghost use Rattle.world_keeps_lives.specs.Worked.{worked_end, with_one};
ghost use Rattle.world_keeps_lives.specs.WorkedFormed.{arrived_told, closed_moments, closing_moments, gave, sent_log};
ghost use Rattle.world_keeps_lives.specs.WorkedFormed.{sent_told, stopped_moments, stray_arrived, stray_log, stray_sent};
ghost use Rattle.world_keeps_lives.specs.WorkedFormed.{taken_moments, took};
ghost use Rattle.world_keeps_lives.specs.WorkedFormed.{took_second, two_log, untaken_log};
ghost use Rattle.net_sim.specs.Worked.{crossings, eight, eight_zeros, taker};
ghost use Rattle.net_sim.specs.WorkedMoments.{sent_moments};
ghost use Rattle.world_keeps_lives.specs.Laws.{Programs, Worlds};

use interface::Carrier;

/// What each host has, over every list of moments in which what crosses is a run of the mailboxes.
pub fn programs()
    ensures { Programs }
{}

/// The same of the book of every world, whatever its carrier is made of: the two clauses of the safe book that are about one host
/// only, the bound of grants, the end of each life that isn't over, in the program that comes of the world's moments, and the messages that
/// notices report.
pub fn worlds<C: Carrier>()
    ensures { Worlds C.calls }
{}

/// Ends.
pub fn worked_ends()
    // on a new end nothing waits and nothing is granted; an end that isn't open has neither bits nor counters
    ensures fresh { IsFresh (sending_end 33 16 8) }
    ensures early { IsFresh (with_more_bits (true ∷ []) (sending_end 33 16 8)) → ⊥ }
    ensures granted { IsFresh (commands.granted 1 5 (receiving_end 16 33 5)) → ⊥ }

    // that of a request which is refused isn't this host's own, nor are those on other sockets on this one
    ensures mine { mine_on 33 (refused_end 33 16 9 ∷ sending_end 33 18 8 ∷ sending_end 35 18 8 ∷ []) ≡ sending_end 33 18 8 ∷ [] }
    ensures refusing { AreRefusing (refused_end 33 16 9 ∷ sending_end 35 18 8 ∷ []) }
    ensures kept { AreRefusing (record (refused_end 33 16 9) { closing = closing.No } ∷ []) → ⊥ }
{}

/// Lives of host `first`, which sends from socket 33 and receives on 16.
pub fn worked_lives()
    // what was sent is a prefix of what was handed over; not of less, and not of other bits
    ensures sent { IsSafe (carried (true ∷ []) (new_life first 33 second 16 6 10)) (true ∷ false ∷ []) }
    ensures more { IsSafe (carried (true ∷ []) (new_life first 33 second 16 6 10)) [] → ⊥ }
    ensures others { IsSafe (carried (true ∷ []) (new_life first 33 second 16 6 10)) (false ∷ true ∷ []) → ⊥ }

    // what was taken is granted, and wasn't returned
    ensures taken { IsSafe (carried (true ∷ []) (granted 1 5 (new_life first 16 second 33 6 10))) [] }
    ensures ungranted { IsSafe (carried (true ∷ []) (granted 0 5 (new_life first 16 second 33 6 10))) [] → ⊥ }
    ensures longer { IsSafe (carried (true ∷ []) (granted 1 0 (new_life first 16 second 33 6 10))) [] → ⊥ }
    ensures returned { IsSafe (carried (true ∷ []) (returned 1 0 (granted 1 5 (new_life first 16 second 33 6 10)))) [] → ⊥ }

    // what a counter can hold may be granted and not taken, and no more; what was taken or returned may be granted again
    ensures outstanding { IsBounded (granted 65535 4294967295 (new_life first 16 second 33 6 10)) }
    ensures renewed { IsBounded (granted 3 1 (returned 2 0 (carried (true ∷ []) (granted 65535 4294967295 (new_life first 16 second 33 6 10))))) }
    ensures many { IsBounded (granted 65536 0 (new_life first 16 second 33 6 10)) → ⊥ }
    ensures long { IsBounded (granted 0 4294967296 (new_life first 16 second 33 6 10)) → ⊥ }

    // one that has ended is still of its socket, and of no other socket or host
    ensures here { at_socket first 16 (life_ended (new_life first 16 second 33 6 10)) ≡ true }
    ensures elsewhere { (at_socket second 16 (new_life first 16 second 33 6 10) ≡ false) × (at_socket first 18 (new_life first 16 second 33 6 10) ≡ false) }

    // where none continues, those that have ended are safe; each has what was handed over in it
    ensures gone { EachOn first 16 NoneOf (life_ended (new_life first 16 second 33 6 10) ∷ []) ([] ∷ []) }
    ensures goes { EachOn first 16 NoneOf (new_life first 16 second 33 6 10 ∷ []) ([] ∷ []) → ⊥ }
    ensures unequal { EachOn first 16 NoneOf [] ([] ∷ []) → ⊥ }

    // a life is that of the end with its two stamps
    ensures life { IsLifeOf second worked_end (new_life first 16 second 33 6 10) [] }
    ensures stamp { IsLifeOf second worked_end (new_life first 16 second 33 7 10) [] → ⊥ }

    // what waits on it was handed over; what is left of its grants was granted, and what was granted and not taken is left
    ensures waits { IsLifeOf second (with_more_bits (true ∷ []) (commands.asked_on_link 10 5 (asked_at 6 (sending_end 33 16 8)))) (new_life first 33 second 16 6 10) [] → ⊥ }
    ensures left { IsLifeOf second (commands.granted 1 5 worked_end) (new_life first 16 second 33 6 10) [] → ⊥ }
    ensures lost { IsLifeOf second worked_end (granted 1 5 (new_life first 16 second 33 6 10)) [] → ⊥ }
{}

/// A program with one open end, and one that starts.
pub fn worked_programs()
    // the life that begins with its two requests, and no other, is that of its end
    ensures open { HasOpenEnd with_one (new_life first 16 second 33 6 10) }
    ensures other { HasOpenEnd with_one (new_life first 16 second 33 7 10) → ⊥ }
    ensures turned { HasOpenEnd with_one (new_life first 33 second 16 6 10) → ⊥ }

    // a program that starts has each socket free
    ensures free { IsFreeSocket first 16 (opening_state first) opening_kept }
    ensures taken_up { IsFreeSocket first 16 with_one opening_kept → ⊥ }
    ensures unowned { IsOwned first 16 (opening_state first) opening_kept → ⊥ }
    ensures steady { IsSteady (opening_state first) }
{}

/// What a life is made of is determined: crossings, its sockets and hosts, its stamps and the number of its messages leave no choice of its bits.
pub fn formed()
    ensures determined { DetermineBits }
{}

/// Lives of a small book: eight bits were sent on link 2, after an RTS that named it.
pub fn worked_formed()
    // the life that took them and the one that sent them are made of messages that crossed
    ensures took { IsFormed sent_log took }
    ensures gave { IsFormed sent_log gave }

    // the life of a safe book that took eight bits, though no message of data crossed, and none that holds its request
    ensures unsaid { IsFormed crossings taker → ⊥ }

    // the message at the own stamp is an ALL, what came in at the partner's stamp came in to the peer, and the bits are those of link 3
    ensures another_message { IsFormed sent_log (record took { own_stamp = 12 }) → ⊥ }
    ensures another_peer { IsFormed sent_log (record took { partner_stamp = 7 }) → ⊥ }
    ensures another_link { IsFormed stray_log took → ⊥ }

    // two messages crossed: a life of both, and of the first only, but not of the second only
    ensures took_both { IsFormed two_log (record took { messages = 2; bits = eight ++ eight_zeros }) }
    ensures took_first { IsFormed two_log took }
    ensures passed_over { IsFormed two_log took_second → ⊥ }

    // a message that a life counts and that didn't cross
    ensures uncrossed { IsFormed sent_log (record took { messages = 2 }) → ⊥ }
{}

/// The messages that went out in the same book.
pub fn worked_firsts()
    // the one that went out is the sending life's
    ensures sent { FirstBook sent_log (took ∷ gave ∷ []) }

    // a second message that went out and that no life counts
    ensures left_out { FirstBook two_log (took ∷ gave ∷ []) → ⊥ }

    // one message that two sending lives count
    ensures twice { AreApart sent_log (gave ∷ gave ∷ []) → ⊥ }
{}

/// Notices of the same small book.
pub fn worked_notices()
    // the message has two notices of data: its sender was informed where it went out, and its receiver where it came in
    ensures both { data_told (kept_in sent_moments).book.notices ≡ arrived_told ∷ sent_told ∷ [] }
    ensures told { FormedNotices sent_log (kept_in sent_moments).book.notices }

    // of what comes in a user need not be notified, but of what goes out
    ensures untaken { FormedNotices sent_log (sent_told ∷ []) }
    ensures unsent { FormedNotices sent_log (arrived_told ∷ []) → ⊥ }

    // what arrives are the bits of the message, in their order, where it came in, and once
    ensures other_bits { FormedNotices sent_log (sent_told ∷ record arrived_told { notice = notice.Arrived 16 eight_zeros } ∷ []) → ⊥ }
    ensures nothing_crossed { FormedNotices untaken_log (sent_told ∷ arrived_told ∷ []) → ⊥ }
    ensures early { FormedNotices sent_log (sent_told ∷ record arrived_told { place = 16 } ∷ []) → ⊥ }
    ensures twice { FormedNotices sent_log (sent_told ∷ arrived_told ∷ arrived_told ∷ []) → ⊥ }

    // the sender is notified, and no other host
    ensures another_host { FormedNotices sent_log (record sent_told { host = third } ∷ arrived_told ∷ []) → ⊥ }

    // a message on link 3 isn't that of a connection whose RTS names link 2
    ensures another_link { FormedNotices stray_log (stray_sent ∷ stray_arrived ∷ []) → ⊥ }
{}

/// A sending life whose user closes: all that was handed over was sent where its CLS is queued, but for a CLS that waits for an answer, or comes after the
/// partner's.
pub fn worked_drained()
    ensures closed { ClosesFirst closed_moments gave }

    // it is so of this life still once its host has stopped; then all that was handed over is what was sent, and not less
    ensures stopped { ClosedFirst all_lives stopped_moments (life_ended gave) }
    ensures all { AllSent all_lives stopped_moments (life_ended gave ∷ []) (eight ∷ []) }
    ensures less { AllSent all_lives stopped_moments (life_ended gave ∷ []) ([] ∷ []) → ⊥ }
    ensures unanswered { ClosesFirst closing_moments gave → ⊥ }
    ensures taken { ClosesFirst taken_moments gave → ⊥ }
{}

/// Lives of which at no moment so far their user had closed the end first.
pub fn worked_not_first()
    // its user has closed it, but its CLS waits for an answer
    ensures unanswered { ClosedFirst all_lives closing_moments gave → ⊥ }

    // the partner's CLS was taken before its own was queued
    ensures taken { ClosedFirst all_lives taken_moments gave → ⊥ }

    // a life that receives
    ensures sending { (moments : List Moment) (life : Life) → ClosedFirst all_lives moments life → sends life ≡ true }
{}
