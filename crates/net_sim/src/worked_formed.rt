//! Lives and notices that aren't made of the messages that crossed. The functions here do nothing: each clause is a row, in which one thing is wrong
//! with a log of three crossings, with a life of it or with a notice.

ghost use Rattle.std.specs.Prelude.{[], ◌∷◌};
ghost use Rattle.interface.specs.declared.crossing.Crossing.TheVariants as crossing;
ghost use Rattle.promise.specs.Formed.{IsFormed};
ghost use Rattle.promise.specs.Notices.{FormedNotices};
ghost use Rattle.net_sim.specs.SmallLogs.{given_log, given_told, moved, one_given, one_taken, taken_log, taken_told, two_rts};
ghost use Rattle.net_sim.specs.Worked.{eight_zeros, message};
ghost use Rattle.net_sim.specs.WorkedMoments.{eight_sent, rts, str};
ghost use Rattle.sockets.specs.Worked.{first, second, third};
ghost use Rattle.net_sim.specs.Laws.Rows.{UnformedNotices};

/// The two lives of a message of data, and its two notices, are made of what crossed: so lives and notices can be.
pub fn formed_rows()
    ensures taken { IsFormed taken_log one_taken }
    ensures given { IsFormed given_log one_given }

    // the link is that of the first request for its sockets
    ensures first_named { IsFormed (crossing.In eight_sent ∷ crossing.In str ∷ crossing.Out two_rts ∷ []) one_taken }

    ensures arrived { FormedNotices taken_log (taken_told ∷ []) }
    ensures sent { FormedNotices given_log (given_told ∷ []) }
{}

/// A life's own request went out at its own stamp, from its host to its peer, and its partner's came in at its partner stamp.
pub fn unformed_requests()
    // each on link 0
    ensures own_link { IsFormed (crossing.In eight_sent ∷ crossing.In str ∷ crossing.Out (moved first second 3 rts) ∷ []) one_taken → ⊥ }
    ensures partner_link { IsFormed (crossing.In eight_sent ∷ crossing.In (moved second first 3 str) ∷ crossing.Out rts ∷ []) one_taken → ⊥ }

    // the own one to the peer and to no other host, from its own host and from no other
    ensures own_to { IsFormed (crossing.In eight_sent ∷ crossing.In str ∷ crossing.Out (moved first third 0 rts) ∷ []) one_taken → ⊥ }
    ensures own_from { IsFormed (crossing.In eight_sent ∷ crossing.In str ∷ crossing.Out (moved third second 0 rts) ∷ []) one_taken → ⊥ }

    // and so the partner's, the other way
    ensures partner_to { IsFormed (crossing.In eight_sent ∷ crossing.In (moved second third 0 str) ∷ crossing.Out rts ∷ []) one_taken → ⊥ }
    ensures partner_from { IsFormed (crossing.In eight_sent ∷ crossing.In (moved third first 0 str) ∷ crossing.Out rts ∷ []) one_taken → ⊥ }

    // each message holds its request, and for the sockets of the life
    ensures own_holds { IsFormed (crossing.In eight_sent ∷ crossing.In str ∷ crossing.Out (message first second 0) ∷ []) one_taken → ⊥ }
    ensures partner_holds { IsFormed (crossing.In eight_sent ∷ crossing.In (message second first 0) ∷ crossing.Out rts ∷ []) one_taken → ⊥ }
    ensures own_socket { IsFormed taken_log (record one_taken { socket = 18 }) → ⊥ }
    ensures foreign_socket { IsFormed given_log (record one_given { socket = 35 }) → ⊥ }
{}

/// A life's bits are those of the first messages of data, as many as it counts, that crossed after both requests, on its link and between its two hosts.
pub fn unformed_data()
    // data that came in before the own request went out, and before the partner's came in
    ensures before_own { IsFormed (crossing.Out rts ∷ crossing.In eight_sent ∷ crossing.In str ∷ []) (record one_taken { own_stamp = 2; partner_stamp = 0 }) → ⊥ }
    ensures before_partner { IsFormed (crossing.In str ∷ crossing.In eight_sent ∷ crossing.Out rts ∷ []) (record one_taken { own_stamp = 0; partner_stamp = 2 }) → ⊥ }

    // another count of messages, and other bits, as many of them: of what came in and of what went out
    ensures count { IsFormed taken_log (record one_taken { messages = 2 }) → ⊥ }
    ensures taken_bits { IsFormed taken_log (record one_taken { bits = eight_zeros }) → ⊥ }
    ensures given_bits { IsFormed given_log (record one_given { bits = eight_zeros }) → ⊥ }

    // data on the link of a second request for the same sockets
    ensures second_named { IsFormed (crossing.In (moved second first 3 eight_sent) ∷ crossing.In str ∷ crossing.Out two_rts ∷ []) one_taken → ⊥ }

    // data from another host, and data to another
    ensures taken_from { IsFormed (crossing.In (moved third first 2 eight_sent) ∷ crossing.In str ∷ crossing.Out rts ∷ []) one_taken → ⊥ }
    ensures taken_to { IsFormed (crossing.In (moved second third 2 eight_sent) ∷ crossing.In str ∷ crossing.Out rts ∷ []) one_taken → ⊥ }
    ensures given_to { IsFormed (crossing.Out (moved second third 2 eight_sent) ∷ crossing.In rts ∷ crossing.Out str ∷ []) one_given → ⊥ }

    // what went out was not taken
    ensures way { IsFormed (crossing.Out eight_sent ∷ crossing.In str ∷ crossing.Out rts ∷ []) one_taken → ⊥ }
{}

/// A notice of data reports to its host, with the message's data, a socket whose connection has the message's link.
pub fn unformed_notices()
    ensures { UnformedNotices }
{}
