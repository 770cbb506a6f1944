//! Worked examples of when a life begins and by what it is over. The functions here do nothing: each clause is a row, computed over the definitions, of a
//! life whose requests cross at the places 0 and 1.

ghost use Rattle.std.specs.Prelude.{◌≡◌, true, false, [], ◌∷◌, ◌++◌};
ghost use Rattle.interface.specs.declared.crossing.Answer.TheVariants as answer;
ghost use Rattle.interface.specs.declared.crossing.Crossing.TheVariants as crossing;
ghost use Rattle.promise.specs.Ends.{Asking, CanBeLeft, Closed, Dropped, Going, Leaves, Over, Stopped, course, stage};
ghost use Rattle.promise.specs.declared.life.Fate.{Fate};
ghost use Rattle.promise.specs.declared.life.Fate.TheVariants as fate;
ghost use Rattle.net_sim.specs.WorkedMoments.{eight_sent, rts, str};
ghost use Rattle.net_sim.specs.WorkedResets.{rrp, rst};
ghost use Rattle.sockets.specs.Worked.{CLS, RTS, STR, control, first, second, third};
ghost use Rattle.world_keeps_streams.specs.Within.{CountNothingLater};
ghost use Rattle.world_keeps_streams.specs.WorkedEnds.{InTime, Left, answered_by, answerer, after_rst, asked_later};
ghost use Rattle.world_keeps_streams.specs.WorkedEnds.{asker, begun_then, between, both_asked, came_late, came_sooner};
ghost use Rattle.world_keeps_streams.specs.WorkedEnds.{contact, eight_elsewhere, is_early, late_answer, later_life};
ghost use Rattle.world_keeps_streams.specs.WorkedEnds.{other_cls, own_cls, partner_cls, second_life, second_time};
ghost use Rattle.world_keeps_streams.specs.WorkedEnds.{stage_by, told, took_later, took_one};

/// Requests: a life begins with the second of them.
#[tactic(auto, unfolding(ncp_control::specs::Reading::command_of, bit_messages::specs::Octets::octets_of, host_pairs::specs::Control::orders_of, ncp_control::specs::Reading::read_of))]
pub fn worked_beginnings()
    ensures asked { stage_by asker (crossing.Out rts ∷ []) ≡ Asking true false }
    ensures begun { stage_by asker (begun_then []) ≡ Going false false }
    ensures answered { stage_by answerer (crossing.In str ∷ []) ≡ Asking false true }
    ensures turned { stage_by answerer (crossing.Out rts ∷ crossing.In str ∷ []) ≡ Going false false }

    // a request at another place isn't its own, nor is one that the other host sends or takes
    ensures place { stage_by answerer (begun_then []) ≡ Asking false false }
    ensures taken { stage_by asker (crossing.In rts ∷ []) ≡ Asking false false }

    // of two requests in one text the first counts: what comes between them ends the life
    ensures twice { stage_by asker (crossing.In (answered_by (STR 33 16 8 ++ CLS 33 16 ++ STR 33 16 8)) ∷ crossing.Out rts ∷ []) ≡ Going false true }

    // where a request was refused, and is asked for again, the later one counts
    ensures again { stage_by second_time (begun_then [] ++ crossing.Out own_cls ∷ crossing.In partner_cls ∷ crossing.Out rts ∷ []) ≡ Going false false }
{}

/// What comes between the two requests: nothing may that would end the life.
#[tactic(auto, unfolding(ncp_control::specs::Reading::command_of, bit_messages::specs::Octets::octets_of, host_pairs::specs::Control::orders_of, ncp_control::specs::Reading::read_of))]
pub fn worked_early()
    ensures own_cls { is_early late_answer (between (crossing.Out own_cls)) ≡ true }
    ensures partner_cls { is_early late_answer (between (crossing.In partner_cls)) ≡ true }
    ensures sent { is_early late_answer (between (crossing.Out (rst first second))) ≡ true }
    ensures taken { is_early late_answer (between (crossing.In (rst second first))) ≡ true }
    ensures reply { is_early late_answer (between (crossing.Out (rrp first second))) ≡ true }
    ensures failed { is_early late_answer (between (told answer.Dead first second 0)) ≡ true }
    ensures stop { is_early late_answer (between (crossing.Down first)) ≡ true }
    ensures contact { (course (contact first 1 second ∷ []) asker (begun_then [])).early ≡ true }

    // an RRP that is owed may
    ensures owed { is_early (record late_answer { own_stamp = 1; partner_stamp = 3 }) (between (crossing.Out (rrp first second)) ++ crossing.In (rst second first) ∷ []) ≡ false }

    // so it is where the partner's request came first
    ensures turned { is_early (record answerer { own_stamp = 2 }) (crossing.Out rts ∷ crossing.Out own_cls ∷ crossing.In str ∷ []) ≡ true }

    // in one text they are in order
    ensures in_text { is_early asker (crossing.In (answered_by (CLS 33 16 ++ STR 33 16 8)) ∷ crossing.Out rts ∷ []) ≡ true }
    ensures after { is_early asker (crossing.In (answered_by (STR 33 16 8 ++ CLS 33 16)) ∷ crossing.Out rts ∷ []) ≡ false }

    // what came before the first of them, or comes after the second, isn't early
    ensures before { is_early second_time (begun_then [] ++ crossing.Out own_cls ∷ crossing.In partner_cls ∷ crossing.Out rts ∷ []) ≡ false }
    ensures later { is_early asker (begun_then (crossing.Down first ∷ [])) ≡ false }
{}

/// Connections that are dropped, and a host that stops.
#[tactic(auto, unfolding(ncp_control::specs::Reading::command_of, bit_messages::specs::Octets::octets_of, host_pairs::specs::Control::orders_of, ncp_control::specs::Reading::read_of))]
pub fn worked_drops()
    // by an RST, whoever sends it; not by one of other hosts
    ensures sent { stage_by asker (begun_then (crossing.Out (rst first second) ∷ [])) ≡ Over Dropped 2 }
    ensures taken { stage_by asker (begun_then (crossing.In (rst second first) ∷ [])) ≡ Over Dropped 2 }
    ensures others { stage_by asker (begun_then (crossing.In (rst third first) ∷ crossing.Out (rst second first) ∷ [])) ≡ Going false false }

    // by an RRP that goes out, unless it is owed: for an RST of before, and once. One that comes in drops nothing
    ensures reply { stage_by asker (begun_then (crossing.Out (rrp first second) ∷ [])) ≡ Over Dropped 2 }
    ensures owed { stage_by after_rst (begun_then (crossing.Out (rrp first second) ∷ []) ++ crossing.In (rst second first) ∷ []) ≡ Going false false }
    ensures once { stage_by after_rst (begun_then (crossing.Out (rrp first second) ∷ crossing.Out (rrp first second) ∷ []) ++ crossing.In (rst second first) ∷ []) ≡ Over Dropped 4 }
    ensures heard { stage_by asker (begun_then (crossing.In (rrp second first) ∷ [])) ≡ Going false false }

    // by any answer but RFNM, on any link, to a message for the peer, unless an RRP is owed
    ensures incomplete { stage_by asker (begun_then (told answer.Incomplete first second 2 ∷ [])) ≡ Over Dropped 2 }
    ensures dead { stage_by asker (begun_then (told answer.Dead first second 0 ∷ [])) ≡ Over Dropped 2 }
    ensures not_taken { stage_by asker (begun_then (told answer.NotTaken first second 0 ∷ [])) ≡ Over Dropped 2 }
    ensures rfnm { stage_by asker (begun_then (told answer.Rfnm first second 0 ∷ [])) ≡ Going false false }
    ensures elsewhere { stage_by asker (begun_then (told answer.Dead second first 0 ∷ told answer.Dead first third 0 ∷ [])) ≡ Going false false }
    ensures owing { stage_by after_rst (begun_then (told answer.Dead first second 0 ∷ []) ++ crossing.In (rst second first) ∷ []) ≡ Going false false }

    // by its host's stop, and not by its peer's; a host that stopped owes no RRP
    ensures stopped { stage_by asker (begun_then (crossing.Down first ∷ [])) ≡ Over Stopped 2 }
    ensures peer { stage_by asker (begun_then (crossing.Down second ∷ [])) ≡ Going false false }
    ensures forgotten { stage_by second_time (begun_then (crossing.Out (rrp first second) ∷ []) ++ crossing.Up first ∷ crossing.Down first ∷ crossing.In (rst second first) ∷ []) ≡ Over Dropped 5 }

    // by a contact of its host with its peer, where it was asked for
    ensures contact { stage (contact first 2 second ∷ []) asker (begun_then []) ≡ Over Dropped 2 }
    ensures before { stage (contact first 0 second ∷ []) asker (begun_then []) ≡ Going false false }
    ensures of_others { stage (contact second 2 first ∷ contact first 2 third ∷ []) asker (begun_then []) ≡ Going false false }

    // what comes later changes nothing
    ensures first { stage_by asker (begun_then (crossing.Down first ∷ crossing.Out (rst first second) ∷ [])) ≡ Over Dropped 2 }
{}

/// Both CLS.
#[tactic(auto, unfolding(ncp_control::specs::Reading::command_of, bit_messages::specs::Octets::octets_of, host_pairs::specs::Control::orders_of, ncp_control::specs::Reading::read_of))]
pub fn worked_cls()
    ensures own { stage_by asker (begun_then (crossing.Out own_cls ∷ [])) ≡ Going true false }
    ensures partner { stage_by asker (begun_then (crossing.In partner_cls ∷ [])) ≡ Going false true }
    ensures own_first { stage_by asker (begun_then (crossing.In partner_cls ∷ crossing.Out own_cls ∷ [])) ≡ Over (Closed true) 3 }
    ensures partner_first { stage_by asker (begun_then (crossing.Out own_cls ∷ crossing.In partner_cls ∷ [])) ≡ Over (Closed false) 3 }

    // one CLS twice isn't both, nor are those of other sockets, or of another host
    ensures twice { stage_by asker (begun_then (crossing.Out own_cls ∷ crossing.Out own_cls ∷ [])) ≡ Going true false }
    ensures sockets { stage_by asker (begun_then (crossing.Out other_cls ∷ [])) ≡ Going false false }
    ensures host { stage_by asker (begun_then (crossing.Out (control first third (CLS 16 33)) ∷ [])) ≡ Going false false }

    // in the text of the request, after it
    ensures in_text { stage_by asker (crossing.In (answered_by (STR 33 16 8 ++ CLS 33 16)) ∷ crossing.Out rts ∷ []) ≡ Going false true }

    // what a text says after an illegal code isn't read
    ensures unread { stage_by asker (begun_then (crossing.In (answered_by (14 ∷ CLS 33 16)) ∷ [])) ≡ Going false false }
{}

/// Which fates a stage leaves.
pub fn worked_leavings()
    ensures open { Leaves (Going false true) fate.Open }
    ensures closing { Leaves (Going true false) fate.Closing }
    ensures ended { Leaves (Over (Closed false) 3) fate.Ended }
    ensures closed { Leaves (Over (Closed false) 3) fate.Closed }
    ensures own_first { Leaves (Over (Closed true) 3) fate.Closed }
    ensures reset { Leaves (Over Dropped 3) fate.Reset }
    ensures stopped { Leaves (Over Stopped 3) fate.Stopped }

    // its own CLS goes out first only where a user of its host closed it
    ensures unclosed { Leaves (Going true false) fate.Open → ⊥ }
    ensures unended { Leaves (Over (Closed true) 3) fate.Ended → ⊥ }

    // what isn't over has no fate of one that is, and the other way
    ensures early { Leaves (Going false true) fate.Ended → ⊥ }
    ensures late { Leaves (Over (Closed false) 3) fate.Open → ⊥ }
    ensures restarted { Leaves (Over Stopped 3) fate.Reset → ⊥ }
    ensures dropped { Leaves (Over Dropped 3) fate.Ended → ⊥ }

    // one that hasn't begun has none
    ensures asking { (f : Fate) → Leaves (Asking true false) f → ⊥ }
{}

/// What becomes of one life of a book.
pub fn worked_left()
    ensures open { Left asker (begun_then []) fate.Open }
    ensures closing { Left asker (begun_then (crossing.Out own_cls ∷ [])) fate.Closing }
    ensures closed { Left asker (begun_then (crossing.In partner_cls ∷ crossing.Out own_cls ∷ [])) fate.Closed }
    ensures ended { Left asker (begun_then (crossing.Out own_cls ∷ crossing.In partner_cls ∷ [])) fate.Ended }

    // its own CLS goes out first only where a user of its host closed it
    ensures unclosed { Left asker (begun_then (crossing.Out own_cls ∷ [])) fate.Open → ⊥ }
    ensures own_first { Left asker (begun_then (crossing.In partner_cls ∷ crossing.Out own_cls ∷ [])) fate.Ended → ⊥ }

    // nothing ends a life between its requests, though its stage is that of one that continues
    ensures early { Left late_answer (between (crossing.Out own_cls)) fate.Open → ⊥ }
    ensures stopped { Left late_answer (between (crossing.Down first)) fate.Open → ⊥ }
    ensures continues { stage_by late_answer (between (crossing.Down first)) ≡ Going false false }

    // a reset may have been before them
    ensures before { Left after_rst (begun_then [] ++ crossing.In (rst second first) ∷ []) fate.Open }
{}

/// Fates in a log, by contacts that don't cross.
pub fn worked_contacts()
    // a life may be reset by a contact, after which nothing has gone out yet; and so may one that its host's stop would have ended
    ensures reset { CanBeLeft (begun_then []) (asker ∷ []) (fate.Reset ∷ []) }
    ensures stopped { CanBeLeft (begun_then (crossing.Down first ∷ [])) (asker ∷ []) (fate.Reset ∷ []) }

    // one without a contact is open
    ensures open { CanBeLeft (begun_then []) (asker ∷ []) (fate.Open ∷ []) }

    // a contact resets all lives with its peer, or none
    ensures both { CanBeLeft both_asked (asker ∷ second_life ∷ []) (fate.Reset ∷ fate.Reset ∷ []) }
    ensures one { CanBeLeft both_asked (asker ∷ second_life ∷ []) (fate.Reset ∷ fate.Open ∷ []) → ⊥ }

    // what goes out next after a contact is an RST
    ensures no_rst { CanBeLeft asked_later (asker ∷ later_life ∷ []) (fate.Reset ∷ fate.Open ∷ []) → ⊥ }

    // a life that a CLS of its own closed first isn't ended, with any contacts
    ensures own_first { CanBeLeft (begun_then (crossing.In partner_cls ∷ crossing.Out own_cls ∷ [])) (asker ∷ []) (fate.Ended ∷ []) → ⊥ }
{}

/// What a life that is over counts: no message that crossed after what ended it.
pub fn worked_within()
    // what came in before its host stopped, before a contact, or before the second CLS
    ensures stopped { InTime [] (crossing.Down first ∷ crossing.In eight_sent ∷ []) }
    ensures contact { InTime (contact first 3 second ∷ []) (crossing.In eight_sent ∷ []) }
    ensures closed { InTime [] (crossing.In partner_cls ∷ crossing.In eight_sent ∷ crossing.Out own_cls ∷ []) }

    // of a life that continues nothing is asked
    ensures open { InTime [] (crossing.Out own_cls ∷ []) }

    // nothing that came in after that
    ensures after_stop { InTime [] (crossing.In eight_sent ∷ crossing.Down first ∷ []) → ⊥ }
    ensures after_reset { InTime [] (crossing.In eight_sent ∷ crossing.In (rst second first) ∷ []) → ⊥ }
    ensures after_contact { InTime (contact first 2 second ∷ []) (crossing.In eight_sent ∷ []) → ⊥ }
    ensures after_cls { InTime [] (crossing.In eight_sent ∷ crossing.In partner_cls ∷ crossing.Out own_cls ∷ []) → ⊥ }

    // each life is asked, and not only the first
    ensures second { CountNothingLater [] came_late (asker ∷ took_one ∷ []) → ⊥ }

    // only messages of its own link count, and only those that come after both of its requests
    ensures link { InTime [] (crossing.Down first ∷ crossing.In eight_elsewhere ∷ []) → ⊥ }
    ensures sooner { CountNothingLater [] came_sooner (took_later ∷ []) → ⊥ }
{}
