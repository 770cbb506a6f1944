//! Worked examples of which message of its partner each one is that a receiving life counts, and of what a sending life was
//! granted. The functions here do nothing: each clause is a row, computed over the definitions.

ghost use Rattle.std.specs.Prelude.{[], ◌∷◌};
ghost use Rattle.net_sim.specs.WorkedMoments.{eight_sent};
ghost use Rattle.world_keeps_lives.specs.WorkedFormed.{gave, sent_log, stray, stray_log, took, two_log, zeros_sent};
ghost use Rattle.world_keeps_streams.specs.Granted.{EachIsWithin};
ghost use Rattle.world_keeps_streams.specs.Sent.{EachWasSent, WasSent};
ghost use Rattle.world_keeps_streams.specs.WorkedSent.{again_log, early_log, gap_log, gave_early, gave_twice, took_early, took_twice, unsent_log};

/// Messages of eight bits that were sent, and taken.
pub fn worked_sent()
    // the second of both lives
    ensures same { WasSent two_log (took_twice ∷ gave_twice ∷ []) 19 zeros_sent took_twice }

    // a repeat: the second that a life counts is the first that was sent
    ensures again { WasSent again_log (took_twice ∷ gave ∷ []) 17 eight_sent took_twice → ⊥ }

    // a gap: the first that it counts is the second that was sent
    ensures gap { WasSent gap_log (took ∷ gave ∷ []) 18 eight_sent took → ⊥ }

    // one that had gone out before the connection was asked for, with the same bits
    ensures early { WasSent early_log (took_early ∷ gave_early ∷ []) 16 eight_sent took_early → ⊥ }

    // one of another link, and one that no life sent
    ensures link { WasSent stray_log (took ∷ gave ∷ []) 13 stray took → ⊥ }
    ensures stray { WasSent sent_log (took ∷ []) 16 eight_sent took → ⊥ }

    // what a receiving life counts, and nobody sent
    ensures unsent { EachWasSent unsent_log (took ∷ []) → ⊥ }
{}

/// What a life sent is within what the ALLs grant that its host took.
pub fn worked_granted()
    // an ALL of two messages: three are too many
    ensures sent { EachIsWithin sent_log (record gave { messages = 3 } ∷ []) → ⊥ }

    // nothing is asked of the receiving life, nor of a link that no request of the life names
    ensures taken { EachIsWithin sent_log (took ∷ []) }
    ensures link { EachIsWithin sent_log (record gave { messages = 3; partner_stamp = 6 } ∷ []) }
{}
