//! Lives that their partner had not closed. The function here does nothing: each clause is a row.

ghost use Rattle.std.specs.Prelude.{◌≡◌, true, List};
ghost use Rattle.promise.specs.Safe.{receives, sends};
ghost use Rattle.net_sim.specs.Story.{Moment};
ghost use Rattle.net_sim.specs.WorkedMoments.{sent_moments};
ghost use Rattle.promise.specs.declared.life.Life.{Life};
ghost use Rattle.world_keeps_lives.specs.WorkedFormed.{gave};
ghost use Rattle.world_keeps_streams.specs.Closes.{WasClosedBy, WasClosedByPartner};
ghost use Rattle.world_keeps_streams.specs.Worked.{ended_moments, quit_moments, took, took_eight};

/// Lives of which at no moment so far the partner had closed the end, and no user of its own host.
pub fn worked_past_closes()
    // the partner has not closed
    ensures never { WasClosedByPartner sent_moments took_eight → ⊥ }

    // its own user had closed first
    ensures quit { WasClosedByPartner quit_moments took → ⊥ }

    // a sending life
    ensures sending { (moments : List Moment) (life : Life) → WasClosedByPartner moments life → receives life ≡ true }

    // so no life at the other end has; where one has it isn't that of another socket, nor one that receives
    ensures none { (sender : Life) → WasClosedBy sent_moments sender took_eight → ⊥ }
    ensures another { WasClosedBy ended_moments (record gave { socket = 35 }) took_eight → ⊥ }
    ensures receiver { (moments : List Moment) (sender life : Life) → WasClosedBy moments sender life → sends sender ≡ true }
{}
