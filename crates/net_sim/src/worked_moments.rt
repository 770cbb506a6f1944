//! Worked examples of moments: two hosts that contact each other, connect and send. The functions here do nothing: each
//! clause is a row, computed over the definitions.

ghost use Rattle.std.specs.Prelude.{[], ◌∷◌};
ghost use Rattle.host_pairs.specs.declared.notice.Notice.{Notice};
ghost use Rattle.host_pairs.specs.declared.notice.Notice.TheVariants as notice;
ghost use Rattle.interface.specs.declared.crossing.Inbound.TheVariants as inbound;
ghost use Rattle.net_sim.specs.Clean.{IsUnheard};
ghost use Rattle.net_sim.specs.Story.{Asked, places, program};
ghost use Rattle.net_sim.specs.Timeline.{IsTimeline};
ghost use Rattle.net_sim.specs.WorkedMoments.{bits_sent, contacted, eight_sent, sent_moments, str, str_sent};
ghost use Rattle.sockets.specs.Accepting.{accepted};
ghost use Rattle.sockets.specs.Worked.{first, second, third};
ghost use Rattle.sockets.specs.declared.request.Request.TheVariants as request;
ghost use Rattle.net_sim.specs.Laws.Rows.{WorkedTellings};

/// What is kept of moments.
pub fn worked_tellings()
    ensures { WorkedTellings }
{}

/// Which moments can be.
pub fn worked_timelines()
    // all of this can
    ensures may { IsTimeline (first ∷ second ∷ []) sent_moments }

    // a request that the program refuses is no moment, nor is one with a number past the range of its type
    ensures refused { IsTimeline (first ∷ second ∷ []) (Asked first (request.Echo second 65) ∷ []) → ⊥ }
    ensures unranged { IsTimeline (first ∷ second ∷ []) (Asked first (request.Listen 33 256) ∷ []) → ⊥ }

    // nor one of a host that isn't there
    ensures nobody { IsTimeline (first ∷ second ∷ []) (Asked third (request.Listen 33 8) ∷ []) → ⊥ }
{}

/// What a taking may come to.
pub fn worked_takings()
    // data that is taken in a contact is announced, and an STR opens an end
    ensures told { IsUnheard (program first bits_sent) (accepted (program first bits_sent) (inbound.Message eight_sent) (places bits_sent)) → ⊥ }
    ensures opened { IsUnheard (program first str_sent) (accepted (program first str_sent) (inbound.Message str) (places str_sent)) → ⊥ }

    // before any contact neither comes to anything
    ensures early { IsUnheard (program first []) (accepted (program first []) (inbound.Message eight_sent) 0) × IsUnheard (program first []) (accepted (program first []) (inbound.Message str) 0) }

    // nothing comes of a taking only where nobody is notified, no pair changes, and what listens stays
    ensures notice { (n : Notice) → IsUnheard (program first contacted) (program first contacted, n ∷ []) → ⊥ }
    ensures pair { IsUnheard (program second []) (program second contacted, []) → ⊥ }
    ensures listening { IsUnheard (program second contacted) (program second (Asked second (request.Listen 33 8) ∷ contacted), []) → ⊥ }
{}
