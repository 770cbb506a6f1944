//! Ends and worlds where nothing is left to be done. The functions here do nothing: each clause is a row.

ghost use Rattle.std.specs.Prelude.{true, [], ◌∷◌};
ghost use Rattle.interface.specs.declared.crossing.Crossing.TheVariants as crossing;
ghost use Rattle.host_pairs.specs.declared.entry.Closing.TheVariants as closing;
ghost use Rattle.net_sim.specs.Worked.{down, fresh, halted};
ghost use Rattle.net_sim.specs.WorkedResets.{rst};
ghost use Rattle.sockets.specs.Worked.{first, second};
ghost use Rattle.world_keeps_lives.specs.WorkedFormed.{gave, taken_moments};
ghost use Rattle.world_keeps_streams.specs.Rests.{AreCalm, AreOpen};
ghost use Rattle.world_keeps_streams.specs.Settled.{HasSettled};
ghost use Rattle.world_keeps_streams.specs.Worked.{after_crossings, contacting, draining_end, draining_moments, gave_none, giving_opened, heard_moments, left_at, taking_opened, took_eight, took_none};

/// Lives whose hosts have nothing left to do: a sender drains, and no end closes otherwise.
pub fn worked_draining()
    // nothing is granted, so eight bits wait though their user has closed
    ensures drains { AreCalm draining_moments took_none gave_none }
    ensures open { AreOpen taking_opened draining_end }

    // where the receiver's user has closed, something is left to be done until both ends are gone: a CLS has no answer, or one is queued
    ensures unanswered { AreCalm taken_moments took_eight gave → ⊥ }
    ensures queued { AreCalm heard_moments took_eight gave → ⊥ }

    // its user has closed the receiver's end, or its partner has
    ensures closed { AreOpen (record taking_opened { closing = closing.Sent }) giving_opened → ⊥ }
    ensures heard { AreOpen (record taking_opened { partner_closed = true }) giving_opened → ⊥ }

    // a sender's CLS has gone out, or its partner's came, or its own is due though no bits are queued
    ensures said { AreOpen taking_opened (record draining_end { closing = closing.Sent }) → ⊥ }
    ensures shut { AreOpen taking_opened (record giving_opened { partner_closed = true }) → ⊥ }
    ensures drained { AreOpen taking_opened (record draining_end { bits = [] }) → ⊥ }

    // the bits that are queued may go
    ensures granted { AreOpen taking_opened (left_at 1 8 draining_end) → ⊥ }
{}

/// Worlds that have settled, and worlds that haven't.
pub fn worked_settling()
    ensures fresh { HasSettled (λ s. s) fresh }

    // what a host that is down didn't take doesn't count
    ensures down { HasSettled (λ s. s) (after_crossings (crossing.Down second ∷ crossing.Out (rst first second) ∷ []) down) }

    // an RST is to be said, a message waits, and memory has run out
    ensures speaks { HasSettled (λ s. s) contacting → ⊥ }
    ensures waits { HasSettled (λ s. s) (after_crossings (crossing.Out (rst first second) ∷ []) fresh) → ⊥ }
    ensures halted { HasSettled (λ s. s) halted → ⊥ }
{}
