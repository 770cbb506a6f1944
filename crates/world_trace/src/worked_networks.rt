//! Worked examples of worlds' carriers as raw networks, and of what of a world is other than before. The functions here
//! do nothing: each clause is a row, computed over the definitions.

ghost use Rattle.std.specs.Prelude.{◌∷◌, []};
ghost use Rattle.interface.specs.declared.event.NetEvent.TheVariants as net;
ghost use Rattle.net_sim.specs.Worked.{down, fresh};
ghost use Rattle.net_sim.specs.declared.event.Event.TheVariants as event;
ghost use Rattle.replay.specs.Worked.{counting};
ghost use Rattle.world_replay.specs.Worked.{after, booked, typing};
ghost use Rattle.world_script.specs.declared.event.WorldEvent.TheVariants.{Happen};
ghost use Rattle.world_trace.specs.Carriers.{IsRawNetwork};
ghost use Rattle.world_trace.specs.Traces.{IsUnchanged};
ghost use Rattle.world_trace.specs.Worked.{counting_rounds, crossing_always};

/// Which worlds events of a raw network lead to, over carriers that count their calls and have no hosts.
pub fn worked_networks()
    // an event of the network is itself, and a quiet round is such events
    ensures event { IsRawNetwork counting 0 (Happen (event.Net (net.Resend 1)) ∷ []) (after 1) }
    ensures quiet { IsRawNetwork counting 0 (Happen event.Quiet ∷ []) (after 1) }

    // a script that makes no call leads nowhere, even if events of the network would
    ensures stays { ¬ (IsRawNetwork counting 0 [] (after 1)) }

    // nor does a quiet round where no event of one leads there
    ensures unmoved { ¬ (IsRawNetwork counting_rounds 0 (Happen event.Quiet ∷ []) (after 1)) }

    // and what crosses by these events is in the book
    ensures crossed { ¬ (IsRawNetwork crossing_always 0 (Happen event.Quiet ∷ []) (after 1)) }
{}

/// What of a world is other than before.
pub fn worked_unchanged()
    // what is kept isn't looked at
    ensures kept { IsUnchanged (λ carrier. record { fixed = []; flows = [] }) fresh (booked fresh) }

    // a part of the carrier, a program, and a service are
    ensures parts { ¬ (IsUnchanged (λ calls. record { fixed = (calls ∷ []) ∷ []; flows = [] }) (after 3) (after 4)) }
    ensures programs { ¬ (IsUnchanged (λ carrier. record { fixed = []; flows = [] }) fresh down) }
    ensures services { ¬ (IsUnchanged (λ carrier. record { fixed = []; flows = [] }) fresh typing) }
{}
