//! Worlds that rest, and worlds that don't. The functions here do nothing: each clause is a row.

ghost use Rattle.net_sim.specs.Rest.{IsAtRest};
ghost use Rattle.net_sim.specs.Silent.{AllSilent};
ghost use Rattle.net_sim.specs.Worked.{accepting_carrier, any_carrier, busy, fresh, giving_carrier, halted, spent_carrier};

/// Which worlds rest.
pub fn worked_rest()
    // where no host has anything to say, and where what one has to say may be refused
    ensures silent { IsAtRest accepting_carrier fresh }
    ensures refused { IsAtRest any_carrier busy }

    // what a host has to say is taken, and something comes for a host
    ensures taken { IsAtRest accepting_carrier busy → ⊥ }
    ensures comes { IsAtRest giving_carrier fresh → ⊥ }

    // memory runs out in a quiet round, or has run out
    ensures spent { IsAtRest spent_carrier fresh → ⊥ }
    ensures halted { IsAtRest any_carrier halted → ⊥ }
{}

/// Which worlds are silent: one of two hosts to which nobody has spoken, and none whose user has asked for a contact.
pub fn worked_silence()
    ensures silent { AllSilent fresh.seats }
    ensures speaks { AllSilent busy.seats → ⊥ }
{}
