//! A small world with a stranger.

ghost use Rattle.std.specs.Prelude.{◌≡◌, ℕ, [], ◌∷◌, None, Some, Ok, map};
ghost use Rattle.interface.specs.Rest.{RestsBeside};
ghost use Rattle.interface.specs.declared.carrier.CarrierFault.TheVariants as fault;
ghost use Rattle.net_sim.specs.World.{NoProgram, HasProgram, CalmGives, Carrier, Ask, Offer, Out, up_in};
ghost use Rattle.net_sim.specs.Steps.{absent_in, opening_mixed};
ghost use Rattle.net_sim.specs.Rest.{IsAtRest};
ghost use Rattle.net_sim.specs.Worked.{any_carrier, message, spent_carrier};
ghost use Rattle.net_sim.specs.WorkedStrangers.{IsCalmRefused, IsMadeNaming, IsRefusedNaming, IsRefusedThere, IsWritten};
ghost use Rattle.net_sim.specs.WorkedStrangers.{beside_nobody, beside_third, fifth, fourth, spent, three_seen};
ghost use Rattle.net_sim.specs.WorkedStrangers.{waiting_carrier};
ghost use Rattle.sockets.specs.Worked.{first, second, third};
ghost use Rattle.sockets.specs.declared.request.Request.TheVariants as request;

/// Who has a seat, and what is refused by whom.
pub fn worked_strangers()
    // a stranger has no seat, and who isn't in the network isn't a stranger
    ensures seats { map (λ s. s.host) beside_third.seats ≡ first ∷ second ∷ [] }
    ensures services { map (λ s. s.host) beside_third.services ≡ first ∷ second ∷ [] }
    ensures strangers { (opening_mixed any_carrier three_seen (fourth ∷ third ∷ [])).strangers ≡ third ∷ [] }

    // the first host that is named and isn't there is refused, and none where all are; hosts are named in any order, and twice
    ensures unknown { absent_in three_seen.hosts (third ∷ fourth ∷ fifth ∷ []) ≡ Some fourth }
    ensures known { absent_in three_seen.hosts (third ∷ first ∷ third ∷ []) ≡ None }
    ensures repeated { (opening_mixed any_carrier three_seen (third ∷ first ∷ third ∷ [])).strangers ≡ first ∷ third ∷ [] }
    ensures refused { IsRefusedNaming (third ∷ fourth ∷ fifth ∷ []) fourth }
    ensures made { IsMadeNaming (third ∷ []) beside_third }

    // a stranger's user and program are asked for nothing, and a host that isn't there isn't a stranger
    ensures asked { IsRefusedThere beside_third (Ask third (request.Echo second 65)) NoProgram }
    ensures offered { IsRefusedThere beside_third (Offer third) NoProgram }
    ensures absent { IsRefusedThere beside_third (Offer fourth) (Carrier fault.NoSuch) }

    // no host speaks for another that runs the program, and none for one that isn't there
    ensures program { IsRefusedThere beside_third (Out (message first second 2)) HasProgram }
    ensures nobody { IsRefusedThere beside_third (Out (message fourth second 2)) (Carrier fault.NoSuch) }

    // after memory has run out nothing comes before Stopped
    ensures stopped { IsRefusedThere spent (Out (message first second 2)) (Carrier fault.Stopped) }
    ensures stopped_asking { IsRefusedThere spent (Offer third) (Carrier fault.Stopped) }

    ensures written { IsWritten }
{}

/// Who has a turn in a calm: hosts with programs, and no stranger.
pub fn worked_calm()
    ensures turns { up_in beside_third.seats ≡ first ∷ second ∷ [] }
    ensures everybody { up_in beside_nobody.seats ≡ first ∷ second ∷ third ∷ [] }

    // what waits for a stranger stays there, and changes nothing for the others; a host with a program takes it
    ensures rests { IsAtRest waiting_carrier beside_third }
    ensures stays { (rounds : ℕ) → CalmGives waiting_carrier rounds beside_third (Ok tt) beside_third }
    ensures comes { IsAtRest waiting_carrier beside_nobody → ⊥ }

    // a carrier rests beside the host for which something waits, and not beside others; nor beside any while memory runs out
    ensures beside { RestsBeside waiting_carrier.rounds waiting_carrier.takes (third ∷ []) three_seen }
    ensures nobody { RestsBeside waiting_carrier.rounds waiting_carrier.takes [] three_seen → ⊥ }
    ensures others { RestsBeside waiting_carrier.rounds waiting_carrier.takes (first ∷ second ∷ []) three_seen → ⊥ }
    ensures spent { RestsBeside spent_carrier.rounds spent_carrier.takes (first ∷ second ∷ third ∷ []) three_seen → ⊥ }

    // after memory has run out
    ensures stopped { IsCalmRefused spent 1 (Carrier fault.Stopped) }
{}
