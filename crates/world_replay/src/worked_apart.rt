//! Worked examples of what an event leaves as it was. The functions here do nothing: each clause is a row, computed
//! over the definitions.

ghost use Rattle.std.specs.Prelude.{[], ◌∷◌};
ghost use Rattle.net_sim.specs.Worked.{busy, down, fresh};
ghost use Rattle.net_sim.specs.World.{with_carrier};
ghost use Rattle.net_sim.specs.declared.event.Event.TheVariants as event;
ghost use Rattle.sockets.specs.Worked.{first, second, third};
ghost use Rattle.sockets.specs.declared.request.Request.TheVariants as request;
ghost use Rattle.world_replay.specs.Apart.{IsAt, OthersStay, SameHosts};
ghost use Rattle.world_replay.specs.Worked.{booked, one_more_seat, one_more_service, seats_turned_round, services_turned_round, typing, went};

/// Where an event is.
pub fn worked_places()
    // at one host, and at no other
    ensures taking { IsAt second (event.Take second) }
    ensures another { ¬ (IsAt first (event.Take second)) }
    ensures offering { ¬ (IsAt first (event.Offer second)) }
    ensures asking { ¬ (IsAt first (event.Ask second (request.Contact first))) }
    ensures serving { ¬ (IsAt first (event.Server second 1 32)) }
    ensures typing { ¬ (IsAt first (event.Typed second [])) }

    // also where it is about two: a user begins at its own host
    ensures user { IsAt first (event.User first second 1 32) }
    ensures user_of { ¬ (IsAt second (event.User first second 1 32)) }

    // a quiet round is at none
    ensures nowhere { ¬ (IsAt first event.Quiet) }
{}

/// What an event at a host leaves of the others.
pub fn worked_others()
    // its own program and services may change, and the book and the carrier
    ensures own { OthersStay first fresh busy }
    ensures own_services { OthersStay first fresh typing }
    ensures book { OthersStay first fresh (booked fresh) }
    ensures carrier { OthersStay first fresh (with_carrier down.carrier fresh) }

    // those of another may not
    ensures another { ¬ (OthersStay second fresh busy) }
    ensures another_stops { ¬ (OthersStay first fresh down) }
    ensures another_services { ¬ (OthersStay second fresh typing) }

    // nor where they are, nor how many there are
    ensures places { ¬ (OthersStay third fresh seats_turned_round) }
    ensures service_places { ¬ (OthersStay first fresh services_turned_round) }
    ensures one_more { ¬ (OthersStay first fresh one_more_seat) }
    ensures one_more_service { ¬ (OthersStay first fresh one_more_service) }
{}

/// What an event leaves that concerns no host.
pub fn worked_same()
    // the carrier may be another
    ensures carrier { SameHosts fresh (with_carrier down.carrier fresh) }

    // programs, services and the book may not
    ensures program { ¬ (SameHosts fresh (record fresh { seats = busy.seats })) }
    ensures services { ¬ (SameHosts fresh typing) }
    ensures book { ¬ (SameHosts fresh (booked fresh)) }
{}
