//! Worked examples of worlds in which memory lasts, and of which texts say all. The functions here do nothing: each
//! clause is a row, computed over the definitions.

ghost use Rattle.std.specs.Prelude.{◌≡◌, [], ◌∷◌, None, Some, replicate, true};
ghost use Rattle.host_services.specs.declared.service.Service.TheVariants as service;
ghost use Rattle.icp.specs.Server.{opening_server};
ghost use Rattle.icp.specs.User.{opening_user};
ghost use Rattle.interface.specs.declared.crossing.Crossing.TheVariants as crossing;
ghost use Rattle.net_sim.specs.World.{WorldState};
ghost use Rattle.sockets.specs.Pairs.{opening_state};
ghost use Rattle.sockets.specs.Worked.{first, second};
ghost use Rattle.terminal.specs.Machines.{opening_terminal};
ghost use Rattle.world_trace.specs.Lasting.{Lasts, SeatLasts, ServicesLast, is_spent};
ghost use Rattle.world_trace.specs.Worked.{long_seat, long_services, spent_echo, spent_seat, spent_services};
ghost use Rattle.world_trace.specs.Reached.{IsReached, IsSaid};
ghost use Rattle.world_trace.specs.Told.{AreNumbersTold, IsWorldTold};

use interface::Carrier;

/// Programs and services that ran out of memory, or are at another host.
pub fn worked_lasting()
    ensures up { SeatLasts (record { host = first; program = Some (opening_state first) }) }
    ensures down { SeatLasts (record { host = first; program = None }) }

    // the program of another host, and one that ran out of memory
    ensures other { SeatLasts (record { host = first; program = Some (opening_state second) }) → ⊥ }
    ensures spent { SeatLasts spent_seat → ⊥ }

    // each kind of service may run out of it
    ensures server { is_spent (service.Server (record (opening_server 1 100) { spent = true })) ≡ true }
    ensures user { is_spent (service.User (record (opening_user first 1 100) { spent = true })) ≡ true }
    ensures echo { is_spent spent_echo ≡ true }
    ensures terminal { is_spent (service.Terminal (record (opening_terminal 100 101) { spent = true })) ≡ true }
    ensures services { ServicesLast spent_services → ⊥ }
{}

/// Worlds of which texts do not say all.
pub fn worked_told<C: Carrier>()
    // a program or a service ran out of memory
    ensures program { (w : WorldState C) → Lasts (record w { seats = spent_seat ∷ [] }) → ⊥ }
    ensures service { (w : WorldState C) → Lasts (record w { services = spent_services ∷ [] }) → ⊥ }

    // memory ran out in the world, or in one of its programs
    ensures stopped { (w : WorldState C) → IsWorldTold (record w { stopped = true }) → ⊥ }
    ensures lasting { (w : WorldState C) → IsWorldTold (record w { seats = spent_seat ∷ [] }) → ⊥ }

    // a number has 65 digits: a socket that listens, or one to which typed lines go
    ensures listening { (w : WorldState C) → AreNumbersTold (record w { seats = long_seat ∷ [] }) → ⊥ }
    ensures typing { (w : WorldState C) → AreNumbersTold (record w { services = long_services ∷ [] }) → ⊥ }
    ensures numbers { (w : WorldState C) → IsWorldTold (record w { services = long_services ∷ [] }) → ⊥ }

    // no replay comes to a world that has stopped
    ensures reached { (opening : C) (w : WorldState C) → IsReached C.calls opening (record w { stopped = true }) → ⊥ }
    ensures long { (opening : C) (w : WorldState C) → IsReached C.calls opening (record w { services = long_services ∷ [] }) → ⊥ }
{}

/// Messages that go out. Of all else that crosses nothing is asked.
pub fn worked_said()
    ensures down { IsSaid (crossing.Down (record { imp = 64; host = 0 })) }

    // a host can be named, and a text has at most 8063 bits
    ensures named { IsSaid (crossing.Out (record { flow = record { source = first; destination = record { imp = 64; host = 0 }; link = record { 0 = 0 } }; text = [] })) → ⊥ }
    ensures long { IsSaid (crossing.Out (record { flow = record { source = first; destination = second; link = record { 0 = 0 } }; text = replicate 8064 true })) → ⊥ }
{}
