//! What users know. The functions here do nothing: each clause is a law.

ghost use Rattle.std.specs.Prelude.{◌≡◌, false, [], ◌∷◌, map};
ghost use Rattle.promise.specs.declared.life.Life as book;
ghost use Rattle.net_sim.specs.Told.{kept_in};
ghost use Rattle.net_sim.specs.WorkedMoments.{connected};
ghost use Rattle.world_keeps_connections.specs.Users.{AreOpposite};
ghost use Rattle.world_keeps_connections.specs.Laws.{Books, Lives, Users, WorkedUsers};

use interface::Carrier;

/// The users of two hosts, over any list of moments of a world: all that crosses between their programs, and what they ask for.
pub fn users()
    ensures { Users }
{}

/// The lives of the book that continue, over any list of moments of a world.
pub fn lives()
    ensures { Lives }
{}

/// The lives in the book of a world that continue, over any carrier.
pub fn books<C: Carrier>()
    ensures { Books C.calls }
{}

/// What users know in a small world: the first host's socket 16 is connected with the second's 33, by an RTS that goes out at place 6 and an STR
/// that goes out at place 8.
#[tactic(auto, unfolding(bit_messages::specs::Octets::octets_of, ncp_control::specs::Packing::packed_count, ncp_control::specs::Reading::read_of, ncp_control::specs::Reading::command_of, host_pairs::specs::Control::orders_of, sockets::specs::Accepting::accepted, sockets::specs::Requests::refusal, sockets::specs::Requests::served, sockets::specs::Requests::served_notices, sockets::specs::Sending::next_out, sockets::specs::Sending::offered))]
pub fn worked_users()
    ensures { WorkedUsers }
{}

/// Lives at two ends: the lives of a small book.
pub fn worked_lives()
    // the first host's life of socket 16 and the second's of socket 33 are at the two ends of the same sockets, and both continue
    ensures both { map (λ x. x.ended) (kept_in connected).book.lives ≡ false ∷ false ∷ [] }
    ensures opposite { (x y : book.Life) → (kept_in connected).book.lives ≡ x ∷ y ∷ [] → AreOpposite x y }

    // a life isn't at the other end of itself, nor of one of other sockets
    ensures itself { (x : book.Life) → x.socket ≡ 16 → x.foreign ≡ 33 → AreOpposite x x → ⊥ }
    ensures others { (x y : book.Life) → x.socket ≡ 16 → y.foreign ≡ 18 → AreOpposite x y → ⊥ }
{}
