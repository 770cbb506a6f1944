//! What the definitions of the two machines come to: one worked row for each reading of a rule that would be
//! wrong. The functions do nothing; each clause is a row.

ghost use Rattle.std.specs.Prelude.{◌≡◌, true, false, [], ◌∷◌, None, Some};
ghost use Rattle.bit_messages.specs.Octets.{bits_of};
ghost use Rattle.icp.specs.Server.{server_requests};
ghost use Rattle.icp.specs.Sockets.{server_fault, socket_bits, user_fault};
ghost use Rattle.icp.specs.User.{opening_user, user_reads, user_requests};
ghost use Rattle.icp.specs.Worked.{second};
ghost use Rattle.icp.specs.declared.fault.StartFault.TheVariants as fault;
ghost use Rattle.host_pairs.specs.declared.notice.Notice.TheVariants as notice;
ghost use Rattle.sockets.specs.declared.request.Request.TheVariants as request;
ghost use Rattle.icp.specs.Laws.{WorkedServer, WorkedUser, WorkedSaying};

/// How the two begin.
pub fn worked_starts()
    // the server listens on all three sockets, the user asks one
    ensures server { server_requests 7 100 ≡ request.Listen 7 32 ∷ request.Listen 100 8 ∷ request.Listen 101 8 ∷ [] }
    ensures user { user_requests second 7 16 ≡ request.OpenReceive second 16 7 ∷ [] }

    // a server listens on an odd socket with an even base; its socket above the base may be the one that listens
    ensures server_sockets { server_fault 7 100 ≡ None }
    ensures even_listen { server_fault 8 100 ≡ Some fault.BadSocket }
    ensures odd_base { server_fault 7 101 ≡ Some fault.BadSocket }
    ensures same_socket { server_fault 101 100 ≡ None }

    // a user has an even socket, and the one three above it is the last there is
    ensures user_sockets { user_fault 7 16 ≡ None }
    ensures even_server { user_fault 8 16 ≡ Some fault.BadSocket }
    ensures odd_own { user_fault 7 17 ≡ Some fault.BadSocket }
    ensures last_own { user_fault 7 4294967292 ≡ None }
    ensures past_the_last { user_fault 7 4294967294 ≡ Some fault.BadSocket }

    // a base is said in 32 bits, the most significant first
    ensures said { socket_bits 16909060 ≡ bits_of (1 ∷ 2 ∷ 3 ∷ 4 ∷ []) }
{}

/// What a server does.
#[tactic(auto, unfolding(crate::specs::Server::server_turn))]
pub fn worked_server()
    ensures { WorkedServer }
{}

/// What a user does.
#[tactic(auto, unfolding(crate::specs::User::user_turn, bit_messages::specs::Octets::octets_of))]
pub fn worked_user()
    ensures { WorkedUser }
{}

/// When a user keeps bits of the base.
pub fn worked_reading()
    // one bit is enough, where it waits for the base
    ensures reads { user_reads (record (opening_user second 7 16) { opened = true }) (notice.Arrived 16 (true ∷ [])) ≡ true }

    // not before its first connection is open, nor once the base is known
    ensures before { user_reads (opening_user second 7 16) (notice.Arrived 16 (true ∷ [])) ≡ false }
    ensures after { user_reads (record (opening_user second 7 16) { opened = true; base = Some 100 }) (notice.Arrived 16 (true ∷ [])) ≡ false }

    // neither bits on another socket, nor a message without bits, nor anything that isn't bits
    ensures others_bits { user_reads (record (opening_user second 7 16) { opened = true }) (notice.Arrived 18 (true ∷ [])) ≡ false }
    ensures no_bits { user_reads (record (opening_user second 7 16) { opened = true }) (notice.Arrived 16 []) ≡ false }
    ensures no_arrival { user_reads (record (opening_user second 7 16) { opened = true }) (notice.Interrupt 16) ≡ false }
{}

/// What a server says to a user.
pub fn worked_saying()
    ensures { WorkedSaying }
{}
