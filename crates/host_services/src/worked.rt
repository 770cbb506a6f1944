//! What the turns of services come to: one worked row for each reading of a rule that would be wrong. The functions do
//! nothing; each clause is a row.

ghost use Rattle.std.specs.Prelude.{[], ◌∷◌};
ghost use Rattle.host_services.specs.Named.{MayAsk, NoneRefused};
ghost use Rattle.host_services.specs.Turns.{server_begun, services_told, user_begun};
ghost use Rattle.host_services.specs.Worked.{first, fresh};
ghost use Rattle.sockets.specs.declared.request.Request.TheVariants as request;
ghost use Rattle.host_services.specs.Laws.{WorkedBeginnings, WorkedNotices};

/// How services begin, on a host whose program has just come up and with six notices in the book.
#[tactic(auto, unfolding(crate::specs::Turns::server_begun, crate::specs::Turns::user_begun, sockets::specs::Requests::refusal, sockets::specs::Requests::served))]
pub fn worked_beginnings()
    ensures { WorkedBeginnings }
{}

/// What services do at notices.
#[tactic(auto, unfolding(crate::specs::Turns::server_begun, crate::specs::Turns::services_told, icp::specs::Server::server_turn, terminal::specs::Machines::terminal_turn, terminal::specs::Machines::terminal_heard, bit_messages::specs::Octets::octets_of, sockets::specs::Requests::refusal, sockets::specs::Requests::served))]
pub fn worked_notices()
    ensures { WorkedNotices }
{}

/// What services may ask for, and what a program refuses.
#[tactic(auto, unfolding(sockets::specs::Requests::refusal, sockets::specs::Requests::served))]
pub fn worked_requests()
    // a grant within its fields may be asked for, and neither one past them nor a contact
    ensures grant { MayAsk (request.Grant 18 1 4294967295) }
    ensures past { MayAsk (request.Grant 18 1 4294967296) → ⊥ }
    ensures contact { MayAsk (request.Contact first) → ⊥ }

    // each request finds what those before it left: a socket listens once
    ensures listens { NoneRefused fresh.program (request.Listen 7 32 ∷ request.Listen 100 8 ∷ []) }
    ensures twice { NoneRefused fresh.program (request.Listen 7 32 ∷ request.Listen 7 32 ∷ []) → ⊥ }
{}
