//! What two hosts say and hear of their connections one way, and the lives of a book. The functions here do nothing: each clause
//! is a law.

ghost use Rattle.world_keeps_pairing.specs.Laws.Worked.{WorkedLives, WorkedSteps};
ghost use Rattle.world_keeps_pairing.specs.Laws.Worlds.{Books, Dialogues, Lives, Programs};

use interface::Carrier;

/// The steps of two hosts, over any list of events of the law of resets.
pub fn dialogues()
    ensures { Dialogues }
{}

/// The programs of two hosts, over any list of moments of a world: all that crosses between them, and what their users ask for.
pub fn programs()
    ensures { Programs }
{}

/// The lives of a book, over any list of moments of a world.
pub fn lives()
    ensures { Lives }
{}

/// The lives in the book of a world, over any carrier.
pub fn books<C: Carrier>()
    ensures { Books C.calls }
{}

/// Lives of a book, as the law describes them.
#[tactic(auto, unfolding(bit_messages::specs::Octets::octets_of, ncp_control::specs::Packing::packed_count, ncp_control::specs::Reading::read_of, ncp_control::specs::Reading::command_of, host_pairs::specs::Control::orders_of, sockets::specs::Accepting::accepted, sockets::specs::Requests::refusal, sockets::specs::Requests::served, sockets::specs::Requests::served_notices, sockets::specs::Sending::next_out, sockets::specs::Sending::offered))]
pub fn worked_lives()
    ensures { WorkedLives }
{}

/// Words and steps: host `one` asks host `two` for a connection, and closes it, in one message.
#[tactic(auto, using(crate::proofs::Rows::row_said, crate::proofs::Rows::row_heard, crate::proofs::Rows::row_origin))]
pub fn worked_steps()
    ensures { WorkedSteps }
{}
