//! What it means that an event happens, and that memory runs out in it.
//!
//! The functions here do nothing: each clause is a row, of whatever carrier.

ghost use Rattle.world_replay.specs.Laws.{WorkedEnds};

use interface::Carrier;

/// Memory has run out in no event that happens, in no calm and in none of its rounds; and it has in one at which a
/// replay ends.
pub fn worked_ends<C: Carrier>()
    ensures { WorkedEnds C.calls }
{}
