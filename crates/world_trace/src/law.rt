//! What traces of worlds promise, as laws over their definitions. The functions here do nothing: each clause is the
//! law.

ghost use Rattle.world_trace.specs.Carriers.{PlainCarriers, SubnetCarriers};
ghost use Rattle.world_trace.specs.Reached.{PlainStates, SubnetStates};
ghost use Rattle.world_trace.specs.Laws.{CalmRound, Whole};

use interface::Carrier;

/// The texts of programs and services say all of a world but its carrier, which has parts of its own, and what is kept:
/// two worlds with the same texts differ in nothing else. This is so of each world to which a replay comes, if its
/// numbers are not too long for a decimal: of a world at hand [`crate::says_all`] says that they are not.
pub fn whole<C: Carrier>()
    ensures { Whole C.calls }
{}

/// The events of a round that a trace has, with those that have no line, are a calm of one round as a replay lets it
/// happen.
pub fn calm<C: Carrier>()
    ensures { CalmRound C.calls }
{}

/// The carrier of a world is a raw network, to which events lead from its opening: the calls that its script makes by
/// what crosses. Its log is that of the book.
pub fn carriers()
    ensures plain { PlainCarriers }
    ensures subnets { SubnetCarriers }
{}

/// The texts of all parts of a carrier, of programs and of services say all of a world to which a replay comes, but its
/// log and what is kept: two worlds over one network with the same texts are in the same state.
pub fn states()
    ensures plain { PlainStates }
    ensures subnets { SubnetStates }
{
    trace::law::whole();
    subnet_trace::law::whole();
}
