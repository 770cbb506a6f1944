//! What traces of subnets promise, as laws over their definitions. The functions here do nothing: each clause is the
//! law.

ghost use Rattle.subnet_trace.specs.Laws.{Changes, Elementary, Refused, Rest, Saying, Whole};

/// An event of a script is its elementary events one after another: each of them only, as a line of a script, leaves
/// what the event leaves and prints what it prints. So a calm is a list of calls of the subnet.
pub fn elementary()
    ensures { Elementary }
{}

/// What is traced of an event says all of it, though a calm is traced up to its first still round only: the
/// elementary events that have a line leave what the whole event leaves, and print what it prints. So all rounds
/// after a still one change nothing, and print nothing.
pub fn says_all()
    ensures { Saying }
{}

/// What an elementary event's parts do not name is as before.
pub fn rest()
    ensures { Rest }
{}

/// A refused event changes no part.
pub fn refused()
    ensures { Refused }
{}

/// What `trace::law::changes` says of parts of one network is of the parts of all subnets that replays over one network
/// come to.
pub fn changes()
    ensures { Changes }
{}

/// The texts of all parts determine the whole state, but for the log, in every state that a replay comes to.
pub fn whole()
    ensures { Whole }
{}
