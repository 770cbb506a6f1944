//! What two programs say to one another on a link. The functions here do nothing: each clause is a law.

ghost use Rattle.pair_keeps_streams.specs.Laws.{WorkedWords};

/// The words of commands. Here the number of a connection is its speaker's own socket, and how many of its sockets' are over.
pub fn worked_words()
    ensures { WorkedWords }
{}
