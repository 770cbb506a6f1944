//! What a finished initial connection has joined. The functions here do nothing: each clause is a law.

ghost use Rattle.std.specs.Prelude.{◌≡◌, ℕ, true, All};
ghost use Rattle.interface.specs.Host.{Host};
ghost use Rattle.promise.specs.Book.{Book};
ghost use Rattle.promise.specs.declared.life.Life.{Life};
ghost use Rattle.net_sim.specs.Reports.{IsBacked};
ghost use Rattle.promise.specs.Safe.{Match};
ghost use Rattle.sockets.specs.Worked.{first, second};
ghost use Rattle.world_keeps_connections.specs.WorkedConnections as worked;
ghost use Rattle.promise.specs.Connections.{IsConnected, IsEnd, JoinedBook};
ghost use Rattle.world_keeps_connections.specs.Laws.{InitialConnections};

use interface::Carrier;

/// A finished initial connection pairs the right four sockets, in the book of every world over every carrier: where a server and a
/// user are both done, and their four ends opened with one another and continue, the server's sending end matches the user's receiving
/// one, and the user's sending end the server's receiving one. What makes ends match is that both continue.
///
/// Each report in such a book is so at its place (`AreReported`, which is part of `IsLawful`): a machine that reported Done began with
/// sockets of the right parity, and its host was notified of the openings that make it done.
pub fn initial_connections<C: Carrier>()
    ensures { InitialConnections C.calls }
{}

/// Ends of an initial connection.
pub fn worked_connections()
    // a small book in which one is finished
    ensures joined { IsConnected worked.joined_kept.book first second 100 16 worked.server_receives worked.server_sends worked.user_receives worked.user_sends }

    // both reports are so at their places
    ensures reported { All (IsBacked worked.joined_kept.book.notices) worked.joined_kept.book.reports }

    // each receiving end matches the sending end with which it opened
    ensures pairs { Match worked.joined_kept.book.crossings worked.user_receives worked.server_sends × Match worked.joined_kept.book.crossings worked.server_receives worked.user_sends }
    ensures others { (Match worked.joined_kept.book.crossings worked.user_receives worked.user_sends → ⊥) × (Match worked.joined_kept.book.crossings worked.server_receives worked.server_sends → ⊥) }

    // a life on the same sockets that took its request before the server's went out doesn't match: sockets only don't make partners
    ensures older { Match worked.joined_kept.book.crossings worked.older worked.server_sends → ⊥ }
    ensures unjoined { JoinedBook worked.unjoined_book → ⊥ }

    // nor does one at the server that took its request before the user's went out
    ensures unserved { JoinedBook worked.unserved_book → ⊥ }

    // a life that has ended is none, nor is one of another socket, or one that opened with another
    ensures over { (book : Book) (a b : Host) (own other : ℕ) (x : Life) → x.ended ≡ true → IsEnd book a own b other x → ⊥ }
    ensures socket { (book : Book) (a b : Host) (other : ℕ) (x : Life) → x.socket ≡ 101 → IsEnd book a 100 b other x → ⊥ }
    ensures foreign { (book : Book) (a b : Host) (own : ℕ) (x : Life) → x.foreign ≡ 18 → IsEnd book a own b 19 x → ⊥ }
{}
