//! Laws of the two machines, over their definitions. The functions here do nothing: each clause is the law.

ghost use Rattle.std.specs.Prelude.{◌≡◌, ℕ, ◌<◌, ◌^◌};
ghost use Rattle.icp.specs.Sockets.{socket_bits, socket_of};
ghost use Rattle.icp.specs.Laws.{Served, Connected};

/// A base is read as it was said.
pub fn said()
    ensures { (n : ℕ) → n < 2 ^ 32 → socket_of (socket_bits n) ≡ n }
{}

/// What the outcome of a server says, whatever notices it got.
pub fn served()
    ensures { Served }
{}

/// What the outcome of a user says, whatever notices it got.
pub fn connected()
    ensures { Connected }
{}
