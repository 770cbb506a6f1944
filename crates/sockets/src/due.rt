//! What goes to a peer next, as it is kept beside the peers.

ghost use Rattle.std.specs.Prelude.{◌≡◌, IfSome, MatchOption, None, Some};
ghost use Rattle.host_pairs.specs.Outgoing.{HasRoom, IsThere, parcel_of};
ghost use Rattle.host_pairs.specs.Parcels.{next_of};
ghost use Rattle.sockets.specs.Due.{GoesNext, is_due};

use host_pairs::{Outgoing, Pair, is_busy};

/// What goes to a peer next.
///
/// While commands may go it is only known that something goes, since how many of them have room is counted when they go.
#[derive(Clone, Copy)]
pub(crate) enum Due {
    /// Nothing goes.
    Nothing,
    /// Something goes.
    Something,
    /// This goes.
    Known(Outgoing),
}

/// Returns whether commands wait, and the link of commands has no message outstanding. It promises nothing: what goes
/// next is answered either way, and bytes that go while commands have to wait are looked for once.
fn commands_may_go(pair: &Pair) -> bool {
    !pair.queue.as_slice().is_empty() && !is_busy(&pair.busy, 0)
}

impl Due {
    /// Returns whether something goes.
    pub(crate) fn is_due(self) -> bool
        ensures { result ≡ is_due self }
    {
        !matches!(self, Due::Nothing)
    }

    /// Returns what goes out of a pair next.
    pub(crate) fn of(pair: &Pair) -> Due
        ensures { GoesNext pair.now result }
    {
        if commands_may_go(pair) {
            return Due::some_of(pair);
        }
        Due::exact(pair, pair.next())
    }

    /// Returns what goes out of a pair next, as the pair says.
    #[tactic(auto, using(crate::proofs::DueLemmas::known_next))]
    pub(crate) fn exact(pair: &Pair, out: Option<Outgoing>) -> Due
        requires next { MatchOption out (next_of pair.now ≡ None) (λ out. next_of pair.now ≡ Some (parcel_of pair.now.entries out)) }
        requires there { IfSome out (IsThere pair.now.entries) }
        requires room { IfSome out (HasRoom pair.now.entries pair.now.queue) }
        ensures { GoesNext pair.now result }
    {
        match out {
            Some(out) => Due::Known(out),
            None => Due::Nothing,
        }
    }

    /// Returns whether something goes out of a pair next.
    #[tactic(auto, using(crate::proofs::DueLemmas::none_next))]
    fn some_of(pair: &Pair) -> Due
        ensures { GoesNext pair.now result }
    {
        if pair.has_next() {
            Due::Something
        } else {
            Due::Nothing
        }
    }
}
