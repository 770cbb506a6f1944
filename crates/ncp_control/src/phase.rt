//! How far the reset of a pair of hosts has come, as one of the two sees it.

ghost use Rattle.std.specs.Prelude.{◌≡◌};
ghost use Rattle.ncp_control.specs.Phases as phases;

/// How far this host's reset with a peer has come (NIC 8246, RST and RRP).
#[derive(Clone, Copy, Debug, PartialEq, Eq)]
pub enum Phase {
    /// Nothing is asked for, and nothing may be said but the answer to an RST.
    Closed,
    /// A contact is asked for, and its RST hasn't gone out.
    Want,
    /// The RST is in transit, and what became of it isn't known.
    Gone {
        /// Whether an RRP came in the meantime. It may belong to an older RST.
        early: bool,
    },
    /// The peer has taken the RST, and its RRP is awaited.
    Heard,
    /// The two hosts may speak of connections.
    Ready,
}

impl Phase {
    /// Returns whether the two hosts may speak of connections.
    pub fn is_ready(self) -> bool
        ensures { result ≡ phases.is_ready self }
    {
        matches!(self, Phase::Ready)
    }

    /// Returns whether an RST waits to go out.
    pub fn is_want(self) -> bool
        ensures { result ≡ phases.is_want self }
    {
        matches!(self, Phase::Want)
    }

    /// Returns the phase after an RST of the peer.
    pub fn after_reset(self) -> Phase
        ensures { result ≡ phases.reset_phase self }
    {
        match self {
            Phase::Closed => Phase::Ready,
            other => other,
        }
    }

    /// Returns the phase after an RRP of the peer.
    pub fn after_reply(self) -> Phase
        ensures { result ≡ phases.reply_phase self }
    {
        match self {
            Phase::Gone { .. } => Phase::Gone { early: true },
            Phase::Heard => Phase::Ready,
            other => other,
        }
    }

    /// Returns the phase after an RFNM on a link. The RST went out on link 0.
    pub fn after_rfnm(self, link: u8) -> Phase
        ensures { result ≡ phases.rfnm_phase link self }
    {
        match self {
            Phase::Gone { early } if link == 0 => { if early { Phase::Want } else { Phase::Heard } }
            other => other,
        }
    }
}
