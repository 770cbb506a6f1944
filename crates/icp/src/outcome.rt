//! How a machine ends, and what it says of a notice.

ghost use Rattle.std.specs.Prelude.{◌≡◌, [], true, None, Some};
ghost use Rattle.icp.specs.Outcomes.{local_outcome};
ghost use Rattle.icp.specs.declared.outcome.Outcome.TheVariants as outcome;

use ncp_control::{ReceiveSocket, SendSocket};
use sockets::{NcpFault, Request};
use std::alloc::Global;
use thiserror::Error;

/// Why an initial connection failed.
#[derive(Clone, Copy, Debug, Drop, PartialEq, Eq, Error)]
pub enum Failure {
    /// A connection that was asked for has ended before it could be used.
    #[error("refused")]
    Refused,
    /// All connections with the other host are gone.
    #[error("reset")]
    Reset,
    /// The server's two sockets were opened, and not by the user who was notified of them.
    #[error("stranger")]
    Stranger,
    /// The server said an odd base.
    #[error("bad socket")]
    BadSocket,
    /// The own host's program refused a request.
    #[error("local")]
    Local(NcpFault),
}

/// The end of an initial connection.
#[derive(Clone, Copy, Debug, PartialEq, Eq)]
pub enum Outcome {
    /// Both connections are open.
    Done {
        /// The own socket that receives.
        receive: ReceiveSocket,
        /// The own socket that sends.
        send: SendSocket,
    },
    /// There will be none.
    Failed(Failure),
}

/// What a machine says of a notice.
#[derive(Debug, Drop)]
pub struct Said {
    /// What it asks for, in order.
    pub requests: Vec<Request>,
    /// Its outcome, where it has come to its end.
    pub outcome: Option<Outcome>,
}

impl Said {
    /// Returns an outcome that asks for nothing.
    pub(crate) fn only(alloc: Global, outcome: Option<Outcome>) -> Said
        ensures requests { result.requests.items ≡ [] }
        ensures outcome { result.outcome ≡ outcome }
    {
        Said {
            requests: Vec::new(alloc),
            outcome,
        }
    }

    /// Returns a failure, which asks for nothing.
    pub(crate) fn failed(alloc: Global, failure: Failure) -> Said
        ensures requests { result.requests.items ≡ [] }
        ensures outcome { result.outcome ≡ Some (outcome.Failed failure) }
    {
        Said::only(alloc, Some(Outcome::Failed(failure)))
    }
}

/// Returns what comes of a refused request: a machine without an outcome fails with `Local`.
pub(crate) fn local(over: &mut bool, fault: NcpFault) -> Option<Outcome>
    ensures over { over.new ≡ true }
    ensures outcome { result ≡ local_outcome over.old fault }
{
    if *over {
        return None;
    }
    *over = true;
    Some(Outcome::Failed(Failure::Local(fault)))
}
