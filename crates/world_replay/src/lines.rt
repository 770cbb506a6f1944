//! The lines for what becomes of initial connections and for lives, without their ends.

ghost use Rattle.std.specs.Prelude.{◌≡◌, Some};
ghost use Rattle.world_replay.specs.Printed.{reason_name};

use icp::{Failure, Outcome};
use interface::HostAddr;
use net_sim::Life;
use std::fmt;

/// The line for what became of a server or of a user of an initial connection.
#[derive(Drop)]
pub(crate) struct OutcomeLine<'a> {
    /// Which of the two it was.
    pub who: &'static str,
    /// Its host.
    pub host: &'a HostAddr,
    /// What became of it.
    pub outcome: &'a Outcome,
}

/// Prints the own sockets, the one that receives first, or the reason.
impl fmt::Display for OutcomeLine<'_> {
    ghost use Rattle.world_replay.specs.Printed.{outcome_text};

    ghost output = { λ line. Some (outcome_text line.who.now line.host.now line.outcome.now) };

    fn fmt<W: fmt::Write>(&self, f: &mut fmt::Formatter<W>) -> fmt::Result {
        let who = self.who;
        let host = self.host;
        match self.outcome {
            Outcome::Done { receive, send } => {
                let receive = receive.number();
                let send = send.number();
                write!(f, "done {who} {host} {receive} {send}")
            }
            Outcome::Failed(failure) => {
                let reason = reason_name(failure);
                write!(f, "failed {who} {host} {reason}")
            }
        }
    }
}

/// Returns the word for why an initial connection failed.
fn reason_name(failure: &Failure) -> &'static str
    ensures { result.now ≡ reason_name failure.now }
{
    match failure {
        Failure::Refused => "refused",
        Failure::Reset => "reset",
        Failure::Stranger => "stranger",
        Failure::BadSocket => "badsocket",
        Failure::Local(_) => "local",
    }
}

/// The line for a life of a connection, without its end, and its last word, for how far the life is.
#[derive(Drop)]
pub struct LifeLine<'a>(pub &'a Life, pub &'a str);

/// Prints both ends, the places of their requests in the log, the kind, what was carried, granted and returned, and the
/// last word.
impl fmt::Display for LifeLine<'_> {
    ghost use Rattle.world_replay.specs.Printed.{worded_life};

    ghost output = { λ line. Some (worded_life line.0.now line.1.now) };

    fn fmt<W: fmt::Write>(&self, f: &mut fmt::Formatter<W>) -> fmt::Result {
        let Life {
            host,
            socket,
            peer,
            foreign,
            own_stamp,
            partner_stamp,
            bits,
            messages,
            granted,
            returned,
            ended: _,
        } = self.0;
        let bits = bits.len();
        let kind = if *socket % 2 == 0 { "receive" } else { "send" };
        let state = self.1;
        write!(
            f,
            "life {host} {socket} {peer} {foreign} {own_stamp} {partner_stamp} {kind} {messages} {bits} {} {} {} {} {state}",
            granted.messages, granted.bits, returned.messages, returned.bits
        )
    }
}
