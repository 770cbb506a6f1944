//! What a network is to its hosts.

ghost use Rattle.std.specs.Prelude.{◌≡◌, reverse, true, false};
ghost use Rattle.interface.specs.Mailboxes.{IsRun};
ghost use Rattle.interface.specs.Calls.{Calls, InOrder, ShowsOffer, ShowsTake, ShowsStep, ShowsRound};
ghost use Rattle.interface.specs.Rest.{RefusesOffer, RestsBeside};

use crate::{Crossing, HostAddr, HostMessage, Inbound, NetEvent};
use thiserror::Error;

/// Why a carrier refuses a call. They are in the order in which a carrier looks for them, except
/// that it looks for `Stopped` before all others.
#[derive(Clone, Copy, Debug, Drop, PartialEq, Eq, Error)]
pub enum CarrierFault {
    /// There is no such host, IMP, line or frame, or the carrier has no such event.
    #[error("NoSuch")]
    NoSuch,
    /// Something that has to be gone first is still alive, outstanding or remembered.
    #[error("StillAlive")]
    StillAlive,
    /// The host, IMP or end of a line is down.
    #[error("IsDown")]
    IsDown,
    /// The host, IMP or end of a line is up.
    #[error("IsUp")]
    IsUp,
    /// A message of the host is still outstanding.
    #[error("Unsettled")]
    Unsettled,
    /// No message of the flow is outstanding.
    #[error("NotOutstanding")]
    NotOutstanding,
    /// The flow has an outstanding message, or an answer that its host hasn't taken.
    #[error("Blocked")]
    Blocked,
    /// No place is left where it would have to go.
    #[error("NoRoom")]
    NoRoom,
    /// Memory ran out in an earlier call, so nothing more is done.
    #[error("Stopped")]
    Stopped,
    /// No memory was left. Every later call is `Stopped`.
    #[error("OutOfMemory")]
    OutOfMemory,
}

/// How often a host takes what came for it in one round at most.
pub const TAKINGS: u8 = 16;

/// A network as its hosts see it: it takes their messages, gives them what came for them, and keeps the
/// log of all crossings, which is a run of the mailboxes.
///
/// A carrier has hosts, a log, and whether running out of memory has stopped it. No call succeeds
/// once the carrier has stopped. A call that succeeds adds the crossings named at the call and no others, and an
/// error adds none. `OutOfMemory` stops the carrier, and any other error leaves hosts, log and stop as they were.
/// A call that can fail answers `Stopped` exactly if the carrier has stopped before.
///
/// When each of the other errors comes, and what the carrier keeps beside its log, each carrier says by
/// its own relations.
pub trait Carrier: Drop {
    /// What the carrier shows (its hosts, its log newest first, and whether it has stopped), and how each of its calls
    /// may go: the carrier before, what it is called with, the answer, and the carrier after.
    ghost calls: { Calls Self };

    /// Offers a message to the network. Its `Out` is put on the log.
    fn offer_out(&mut self, message: HostMessage) -> Result<(), CarrierFault>
        ensures relation { calls.offers self.old message result self.new }
        ensures shown { ShowsOffer (calls.seen self.old) message result (calls.seen self.new) };

    /// Gives a host what came for it: a message whose destination it is, an answer about a flow whose source it is, or
    /// `None`. The message's `In`, or the `Answer`, is put on the log.
    fn take_in(&mut self, host: HostAddr) -> Result<Option<Inbound>, CarrierFault>
        ensures relation { calls.takes self.old host result self.new }
        ensures shown { ShowsTake (calls.seen self.old) host result (calls.seen self.new) };

    /// Lets an event happen inside the network. `HostDown` and `HostUp` put the host's `Down` or `Up` on the log,
    /// `ImpDown` the `Down` of each host of the IMP that was up, in their order, and every other event nothing.
    fn step(&mut self, event: NetEvent) -> Result<(), CarrierFault>
        ensures relation { calls.steps self.old event result self.new }
        ensures shown { ShowsStep (calls.seen self.old) event result (calls.seen self.new) };

    /// Lets one round pass, in which what is inside the network may move on. Nothing is put on the log.
    fn quiet_round(&mut self) -> Result<(), CarrierFault>
        ensures relation { calls.rounds self.old result self.new }
        ensures shown { ShowsRound (calls.seen self.old) result (calls.seen self.new) };

    /// Returns whether it is known that the network rests beside these hosts, for which anything may wait: a quiet round
    /// leaves it as it is, and so does a taking of any other host, which brings nothing. A carrier may answer `false`
    /// though it rests so, and one that doesn't say otherwise does. This takes no memory.
    fn rests_beside(&self, hosts: &[HostAddr]) -> bool
        ensures running { result ≡ true → (calls.seen self.now).stopped ≡ false }
        ensures unchanged { result ≡ true → RestsBeside calls.rounds calls.takes hosts.now self.now }
    {
        false
    }

    /// Returns whether it is known that an offer of this message would be refused, and leave the network as it is. A
    /// carrier may answer `false` though it would refuse, and one that doesn't say otherwise does. This takes no memory.
    fn refuses(&self, message: &HostMessage) -> bool
        ensures unchanged { result ≡ true → RefusesOffer calls.offers self.now message.now }
    {
        false
    }

    /// Returns all crossings so far, oldest first. They are a run of the mailboxes.
    fn log(&self) -> &[Crossing]
        ensures value { result.now ≡ reverse (calls.seen self.now).log }
        ensures run { IsRun (calls.seen self.now).hosts (calls.seen self.now).log };

    /// Returns all hosts of the network, in order of IMP and host.
    fn hosts(&self) -> &[HostAddr]
        ensures value { result.now ≡ (calls.seen self.now).hosts }
        ensures ordered { InOrder (calls.seen self.now).hosts };
}
