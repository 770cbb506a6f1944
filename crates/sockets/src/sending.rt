//! The message that goes out next.

ghost use Rattle.std.specs.Prelude.{◌≡◌, IfErr, IfOk, is_some, MatchResult, true};
ghost use Rattle.host_pairs.specs.Allowed.{IsReadAs};
ghost use Rattle.sockets.specs.Others.{IsReadFrom};
ghost use Rattle.host_pairs.specs.Outgoing.{HasRoom, IsThere, parcel_of};
ghost use Rattle.sockets.specs.Sending as sending;
ghost use Rattle.sockets.specs.declared.fault.NcpFault.TheVariants as fault;

use crate::NcpFault;
use crate::ncp::Ncp;
use crate::peer::Peer;
use host_pairs::Outgoing;
use interface::{Flow, HostMessage, Link, Text};
use std::alloc::AllocError;

impl Ncp {
    /// Returns the message that goes out to a peer.
    fn message_for(&self, peer: &Peer, out: &Outgoing) -> Result<HostMessage, AllocError>
        requires there { IsThere peer.now.pair.entries out.now }
        requires room { HasRoom peer.now.pair.entries peer.now.pair.queue out.now }
        ensures again { IfOk result (λ message. IsReadAs peer.now.pair (parcel_of peer.now.pair.entries out.now) message.text) }
        ensures message { IfOk result (λ message. message ≡ sending.message_for self.now.own peer.now (parcel_of peer.now.pair.entries out.now)) }
    {
        let text = peer.pair.text_for(self.alloc, out)?;
        let Some(text) = Text::new(text) else {
            unreachable!();
        };
        let source = self.own;
        let destination = peer.host;
        let link = Link(peer.pair.link_for(out));
        let flow = Flow {
            source,
            destination,
            link,
        };
        Ok(HostMessage { flow, text })
    }

    /// Returns the message that goes out next; `None` where nothing can go. The peers have their turns in order of
    /// their address octets. Nothing changes until the carrier has taken the message.
    ///
    /// Errors: `OutOfMemory`, which leaves the program as it was.
    #[tactic(auto, unfolding(crate::specs::Sending::next_out))]
    pub fn next_out(&self) -> Result<Option<HostMessage>, NcpFault>
        // a control message is read again as the commands that it was made of
        ensures again { IfOk result (λ message. IsReadFrom (sending.next_in self.now.peers) message) }

        // memory runs out only if there is a message
        ensures memory { IfErr result (λ f. is_some (sending.next_in self.now.peers) ≡ true) }
        ensures message { MatchResult result (λ message. message ≡ sending.next_out self.now) (λ f. f ≡ fault.OutOfMemory) }
    {
        let Some((peer, out)) = self.peers.first() else {
            return Ok(None);
        };
        let Ok(message) = self.message_for(peer, &out) else {
            return Err(NcpFault::OutOfMemory);
        };
        Ok(Some(message))
    }
}
