//! Calls that would give nothing and change nothing, and so need not be made.

ghost use Rattle.std.specs.Prelude.{◌≡◌, ◌↔◌, ◌<◌, ◌==◌, ◌∷◌, [], is_some, IfSome, length, None, Some, true, false, slice_index_or};
ghost use Rattle.imp_channel.specs.Line.{acknowledgement};
ghost use Rattle.routing.specs.RouteTable.{vector_of};
ghost use Rattle.imp_node.specs.Arrival.{from_line, ignored};
ghost use Rattle.imp_node.specs.Resting as resting;
ghost use Rattle.imp_node.specs.State.{port_at};
ghost use Rattle.imp_node.specs.Inside.Arriving.{with_acks};
ghost use Rattle.imp_node.specs.Taking.{to_host, to_host_refusal, next_for};

use crate::Imp;
use imp_channel::{ACKS, Content, Frame};
use routing::is_heard;

impl Imp {
    /// Returns whether a host is up, nothing waits for it, and no packet waits in the store. A taking of this host then
    /// is not refused, gives nothing and changes nothing. This takes no memory.
    #[tactic(auto, using(crate::proofs::RestingLemmas::taking_rests))]
    pub fn has_nothing_for(&self, host: u8) -> bool
        ensures answer { result ≡ resting.has_nothing_for self.now host }
        ensures accepted { result ≡ true → to_host_refusal self.now host ≡ None }
        ensures nothing { result ≡ true → next_for self.now host ≡ None }
        ensures unchanged { result ≡ true → to_host self.now host ≡ ignored self.now }
    {
        self.is_up(host) && !self.hosts[host as usize].has_waiting() && self.store.is_empty()
    }

    /// Returns whether one of the two ends of a line is down, this IMP's port or the other IMP's, or the distances that
    /// this IMP heard last at its port are those that the other would announce. This takes no memory.
    pub fn has_heard(&self, port: u8, other: &Imp, other_port: u8) -> bool
        ensures { (result ≡ true) ↔ ((port_at other.now.ports other_port).up ≡ true → (port_at self.now.ports port).up ≡ true → slice_index_or self.now.routes.heard port None ≡ Some (vector_of other.now.routes)) }
    {
        if !self.is_live(port) || !other.is_live(other_port) {
            return true;
        }
        is_heard(
            &self.routes.heard()[port as usize],
            other.routes.distances(),
        )
    }

    /// Takes a frame for which nothing is to be sent, and answers whether this is one: the end at the port is down, and ignores it; or
    /// no packet waits in the store, and the frame brings nothing, or the distances that were heard there last, so that only its
    /// acknowledgement bits matter. Any other frame is left, and nothing changes. This takes no memory.
    #[tactic(auto, using(crate::proofs::RestingLemmas::quiet_down, crate::proofs::RestingLemmas::quiet_taken))]
    pub fn takes(&mut self, port: u8, frame: &Frame) -> bool
        ensures answer { (result ≡ true) ↔ resting.IsQuiet self.old port frame.now }
        ensures taken { result ≡ true → from_line self.old port frame.now ≡ ignored self.new }
        ensures left { result ≡ false → self.new ≡ self.old }
        ensures live { self.new.spent ≡ self.old.spent }
    {
        if !self.is_live(port) {
            return true;
        }
        if !self.is_quiet(port, frame) {
            return false;
        }
        self.acknowledge_at(port, &frame.acks);
        true
    }

    /// Takes a frame with a packet that was given before, where no packet waits in the store, and answers the acknowledgement that goes
    /// back on its line. Any other frame is left, the answer is `None`, and nothing changes. This takes no memory.
    pub fn answers(&mut self, port: u8, frame: &Frame) -> Option<Frame>
        ensures answer { is_some result ≡ resting.is_repeat self.old port frame.now }
        ensures taken { IfSome result (λ ack. from_line self.old port frame.now ≡ record { state = self.new; frames = record { port = port; frame = ack } ∷ [] }) }
        ensures left { result ≡ None → self.new ≡ self.old }
        ensures live { self.new.spent ≡ self.old.spent }
    {
        if !self.is_repeat(port, frame) {
            return None;
        }
        self.acknowledge_at(port, &frame.acks);
        Some(self.ack_at(port))
    }

    /// Returns the frame that acknowledges what came in at a port.
    pub(crate) fn ack_at(&self, port: u8) -> Frame
        requires { port < length self.now.ports }
        ensures { result ≡ acknowledgement (port_at self.now.ports port).line }
    {
        self.ports[port as usize].line.ack_frame()
    }

    /// Returns whether a frame brings a packet that was given before, and no packet waits for a channel.
    fn is_repeat(&self, port: u8, frame: &Frame) -> bool
        ensures answer { result ≡ resting.is_repeat self.now port frame.now }
        ensures there { result ≡ true → port < length self.now.ports }
    {
        self.is_live(port)
            && self.store.is_empty()
            && self.ports[port as usize].line.is_repeat(frame)
    }

    /// Returns whether no packet waits for a channel, and what a frame brings is known at this port.
    fn is_quiet(&self, port: u8, frame: &Frame) -> bool
        requires { port < length self.now.ports }
        ensures { (result ≡ true) ↔ (((length self.now.store == 0) ≡ true) × resting.IsKnown self.now port frame.now.content) }
    {
        self.store.is_empty() && self.knows(port, &frame.content)
    }

    /// Frees channels of the port where a frame comes in by its acknowledgement bits.
    fn acknowledge_at(&mut self, port: u8, acks: &[bool; ACKS])
        requires { port < length self.old.ports }
        ensures { self.new ≡ with_acks port acks.now self.old }
    {
        self.ports[port as usize].line.acknowledge(acks);
    }

    /// Returns whether what a frame brings is known at this port.
    fn knows(&self, port: u8, content: &Content) -> bool
        requires { port < length self.now.ports }
        ensures { (result ≡ true) ↔ resting.IsKnown self.now port content.now }
    {
        match content {
            Content::Routes(distances) => is_heard(&self.routes.heard()[port as usize], distances),
            Content::Nothing => true,
            Content::Packet(_) => false,
        }
    }
}
