//! What can be asked of an IMP. The queries change nothing and take no memory.

ghost use Rattle.std.specs.Prelude.{◌≡◌};
ghost use Rattle.imp_node.specs.Queries as queries;
ghost use Rattle.imp_node.specs.Inside.Seeking.{found};

use crate::Imp;
use crate::imp::busy_channels;
use crate::seeking::Sought;
use interface::{Flow, ImpNumber, Number};

impl Imp {
    /// Returns the number of the outstanding message of a flow; `None` where none is outstanding.
    pub fn outstanding(&self, flow: &Flow) -> Option<Number>
        ensures { result ≡ queries.outstanding self.now flow.now }
    {
        self.sources.outstanding(flow)
    }

    /// Returns the number of the last message begun of a flow; `None` where none was begun.
    pub fn last(&self, flow: &Flow) -> Option<Number>
        ensures { result ≡ queries.last self.now flow.now }
    {
        self.sources.last(flow)
    }

    /// Returns whether a message from one of its hosts to a host at this IMP is outstanding.
    pub fn awaits(&self, imp: ImpNumber) -> bool
        ensures { result ≡ queries.awaits self.now imp }
    {
        self.sources.has_outstanding_to(imp)
    }

    /// Returns the last number that it keeps of a flow; `None` where none is kept.
    pub fn kept(&self, flow: &Flow) -> Option<Number>
        ensures { result ≡ queries.kept self.now flow.now }
    {
        self.kept.kept(flow)
    }

    /// Returns whether it keeps a last number of a flow from a host at this IMP.
    pub fn keeps(&self, imp: ImpNumber) -> bool
        ensures { result ≡ queries.keeps self.now imp }
    {
        self.kept.keeps(imp)
    }

    /// Returns whether it holds a message of this flow and number, or a packet of it: in its store, in a channel, in
    /// reassembly or in a host's queue. An answer that waits for a host does not count.
    pub fn holds(&self, flow: &Flow, number: Number) -> bool
        ensures { result ≡ queries.holds self.now flow.now number }
    {
        self.finds(&Sought::Message(*flow, number))
    }

    /// Returns whether it holds a message, a piece of one or a question about one, from a host at one IMP to a host at
    /// another.
    pub fn holds_data(&self, from: ImpNumber, to: ImpNumber) -> bool
        ensures { result ≡ queries.holds_data self.now from to }
    {
        self.finds(&Sought::Between(from, to))
    }

    /// Returns whether it holds a message from or to a host at this IMP, or a packet of one.
    pub fn touches(&self, imp: ImpNumber) -> bool
        ensures { result ≡ queries.touches self.now imp }
    {
        self.finds(&Sought::Touching(imp))
    }

    /// Returns whether it holds any packet in its store or in a channel. Pieces in reassembly don't count.
    pub fn holds_packet(&self) -> bool
        ensures { result ≡ queries.holds_packet self.now }
    {
        !self.store.is_empty() || busy_channels(&self.ports) > 0
    }

    /// Returns whether it holds what is sought.
    #[tactic(auto, using(crate::proofs::Searching::found_is))]
    fn finds(&self, sought: &Sought) -> bool
        ensures { result ≡ found sought.now self.now }
    {
        sought.is_among(&self.store)
            || sought.is_on_lines(&self.ports)
            || sought.is_in_slots(&self.slots)
            || sought.is_in_queues(&self.hosts)
    }
}
