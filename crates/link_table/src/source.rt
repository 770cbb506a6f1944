//! The flows of a source.

ghost use Rattle.std.specs.Prelude.{◌≡◌, OnErr, Err, None, Some, is_some};
ghost use Rattle.std.specs.FinMap as map;
ghost use Rattle.link_table.specs.Flows.{FlowDecided, begin_fault, begun, flow_answered, given_up, handed, number_in, last_of, last_in, outstanding_in, is_idle_in, answered_in, given_up_in};
ghost use Rattle.link_table.specs.Flows.{handed_in, release_in, has_outstanding, has_outstanding_to};

use crate::FlowFault;
use crate::flow_map::FlowMap;
use crate::numbers::next;
use interface::{Flow, HostAddr, ImpNumber, Number};
use std::alloc::Global;
use std::collections::btree_map;
use std::marker::Model;

/// A flow at its source, once a message of it was begun, with the number of the last message begun.
#[derive(Clone, Copy, Debug, PartialEq, Eq)]
pub enum Standing {
    /// The host has taken the answer to that message and may send the next one.
    Idle(Number),
    /// That message has no answer yet.
    Outstanding(Number),
    /// The answer to that message waits for the host.
    Answered(Number),
}

/// What an answer to a message does.
#[derive(Clone, Copy, Debug, PartialEq, Eq)]
pub enum Release {
    /// It answers the outstanding message, and the flow is answered.
    Freed,
    /// No message of that number is outstanding: nothing changes.
    Stale,
}

impl Standing {
    /// Returns the number of the last message begun.
    pub fn last(self) -> Number
        ensures { result ≡ last_of self }
    {
        match self {
            Standing::Idle(last) | Standing::Outstanding(last) | Standing::Answered(last) => last,
        }
    }

    /// Returns whether that message has no answer yet.
    fn is_outstanding(self) -> bool
        ensures { result ≡ is_some (outstanding_in (Some self)) }
    {
        matches!(self, Standing::Outstanding(_))
    }

    /// Returns the [`Standing`] after an answer to the message of this number: only the outstanding message is answered
    /// by it.
    fn answered(self, number: Number) -> Standing
        ensures { result ≡ answered_in number self }
    {
        match self {
            Standing::Outstanding(last) if last == number => Standing::Answered(last),
            other => other,
        }
    }

    /// Returns the [`Standing`] after an outstanding message was given up.
    fn given_up(self) -> Standing
        ensures { result ≡ given_up_in self }
    {
        match self {
            Standing::Outstanding(last) => Standing::Answered(last),
            other => other,
        }
    }

    /// Returns the [`Standing`] after the host took the answer.
    fn handed(self) -> Standing
        ensures { result ≡ handed_in self }
    {
        match self {
            Standing::Answered(last) => Standing::Idle(last),
            other => other,
        }
    }
}

/// The flows of a source: nothing was begun of a flow, or it has a [`Standing`].
///
/// A message is begun only while its flow is idle, so at most one message of a flow is outstanding (BBN
/// Report 1822: a link is blocked from a message until its RFNM).
#[derive(Drop)]
pub struct SourceFlows {
    flows: FlowMap<Standing>,
}

impl Model for SourceFlows {
    ghost use Rattle.link_table.specs.Flows.{Sources};
    ghost use Rattle.link_table.specs.Codes.{coded_sources};

    ghost Value = { Sources };

    ghost coded = { coded_sources };

    ghost view = { λ a. a.flows };
}

impl SourceFlows {
    /// Returns a source of which nothing was begun.
    pub fn new(alloc: Global) -> SourceFlows
        ensures { result ≡ map.empty }
    {
        SourceFlows {
            flows: FlowMap::new(alloc),
        }
    }

    /// Begins a message of an idle flow and answers its number: 0 for the flow's first message, and then
    /// one after the other, wrapping around. The flow is then outstanding with it. A refusal changes nothing.
    ///
    /// Errors: `Blocked` if the flow isn't idle. `OutOfMemory` only for a flow of which no message was
    /// begun before, since only then the table grows.
    #[tactic(auto, unfolding(crate::specs::Flows::begun))]
    pub fn begin(&mut self, flow: &Flow) -> Result<Number, FlowFault>
        ensures decided { FlowDecided (begin_fault self.old flow.now) (λ number. (number ≡ number_in (map.get self.old flow.now)) × (self.new ≡ begun self.old flow.now)) result }
        ensures err { OnErr result (self.new ≡ self.old) }
        ensures fresh { result ≡ Err FlowFault.OutOfMemory → map.get self.old flow.now ≡ None }
    {
        let number = match self.flows.get(flow) {
            None => 0,
            Some(Standing::Idle(last)) => next(last),
            Some(_) => return Err(FlowFault::Blocked),
        };
        self.flows.set(*flow, Standing::Outstanding(number))?;
        Ok(number)
    }

    /// Takes the answer to the message of this number. If that message is the outstanding one, the flow is
    /// answered; otherwise nothing changes.
    #[tactic(auto, unfolding(crate::specs::Flows::flow_answered))]
    pub fn answer(&mut self, flow: &Flow, number: Number) -> Release
        ensures state { self.new ≡ flow_answered self.old flow.now number }
        ensures release { result ≡ release_in number (map.get self.old flow.now) }
    {
        let Some(standing) = self.flows.get(flow) else {
            return Release::Stale;
        };
        self.flows.replace(*flow, standing.answered(number));
        match standing {
            Standing::Outstanding(last) if last == number => Release::Freed,
            _ => Release::Stale,
        }
    }

    /// Gives up the outstanding message of a flow: the flow is answered. If none is outstanding, nothing
    /// changes.
    #[tactic(auto, unfolding(crate::specs::Flows::given_up))]
    pub fn give_up(&mut self, flow: &Flow)
        ensures { self.new ≡ given_up self.old flow.now }
    {
        if let Some(standing) = self.flows.get(flow) {
            self.flows.replace(*flow, standing.given_up());
        }
    }

    /// Makes an answered flow idle: its host took the answer, or is down and takes none. If no answer
    /// waits, nothing changes.
    #[tactic(auto, unfolding(crate::specs::Flows::handed))]
    pub fn handed(&mut self, flow: &Flow)
        ensures { self.new ≡ handed self.old flow.now }
    {
        if let Some(standing) = self.flows.get(flow) {
            self.flows.replace(*flow, standing.handed());
        }
    }

    /// Returns each flow of which a message was begun, with its [`Standing`], in the order of the flows.
    pub fn iter(&self) -> btree_map::Iter<'_, Flow, Standing>
        ensures { result ≡ map.entries self.now }
    {
        self.flows.iter()
    }

    /// Returns whether a message of the flow may begin: none is outstanding and no answer waits.
    pub fn is_idle(&self, flow: &Flow) -> bool
        ensures { result ≡ is_idle_in (map.get self.now flow.now) }
    {
        matches!(self.flows.get(flow), None | Some(Standing::Idle(_)))
    }

    /// Returns whether any message of this host has no answer yet. A host that was down comes up only when this is
    /// false.
    pub fn has_outstanding(&self, host: HostAddr) -> bool
        ensures { result ≡ has_outstanding host self.now }
    {
        self.flows.iter().any(|(flow, standing)| flow.source == host && standing.is_outstanding())
    }

    /// Returns whether any message to a host at this IMP has no answer yet. That IMP forgets the numbers of this
    /// source's flows only when this is false.
    pub fn has_outstanding_to(&self, imp: ImpNumber) -> bool
        ensures { result ≡ has_outstanding_to imp self.now }
    {
        let number = imp.number();
        self.flows.iter().any(|(flow, standing)| flow.destination.imp() == number
            && standing.is_outstanding())
    }

    /// Returns the number of the outstanding message of a flow.
    pub fn outstanding(&self, flow: &Flow) -> Option<Number>
        ensures { result ≡ outstanding_in (map.get self.now flow.now) }
    {
        match self.flows.get(flow) {
            Some(Standing::Outstanding(number)) => Some(number),
            _ => None,
        }
    }

    /// Returns the number of the last message begun of a flow.
    pub fn last(&self, flow: &Flow) -> Option<Number>
        ensures { result ≡ last_in (map.get self.now flow.now) }
    {
        match self.flows.get(flow) {
            Some(standing) => Some(standing.last()),
            None => None,
        }
    }
}
