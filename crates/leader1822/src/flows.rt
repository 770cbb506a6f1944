//! What waits of each flow.

ghost use Rattle.std.specs.Prelude.{◌≡◌, OnOk, OnErr, IsSome, None, true, false};
ghost use Rattle.std.specs.FinMap as map;
ghost use Rattle.leader1822.specs.Inside.Named.{IsNamed};
ghost use Rattle.interface.specs.declared.address.Flow.{Flow};

use interface::{Answer, Flow, HostAddr, Link};
use std::alloc::{AllocError, Global};
use std::collections::BTreeMap;
use std::marker::Model;

/// What waits of a flow.
#[derive(Clone, Copy, Drop)]
pub(crate) enum Pending {
    /// Its message waits to be taken.
    Message,
    /// The answer to its message.
    Answer(Answer),
}

/// What waits of each flow of which anything waits.
#[derive(Drop)]
pub(crate) struct Flows {
    flows: BTreeMap<Flow, Pending>,
}

impl Model for Flows {
    ghost use Rattle.std.specs.FinMap as map;
    ghost use Rattle.interface.specs.Flow.{flow_cmp};
    ghost use Rattle.leader1822.specs.Inside.Codes.{coded_flows};
    ghost use Rattle.leader1822.specs.declared.flows.Pending.{Pending};

    ghost Value = { map.FinMap flow_cmp Pending };

    ghost coded = { coded_flows };

    ghost view = { λ a. map.from_entries a.flows.entries };
}

impl Flows {
    /// Returns the flows of which nothing waits.
    pub(crate) fn new(alloc: Global) -> Flows
        ensures { result ≡ map.empty }
    {
        Flows {
            flows: BTreeMap::new(alloc),
        }
    }

    /// Returns whether nothing waits of any flow.
    pub(crate) fn is_empty(&self) -> bool
        ensures { result ≡ true → self.now ≡ map.empty }
    {
        self.flows.is_empty()
    }

    /// Returns what waits of a flow.
    pub(crate) fn get(&self, flow: &Flow) -> Option<Pending>
        ensures { result ≡ map.get self.now flow.now }
    {
        self.flows.get(flow).copied()
    }

    /// Sets what waits of a flow. It needs memory only if nothing of the flow waited before.
    pub(crate) fn set(&mut self, flow: Flow, pending: Pending) -> Result<(), AllocError>
        ensures ok { OnOk result (self.new ≡ map.insert self.old flow pending) }
        ensures fresh { OnErr result (map.get self.old flow ≡ None) }
    {
        self.flows.insert(flow, pending)?;
        Ok(())
    }

    /// Puts this in the place of what waits of a flow.
    pub(crate) fn replace(&mut self, flow: Flow, pending: Pending)
        requires { IsSome (map.get self.old flow) }
        ensures { self.new ≡ map.insert self.old flow pending }
    {
        if self.set(flow, pending).is_err() {
            unreachable!();
        }
    }

    /// Makes a flow idle.
    pub(crate) fn remove(&mut self, flow: &Flow)
        ensures { self.new ≡ map.remove self.old flow.now }
    {
        self.flows.remove(flow);
    }

    /// Returns whether anything waits of a flow from a host.
    pub(crate) fn has_from(&self, host: HostAddr) -> bool
        ensures some { result ≡ true → (f : Flow) × (f.source ≡ host) × IsSome (map.get self.now f) }
        ensures none { result ≡ false → (f : Flow) → IsNamed f → f.source ≡ host → map.get self.now f ≡ None }
    {
        let lowest = Flow {
            source: host,
            destination: HostAddr::first(),
            link: Link(0),
        };
        let highest = Flow {
            source: host,
            destination: HostAddr::last(),
            link: Link(255),
        };
        self.flows.range(lowest..=highest).next().is_some()
    }
}
