//! A map from flows to what is known of them.

ghost use Rattle.std.specs.Prelude.{◌≡◌, OnOk};
ghost use Rattle.std.specs.FinMap as map;

use interface::Flow;
use std::alloc::{AllocError, Global};
use std::collections::BTreeMap;
use std::marker::Model;

/// A value for each flow of which something is known.
#[derive(Drop)]
pub(crate) struct FlowMap<V> {
    flows: BTreeMap<Flow, V>,
}

impl<V> Model for FlowMap<V> {
    ghost use Rattle.std.specs.FinMap as map;
    ghost use Rattle.interface.specs.Codes.{coded_flow};
    ghost use Rattle.interface.specs.Flow.{flow_cmp};

    ghost Value = { map.FinMap flow_cmp V };

    ghost coded = { map.code coded_flow V.code };

    ghost view = { λ a. map.from_entries a.flows.entries };
}

impl<V: Copy> FlowMap<V> {
    /// Returns the map in which there is no flow.
    pub(crate) fn new(alloc: Global) -> FlowMap<V>
        ensures { result ≡ map.empty }
    {
        FlowMap {
            flows: BTreeMap::new(alloc),
        }
    }

    /// Returns what is known of a flow.
    pub(crate) fn get(&self, flow: &Flow) -> Option<V>
        ensures { result ≡ map.get self.now flow.now }
    {
        self.flows.get(flow).copied()
    }

    /// Puts a flow's value in the place of what was known of it.
    ///
    /// Errors: `AllocError`, only for a flow of which nothing was known.
    pub(crate) fn set(&mut self, flow: Flow, value: V) -> Result<(), AllocError>
        ensures { OnOk result (self.new ≡ map.insert self.old flow value) }
    {
        self.flows.insert(flow, value)?;
        Ok(())
    }
}
