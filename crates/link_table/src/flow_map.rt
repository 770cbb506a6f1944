//! A map from flows to what is known of them.

ghost use Rattle.std.specs.Prelude.{◌≡◌, IfOk, OnOk, OnErr, IsSome, None, ℕ};
ghost use Rattle.std.specs.FinMap as map;
ghost use Rattle.std.specs.List.{list_any};
ghost use Rattle.link_table.specs.Keys.{flow_cmp, is_from, drop_from, has_from};

use interface::{Flow, ImpNumber};
use std::alloc::{AllocError, Global};
use std::collections::btree_map::{self, BTreeMap};
use std::marker::Model;

/// A value for each flow of which something is known.
#[derive(Drop)]
pub struct FlowMap<V> {
    flows: BTreeMap<Flow, V>,
}

impl<V> Model for FlowMap<V> {
    ghost use Rattle.std.specs.FinMap as map;
    ghost use Rattle.link_table.specs.Keys.{flow_cmp, coded_flow};

    ghost Value = { map.FinMap flow_cmp V };

    ghost coded = { map.code coded_flow V.code };

    ghost view = { λ a. map.from_entries a.flows.entries };
}

impl<V: Copy> FlowMap<V> {
    /// Returns the map in which there is no flow.
    pub fn new(alloc: Global) -> FlowMap<V>
        ensures { result ≡ map.empty }
    {
        FlowMap {
            flows: BTreeMap::new(alloc),
        }
    }

    /// Returns what is known of a flow.
    pub fn get(&self, flow: &Flow) -> Option<V>
        ensures { result ≡ map.get self.now flow.now }
    {
        self.flows.get(flow).copied()
    }

    /// Returns what is known of each flow, in the order of the flows.
    pub fn iter(&self) -> btree_map::Iter<'_, Flow, V>
        ensures { result ≡ map.entries self.now }
    {
        self.flows.iter()
    }

    /// Puts a flow's value in the place of what was known of it. Without memory nothing changes; memory is
    /// needed only for a flow of which nothing was known.
    pub fn set(&mut self, flow: Flow, value: V) -> Result<(), AllocError>
        ensures ok { OnOk result (self.new ≡ map.insert self.old flow value) }
        ensures err { OnErr result (self.new ≡ self.old) }
        ensures fresh { OnErr result (map.get self.old flow ≡ None) }
    {
        self.flows.insert(flow, value)?;
        Ok(())
    }

    /// Puts another value in the place of what is known of a flow.
    pub fn replace(&mut self, flow: Flow, value: V)
        requires { IsSome (map.get self.old flow) }
        ensures { self.new ≡ map.insert self.old flow value }
    {
        if self.set(flow, value).is_err() {
            unreachable!();
        }
    }

    /// Drops what is known of flows whose source is at this IMP.
    pub fn drop_from(&mut self, imp: ImpNumber)
        ensures { self.new ≡ drop_from imp self.old }
    {
        let number = imp.number();
        self.flows.retain(|flow, _| flow.source.imp() != number);
    }

    /// Returns whether anything is known of a flow whose source is at this IMP.
    pub fn has_from(&self, imp: ImpNumber) -> bool
        ensures { result ≡ has_from imp self.now }
    {
        let number = imp.number();
        self.flows.keys().any(|flow| flow.source.imp() == number)
    }
}
