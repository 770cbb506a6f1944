//! The flows of a destination.

ghost use Rattle.std.specs.Prelude.{◌≡◌, OnOk, OnErr, None};
ghost use Rattle.std.specs.FinMap as map;
ghost use Rattle.link_table.specs.Keys.{drop_from, has_from};
ghost use Rattle.link_table.specs.Flows.{age_of, kept_in, asked_in, told_by, ended_in, noted, ended};

use crate::flow_map::FlowMap;
use crate::numbers::is_new;
use interface::{Flow, ImpNumber, Number};
use std::alloc::{AllocError, Global};
use std::collections::btree_map;
use std::marker::Model;

/// Whether a message is new to its destination, judged by its number.
#[derive(Clone, Copy, Debug, PartialEq, Eq)]
pub enum Age {
    /// No number is kept, or this one lies within the window ahead of the kept one.
    New,
    /// Any other number: that of a message that was noted, given up, or sent before the kept one.
    Old,
}

/// What became of a message at its destination.
#[derive(Clone, Copy, Debug, PartialEq, Eq)]
pub enum Fate {
    /// It waits for its host.
    Waits,
    /// Its host took it.
    Taken,
    /// Its host was down, or went down before it took the message.
    Dead,
    /// It never came as a message, and can't be taken any more.
    Never,
}

impl Fate {
    /// Returns what a question about a message of this fate is answered.
    fn told(self) -> Asked
        ensures { result ≡ told_by self }
    {
        match self {
            Fate::Waits => Asked::Silent,
            Fate::Taken => Asked::Rfnm,
            Fate::Dead => Asked::Dead,
            Fate::Never => Asked::Never,
        }
    }
}

/// The last number that is kept of a flow.
#[derive(Clone, Copy, Debug, PartialEq, Eq)]
pub struct Noted {
    /// The number.
    pub number: Number,
    /// What became of its message.
    pub fate: Fate,
}

impl Noted {
    /// Returns what is kept after the message of this number met another fate.
    fn ended(self, number: Number, fate: Fate) -> Noted
        ensures { result ≡ ended_in number fate self }
    {
        if self.number == number {
            Noted {
                number: self.number,
                fate,
            }
        } else {
            self
        }
    }
}

/// What a question about a message comes to.
#[derive(Clone, Copy, Debug, PartialEq, Eq)]
pub enum Asked {
    /// Its number is new: it is to be noted as never come.
    Note,
    /// Nothing is answered: the message waits, or another number is kept.
    Silent,
    /// The message was taken.
    Rfnm,
    /// Its host was down.
    Dead,
    /// It never came.
    Never,
}

/// The flows of a destination, with the number that was noted last of each and the fate of its message,
/// where one is kept.
#[derive(Drop)]
pub struct DestFlows {
    flows: FlowMap<Noted>,
}

impl Model for DestFlows {
    ghost use Rattle.link_table.specs.Flows.{Destinations};
    ghost use Rattle.link_table.specs.Codes.{coded_destinations};

    ghost Value = { Destinations };

    ghost coded = { coded_destinations };

    ghost view = { λ a. a.flows };
}

impl DestFlows {
    /// Returns a destination that keeps no number.
    pub fn new(alloc: Global) -> DestFlows
        ensures { result ≡ map.empty }
    {
        DestFlows {
            flows: FlowMap::new(alloc),
        }
    }

    /// Judges a number of a flow: it is new if none is kept, or if it lies within the window ahead of the
    /// kept one.
    pub fn judge(&self, flow: &Flow, number: Number) -> Age
        ensures { result ≡ age_of (kept_in (map.get self.now flow.now)) number }
    {
        if is_new(self.kept(flow), number) {
            Age::New
        } else {
            Age::Old
        }
    }

    /// Keeps this number as the flow's last, with the fate of its message.
    ///
    /// Errors: memory can run out only for a flow of which no number is kept. Then nothing changes.
    pub fn note(&mut self, flow: &Flow, number: Number, fate: Fate) -> Result<(), AllocError>
        ensures ok { OnOk result (self.new ≡ noted self.old flow.now number fate) }
        ensures err { OnErr result (self.new ≡ self.old) }
        ensures fresh { OnErr result (map.get self.old flow.now ≡ None) }
    {
        self.flows.set(*flow, Noted { number, fate })
    }

    /// Changes the fate of the message of this number. If another number is the flow's last, or none is
    /// kept, nothing changes.
    #[tactic(auto, unfolding(crate::specs::Flows::ended))]
    pub fn end(&mut self, flow: &Flow, number: Number, fate: Fate)
        ensures { self.new ≡ ended self.old flow.now number fate }
    {
        if let Some(noted) = self.flows.get(flow) {
            self.flows.replace(*flow, noted.ended(number, fate));
        }
    }

    /// Returns what a question about the message of this number comes to: `Note` if the number is new, else the answer
    /// by its fate if the number is the flow's last, and else `Silent`.
    pub fn asked(&self, flow: &Flow, number: Number) -> Asked
        ensures { result ≡ asked_in (map.get self.now flow.now) number }
    {
        if is_new(self.kept(flow), number) {
            return Asked::Note;
        }
        match self.flows.get(flow) {
            Some(noted) if noted.number == number => noted.fate.told(),
            _ => Asked::Silent,
        }
    }

    /// Drops the last numbers of flows whose source is at this IMP, and no others.
    pub fn forget(&mut self, imp: ImpNumber)
        ensures { self.new ≡ drop_from imp self.old }
    {
        self.flows.drop_from(imp);
    }

    /// Returns whether it keeps a last number of a flow whose source is at this IMP.
    pub fn keeps(&self, imp: ImpNumber) -> bool
        ensures { result ≡ has_from imp self.now }
    {
        self.flows.has_from(imp)
    }

    /// Returns each flow of which a number is kept, with that number and its message's fate, in the order of the flows.
    pub fn iter(&self) -> btree_map::Iter<'_, Flow, Noted>
        ensures { result ≡ map.entries self.now }
    {
        self.flows.iter()
    }

    /// Returns the last number that it keeps of a flow.
    pub fn kept(&self, flow: &Flow) -> Option<Number>
        ensures { result ≡ kept_in (map.get self.now flow.now) }
    {
        match self.flows.get(flow) {
            Some(noted) => Some(noted.number),
            None => None,
        }
    }
}
