//! A subnet as a carrier whose inside can be traced.

ghost use Rattle.std.specs.Prelude.{◌≡◌, IfSome, length, true};
ghost use Rattle.subnet.specs.Net.{imp_at};
ghost use Rattle.subnet.specs.Working.{subnet_calls};
ghost use Rattle.subnet_trace.specs.Elements.{calm_left};
ghost use Rattle.subnet_trace.specs.Traced.{subnet_inside};

use crate::calm::next_in_calm;
use crate::fates::fate_of;
use crate::parts::{change, parts_of, print_whole};
use crate::place::{Place, Stage};
use crate::ways::Notes;
use interface::{Carrier, CarrierFault, Crossing, HostAddr, HostMessage, Inbound, NetEvent};
use replay::{Output, WriteFailed};
use script::RawEvent;
use std::alloc::{AllocError, Global};
use std::marker::Model;
use subnet::Subnet;
use trace::{AllParts, Element, Fate, Inspect, ended};

/// A subnet whose inside can be traced: the subnet itself, and nothing else.
///
/// It is a type of its own since [`trace::Inspect`] and `Subnet` are in other crates than this one, and a crate may
/// implement a trait of another crate for its own types only.
#[derive(Drop)]
pub struct TracedSubnet {
    subnet: Subnet,
}

impl Model for TracedSubnet {
    ghost use Rattle.std.specs.Coded.{codes};
    ghost use Rattle.link_table.specs.Codes.{coded_sources, coded_destinations};
    ghost use Rattle.subnet.specs.Calls.{Kept};

    ghost Value = { Kept };

    ghost coded = { Prim.hlevel (codes, coded_sources, coded_destinations) };

    ghost view = { λ t. t.subnet };
}

impl TracedSubnet {
    /// Returns this subnet.
    pub fn new(subnet: Subnet) -> TracedSubnet
        ensures { result ≡ subnet }
    {
        TracedSubnet { subnet }
    }
}

/// Each call is that of the subnet.
impl Carrier for TracedSubnet {
    ghost calls = { subnet_calls };

    fn offer_out(&mut self, message: HostMessage) -> Result<(), CarrierFault> {
        self.subnet.offer_out(message)
    }

    fn take_in(&mut self, host: HostAddr) -> Result<Option<Inbound>, CarrierFault> {
        self.subnet.take_in(host)
    }

    fn step(&mut self, event: NetEvent) -> Result<(), CarrierFault> {
        self.subnet.step(event)
    }

    fn quiet_round(&mut self) -> Result<(), CarrierFault> {
        self.subnet.quiet_round()
    }

    fn rests_beside(&self, hosts: &[HostAddr]) -> bool {
        self.subnet.rests_beside(hosts)
    }

    fn refuses(&self, message: &HostMessage) -> bool {
        self.subnet.refuses(message)
    }

    fn log(&self) -> &[Crossing] {
        self.subnet.log()
    }

    fn hosts(&self) -> &[HostAddr] {
        self.subnet.hosts()
    }
}

impl Inspect for TracedSubnet {
    type Place = Place;

    type Notes = Notes;

    ghost inside = { subnet_inside };

    ghost left = { λ k place. calm_left k.net place };

    fn begin_calm(&self, rounds: u32) -> Place {
        Place {
            round: 0,
            rounds,
            stage: Stage::Over,
        }
    }

    fn next_in_calm(&self, place: Place) -> Option<(Element, Place)> {
        next_in_calm(&self.subnet, place)
    }

    fn fate(&self, event: &RawEvent) -> Option<Fate> {
        fate_of(&self.subnet, event)
    }

    fn print_whole<W: Output>(&self, writer: &mut W) -> Result<(), WriteFailed> {
        print_whole(&self.subnet, writer)
    }

    fn no_notes(&self, alloc: Global) -> Notes {
        Notes::new(alloc)
    }

    fn members(&self, alloc: Global, notes: &mut Notes) -> Result<AllParts, AllocError> {
        parts_of(alloc, &self.subnet, notes)
    }

    /// A refused event changes nothing. What crossed does not matter: an event says which parts it can change.
    fn change(
        &self,
        alloc: Global,
        event: &RawEvent,
        _crossings: &[Crossing],
        outcome: Result<(), CarrierFault>,
        known: &mut AllParts,
        room: Vec<u8>,
    ) -> Result<Vec<u8>, AllocError> {
        match outcome {
            Ok(()) => change(alloc, &self.subnet, event, known, room),
            Err(_) => ended(room),
        }
    }

    fn keeps(&self) {}

    /// It is known where no packet waits in the host's IMP: the pump, with which each taking ends, then moves none.
    fn is_still(&self, host: &HostAddr) -> bool {
        stores_none(&self.subnet, host.imp())
    }
}

/// Returns whether the IMP of this number is down, or no packet waits in it.
fn stores_none(subnet: &Subnet, number: u8) -> bool
    ensures { result ≡ true → IfSome (imp_at subnet.now.net.imps number) (λ s. length s.store ≡ 0) }
{
    match subnet.imp(number) {
        Some(imp) => imp.store().is_empty(),
        None => true,
    }
}
