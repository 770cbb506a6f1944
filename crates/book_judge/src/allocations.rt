//! What ALLs grant on each flow of data, from each place of a log on.

ghost use Rattle.std.specs.Prelude.{◌≡◌, ◌<◌, ◌≤◌, ℕ, IfOk, List, OnOk, Some, [], length};
ghost use Rattle.host_pairs.specs.Control.{orders_of};
ghost use Rattle.interface.specs.declared.crossing.Crossing as passed;
ghost use Rattle.net_sim.specs.Book as book;
ghost use Rattle.promise.specs.declared.life.Amount as amount;
ghost use Rattle.book_judge.specs.Inside.Allocations as tests;
ghost use Rattle.book_judge.specs.Inside.Allocations.{Adds, AreAllocations, AreHeld, BeginsWith, Grows, IsHeld};
ghost use Rattle.book_judge.specs.Inside.Allocations.{IsHeldFrom, IsNumbered, IsSupply, by_log, capped};

use crate::flow_map::FlowMap;
use bit_messages::Bits;
use host_pairs::control_octets;
use interface::{Crossing, Flow, HostAddr, Link};
use ncp_control::{Command, ControlFault, read_one};
use promise::Amount;
use std::alloc::{AllocError, Global};

/// What an ALL grants on a link.
#[derive(Clone, Copy, Drop)]
struct Grant {
    link: u8,
    messages: u16,
    bits: u32,
}

/// What is granted on a flow from a place on, at which an ALL came in.
#[derive(Clone, Copy, Drop)]
struct Total {
    place: usize,
    all: Amount,
}

/// What is granted on a flow.
#[derive(Drop)]
struct Supply {
    /// By all ALLs.
    all: Amount,
    /// From each of them on, the newest first.
    totals: Vec<Total>,
}

/// What ALLs grant, by flows of data: a host takes an ALL from its peer, and may send to it on the link that the ALL
/// names.
#[derive(Drop)]
pub(crate) struct Allocations {
    numbers: FlowMap<usize>,
    supplies: Vec<Supply>,
}

/// Returns the amount of nothing.
pub(crate) fn nothing() -> Amount
    ensures { result ≡ book.nothing }
{
    Amount {
        messages: 0,
        bits: 0,
    }
}

/// Returns an amount with this many messages and bits more, or as much of that as there is room for.
fn with_more(all: Amount, messages: u16, bits: u32) -> Amount
    ensures { result ≡ capped (book.more messages bits all) }
{
    Amount {
        messages: all.messages.saturating_add(messages as u128),
        bits: all.bits.saturating_add(bits as u128),
    }
}

/// Returns what a command grants, if it is an ALL.
fn grant_of(command: &Command) -> Option<Grant>
    ensures { result ≡ tests.grant_of command.now }
{
    match command {
        Command::All {
            link,
            messages,
            bits,
        } => Some(Grant {
            link: *link,
            messages: *messages,
            bits: *bits,
        }),
        _ => None,
    }
}

/// Returns what the command grants that the octets begin with, if it is an ALL, and how many octets are read by it: all of
/// them, where the reading ends.
#[tactic(auto, using(crate::proofs::Identities::Named::orders_of_none))]
fn first_grant(octets: &[u8]) -> (Option<Grant>, usize)
    requires { 0 < length octets.now }
    ensures first { BeginsWith octets.now result.0 result.1 }
    ensures some { 0 < result.1 }
    ensures there { result.1 ≤ length octets.now }
{
    match read_one(octets) {
        Ok((command, used)) => (grant_of(&command), used),
        Err(ControlFault::Erroneous { quoted }) => (None, quoted),
        Err(ControlFault::IllegalCode { .. } | ControlFault::Short { .. }) => (None, octets.len()),
        Err(ControlFault::OutOfMemory) => unreachable!(),
    }
}

/// Returns the flow of a host's data to its peer on a link.
fn data_flow(host: HostAddr, peer: HostAddr, link: u8) -> Flow
    ensures { result ≡ tests.data_flow host peer link }
{
    Flow {
        source: host,
        destination: peer,
        link: Link(link),
    }
}

/// Returns how many of some totals are not before a place.
fn held_from(totals: &[Total], from: usize) -> usize
    ensures { IsHeldFrom totals.now from result }
{
    totals.partition_point(|total| from <= total.place)
}

impl Supply {
    /// Returns the supply of a flow on which nothing is granted.
    fn new(alloc: Global) -> Supply
        ensures all { result.all ≡ book.nothing }
        ensures totals { result.totals.items ≡ [] }
    {
        Supply {
            all: nothing(),
            totals: Vec::new(alloc),
        }
    }

    /// Adds what an ALL grants that came in at a place, where none came in before.
    ///
    /// Errors: `AllocError`.
    fn add(&mut self, place: usize, messages: u16, bits: u32) -> Result<(), AllocError>
        ensures { OnOk result (Grows place messages bits self.old self.new) }
    {
        let all = with_more(self.all, messages, bits);
        self.totals.push(Total { place, all })?;
        self.all = all;
        Ok(())
    }

    /// Returns what is granted from a place on.
    fn since(&self, from: usize) -> Amount
        ensures { (granted : ℕ → amount.Amount) (floor : ℕ) → IsSupply granted floor self.now → result ≡ capped (granted from) }
    {
        let count = held_from(&self.totals, from);
        if count == 0 {
            return nothing();
        }
        match self.totals.get(count - 1) {
            Some(total) => total.all,
            None => nothing(),
        }
    }
}

impl Allocations {
    /// Returns what is granted before anything has crossed.
    fn new(alloc: Global) -> Allocations
        ensures { (place : ℕ) → AreHeld place (by_log place []) result }
    {
        Allocations {
            numbers: FlowMap::new(alloc),
            supplies: Vec::new(alloc),
        }
    }

    /// Returns the number of a flow's supply. A flow that has none gets one.
    ///
    /// Errors: `AllocError`.
    fn number(&mut self, alloc: Global, flow: Flow) -> Result<usize, AllocError>
        ensures { IfOk result (λ number. IsNumbered number flow self.old self.new) }
    {
        if let Some(number) = self.numbers.get(&flow) {
            return Ok(number);
        }
        let number = self.supplies.len();
        self.supplies.push(Supply::new(alloc))?;
        self.numbers.set(flow, number)?;
        Ok(number)
    }

    /// Adds what an ALL grants that a host took from its peer at a place, where none was taken before.
    ///
    /// Errors: `AllocError`.
    fn add(
        &mut self,
        alloc: Global,
        place: usize,
        host: HostAddr,
        peer: HostAddr,
        grant: Grant,
    ) -> Result<(), AllocError>
        requires { IsHeld place self.old }
        ensures { OnOk result (Adds place (tests.by_grant place host peer grant) self.old self.new) }
    {
        let number = self.number(alloc, data_flow(host, peer, grant.link))?;
        self.supplies[number].add(place, grant.messages, grant.bits)
    }

    /// Adds the same, if there is one.
    ///
    /// Errors: `AllocError`.
    fn add_any(
        &mut self,
        alloc: Global,
        place: usize,
        host: HostAddr,
        peer: HostAddr,
        grant: Option<Grant>,
    ) -> Result<(), AllocError>
        requires { IsHeld place self.old }
        ensures { OnOk result (Adds place (tests.by_any place host peer grant) self.old self.new) }
    {
        match grant {
            Some(grant) => self.add(alloc, place, host, peer, grant),
            None => Ok(()),
        }
    }

    /// Adds what the commands of a text grant.
    ///
    /// Errors: `AllocError`.
    fn add_orders(
        &mut self,
        alloc: Global,
        place: usize,
        host: HostAddr,
        peer: HostAddr,
        text: &Bits,
    ) -> Result<(), AllocError>
        requires { IsHeld place self.old }
        ensures { OnOk result (Adds place (tests.by_grants place host peer (tests.grants_in (orders_of text.now))) self.old self.new) }
    {
        let Some(octets) = control_octets(text) else {
            return Ok(());
        };
        let mut rest = octets;
        'orders: while !rest.is_empty() {
            let (grant, read) = first_grant(rest);
            self.add_any(alloc, place, host, peer, grant)?;
            (_, rest) = rest.split_at(read);
        }
        Ok(())
    }

    /// Adds what is granted by what crossed at a place, where nothing was before.
    ///
    /// Errors: `AllocError`.
    fn add_crossing(
        &mut self,
        alloc: Global,
        place: usize,
        crossing: &Crossing,
    ) -> Result<(), AllocError>
        requires { IsHeld place self.old }
        ensures { OnOk result (Adds place (tests.by_crossing place crossing.now) self.old self.new) }
    {
        match crossing {
            Crossing::In(message) if Link(0) == message.flow.link => {
                let flow = message.flow;
                let text = message.text.bits();
                self.add_orders(alloc, place, flow.destination, flow.source, text)
            }
            Crossing::In(_)
            | Crossing::Out(_)
            | Crossing::Answer(..)
            | Crossing::Down(_)
            | Crossing::Up(_) => Ok(()),
        }
    }

    /// Returns what is granted on a flow by what crossed from a place on.
    pub(crate) fn since(&self, flow: &Flow, from: usize) -> Amount
        ensures { (log : List passed.Crossing) → AreAllocations log self.now → result ≡ capped (by_log 0 log flow.now from) }
    {
        match self.numbers.get(flow) {
            Some(number) => match self.supplies.get(number) {
                Some(supply) => supply.since(from),
                None => nothing(),
            },
            None => nothing(),
        }
    }
}

/// Returns what the ALLs of a log grant, which is the oldest first.
///
/// Errors: `AllocError`.
pub(crate) fn allocations_of(alloc: Global, log: &[Crossing]) -> Result<Allocations, AllocError>
    ensures { IfOk result (AreAllocations log.now) }
{
    let mut allocations = Allocations::new(alloc);
    let mut place = log.len();
    'places: while 0 < place {
        place -= 1;
        allocations.add_crossing(alloc, place, &log[place])?;
    }
    Ok(allocations)
}
