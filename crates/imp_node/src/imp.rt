//! One IMP, what it keeps, and what its calls ask of that.

ghost use Rattle.std.specs.Prelude.{◌≡◌, [], ◌+◌, ◌*◌, ◌<◌, ◌≤◌, ◌&&◌, Bool, true, false, length, replicate, nat_lt, nat_le, IfOk};
ghost use Rattle.std.specs.List.{list_any, sum_by};
ghost use Rattle.interface.specs.Host.{most_imps};
ghost use Rattle.imp_node.specs.State as states;
ghost use Rattle.imp_node.specs.State.{up_host, up_port, host_at};
ghost use Rattle.imp_node.specs.Room as room;
ghost use Rattle.imp_node.specs.Flows as flows;
ghost use Rattle.imp_node.specs.Flows.{is_about};
ghost use Rattle.imp_node.specs.Offering as offering;

use crate::Outgoing;
use crate::host::Host;
use crate::port::Port;
use crate::spare::Spare;
use imp_channel::Line;
use interface::{Flow, HostAddr, ImpNumber};
use link_table::{DestFlows, SourceFlows};
use packetiser::{Packet, Reassembly};
use routing::RouteTable;
use std::alloc::{AllocError, Global};
use std::marker::Model;

/// How many packets an IMP stores, those that wait and those in channels together.
pub const STORE_PLACES: usize = 32;

/// One IMP of the subnet.
///
/// A call that answers `OutOfMemory` leaves it spent: nothing is said of what it keeps then, and no further
/// call may be made. Every other fault leaves it as it was.
#[derive(Drop)]
pub struct Imp {
    pub(crate) hosts: Vec<Host>,
    pub(crate) ports: Vec<Port>,
    pub(crate) routes: RouteTable,
    pub(crate) store: Vec<Packet>,
    pub(crate) slots: Reassembly,
    pub(crate) sources: SourceFlows,
    pub(crate) kept: DestFlows,
    pub(crate) spent: bool,
    pub(crate) spare: Spare,
    pub(crate) alloc: Global,
}

impl Model for Imp {
    ghost use Rattle.std.specs.Coded.{codes};
    ghost use Rattle.link_table.specs.Codes.{coded_sources, coded_destinations};
    ghost use Rattle.imp_node.specs.State.{State};
    ghost use Rattle.imp_node.specs.Inside.Parts.{AreParts};

    ghost Value = { State };

    ghost coded = { Prim.hlevel (codes, coded_sources, coded_destinations) };

    ghost view = { λ i. record { spent = i.spent; hosts = i.hosts.items; ports = i.ports.items; routes = i.routes; store = i.store.items; slots = i.slots; sources = i.sources; kept = i.kept } };

    ghost invariant = { λ i. AreParts i.hosts.items i.ports.items i.routes };
}

impl Imp {
    /// Returns the IMP with this number, with this many hosts, at most four, and this many ports. All hosts and ends of
    /// lines are up, and nothing was heard, begun or taken.
    ///
    /// Errors: memory runs out, and nothing else.
    pub fn new(alloc: Global, own: ImpNumber, hosts: u8, ports: u8) -> Result<Imp, AllocError>
        requires { hosts ≤ 4 }
        ensures { IfOk result (λ imp. imp ≡ states.opening_node own hosts ports) }
    {
        Ok(Imp {
            hosts: up_hosts(alloc, hosts)?,
            ports: up_ports(alloc, ports)?,
            routes: RouteTable::new(alloc, own.number(), ports)?,
            store: Vec::new(alloc),
            slots: Reassembly::new(alloc)?,
            sources: SourceFlows::new(alloc),
            kept: DestFlows::new(alloc),
            spent: false,
            spare: Spare::new(alloc),
            alloc,
        })
    }

    /// Hands back a list that a call answered, once its frames are on their lines. A later call uses its memory again.
    ///
    /// Measured: without it, messages over a chain of eight IMPs take some 3 % more instructions, and messages on 40
    /// connections over four IMPs some 2 %.
    pub fn reuse(&mut self, frames: Vec<Outgoing>)
        requires { frames.items ≡ [] }
        ensures { self.new ≡ self.old }
    {
        self.spare.keep(frames);
    }

    /// Returns the IMP's own number.
    pub(crate) fn number(&self) -> u8
        ensures number { result ≡ states.number self.now }
        ensures within { (1 ≤ result) × (result ≤ most_imps) }
    {
        self.routes.own()
    }

    /// Returns whether it has a host of this number.
    pub(crate) fn is_there(&self, host: u8) -> bool
        ensures { result ≡ states.is_there self.now host }
    {
        (host as usize) < self.hosts.len()
    }

    /// Returns whether its host of this number is up. A host that isn't there is not up; an IMP has at most four, 0 to
    /// 3. This takes no memory.
    pub fn is_up(&self, host: u8) -> bool
        ensures up { result ≡ states.is_up self.now host }
        ensures there { result ≡ true → host < length self.now.hosts }
        ensures few { length self.now.hosts ≤ 4 }
    {
        (host as usize) < self.hosts.len() && self.hosts[host as usize].is_up()
    }

    /// Returns whether this is one of its hosts.
    pub(crate) fn is_own(&self, host: &HostAddr) -> bool
        ensures { result ≡ offering.is_own self.now host.now }
    {
        host.imp() == self.number() && self.is_there(host.host())
    }

    /// Returns whether an answer about this flow waits for its source.
    pub fn has_answer_about(&self, flow: &Flow) -> bool
        ensures { result ≡ list_any (is_about flow.now) (host_at self.now flow.now.source.host).answers }
    {
        let source = flow.source;
        self.is_there(source.host()) && self.hosts[source.host() as usize].has_answer_about(flow)
    }

    /// Returns whether a message of this flow may begin: none is outstanding, and no answer waits.
    pub(crate) fn is_idle(&self, flow: &Flow) -> bool
        ensures { result ≡ flows.is_idle self.now flow.now }
    {
        self.sources.is_idle(flow) && !self.has_answer_about(flow)
    }

    /// Returns whether a live route leads to another IMP.
    pub(crate) fn has_route(&self, imp: u8) -> bool
        ensures route { result ≡ room.has_route self.now imp }
        ensures within { result ≡ true → imp ≤ most_imps }
    {
        self.routes.next(imp).is_some()
    }

    /// Returns whether this many packets more, at most 8, have room in the store.
    pub(crate) fn has_room(&self, packets: usize) -> bool
        requires { packets ≤ 8 }
        ensures { result ≡ room.has_room self.now packets }
    {
        let taken = busy_channels(&self.ports) + packets;
        taken <= STORE_PLACES && self.store.len() <= STORE_PLACES - taken
    }

    /// Returns whether a packet to another IMP has room, or needs none since no live route leads there.
    pub(crate) fn has_room_to(&self, imp: u8) -> bool
        ensures { result ≡ room.has_room_to self.now imp }
    {
        !self.has_route(imp) || self.has_room(1)
    }

    /// Returns whether one more message has room in the queue of a host.
    pub(crate) fn queue_has_room(&self, host: u8) -> bool
        ensures { result ≡ room.queue_has_room self.now host }
    {
        !self.is_there(host) || self.hosts[host as usize].has_room()
    }
}

/// Returns this many hosts that are up, for which nothing waits.
fn up_hosts(alloc: Global, count: u8) -> Result<Vec<Host>, AllocError>
    ensures { IfOk result (λ hosts. hosts.items ≡ replicate count up_host) }
{
    let mut hosts = Vec::new(alloc);
    for _ in 0..count {
        hosts.push(Host::new(alloc, true)?)?;
    }
    Ok(hosts)
}

/// Returns this many ends of lines that are up.
fn up_ports(alloc: Global, count: u8) -> Result<Vec<Port>, AllocError>
    ensures { IfOk result (λ ports. ports.items ≡ replicate count up_port) }
{
    let mut ports = Vec::new(alloc);
    for _ in 0..count {
        ports.push(Port {
            up: true,
            line: Line::new(alloc)?,
        })?;
    }
    Ok(ports)
}

/// Returns how many channels of these ports are busy.
pub(crate) fn busy_channels(ports: &[Port]) -> usize
    requires { length ports.now < 256 }
    ensures count { result ≡ sum_by room.busy_channels ports.now }
    ensures most { result ≤ 8 * length ports.now }
{
    let mut busy = 0;
    for port in ports {
        busy += port.line.busy_channels();
    }
    busy
}
