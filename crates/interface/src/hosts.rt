//! The hosts of a network, and a table that says at once whether a host is one of them.

ghost use Rattle.std.specs.Prelude.{◌≡◌, ◌<◌, ◌||◌, ℕ, false, slice_index_or};
ghost use Rattle.interface.specs.Host.{Host, IsAddress, address_octet, is_host, same_host};
ghost use Rattle.interface.specs.Inside.Table.{IsTable};

use crate::HostAddr;
use std::marker::Model;

/// How many address octets there are.
const OCTETS: usize = 256;

/// The hosts of a network, in order, and for each address octet whether it names one of them. So a look at
/// whether a host is one of them takes the same time in every network.
#[derive(Drop)]
pub struct Hosts {
    hosts: Vec<HostAddr>,
    named: [bool; OCTETS],
}

impl Model for Hosts {
    ghost use Rattle.std.specs.Prelude.{List};
    ghost use Rattle.interface.specs.Host.{Host};
    ghost use Rattle.interface.specs.Inside.Table.{IsTable};

    ghost Value = { List Host };

    ghost view = { λ h. h.hosts.items };

    ghost invariant = { λ h. IsTable h.hosts.items h.named };
}

impl Hosts {
    /// Returns these hosts, in this order. This takes no memory.
    pub fn new(hosts: Vec<HostAddr>) -> Hosts
        ensures { result ≡ hosts.items }
    {
        let named = table_of(&hosts);
        Hosts { hosts, named }
    }

    /// Returns all of them, in order.
    pub fn all(&self) -> &[HostAddr]
        ensures { result.now ≡ self.now }
    {
        &self.hosts
    }

    /// Returns whether this is one of them.
    pub fn contains(&self, host: &HostAddr) -> bool
        ensures { result ≡ is_host self.now host.now }
    {
        self.named[host.octet() as usize]
    }
}

/// Returns, for each address octet, whether it names one of these hosts.
#[tactic(auto, using(std::proofs::lemmas::List::Folds::list_any_more))]
fn table_of(hosts: &[HostAddr]) -> [bool; OCTETS]
    ensures { IsTable hosts.now result }
{
    let mut named = [false; OCTETS];
    for host in hosts {
        mark(&mut named, host);
    }
    named
}

/// Marks the address octet of a host.
fn mark(named: &mut [bool; OCTETS], host: &HostAddr)
    ensures { (h : Host) → IsAddress h → slice_index_or named.new (address_octet h) false ≡ (slice_index_or named.old (address_octet h) false || same_host h host.now) }
{
    named[host.octet() as usize] = true;
}
