//! How a subnet is opened from its hosts, sites and lines.

ghost use Rattle.std.specs.Prelude.{◌≡◌, ◌+◌, ◌≤◌, ◌<◌, None, length, map, count_by, slice_index_or, All, IfOk, IfSome};
ghost use Rattle.interface.specs.Host.{most_imps};
ghost use Rattle.subnet.specs.Net.{ends_at};
ghost use Rattle.subnet.specs.Opening as start;
ghost use Rattle.subnet.specs.Inside.Calling.{AreLive};

use crate::lines::{Lines, port_of};
use crate::parts::Parts;
use crate::wire::{Ends, Wire};
use imp_node::Imp;
use interface::{HostAddr, Hosts, ImpNumber};
use std::alloc::{AllocError, Global};

impl Parts {
    /// Returns a subnet at its start: its hosts, how many hosts the IMP of each number has, if there is one, and the
    /// ends of its lines. All IMPs, ends of lines and hosts are up.
    ///
    /// Errors: memory runs out, and nothing else.
    #[tactic(auto, using(crate::proofs::Calls::Opens::places_opened, crate::proofs::Calls::Opens::opened_live, crate::proofs::Calls::Opens::lines_opened))]
    pub(crate) fn open(
        alloc: Global,
        hosts: Vec<HostAddr>,
        sites: Vec<Option<u8>>,
        ends: &[Ends],
    ) -> Result<Parts, AllocError>
        requires none { slice_index_or sites.items 0 None ≡ None }
        requires numbers { length sites.items ≤ most_imps + 1 }
        requires hosts { All (λ site. IfSome site (λ count. count ≤ 4)) sites.items }
        requires few { length ends.now < 256 }
        ensures opened { IfOk result (λ parts. parts ≡ start.opening_subnet hosts.items sites.items ends.now) }
        ensures live { IfOk result (λ parts. AreLive parts.imps) }
    {
        let lines = Lines::new(alloc, ends)?;
        let imps = opened_imps(alloc, &sites, lines.all())?;
        Ok(Parts {
            hosts: Hosts::new(hosts),
            sites,
            imps,
            lines,
            log: Vec::new(alloc),
            alloc,
        })
    }
}

/// Returns the IMPs of these sites, with the ports that the lines give them.
#[tactic(auto, using(crate::proofs::Calls::Opens::site_fits, crate::proofs::Calls::Starts::all_ports))]
fn opened_imps(
    alloc: Global,
    sites: &[Option<u8>],
    lines: &[Wire],
) -> Result<Vec<Option<Imp>>, AllocError>
    requires none { slice_index_or sites.now 0 None ≡ None }
    requires numbers { length sites.now ≤ most_imps + 1 }
    requires hosts { All (λ site. IfSome site (λ count. count ≤ 4)) sites.now }
    requires few { length lines.now < 256 }
    ensures { IfOk result (λ imps. imps.items ≡ start.opened_from 0 sites.now (λ i. count_by (ends_at i) lines.now)) }
{
    let mut imps = Vec::new(alloc);
    for (at, site) in sites.iter().enumerate() {
        let number = at as u8;
        let ports = port_of(lines, number, lines.len());
        imps.push(opened(alloc, number, *site, ports)?)?;
    }
    Ok(imps)
}

/// Returns the IMP of a site, if there is one.
fn opened(alloc: Global, number: u8, site: Option<u8>, ports: u8) -> Result<Option<Imp>, AllocError>
    requires { IfSome site (λ count. (1 ≤ number) × (number ≤ most_imps) × (count ≤ 4)) }
    ensures { IfOk result (λ imp. imp ≡ start.opened_imp number site ports) }
{
    let Some(hosts) = site else {
        return Ok(None);
    };
    match ImpNumber::new(number) {
        Some(own) => Ok(Some(Imp::new(alloc, own, hosts, ports)?)),
        None => unreachable!(),
    }
}
