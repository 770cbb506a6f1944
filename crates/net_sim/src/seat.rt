//! Where a host's program runs.

ghost use Rattle.std.specs.Prelude.{◌≡◌, None, Some, IfOk};
ghost use Rattle.interface.specs.Host.{same_host};
ghost use Rattle.host_services.specs.Services.{no_services};
ghost use Rattle.net_sim.specs.Inside.Seats.{emptied_in_order, turned_in_order};
ghost use Rattle.net_sim.specs.World as world;
ghost use Rattle.sockets.specs.Pairs.{opening_state};

use host_services::Services;
use interface::{Crossing, HostAddr};
use sockets::Ncp;
use std::alloc::{AllocError, Global};

/// A host of the network, and its program while it is up.
#[derive(Drop)]
pub struct Seat {
    /// The host's address.
    pub host: HostAddr,
    /// Its network control program; none while it is down.
    pub program: Option<Ncp>,
}

impl Seat {
    /// Stops the host of this seat, if it is this one: it loses its program.
    fn stop(&mut self, host: HostAddr)
        ensures { self.new ≡ world.with_program (same_host host self.old.host) None self.old }
    {
        if host == self.host {
            self.program = None;
        }
    }

    /// Starts the host of this seat, if it is this one: it has a new program.
    fn start(&mut self, alloc: Global, host: HostAddr)
        ensures { self.new ≡ world.with_program (same_host host self.old.host) (Some (opening_state host)) self.old }
    {
        if host == self.host {
            self.program = Some(Ncp::new(alloc, host));
        }
    }
}

/// A host of the network, and what runs there beside its network control program.
#[derive(Drop)]
pub struct ServiceSeat {
    /// The host's address.
    pub host: HostAddr,
    /// Its services; none while it is down.
    pub services: Services,
}

impl ServiceSeat {
    /// Stops the host of this seat, if it is this one: it loses its services.
    fn stop(&mut self, alloc: Global, host: HostAddr)
        ensures { self.new ≡ world.with_services (same_host host self.old.host) no_services self.old }
    {
        if host == self.host {
            self.services = Services::new(alloc);
        }
    }
}

/// Returns the services of hosts on which nothing runs.
pub(crate) fn opening_services(
    alloc: Global,
    hosts: &[HostAddr],
) -> Result<Vec<ServiceSeat>, AllocError>
    ensures { IfOk result (λ all. all.items ≡ world.opening_services hosts.now) }
{
    let mut all = Vec::new(alloc);
    for host in hosts {
        all.push(ServiceSeat {
            host: *host,
            services: Services::new(alloc),
        })?;
    }
    Ok(all)
}

/// Removes the services of a host.
fn empty(alloc: Global, all: &mut [ServiceSeat], host: HostAddr)
    ensures { all.new ≡ world.serviced host no_services all.old }
{
    for services in all.iter_mut() {
        services.stop(alloc, host);
    }
}

/// Removes the services of hosts that stop, crossing by crossing.
pub(crate) fn empty_all(alloc: Global, all: &mut [ServiceSeat], crossings: &[Crossing])
    ensures { all.new ≡ emptied_in_order crossings.now all.old }
{
    for crossing in crossings {
        if let Crossing::Down(host) = crossing {
            empty(alloc, all, *host);
        }
    }
}

/// Returns a seat for each host, each with a program that has just come up.
pub(crate) fn opening_seats(alloc: Global, hosts: &[HostAddr]) -> Result<Vec<Seat>, AllocError>
    ensures { IfOk result (λ seats. seats.items ≡ world.opening_seats hosts.now) }
{
    let mut seats = Vec::new(alloc);
    for host in hosts {
        let program = Some(Ncp::new(alloc, *host));
        seats.push(Seat {
            host: *host,
            program,
        })?;
    }
    Ok(seats)
}

/// Stops a host, whose program is gone.
fn stop(seats: &mut [Seat], host: HostAddr)
    ensures { seats.new ≡ world.seated host None seats.old }
{
    for seat in seats.iter_mut() {
        seat.stop(host);
    }
}

/// Starts a host, with a new program.
fn start(alloc: Global, seats: &mut [Seat], host: HostAddr)
    ensures { seats.new ≡ world.seated host (Some (opening_state host)) seats.old }
{
    for seat in seats.iter_mut() {
        seat.start(alloc, host);
    }
}

/// Removes the program of a host that stops, and gives one that starts a new one.
fn turn(alloc: Global, seats: &mut [Seat], crossing: &Crossing)
    ensures { seats.new ≡ world.seats_turned crossing.now seats.old }
{
    match crossing {
        Crossing::Down(host) => stop(seats, *host),
        Crossing::Up(host) => start(alloc, seats, *host),
        Crossing::Out(_) | Crossing::In(_) | Crossing::Answer(..) => {}
    }
}

/// Does the same, crossing by crossing.
pub(crate) fn turn_all(alloc: Global, seats: &mut [Seat], crossings: &[Crossing])
    ensures { seats.new ≡ turned_in_order crossings.now seats.old }
{
    for crossing in crossings {
        turn(alloc, seats, crossing);
    }
}
