//! What each event does to the parts of a world.

ghost use Rattle.std.specs.Prelude.{◌≡◌, ◌<◌, ℕ, None, Some, Err, IfErr, IfOk, OnOk, MatchResult, is_some, length, reverse, true};
ghost use Rattle.interface.specs.Host.{Host};
ghost use Rattle.host_services.specs.Services.{ServicesState, opening_desk};
ghost use Rattle.host_services.specs.Turns.{server_begun, user_begun};
ghost use Rattle.host_services.specs.TypedLines.{line_bits};
ghost use Rattle.net_sim.specs.Book.{all_told, all_crossed, asked};
ghost use Rattle.net_sim.specs.Inside.Notes.{BeginsWith};
ghost use Rattle.net_sim.specs.Inside.Parts.{Sits, Serves, IsAway, IsOnce, IsUpAt, AreLive, hosts_of, opening_hosts, OfHostAt, SaysNext, AreTended, AreAnswered, AreBegun, AreRefused, LacksMemory, crossed_by, line_sent};
ghost use Rattle.net_sim.specs.World as world;
ghost use Rattle.net_sim.specs.World.{turn_of};
ghost use Rattle.sockets.specs.Accepting.{accepted};
ghost use Rattle.sockets.specs.Pairs.{NcpState};
ghost use Rattle.sockets.specs.Requests.{refusal, served, served_notices};
ghost use Rattle.sockets.specs.Sending as sending;
ghost use Rattle.sockets.specs.declared.fault.NcpFault.{NcpFault};
ghost use Rattle.sockets.specs.declared.fault.NcpFault.TheVariants as problem;
ghost use Rattle.sockets.specs.declared.request.Request.TheVariants as requests;

use crate::WorldFault;
use crate::book::Book;
use crate::hosting::{likely_place, place};
use crate::notes::Notes;
use crate::seat::{Seat, ServiceSeat, empty_all, opening_seats, opening_services, turn_all};
use host_services::TypedLine;
use interface::{CarrierFault, Crossing, HostAddr, HostMessage, Inbound};
use sockets::{NcpFault, Request};
use std::alloc::{AllocError, Global};
use std::marker::Model;

/// The hosts of a world: their programs, what else runs on them, and the book of what happens to them.
///
/// Each host is there once. Its seat and its services are at the same place, in the carrier's order. A program that ran
/// out of memory is allowed here. Calls of a program require that none has.
#[derive(Drop)]
pub(crate) struct Hosts {
    seats: Vec<Seat>,
    services: Vec<ServiceSeat>,
    notes: Notes,
    alloc: Global,
}

impl Model for Hosts {
    ghost use Rattle.net_sim.specs.Inside.Parts.{AreHosts, HostsState};

    ghost Value = { HostsState };

    ghost view = { λ h. record { seats = h.seats.items; services = h.services.items; book = h.notes } };

    ghost invariant = { λ h. AreHosts h.seats.items h.services.items };
}

/// Returns the place where a host's program runs. A likely place of its seat is looked at before the others.
fn up_near(seats: &[Seat], likely: usize, host: HostAddr) -> Result<usize, WorldFault>
    requires once { IsOnce (hosts_of seats.now) }
    ensures { MatchResult result (λ at. (s : NcpState) × Sits host at s seats.now) (λ f. IsAway host f seats.now) }
{
    let Some(at) = place(seats, likely, host) else {
        return Err(WorldFault::Carrier(CarrierFault::NoSuch));
    };
    if seats[at].program.is_none() {
        return Err(WorldFault::Carrier(CarrierFault::IsDown));
    }
    Ok(at)
}

/// Returns what a host's program says next. It needs memory only if it says something.
#[tactic(auto, unfolding(sockets::specs::Sending::next_out))]
fn next_out(seats: &[Seat], at: usize) -> Result<Option<HostMessage>, WorldFault>
    requires within { at < length seats.now }
    ensures { (h : Host) (s : NcpState) → Sits h at s seats.now → SaysNext s result }
{
    let Some(program) = &seats[at].program else {
        return Ok(None);
    };
    let Ok(message) = program.next_out() else {
        return Err(WorldFault::Program(NcpFault::OutOfMemory));
    };
    Ok(message)
}

/// Returns why a host's program would refuse to send a line.
#[tactic(auto, unfolding(sockets::specs::Requests::refusal))]
fn line_refusal(seat: &Seat, socket: u32, line: &TypedLine) -> Option<NcpFault>
    ensures { (s : NcpState) → seat.now.program ≡ Some s → result ≡ refusal s (line_sent socket line.now) }
{
    let Some(program) = &seat.program else {
        return None;
    };
    program.send_refusal(socket, line.bits())
}

impl Hosts {
    /// Returns these hosts with programs that have just come up, and an empty book.
    pub(crate) fn new(alloc: Global, hosts: &[HostAddr]) -> Result<Hosts, AllocError>
        requires once { IsOnce hosts.now }
        ensures { IfOk result (λ opened. opened ≡ opening_hosts hosts.now) }
    {
        let seats = opening_seats(alloc, hosts)?;
        let services = opening_services(alloc, hosts)?;
        Ok(Hosts {
            seats,
            services,
            notes: Notes::new(alloc),
            alloc,
        })
    }

    /// Returns the hosts with their programs.
    pub(crate) fn seats(&self) -> &[Seat]
        ensures value { result.now ≡ self.now.seats }
        ensures once { IsOnce (hosts_of self.now.seats) }
    {
        &self.seats
    }

    /// Returns what runs on them beside their programs.
    pub(crate) fn services(&self) -> &[ServiceSeat]
        ensures { result.now ≡ self.now.services }
    {
        &self.services
    }

    /// Returns what happened so far, where what crossed is the oldest of this log.
    pub(crate) fn book<'a>(&'a self, log: &'a [Crossing]) -> Book<'a>
        requires { BeginsWith self.now.book log.now }
        ensures { result ≡ self.now.book }
    {
        Book::over(log, &self.notes)
    }

    /// Returns how many crossings there were.
    pub(crate) fn crossed(&self) -> usize
        ensures { result ≡ length self.now.book.book.crossings }
    {
        self.notes.crossed()
    }

    /// Returns the place where a host's program runs.
    pub(crate) fn up_at(&self, host: HostAddr) -> Result<usize, WorldFault>
        ensures { MatchResult result (λ at. IsUpAt host at self.now) (λ f. IsAway host f self.now.seats) }
    {
        self.up_near(likely_place(&self.seats, host), host)
    }

    /// Returns the same place, if a likely place of the host's seat is known. It is looked at before the others.
    pub(crate) fn up_near(&self, likely: usize, host: HostAddr) -> Result<usize, WorldFault>
        ensures { MatchResult result (λ at. IsUpAt host at self.now) (λ f. IsAway host f self.now.seats) }
    {
        up_near(&self.seats, likely, host)
    }

    /// Returns what a host's program says next. It needs memory only if it says something.
    pub(crate) fn next_out(&self, at: usize) -> Result<Option<HostMessage>, WorldFault>
        requires within { at < length self.now.seats }
        ensures { (h : Host) (s : NcpState) → Sits h at s self.now.seats → SaysNext s result }
    {
        next_out(&self.seats, at)
    }

    /// Hands what came for a host to its program. The last of the log, from a place on, has just crossed.
    pub(crate) fn hear(
        &mut self,
        at: usize,
        news: &[Crossing],
        inbound: Inbound,
    ) -> Result<(), WorldFault>
        requires within { at < length self.old.seats }
        requires live { AreLive self.old.seats }
        ensures done { OfHostAt at self.old (λ h s x. OnOk result (AreTended h x (accepted s inbound (length self.old.book.book.crossings)) (crossed_by news.now self.old) self.old self.new)) }
        ensures kept { IfErr result (LacksMemory self.old self.new) }
    {
        let Ok(()) = self.services[at].hear(
            self.alloc,
            &mut self.seats[at],
            &mut self.notes,
            news,
            inbound,
        ) else {
            return Err(WorldFault::Program(NcpFault::OutOfMemory));
        };
        Ok(())
    }

    /// Lets a host's program know that its next message went out. The last of the log, from a place on, has just crossed.
    pub(crate) fn go_out(&mut self, at: usize, news: &[Crossing]) -> Result<(), WorldFault>
        requires within { at < length self.old.seats }
        requires live { AreLive self.old.seats }
        ensures done { OfHostAt at self.old (λ h s x. OnOk result (AreTended h x (sending.offered s (length self.old.book.book.crossings)) (crossed_by news.now self.old) self.old self.new)) }
        ensures kept { IfErr result (LacksMemory self.old self.new) }
    {
        let Ok(()) = self.services[at].go_out(
            self.alloc,
            &mut self.seats[at],
            &mut self.notes,
            news,
        ) else {
            return Err(WorldFault::Program(NcpFault::OutOfMemory));
        };
        Ok(())
    }

    /// Stops and starts hosts. The last of the log, from a place on, has just crossed.
    #[tactic(auto, using(crate::proofs::Books::InOrder::turned_reversed, crate::proofs::Books::InOrder::emptied_reversed))]
    pub(crate) fn change(&mut self, news: &[Crossing]) -> Result<(), WorldFault>
        ensures done { OnOk result (self.new.seats ≡ world.all_turned (reverse news.now) self.old.seats) }
        ensures services { OnOk result (self.new.services ≡ world.all_emptied (reverse news.now) self.old.services) }
        ensures told { OnOk result (self.new.book ≡ all_crossed (reverse news.now) self.old.book) }
        ensures kept { IfErr result (LacksMemory self.old self.new) }
    {
        let Ok(()) = self.notes.cross(news) else {
            return Err(WorldFault::Program(NcpFault::OutOfMemory));
        };
        turn_all(self.alloc, &mut self.seats, news);
        empty_all(self.alloc, &mut self.services, news);
        Ok(())
    }

    /// Asks a host's program for something on behalf of its user.
    pub(crate) fn ask_at(&mut self, at: usize, request: &Request) -> Result<(), WorldFault>
        requires within { at < length self.old.seats }
        requires live { AreLive self.old.seats }
        ensures refused { (h : Host) (s : NcpState) (f : NcpFault) → Sits h at s self.old.seats → refusal s request.now ≡ Some f → AreRefused f result self.old self.new }
        ensures served { OfHostAt at self.old (λ h s x. refusal s request.now ≡ None → AreAnswered h s x request.now result self.old self.new) }
    {
        self.services[at].ask(self.alloc, &mut self.seats[at], &mut self.notes, request)
    }

    /// Types a line at a host, at the terminal that came last.
    pub(crate) fn type_at(&mut self, at: usize, line: &TypedLine) -> Result<(), WorldFault>
        requires within { at < length self.old.seats }
        requires live { AreLive self.old.seats }
        ensures without { (h : Host) (x : ServicesState) → Serves h at x self.old.services → x.typing ≡ None → AreRefused problem.NotOpen result self.old self.new }
        ensures refused { OfHostAt at self.old (λ h s x. (n : ℕ) (f : NcpFault) → x.typing ≡ Some n → refusal s (line_sent n line.now) ≡ Some f → AreRefused f result self.old self.new) }
        ensures served { OfHostAt at self.old (λ h s x. (n : ℕ) → x.typing ≡ Some n → refusal s (line_sent n line.now) ≡ None → AreAnswered h s x (line_sent n line.now) result self.old self.new) }
    {
        let Some(socket) = self.services[at].services.typing() else {
            return Err(WorldFault::Program(NcpFault::NotOpen));
        };
        let Ok(request) = line.request(socket.number()) else {
            let refusal = line_refusal(&self.seats[at], socket.number(), line);
            return Err(WorldFault::Program(refusal.unwrap_or(NcpFault::OutOfMemory)));
        };
        self.ask_at(at, &request)
    }

    /// Starts a server at a host.
    pub(crate) fn server_at(&mut self, at: usize, listen: u32, base: u32) -> Result<(), WorldFault>
        requires within { at < length self.old.seats }
        ensures done { OfHostAt at self.old (λ h s x. OnOk result (AreBegun h (server_begun listen base x (opening_desk h (length self.old.book.book.notices) s)) self.old self.new)) }
        ensures kept { IfErr result (LacksMemory self.old self.new) }
    {
        let Some(program) = self.seats[at].program.take() else {
            return Ok(());
        };
        let Ok(program) = self.services[at].begin_server(
            self.alloc,
            &mut self.notes,
            program,
            listen,
            base,
        ) else {
            return Err(WorldFault::Program(NcpFault::OutOfMemory));
        };
        self.seats[at].program = Some(program);
        Ok(())
    }

    /// Starts a user at a host.
    pub(crate) fn user_at(
        &mut self,
        at: usize,
        peer: HostAddr,
        listen: u32,
        own: u32,
    ) -> Result<(), WorldFault>
        requires within { at < length self.old.seats }
        ensures done { OfHostAt at self.old (λ h s x. OnOk result (AreBegun h (user_begun peer listen own x (opening_desk h (length self.old.book.book.notices) s)) self.old self.new)) }
        ensures kept { IfErr result (LacksMemory self.old self.new) }
    {
        let Some(program) = self.seats[at].program.take() else {
            return Ok(());
        };
        let Ok(program) = self.services[at].begin_user(
            self.alloc,
            &mut self.notes,
            program,
            peer,
            listen,
            own,
        ) else {
            return Err(WorldFault::Program(NcpFault::OutOfMemory));
        };
        self.seats[at].program = Some(program);
        Ok(())
    }
}
