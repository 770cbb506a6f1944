//! What the hosts do with what the carrier gives, and what is written down of it.

ghost use Rattle.std.specs.Prelude.{◌≡◌, ◌<◌, Some, true, false, IfOk, IfSome, OnOk, OnErr, reverse, length, slice_index_or};
ghost use Rattle.std.specs.Bool.{OnTrue};
ghost use Rattle.std.specs.List.{position};
ghost use Rattle.interface.specs.Host.{same_host};
ghost use Rattle.net_sim.specs.Book.{all_asked, all_told, all_crossed, all_reported};
ghost use Rattle.net_sim.specs.Inside.Parts.{Attends, IsOnce, OfProgram, SettlesNews, hosts_of};
ghost use Rattle.net_sim.specs.World as world;
ghost use Rattle.net_sim.specs.World.{Seat};
ghost use Rattle.sockets.specs.Accepting.{accepted};
ghost use Rattle.sockets.specs.Pairs.{NcpState};
ghost use Rattle.sockets.specs.Sending.{offered};

use crate::asking::called_in;
use crate::notes::{Notes, Page};
use crate::seat::{Seat, ServiceSeat};
use host_services::{Deeds, ServiceDesk, Services};
use interface::{Crossing, HostAddr, Inbound};
use sockets::{Ncp, Notice};
use std::alloc::{AllocError, Global};

/// Returns where a host's seat is in a network whose IMPs are numbered from 1 on and all have the same number of hosts.
/// It promises nothing: in another network another host may sit there, or none.
pub(crate) fn likely_place(seats: &[Seat], host: HostAddr) -> usize {
    let Some(last) = seats.last() else {
        return 0;
    };
    let each = seats.len() / usize::from(last.host.imp());
    usize::from(host.imp() - 1)
        .saturating_mul(each)
        .saturating_add(usize::from(host.host()))
}

/// Returns whether a host's seat is at this place.
fn sits_at(seats: &[Seat], at: usize, host: HostAddr) -> bool
    ensures { OnTrue result ((at < length seats.now) × ((d : Seat) → same_host host (slice_index_or seats.now at d).host ≡ true)) }
{
    if at >= seats.len() {
        return false;
    }
    host == seats[at].host
}

/// Returns the first place of a host's seat.
fn first_place(seats: &[Seat], host: HostAddr) -> Option<usize>
    ensures { result ≡ position (λ s. same_host host s.host) seats.now }
{
    seats.iter().position(|seat| host == seat.host)
}

/// Returns the place of a host's seat. A likely place is looked at before the others.
pub(crate) fn place(seats: &[Seat], likely: usize, host: HostAddr) -> Option<usize>
    requires once { IsOnce (hosts_of seats.now) }
    ensures { result ≡ position (λ s. same_host host s.host) seats.now }
{
    if sits_at(seats, likely, host) {
        return Some(likely);
    }
    first_place(seats, host)
}

/// Passes what its program notifies to the services of a host. Returns the host as they leave it.
pub(crate) fn tend(
    alloc: Global,
    host: HostAddr,
    services: &mut Services,
    before: usize,
    program: Ncp,
    notices: &[Notice],
) -> Result<ServiceDesk, AllocError>
    ensures { IfOk result (λ desk. world.turn_of host before services.old (program, notices.now) ≡ (services.new, desk)) }
{
    let mut desk = ServiceDesk::new(alloc, host, before, program);
    services.tell(&mut desk, notices)?;
    Ok(desk)
}

/// Writes down what crossed at a host, the notices to its user about it, and what its services did then.
pub(crate) fn write_crossing(
    alloc: Global,
    notes: &mut Notes,
    host: HostAddr,
    news: &[Crossing],
    notices: Vec<Notice>,
    deeds: Deeds,
) -> Result<(), AllocError>
    ensures done { OnOk result (notes.new ≡ all_reported deeds.reports.items (all_asked host deeds.asked.items (all_told host notices.items (all_crossed (reverse news.now) notes.old)))) }
    ensures kept { OnErr result (notes.new ≡ notes.old) }
{
    let place = notes.place_after(news)?;
    let called = called_in(alloc, host, place, &deeds.asked)?;
    notes.write(
        news,
        Page {
            host,
            asked: None,
            called,
            notices,
            ran: deeds.asked,
            reports: deeds.reports,
        },
    )
}

impl ServiceSeat {
    /// Records what the program of the host made of what crossed: the services have their turns, and all is written
    /// down. Returns the program.
    #[inline(never)]
    fn tell(
        &mut self,
        alloc: Global,
        notes: &mut Notes,
        news: &[Crossing],
        program: Ncp,
        notices: Vec<Notice>,
    ) -> Result<Ncp, AllocError>
        ensures host { self.new.host ≡ self.old.host }
        ensures done { IfOk result (λ after. Attends self.old (program, notices.items) notes.old (all_crossed (reverse news.now) notes.old) after self.new notes.new) }
        ensures kept { OnErr result (notes.new ≡ notes.old) }
    {
        let before = notes.notices().len();
        let desk = tend(
            alloc,
            self.host,
            &mut self.services,
            before,
            program,
            &notices,
        )?;
        let (program, deeds) = desk.into_parts();
        write_crossing(alloc, notes, self.host, news, notices, deeds)?;
        Ok(program)
    }

    /// Records what the program in a seat of the host made of what crossed. Where that is something, the services have
    /// their turns. All is written down.
    fn settle(
        &mut self,
        alloc: Global,
        seat: &mut Seat,
        notes: &mut Notes,
        news: &[Crossing],
        notices: Vec<Notice>,
    ) -> Result<(), AllocError>
        ensures host { self.new.host ≡ self.old.host }
        ensures seat { seat.new.host ≡ seat.old.host }
        ensures done { OnOk result (OfProgram seat.old (λ s. SettlesNews news.now self.old seat.old (s, notices.items) notes.old seat.new self.new notes.new)) }
        ensures kept { OnErr result (notes.new ≡ notes.old) }
    {
        if notices.is_empty() {
            return notes.cross(news);
        }
        if !self.services.hear_any(&notices) {
            return notes.tell(self.host, news, notices);
        }
        let Some(program) = seat.program.take() else {
            return Ok(());
        };
        let program = self.tell(alloc, notes, news, program, notices)?;
        seat.program = Some(program);
        Ok(())
    }

    /// Hands what came for a host to the program in its seat.
    pub(crate) fn hear(
        &mut self,
        alloc: Global,
        seat: &mut Seat,
        notes: &mut Notes,
        news: &[Crossing],
        inbound: Inbound,
    ) -> Result<(), AllocError>
        requires live { IfSome seat.old.program (λ p. p.spent ≡ false) }
        ensures host { self.new.host ≡ self.old.host }
        ensures seat { seat.new.host ≡ seat.old.host }
        ensures done { OnOk result (OfProgram seat.old (λ s. SettlesNews news.now self.old seat.old (accepted s inbound (length notes.old.book.crossings)) notes.old seat.new self.new notes.new)) }
        ensures kept { OnErr result (notes.new ≡ notes.old) }
    {
        let Some(program) = &mut seat.program else {
            return Ok(());
        };
        let Ok(notices) = program.accept(inbound, notes.crossed()) else {
            return Err(AllocError);
        };
        self.settle(alloc, seat, notes, news, notices)
    }

    /// Lets the program in a seat of the host know that its next message went out.
    pub(crate) fn go_out(
        &mut self,
        alloc: Global,
        seat: &mut Seat,
        notes: &mut Notes,
        news: &[Crossing],
    ) -> Result<(), AllocError>
        requires live { IfSome seat.old.program (λ p. p.spent ≡ false) }
        ensures host { self.new.host ≡ self.old.host }
        ensures seat { seat.new.host ≡ seat.old.host }
        ensures done { OnOk result (OfProgram seat.old (λ s. SettlesNews news.now self.old seat.old (offered s (length notes.old.book.crossings)) notes.old seat.new self.new notes.new)) }
        ensures kept { OnErr result (notes.new ≡ notes.old) }
    {
        let Some(program) = &mut seat.program else {
            return Ok(());
        };
        let Ok(notices) = program.offered(notes.crossed()) else {
            return Err(AllocError);
        };
        self.settle(alloc, seat, notes, news, notices)
    }
}
