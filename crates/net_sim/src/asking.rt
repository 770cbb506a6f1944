//! What a host's user asks for, and what is written down of it.

ghost use Rattle.std.specs.Prelude.{◌≡◌, ◌++◌, false, None, Some, Err, IfOk, IfSome, OnOk, OnErr, MatchResult, length, take};
ghost use Rattle.std.specs.List.{flat_map};
ghost use Rattle.host_services.specs.Services.{opening_desk};
ghost use Rattle.host_services.specs.Turns.{server_begun, user_begun};
ghost use Rattle.net_sim.specs.Book.{all_asked, all_reported, all_told, asked, contacts_asked};
ghost use Rattle.net_sim.specs.Inside.Parts.{Attends, Begins, IsNoMemory, OfProgram, RefusedIn, ServedIn, Settles, SettlesAsked};
ghost use Rattle.net_sim.specs.Timeline.{IsAddressed, IsAsked};
ghost use Rattle.net_sim.specs.World as world;
ghost use Rattle.sockets.specs.Pairs.{NcpState};
ghost use Rattle.sockets.specs.Requests.{refusal, served, served_notices};
ghost use Rattle.sockets.specs.declared.fault.NcpFault.{NcpFault};
ghost use Rattle.sockets.specs.declared.fault.NcpFault.TheVariants as problem;

use crate::WorldFault;
use crate::hosting::{tend, write_crossing};
use crate::notes::{Notes, Page};
use crate::seat::{Seat, ServiceSeat};
use host_services::{Deeds, ServiceDesk, copy_of};
use interface::HostAddr;
use promise::Called;
use sockets::{Ncp, NcpFault, Notice, Request};
use std::alloc::{AllocError, Global};

/// Proves that a request names its peer by an address and has numbers in their ranges, as their types promise.
///
/// It is there for the proof only, and does nothing: it looks at the address and at the numbers, and the prover then knows
/// their ranges, which it does not take from a type by itself.
pub(crate) fn is_addressed(request: &Request)
    ensures addressed { IsAddressed request.now }
    ensures ranged { IsAsked request.now }
{
    match request {
        Request::Contact { peer } => {
            let _ = (peer.imp(), peer.host());
        }
        Request::Listen { size, .. } => {
            let _size = *size;
        }
        Request::OpenSend {
            peer,
            own,
            foreign,
            size,
        } => {
            let _ = (peer.imp(), peer.host(), *own, *foreign, *size);
        }
        Request::OpenReceive { peer, own, foreign } => {
            let _ = (peer.imp(), peer.host(), *own, *foreign);
        }
        Request::Grant { messages, bits, .. } => {
            let _ = (*messages, *bits);
        }
        Request::AskBack { messages, bits, .. } => {
            let _ = (*messages, *bits);
        }
        Request::Echo { peer, octet } => {
            let _ = (peer.imp(), peer.host(), *octet);
        }
        Request::Send { .. } | Request::Interrupt { .. } | Request::Close { .. } => {}
    }
}

/// Adds the contact that a request is, if it is one, after those that were asked for before.
pub(crate) fn add_called(
    all: &mut Vec<Called>,
    host: HostAddr,
    place: usize,
    request: &Request,
) -> Result<(), AllocError>
    ensures done { OnOk result (all.new.items ≡ all.old.items ++ contacts_asked host place request.now) }
    ensures before { take (length all.old.items) all.new.items ≡ all.old.items }
    ensures kept { OnErr result (all.new.items ≡ all.old.items) }
{
    match request {
        Request::Contact { peer } => {
            let peer = *peer;
            all.push(Called { host, place, peer })?;
        }
        Request::Listen { .. }
        | Request::OpenSend { .. }
        | Request::OpenReceive { .. }
        | Request::Send { .. }
        | Request::Grant { .. }
        | Request::AskBack { .. }
        | Request::Interrupt { .. }
        | Request::Close { .. }
        | Request::Echo { .. } => {}
    }
    Ok(())
}

/// Returns the contacts among these requests.
pub(crate) fn called_in(
    alloc: Global,
    host: HostAddr,
    place: usize,
    requests: &[Request],
) -> Result<Vec<Called>, AllocError>
    ensures { IfOk result (λ called. called.items ≡ flat_map (contacts_asked host place) requests.now) }
{
    let mut called = Vec::new(alloc);
    for request in requests {
        add_called(&mut called, host, place, request)?;
    }
    Ok(called)
}

/// Writes down what a host's user asked for, what it was notified of it, and what the host's services did then.
fn write_asked(
    alloc: Global,
    notes: &mut Notes,
    host: HostAddr,
    request: Request,
    notices: Vec<Notice>,
    deeds: Deeds,
) -> Result<(), AllocError>
    ensures done { OnOk result (notes.new ≡ all_reported deeds.reports.items (all_asked host deeds.asked.items (all_told host notices.items (asked host request notes.old)))) }
    ensures kept { OnErr result (notes.new ≡ notes.old) }
{
    let place = notes.crossed();
    let mut called = Vec::new(alloc);
    add_called(&mut called, host, place, &request)?;
    called.append(&mut called_in(alloc, host, place, &deeds.asked)?)?;
    notes.write(
        &[],
        Page {
            host,
            asked: Some((host, request)),
            called,
            notices,
            ran: deeds.asked,
            reports: deeds.reports,
        },
    )
}

/// Writes down what a host's services did.
fn write_deeds(
    alloc: Global,
    notes: &mut Notes,
    host: HostAddr,
    deeds: Deeds,
) -> Result<(), AllocError>
    ensures done { OnOk result (notes.new ≡ all_reported deeds.reports.items (all_asked host deeds.asked.items notes.old)) }
    ensures kept { OnErr result (notes.new ≡ notes.old) }
{
    write_crossing(alloc, notes, host, &[], Vec::new(alloc), deeds)
}

/// Asks the program in a seat for something, which it refuses or serves. Returns its notices.
fn asked_of(seat: &mut Seat, request: &Request) -> Result<Vec<Notice>, WorldFault>
    requires live { IfSome seat.old.program (λ p. p.spent ≡ false) }
    ensures host { seat.new.host ≡ seat.old.host }
    ensures refused { OfProgram seat.old (λ s. (f : NcpFault) → refusal s request.now ≡ Some f → (result ≡ Err (world.Program f)) × (seat.new ≡ seat.old)) }
    ensures served { OfProgram seat.old (λ s. refusal s request.now ≡ None → MatchResult result (λ notices. ServedIn seat.old s request.now seat.new notices.items) IsNoMemory) }
{
    let Some(program) = &mut seat.program else {
        return Err(WorldFault::Program(NcpFault::OutOfMemory));
    };
    match program.serve(request) {
        Ok(notices) => Ok(notices),
        Err(fault) => Err(WorldFault::Program(fault)),
    }
}

impl ServiceSeat {
    /// Lets the services have their turns after the program of the host has served what its user asked for and answered
    /// this: the services have their turns, and all is written down. Returns the program.
    fn attend(
        &mut self,
        alloc: Global,
        notes: &mut Notes,
        program: Ncp,
        request: &Request,
        notices: Vec<Notice>,
    ) -> Result<Ncp, AllocError>
        ensures host { self.new.host ≡ self.old.host }
        ensures done { IfOk result (λ after. Attends self.old (program, notices.items) notes.old (asked self.old.host request.now notes.old) after self.new notes.new) }
        ensures kept { OnErr result (notes.new ≡ notes.old) }
    {
        let before = notes.notices().len();
        let desk = tend(
            alloc,
            self.host,
            &mut self.services,
            before,
            program,
            &notices,
        )?;
        let (program, deeds) = desk.into_parts();
        write_asked(alloc, notes, self.host, copy_of(request)?, notices, deeds)?;
        Ok(program)
    }

    /// Lets the services have their turns after the program in a seat of the host has served what its user asked for
    /// and answered with notices. Where that is something, the services have their turns. All is written down.
    fn answer(
        &mut self,
        alloc: Global,
        seat: &mut Seat,
        notes: &mut Notes,
        request: &Request,
        notices: Vec<Notice>,
    ) -> Result<(), AllocError>
        ensures host { self.new.host ≡ self.old.host }
        ensures seat { seat.new.host ≡ seat.old.host }
        ensures done { OnOk result (OfProgram seat.old (λ s. Settles self.old seat.old (s, notices.items) notes.old (asked self.old.host request.now notes.old) seat.new self.new notes.new)) }
        ensures kept { OnErr result (notes.new ≡ notes.old) }
    {
        if notices.is_empty() {
            return notes.ask(self.host, request);
        }
        let Some(program) = seat.program.take() else {
            return Ok(());
        };
        let program = self.attend(alloc, notes, program, request, notices)?;
        seat.program = Some(program);
        Ok(())
    }

    /// Asks the program in a seat of the host for something on behalf of its user. What is refused changes nothing.
    pub(crate) fn ask(
        &mut self,
        alloc: Global,
        seat: &mut Seat,
        notes: &mut Notes,
        request: &Request,
    ) -> Result<(), WorldFault>
        requires live { IfSome seat.old.program (λ p. p.spent ≡ false) }
        ensures host { self.new.host ≡ self.old.host }
        ensures seat { seat.new.host ≡ seat.old.host }
        ensures refused { OfProgram seat.old (λ s. (f : NcpFault) → refusal s request.now ≡ Some f → RefusedIn f result self.old seat.old notes.old seat.new self.new notes.new) }
        ensures served { OfProgram seat.old (λ s. refusal s request.now ≡ None → SettlesAsked self.old seat.old s request.now notes.old result seat.new self.new notes.new) }
    {
        let notices = asked_of(seat, request)?;
        let Ok(()) = self.answer(alloc, seat, notes, request, notices) else {
            return Err(WorldFault::Program(NcpFault::OutOfMemory));
        };
        Ok(())
    }

    /// Starts a server on the host. Returns the program.
    pub(crate) fn begin_server(
        &mut self,
        alloc: Global,
        notes: &mut Notes,
        program: Ncp,
        listen: u32,
        base: u32,
    ) -> Result<Ncp, AllocError>
        ensures host { self.new.host ≡ self.old.host }
        ensures done { IfOk result (λ after. Begins (server_begun listen base) self.old program notes.old after self.new notes.new) }
        ensures kept { OnErr result (notes.new ≡ notes.old) }
    {
        let mut desk = ServiceDesk::new(alloc, self.host, notes.notices().len(), program);
        self.services.serve(&mut desk, listen, base)?;
        let (program, deeds) = desk.into_parts();
        write_deeds(alloc, notes, self.host, deeds)?;
        Ok(program)
    }

    /// Starts a user on the host. Returns the program.
    pub(crate) fn begin_user(
        &mut self,
        alloc: Global,
        notes: &mut Notes,
        program: Ncp,
        peer: HostAddr,
        listen: u32,
        own: u32,
    ) -> Result<Ncp, AllocError>
        ensures host { self.new.host ≡ self.old.host }
        ensures done { IfOk result (λ after. Begins (user_begun peer listen own) self.old program notes.old after self.new notes.new) }
        ensures kept { OnErr result (notes.new ≡ notes.old) }
    {
        let mut desk = ServiceDesk::new(alloc, self.host, notes.notices().len(), program);
        self.services.connect(&mut desk, peer, listen, own)?;
        let (program, deeds) = desk.into_parts();
        write_deeds(alloc, notes, self.host, deeds)?;
        Ok(program)
    }
}
