//! A host while its services have their turns.

ghost use Rattle.std.specs.Prelude.{◌≡◌, OnErr, OnOk, IfOk};
ghost use Rattle.host_services.specs.Named.{HasBits};
ghost use Rattle.host_services.specs.Services as services;
ghost use Rattle.host_services.specs.Turns as turns;
ghost use Rattle.sockets.specs.Requests.{refusal};

use crate::{Report, Reported};
use interface::HostAddr;
use ncp_control::SendSocket;
use sockets::{Ncp, NcpFault, Request};
use std::alloc::{AllocError, Global};
use std::marker::Model;
use terminal::Line;

/// A host while its services have their turns: its control program, which of their requests were served, and what they have
/// reported.
///
/// A call that runs out of memory leaves it of no use.
#[derive(Drop)]
pub struct ServiceDesk {
    host: HostAddr,
    notices: usize,
    program: Ncp,
    pub(crate) typing: Option<SendSocket>,
    asked: Vec<Request>,
    reports: Vec<Reported>,
}

impl Model for ServiceDesk {
    ghost use Rattle.host_services.specs.Services.{ServiceDeskState};

    ghost Value = { ServiceDeskState };

    ghost view = { λ d. record { host = d.host; notices = d.notices; program = d.program; typing = d.typing; asked = d.asked.items; reports = d.reports.items } };
}

/// What the services of a host did in one call.
#[derive(Debug, Drop)]
pub struct Deeds {
    /// The host.
    pub host: HostAddr,
    /// Those of their requests that were served, in order.
    pub asked: Vec<Request>,
    /// What they have reported, in order.
    pub reports: Vec<Reported>,
}

/// Returns a copy of a request.
///
/// Errors: `AllocError` when there is no memory for its bits.
pub fn copy_of(request: &Request) -> Result<Request, AllocError>
    ensures copy { IfOk result (λ copy. copy ≡ request.now) }
    ensures memory { OnErr result (HasBits request.now) }
{
    let copy = match request {
        Request::Contact { peer } => Request::Contact { peer: *peer },
        Request::Listen { socket, size } => Request::Listen {
            socket: *socket,
            size: *size,
        },
        Request::OpenSend {
            peer,
            own,
            foreign,
            size,
        } => Request::OpenSend {
            peer: *peer,
            own: *own,
            foreign: *foreign,
            size: *size,
        },
        Request::OpenReceive { peer, own, foreign } => Request::OpenReceive {
            peer: *peer,
            own: *own,
            foreign: *foreign,
        },
        Request::Send { socket, bits } => Request::Send {
            socket: *socket,
            bits: bits.clone()?,
        },
        Request::Grant {
            socket,
            messages,
            bits,
        } => Request::Grant {
            socket: *socket,
            messages: *messages,
            bits: *bits,
        },
        Request::AskBack {
            socket,
            messages,
            bits,
        } => Request::AskBack {
            socket: *socket,
            messages: *messages,
            bits: *bits,
        },
        Request::Interrupt { socket } => Request::Interrupt { socket: *socket },
        Request::Close { socket } => Request::Close { socket: *socket },
        Request::Echo { peer, octet } => Request::Echo {
            peer: *peer,
            octet: *octet,
        },
    };
    Ok(copy)
}

impl ServiceDesk {
    /// Returns a desk at which nothing was asked and reported yet. This many notices are in the book before those that
    /// the services will be notified of.
    pub fn new(alloc: Global, host: HostAddr, notices: usize, program: Ncp) -> ServiceDesk
        ensures { result ≡ services.opening_desk host notices program }
    {
        ServiceDesk {
            host,
            notices,
            program,
            typing: None,
            asked: Vec::new(alloc),
            reports: Vec::new(alloc),
        }
    }

    /// Returns the control program, and what the services did.
    pub fn into_parts(self) -> (Ncp, Deeds)
        ensures program { result.0 ≡ self.program }
        ensures host { result.1.host ≡ self.host }
        ensures asked { result.1.asked.items ≡ self.asked }
        ensures reports { result.1.reports.items ≡ self.reports }
    {
        let deeds = Deeds {
            host: self.host,
            asked: self.asked,
            reports: self.reports,
        };
        (self.program, deeds)
    }

    /// Counts one more notice that was passed to the services.
    pub(crate) fn count(&mut self) -> Result<(), AllocError>
        ensures { OnOk result (self.new ≡ services.noticing self.old) }
    {
        let Some(notices) = self.notices.checked_add(1) else {
            return Err(AllocError);
        };
        self.notices = notices;
        Ok(())
    }

    /// Adds a report.
    pub(crate) fn report(&mut self, report: Report) -> Result<(), AllocError>
        ensures { OnOk result (self.new ≡ services.reporting report self.old) }
    {
        self.reports.push(Reported {
            host: self.host,
            notices: self.notices,
            report,
        })?;
        Ok(())
    }

    /// Asks the control program a request. Returns why it is refused, if it is; otherwise it is served.
    fn ask(&mut self, request: Request) -> Result<Option<NcpFault>, AllocError>
        ensures fault { IfOk result (λ fault. fault ≡ refusal self.old.program request) }
        ensures desk { OnOk result (self.new ≡ turns.tried self.old request) }
    {
        if self.program.is_spent() {
            return Err(AllocError);
        }
        if let Err(fault) = self.program.serve(&request) {
            // a refusal leaves the program as it was, and want of memory leaves it spent
            if self.program.is_spent() {
                return Err(AllocError);
            }
            return Ok(Some(fault));
        }
        self.asked.push(request)?;
        Ok(None)
    }

    /// Asks these requests one after another, whatever is refused.
    pub(crate) fn try_all(&mut self, requests: Vec<Request>) -> Result<(), AllocError>
        ensures { OnOk result (self.new ≡ turns.tries self.old requests.items) }
    {
        for request in requests {
            self.ask(request)?;
        }
        Ok(())
    }

    /// Asks these requests one after another until one is refused. Returns why it was.
    pub(crate) fn ask_all(&mut self, requests: Vec<Request>) -> Result<Option<NcpFault>, AllocError>
        ensures { IfOk result (λ fault. turns.asks self.old requests.items ≡ (self.new, fault)) }
    {
        for request in requests {
            if let Some(fault) = self.ask(request)? {
                return Ok(Some(fault));
            }
        }
        Ok(None)
    }

    /// Reports lines one by one.
    pub(crate) fn tell_lines(&mut self, lines: Vec<Line>) -> Result<(), AllocError>
        ensures { OnOk result (self.new ≡ turns.lines_told self.old lines.items) }
    {
        for line in lines {
            self.report(Report::Line(line))?;
        }
        Ok(())
    }
}
