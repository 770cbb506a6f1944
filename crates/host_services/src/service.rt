//! One service of a host, and its turn.

ghost use Rattle.std.specs.Prelude.{◌≡◌, IfOk, None, Some};
ghost use Rattle.host_services.specs.Turns as turns;
ghost use Rattle.host_services.specs.declared.service.Service.TheVariants as service;
ghost use Rattle.icp.specs.Server.{server_turn};
ghost use Rattle.icp.specs.User.{user_turn};
ghost use Rattle.terminal.specs.Machines.{echo_turn, terminal_turn};

use crate::Report;
use crate::desk::ServiceDesk;
use icp::{Outcome, Said, Server, User};
use sockets::Notice;
use std::alloc::{AllocError, Global};
use terminal::{EchoService, LineTerminal};

/// Something that runs on a host beside its network control program.
#[derive(Drop)]
pub enum Service {
    /// The server of an initial connection.
    Server(Server),
    /// The user of one.
    User(User),
    /// The echo service that follows a server which is done.
    Echo(EchoService),
    /// The line terminal that follows a user which is done.
    Terminal(LineTerminal),
}

impl ServiceDesk {
    /// Brings a server to its outcome, if it has one. Returns what follows it.
    fn end_server(
        &mut self,
        alloc: Global,
        outcome: Option<Outcome>,
    ) -> Result<Option<Service>, AllocError>
        ensures { IfOk result (λ next. turns.server_ends self.old outcome ≡ (next, self.new)) }
    {
        let Some(outcome) = outcome else {
            return Ok(None);
        };
        self.report(Report::Server(outcome))?;
        let Outcome::Done { receive, send } = &outcome else {
            return Ok(None);
        };
        let (service, requests) = EchoService::start(alloc, *receive, *send)?;
        self.try_all(requests)?;
        Ok(Some(Service::Echo(service)))
    }

    /// Brings a user to its outcome, if it has one. Returns what follows it.
    fn end_user(
        &mut self,
        alloc: Global,
        outcome: Option<Outcome>,
    ) -> Result<Option<Service>, AllocError>
        ensures { IfOk result (λ next. turns.user_ends self.old outcome ≡ (next, self.new)) }
    {
        let Some(outcome) = outcome else {
            return Ok(None);
        };
        self.report(Report::User(outcome))?;
        let Outcome::Done { receive, send } = &outcome else {
            return Ok(None);
        };
        self.typing = Some(*send);
        let (terminal, requests) = LineTerminal::start(alloc, *receive, *send)?;
        self.try_all(requests)?;
        Ok(Some(Service::Terminal(terminal)))
    }

    /// Asks what a server asks for, and then brings it to its outcome. Returns what follows it.
    pub(crate) fn settle_server(
        &mut self,
        alloc: Global,
        server: &mut Server,
        said: Said,
    ) -> Result<Option<Service>, AllocError>
        ensures { IfOk result (λ next. turns.server_asks (server.old, said.requests.items, said.outcome) self.old ≡ turns.became (service.Server server.new) (next, self.new)) }
    {
        let Said { requests, outcome } = said;
        let Some(fault) = self.ask_all(requests)? else {
            return self.end_server(alloc, outcome);
        };
        if server.is_spent() {
            return Err(AllocError);
        }
        let local = server.refused(fault);
        self.end_server(alloc, outcome.or(local))
    }

    /// Asks what a user asks for, and then brings it to its outcome. Returns what follows it.
    pub(crate) fn settle_user(
        &mut self,
        alloc: Global,
        user: &mut User,
        said: Said,
    ) -> Result<Option<Service>, AllocError>
        ensures { IfOk result (λ next. turns.user_asks (user.old, said.requests.items, said.outcome) self.old ≡ turns.became (service.User user.new) (next, self.new)) }
    {
        let Said { requests, outcome } = said;
        let Some(fault) = self.ask_all(requests)? else {
            return self.end_user(alloc, outcome);
        };
        if user.is_spent() {
            return Err(AllocError);
        }
        let local = user.refused(fault);
        self.end_user(alloc, outcome.or(local))
    }

    /// Passes a notice to a server. Returns what follows it.
    fn tell_server(
        &mut self,
        alloc: Global,
        server: &mut Server,
        notice: &Notice,
    ) -> Result<Option<Service>, AllocError>
        ensures { IfOk result (λ next. turns.server_asks (server_turn server.old notice.now) self.old ≡ turns.became (service.Server server.new) (next, self.new)) }
    {
        if server.is_spent() {
            return Err(AllocError);
        }
        let said = server.notice(notice)?;
        self.settle_server(alloc, server, said)
    }

    /// Passes a notice to a user. Returns what follows it.
    fn tell_user(
        &mut self,
        alloc: Global,
        user: &mut User,
        notice: &Notice,
    ) -> Result<Option<Service>, AllocError>
        ensures { IfOk result (λ next. turns.user_asks (user_turn user.old notice.now) self.old ≡ turns.became (service.User user.new) (next, self.new)) }
    {
        if user.is_spent() {
            return Err(AllocError);
        }
        let said = user.notice(notice)?;
        self.settle_user(alloc, user, said)
    }

    /// Passes a notice to an echo service.
    fn tell_echo(&mut self, echo: &mut EchoService, notice: &Notice) -> Result<(), AllocError>
        ensures { IfOk result (λ _. turns.echo_asks (echo_turn echo.old notice.now) self.old ≡ (service.Echo echo.new, self.new)) }
    {
        if echo.is_spent() {
            return Err(AllocError);
        }
        let requests = echo.notice(notice)?;
        self.try_all(requests)
    }

    /// Passes a notice to a terminal.
    fn tell_terminal(
        &mut self,
        terminal: &mut LineTerminal,
        notice: &Notice,
    ) -> Result<(), AllocError>
        ensures { IfOk result (λ _. turns.terminal_asks (terminal_turn terminal.old notice.now) self.old ≡ (service.Terminal terminal.new, self.new)) }
    {
        if terminal.is_spent() {
            return Err(AllocError);
        }
        let told = terminal.notice(notice)?;
        self.try_all(told.requests)?;
        self.tell_lines(told.lines)
    }

    /// Passes a notice to a service. Returns what follows it.
    fn tell_one(
        &mut self,
        alloc: Global,
        service: &mut Service,
        notice: &Notice,
    ) -> Result<Option<Service>, AllocError>
        ensures { IfOk result (λ next. turns.heard_by notice.now service.old self.old ≡ turns.became service.new (next, self.new)) }
    {
        match service {
            Service::Server(server) => self.tell_server(alloc, server, notice),
            Service::User(user) => self.tell_user(alloc, user, notice),
            Service::Echo(echo) => {
                self.tell_echo(echo, notice)?;
                Ok(None)
            }
            Service::Terminal(terminal) => {
                self.tell_terminal(terminal, notice)?;
                Ok(None)
            }
        }
    }

    /// Passes a notice to a service, and puts what follows from it in the service's place.
    pub(crate) fn tell(
        &mut self,
        alloc: Global,
        service: &mut Service,
        notice: &Notice,
    ) -> Result<(), AllocError>
        ensures { IfOk result (λ _. turns.heard_by notice.now service.old self.old ≡ (service.new, self.new)) }
    {
        if let Some(next) = self.tell_one(alloc, service, notice)? {
            *service = next;
        }
        Ok(())
    }
}
