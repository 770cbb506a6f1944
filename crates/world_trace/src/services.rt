//! The services of a host, as JSON.

ghost use Rattle.std.specs.Prelude.{◌≡◌, [], IsOk, Some, IfOk, map};
ghost use Rattle.std.specs.Fmt.{HasWritten, IsPlainFormatter, WritesOnOk};
ghost use Rattle.host_services.specs.Ears.{all_in};
ghost use Rattle.host_services.specs.declared.service.Service.TheVariants as service;
ghost use Rattle.trace.specs.Texts.{array, bits_members, object};
ghost use Rattle.world_trace.specs.Steps.{mark_after, marked, service_place, user_rest, user_sockets};
ghost use Rattle.world_trace.specs.Texts.{asked_object, ends_object, met_object, number_text, partner_text, running_object, server_object, service_object, services_member, sockets_object};
ghost use Rattle.world_trace.specs.Texts.{user_object};

use crate::values::{Flag, HexString, Json, Name, Placed, show_each};
use bit_messages::Bits;
use host_services::{Block, Service, Services};
use icp::{Partner, Server, User};
use interface::HostAddr;
use ncp_control::{ReceiveSocket, SendSocket};
use net_sim::ServiceSeat;
use std::fmt;
use std::fmt::Formatter;
use terminal::{EchoService, LineTerminal};

/// The far end of a connection, once that was opened.
#[derive(Drop)]
struct Far(Option<Partner>);

impl fmt::Display for Far {
    ghost output = { λ far. Some (partner_text far.0) };

    fn fmt<W: fmt::Write>(&self, f: &mut Formatter<W>) -> fmt::Result {
        let Some(partner) = &self.0 else {
            return f.write_str("null");
        };
        let (host, socket) = (Name(&partner.peer), partner.socket);
        write!(f, "{{\"host\":{host},\"socket\":{socket}}}")
    }
}

/// A socket that receives, once it is known.
#[derive(Drop)]
struct Receiving(Option<ReceiveSocket>);

impl fmt::Display for Receiving {
    ghost output = { λ socket. Some (number_text socket.0) };

    fn fmt<W: fmt::Write>(&self, f: &mut Formatter<W>) -> fmt::Result {
        match self.0 {
            Some(socket) => write!(f, "{}", socket.number()),
            None => f.write_str("null"),
        }
    }
}

/// A socket that sends, once it is known.
#[derive(Drop)]
struct Sending(Option<SendSocket>);

impl fmt::Display for Sending {
    ghost output = { λ socket. Some (number_text socket.0) };

    fn fmt<W: fmt::Write>(&self, f: &mut Formatter<W>) -> fmt::Result {
        match self.0 {
            Some(socket) => write!(f, "{}", socket.number()),
            None => f.write_str("null"),
        }
    }
}

/// Bits that came.
#[derive(Drop)]
struct Came<'a>(&'a Bits);

impl fmt::Display for Came<'_> {
    ghost output = { λ came. Some (object (bits_members came.0.now)) };

    fn fmt<W: fmt::Write>(&self, f: &mut Formatter<W>) -> fmt::Result {
        let (bits, octets) = (self.0.len(), HexString(self.0.as_octets()));
        write!(f, "{{\"bits\":{bits},\"octets\":{octets}}}")
    }
}

/// The two sockets on which a service receives and sends.
#[derive(Drop)]
struct Sockets(ReceiveSocket, SendSocket);

impl fmt::Display for Sockets {
    ghost output = { λ sockets. Some (sockets_object sockets.0 sockets.1) };

    fn fmt<W: fmt::Write>(&self, f: &mut Formatter<W>) -> fmt::Result {
        let (receive, send) = (self.0.number(), self.1.number());
        write!(f, "{{\"receive\":{receive},\"send\":{send}}}")
    }
}

/// The connections of a server, with their far ends.
#[derive(Drop)]
struct Met<'a>(&'a Server);

impl fmt::Display for Met<'_> {
    ghost output = { λ met. Some (met_object met.0.now) };

    fn fmt<W: fmt::Write>(&self, f: &mut Formatter<W>) -> fmt::Result {
        let (user, receiving) = (Far(self.0.user()), Far(self.0.receiving()));
        let sending = Far(self.0.sending());
        write!(
            f,
            "{{\"user\":{user},\"receiving\":{receiving},\"sending\":{sending}}}"
        )
    }
}

impl Json for Server {
    ghost text = { server_object };

    fn show<W: fmt::Write>(&self, f: &mut Formatter<W>) -> fmt::Result {
        let (listen, sockets) = (self.listen().number(), Sockets(self.receive(), self.send()));
        let (met, over) = (Met(self), Flag(self.is_over()));
        write!(
            f,
            "{{\"kind\":\"server\",\"listen\":{listen},\"sockets\":{sockets},\"met\":{met},\"over\":{over}}}"
        )
    }
}

/// How far a user has come with its connections.
#[derive(Drop)]
struct Opened<'a>(&'a User);

impl fmt::Display for Opened<'_> {
    ghost output = { λ opened. Some (ends_object opened.0.now) };

    fn fmt<W: fmt::Write>(&self, f: &mut Formatter<W>) -> fmt::Result {
        let asking = Flag(self.0.has_asked());
        let receiving = Flag(self.0.is_receiving());
        let sending = Flag(self.0.is_sending());
        write!(
            f,
            "{{\"asking\":{asking},\"receiving\":{receiving},\"sending\":{sending}}}"
        )
    }
}

/// Whom a user asks, and from which socket.
#[derive(Drop)]
struct Asked<'a>(&'a User);

impl fmt::Display for Asked<'_> {
    ghost output = { λ asked. Some (asked_object asked.0.now) };

    fn fmt<W: fmt::Write>(&self, f: &mut Formatter<W>) -> fmt::Result {
        let host = self.0.peer();
        let (listen, own) = (self.0.listen().number(), self.0.own().number());
        write!(
            f,
            "{{\"host\":{},\"listen\":{listen},\"own\":{own}}}",
            Name(&host)
        )
    }
}

/// Shows whom a user asks, its sockets, and how far it has come, with the beginning of its object.
fn show_user_sockets<W: fmt::Write>(user: &User, f: &mut Formatter<W>) -> fmt::Result
    ensures { WritesOnOk W.write_str_gives f.old result (user_sockets user.now) f.new }
{
    let (asked, opened) = (Asked(user), Opened(user));
    let sockets = Sockets(user.receive(), user.send());
    write!(
        f,
        "{{\"kind\":\"user\",\"asked\":{asked},\"sockets\":{sockets},\"opened\":{opened}"
    )
}

/// Shows what came to a user, after other members, and the end of its object.
fn show_user_rest<W: fmt::Write>(user: &User, f: &mut Formatter<W>) -> fmt::Result
    ensures { WritesOnOk W.write_str_gives f.old result (user_rest user.now) f.new }
{
    let (base, came) = (Receiving(user.base()), Came(user.bits()));
    let over = Flag(user.is_over());
    write!(f, ",\"base\":{base},\"came\":{came},\"over\":{over}}}")
}

impl Json for User {
    ghost text = { user_object };

    fn show<W: fmt::Write>(&self, f: &mut Formatter<W>) -> fmt::Result {
        show_user_sockets(self, f)?;
        show_user_rest(self, f)
    }
}

impl Json for EchoService {
    ghost text = { λ e. service_object (service.Echo e) };

    fn show<W: fmt::Write>(&self, f: &mut Formatter<W>) -> fmt::Result {
        let sockets = Sockets(self.receive(), self.send());
        write!(f, "{{\"kind\":\"echo\",\"sockets\":{sockets}}}")
    }
}

impl Json for LineTerminal {
    ghost text = { λ t. service_object (service.Terminal t) };

    fn show<W: fmt::Write>(&self, f: &mut Formatter<W>) -> fmt::Result {
        let sockets = Sockets(self.receive(), self.send());
        let (rest, came) = (HexString(self.rest()), Came(self.part()));
        write!(
            f,
            "{{\"kind\":\"terminal\",\"sockets\":{sockets},\"rest\":{rest},\"came\":{came}}}"
        )
    }
}

impl Json for Service {
    ghost text = { service_object };

    fn show<W: fmt::Write>(&self, f: &mut Formatter<W>) -> fmt::Result {
        match self {
            Service::Server(server) => server.show(f),
            Service::User(user) => user.show(f),
            Service::Echo(echo) => echo.show(f),
            Service::Terminal(terminal) => terminal.show(f),
        }
    }
}

/// Shows the services of blocks with commas between them. Returns the mark for one more.
fn show_blocks<W: fmt::Write>(
    blocks: &[Block],
    f: &mut Formatter<W>,
) -> Result<&'static str, fmt::Error>
    ensures written { IsPlainFormatter f.old → IsOk result → HasWritten W.write_str_gives f.old (marked [] (map service_object (all_in blocks.now))) f.new }
    ensures next { IfOk result (λ next. next.now ≡ mark_after [] (map service_object (all_in blocks.now))) }
{
    let mut mark = "";
    for block in blocks {
        mark = show_each(mark, block.as_slice(), f)?;
    }
    Ok(mark)
}

/// What runs on a host.
#[derive(Drop)]
struct Running<'a>(&'a Services);

impl fmt::Display for Running<'_> {
    ghost output = { λ running. Some (array (map service_object running.0.now.running)) };

    fn fmt<W: fmt::Write>(&self, f: &mut Formatter<W>) -> fmt::Result {
        let (blocks, last) = self.0.running();
        f.write_str("[")?;
        let mark = show_blocks(blocks, f)?;
        show_each(mark, last, f)?;
        f.write_str("]")
    }
}

impl Json for ServiceSeat {
    ghost text = { services_member };

    fn show<W: fmt::Write>(&self, f: &mut Formatter<W>) -> fmt::Result {
        let (host, services) = (Name(&self.host), &self.services);
        let (typing, running) = (Sending(services.typing()), Running(services));
        write!(f, "{host}:{{\"typing\":{typing},\"running\":{running}}}")
    }
}

impl Placed for ServiceSeat {
    ghost place = { service_place };

    fn is_at(&self, host: &HostAddr) -> bool {
        *host == self.host
    }
}
