//! What each event does to a carrier, to the hosts and to the book.

ghost use Rattle.std.specs.Prelude.{◌≡◌};
ghost use Rattle.net_sim.specs.Carriers.{shown};
ghost use Rattle.net_sim.specs.Inside.Parts.{AreLive, world_after, world_of};
ghost use Rattle.net_sim.specs.Whole.{IsNamed};
ghost use Rattle.net_sim.specs.World as world;
ghost use Rattle.net_sim.specs.World.{EventGives, Net, Quiet, Offer, Take, Ask, Server, User, Typed, Out};

use crate::asking::is_addressed;
use crate::hosting::likely_place;
use crate::parts::Hosts;
use crate::seat::Seat;
use crate::{Event, WorldFault};
use host_services::TypedLine;
use interface::{Carrier, CarrierFault, HostAddr, HostMessage, NetEvent};
use sockets::Request;

/// Lets an event happen inside the network, or to a host.
pub(crate) fn happen<C: Carrier>(
    carrier: &mut C,
    hosts: &mut Hosts,
    event: NetEvent,
) -> Result<(), WorldFault>
    ensures { EventGives (shown C.calls) (world_of carrier.old hosts.old) (Net event) result (world_after carrier.new hosts.new result) }
{
    let before = carrier.log().len();
    if let Err(fault) = carrier.step(event) {
        return Err(WorldFault::Carrier(fault));
    }
    let news = &carrier.log()[before..];
    if news.is_empty() {
        return Ok(());
    }
    hosts.change(news)
}

/// Passes a quiet round of the network.
pub(crate) fn pass<C: Carrier>(carrier: &mut C, hosts: &mut Hosts) -> Result<(), WorldFault>
    ensures { EventGives (shown C.calls) (world_of carrier.old hosts.old) Quiet result (world_after carrier.new hosts.new result) }
{
    if let Err(fault) = carrier.quiet_round() {
        return Err(WorldFault::Carrier(fault));
    }
    Ok(())
}

/// Offers a host's next message to the network. Its seat is looked for at a likely place first.
pub(crate) fn offer<C: Carrier>(
    carrier: &mut C,
    hosts: &mut Hosts,
    likely: usize,
    host: HostAddr,
) -> Result<(), WorldFault>
    requires live { AreLive hosts.old.seats }
    ensures { EventGives (shown C.calls) (world_of carrier.old hosts.old) (Offer host) result (world_after carrier.new hosts.new result) }
{
    let at = hosts.up_near(likely, host)?;
    let Some(message) = hosts.next_out(at)? else {
        return Ok(());
    };
    let before = carrier.log().len();
    if let Err(fault) = carrier.offer_out(message) {
        return Err(WorldFault::Carrier(fault));
    }
    hosts.go_out(at, &carrier.log()[before..])
}

/// Lets a host take what came for it. Its seat is looked for at a likely place first.
pub(crate) fn take<C: Carrier>(
    carrier: &mut C,
    hosts: &mut Hosts,
    likely: usize,
    host: HostAddr,
) -> Result<(), WorldFault>
    requires live { AreLive hosts.old.seats }
    ensures { EventGives (shown C.calls) (world_of carrier.old hosts.old) (Take host) result (world_after carrier.new hosts.new result) }
{
    let at = hosts.up_near(likely, host)?;
    let before = carrier.log().len();
    match carrier.take_in(host) {
        Ok(Some(inbound)) => hosts.hear(at, &carrier.log()[before..], inbound),
        Ok(None) => Ok(()),
        Err(fault) => Err(WorldFault::Carrier(fault)),
    }
}

/// Asks a host's program for something on behalf of its user.
pub(crate) fn ask<C: Carrier>(
    carrier: &mut C,
    hosts: &mut Hosts,
    host: HostAddr,
    request: &Request,
) -> Result<(), WorldFault>
    requires live { AreLive hosts.old.seats }
    ensures { EventGives (shown C.calls) (world_of carrier.old hosts.old) (Ask host request.now) result (world_after carrier.new hosts.new result) }
{
    // for the proof only: the carrier is asked nothing else here, and `log` says what it shows, which stays the same
    let _ = carrier.log();
    let at = hosts.up_at(host)?;
    hosts.ask_at(at, request)
}

/// Starts a server on a host.
pub(crate) fn begin_server<C: Carrier>(
    carrier: &mut C,
    hosts: &mut Hosts,
    host: HostAddr,
    listen: u32,
    base: u32,
) -> Result<(), WorldFault>
    requires live { AreLive hosts.old.seats }
    ensures { EventGives (shown C.calls) (world_of carrier.old hosts.old) (Server host listen base) result (world_after carrier.new hosts.new result) }
{
    // for the proof only, as in `ask`
    let _ = carrier.log();
    let at = hosts.up_at(host)?;
    hosts.server_at(at, listen, base)
}

/// Starts a user on a host.
pub(crate) fn begin_user<C: Carrier>(
    carrier: &mut C,
    hosts: &mut Hosts,
    host: HostAddr,
    peer: HostAddr,
    listen: u32,
    own: u32,
) -> Result<(), WorldFault>
    requires live { AreLive hosts.old.seats }
    ensures { EventGives (shown C.calls) (world_of carrier.old hosts.old) (User host peer listen own) result (world_after carrier.new hosts.new result) }
{
    // for the proof only, as in `ask`
    let _ = carrier.log();
    let at = hosts.up_at(host)?;
    hosts.user_at(at, peer, listen, own)
}

/// Types a line at a host.
pub(crate) fn type_line<C: Carrier>(
    carrier: &mut C,
    hosts: &mut Hosts,
    host: HostAddr,
    line: &TypedLine,
) -> Result<(), WorldFault>
    requires live { AreLive hosts.old.seats }
    ensures { EventGives (shown C.calls) (world_of carrier.old hosts.old) (Typed host line.now) result (world_after carrier.new hosts.new result) }
{
    // for the proof only, as in `ask`
    let _ = carrier.log();
    let at = hosts.up_at(host)?;
    hosts.type_at(at, line)
}

/// Returns whether a host has a seat.
fn has_seat(seats: &[Seat], host: HostAddr) -> bool
    ensures { result ≡ world.has_seat host seats.now }
{
    seats.iter().any(|seat| host == seat.host)
}

/// Refuses a message that another than a stranger is to send: a host with a program says itself what goes out.
pub(crate) fn refuse<C: Carrier>(
    carrier: &mut C,
    hosts: &mut Hosts,
    message: &HostMessage,
) -> Result<(), WorldFault>
    ensures { EventGives (shown C.calls) (world_of carrier.old hosts.old) (Out message.now) result (world_after carrier.new hosts.new result) }
{
    // for the proof only, as in `ask`
    let _ = carrier.log();
    if has_seat(hosts.seats(), message.flow.source) {
        return Err(WorldFault::HasProgram);
    }
    Err(WorldFault::Carrier(CarrierFault::NoSuch))
}

/// Lets any of the nine events happen where no host is a stranger.
pub(crate) fn follow<C: Carrier>(
    carrier: &mut C,
    hosts: &mut Hosts,
    event: &Event,
) -> Result<(), WorldFault>
    requires live { AreLive hosts.old.seats }
    ensures { EventGives (shown C.calls) (world_of carrier.old hosts.old) event.now result (world_after carrier.new hosts.new result) }
{
    match event {
        Event::Net(event) => happen(carrier, hosts, *event),
        Event::Quiet => pass(carrier, hosts),
        Event::Offer(host) => {
            let likely = likely_place(hosts.seats(), *host);
            offer(carrier, hosts, likely, *host)
        }
        Event::Take(host) => {
            let likely = likely_place(hosts.seats(), *host);
            take(carrier, hosts, likely, *host)
        }
        Event::Ask(host, request) => ask(carrier, hosts, *host, request),
        Event::Server { host, listen, base } => begin_server(carrier, hosts, *host, *listen, *base),
        Event::User {
            host,
            peer,
            listen,
            own,
        } => begin_user(carrier, hosts, *host, *peer, *listen, *own),
        Event::Typed { host, line } => { type_line(carrier, hosts, *host, line) }
        Event::Out(message) => refuse(carrier, hosts, message),
    }
}

/// Proves that a user names its peer by an address, with numbers in their ranges, as their types promise.
///
/// It is there for the proof only, as `is_addressed` is.
pub(crate) fn is_named(event: &Event)
    ensures { IsNamed event.now }
{
    match event {
        Event::Ask(_, request) => is_addressed(request),
        Event::User { peer, listen, .. } => {
            let _ = (peer.imp(), peer.host(), *listen);
        }
        Event::Net(_)
        | Event::Quiet
        | Event::Offer(_)
        | Event::Take(_)
        | Event::Server { .. }
        | Event::Typed { .. }
        | Event::Out(_) => {}
    }
}
