//! Worlds in which memory lasts: of these the texts of a trace say all.
//!
//! That each number has a decimal of its own is what the numbers' types promise. So the functions here that are for the
//! proof only look at each number, and the prover then knows its range.

ghost use Rattle.std.specs.List.{All};
ghost use Rattle.std.specs.Prelude.{◌≡◌, ◌<◌, ◌∷◌, [], IfSome, List, false, true};
ghost use Rattle.hex.specs.Hex.{IsBytes};
ghost use Rattle.net_sim.specs.Carriers.{shown};
ghost use Rattle.net_sim.specs.World.{opening_world};
ghost use Rattle.script.specs.Spelling.{IsFlow, IsHost, IsMessage};
ghost use Rattle.trace.specs.Named.{IsHostNamed, IsShort};
ghost use Rattle.world_replay.specs.Output.{Shown};
ghost use Rattle.world_replay.specs.Replay.{Replays};
ghost use Rattle.world_script.specs.declared.event.WorldEvent.{WorldEvent};
ghost use Rattle.world_trace.specs.Lasting.{Lasts, ProgramLasts, SeatLasts, ServiceLasts, ServicesLast};
ghost use Rattle.world_trace.specs.Reached.{IsSaid};
ghost use Rattle.world_trace.specs.Told as texts;
ghost use Rattle.world_trace.specs.Told.{AreNumbersTold, IsAllocationTold, IsPartnerTold, IsProgramTold, IsWorldTold, numbers_of, quoted_by};

use host_services::{Block, Service};
use icp::{Partner, Server, User};
use interface::{Carrier, Crossing, Flow, HostAddr, HostMessage};
use ncp_control::{Allocation, ByteSize, Command, ConnectionLink, ReceiveSocket, SendSocket};
use net_sim::{Seat, ServiceSeat, World};
use sockets::{Entry, Listener, Ncp, Pair, Peer};
use terminal::{EchoService, LineTerminal};

/// What has programs or services, in which memory lasts or not.
trait Lasting {
    /// Memory lasts in all of them.
    ghost going: { Self → Type 0 };

    /// Returns whether memory lasts in all of them.
    fn lasts(&self) -> bool
        ensures lasting { result ≡ true → going self.now }
        ensures exact { going self.now → result ≡ true };
}

/// Returns whether memory lasts in each of these.
fn all_last<T: Lasting>(items: &[T]) -> bool
    ensures lasting { result ≡ true → All T.going items.now }
    ensures exact { All T.going items.now → result ≡ true }
{
    for item in items {
        if !item.lasts() {
            return false;
        }
    }
    true
}

/// What has numbers.
trait Numbered {
    /// Texts say all of its numbers.
    ghost told: { Self → Type 0 };

    /// Proves that texts say all of its numbers. It is for the proof only, as are its implementations.
    fn numbers(&self)
        ensures { told self.now };
}

/// Proves that texts say all numbers of these.
fn all_numbers<T: Numbered>(items: &[T])
    ensures { All T.told items.now }
{
    for item in items {
        item.numbers();
    }
}

// ---- numbers

/// Proves that an octet is short. It is for the proof only, as are the functions after it.
fn octet(number: u8)
    ensures { IsShort number }
{}

/// Proves that a number of two octets is short.
fn double(number: u16)
    ensures { IsShort number }
{}

/// Proves that a number of four octets is short.
fn word(number: u32)
    ensures { IsShort number }
{}

/// Proves that a place is short.
fn place(number: usize)
    ensures { IsShort number }
{}

/// Proves that an octet is one.
fn is_octet(number: u8)
    ensures { number < 256 }
{}

/// Proves that octets are octets.
fn octets(bytes: &[u8])
    ensures { IsBytes bytes.now }
{
    for byte in bytes {
        is_octet(*byte);
    }
}

/// Proves that a host can be named.
fn host(host: &HostAddr)
    ensures { IsHostNamed host.now }
{
    octet(host.imp());
    octet(host.host());
}

/// Proves that a place in the log is short, if it is known.
fn known_place(at: Option<usize>)
    ensures { IfSome at IsShort }
{
    if let Some(at) = at {
        place(at);
    }
}

/// Proves that a link is short, if it is known.
fn known_link(link: &Option<ConnectionLink>)
    ensures { IfSome link.now IsShort }
{
    if let Some(link) = link {
        octet(link.number());
    }
}

/// Proves that a byte size is short, if it is known.
fn known_size(size: &Option<ByteSize>)
    ensures { IfSome size.now IsShort }
{
    if let Some(size) = size {
        octet(size.bits());
    }
}

/// Proves that counters are short.
fn counters(counters: &Allocation)
    ensures { IsAllocationTold counters.now }
{
    double(counters.messages);
    word(counters.bits);
}

/// Proves that a socket that sends is short, if it is known.
fn known_sending(socket: Option<SendSocket>)
    ensures { IfSome socket IsShort }
{
    if let Some(socket) = socket {
        word(socket.number());
    }
}

/// Proves that a socket that receives is short, if it is known.
fn known_receiving(socket: Option<ReceiveSocket>)
    ensures { IfSome socket IsShort }
{
    if let Some(socket) = socket {
        word(socket.number());
    }
}

// ---- commands

/// Proves that one number is short.
fn one(a: u8)
    ensures { All IsShort (a ∷ []) }
{
    octet(a);
}

/// Proves that two sockets are short.
fn two(a: u32, b: u32)
    ensures { All IsShort (a ∷ b ∷ []) }
{
    word(a);
    word(b);
}

/// Proves that two sockets, and a link or a size, are short.
fn three(a: u32, b: u32, c: u8)
    ensures { All IsShort (a ∷ b ∷ c ∷ []) }
{
    word(a);
    word(b);
    octet(c);
}

/// Proves that a link and two counts are short.
fn counts(link: u8, messages: u16, bits: u32)
    ensures { All IsShort (link ∷ messages ∷ bits ∷ []) }
{
    octet(link);
    double(messages);
    word(bits);
}

/// Proves that a link and two parts are short.
fn parts(link: u8, messages: u8, bits: u8)
    ensures { All IsShort (link ∷ messages ∷ bits ∷ []) }
{
    octet(link);
    octet(messages);
    octet(bits);
}

/// Proves that the numbers of a command are short.
fn command_numbers(command: &Command)
    ensures { All IsShort (numbers_of command.now) }
{
    match command {
        Command::Rts {
            receive,
            send,
            link,
        } => three(receive.number(), send.number(), link.number()),
        Command::Str {
            send,
            receive,
            size,
        } => three(send.number(), receive.number(), size.bits()),
        Command::Cls { own, foreign } => two(*own, *foreign),
        Command::All {
            link,
            messages,
            bits,
        }
        | Command::Ret {
            link,
            messages,
            bits,
        } => counts(*link, *messages, *bits),
        Command::Gvb {
            link,
            messages,
            bits,
        } => parts(*link, *messages, *bits),
        Command::Inr { link } | Command::Ins { link } => one(*link),
        Command::Eco { octet } | Command::Erp { octet } => one(*octet),
        Command::Err { code, .. } => one(*code),
        Command::Nop | Command::Rst | Command::Rrp => {}
    }
}

/// Proves that what a command quotes are octets.
fn quoted(command: &Command)
    ensures { IsBytes (quoted_by command.now) }
{
    if let Command::Err { detail, .. } = command {
        octets(detail);
    }
}

impl Numbered for Command {
    ghost told = { texts.IsCommandTold };

    fn numbers(&self) {
        command_numbers(self);
        quoted(self);
    }
}

// ---- programs

impl Numbered for u8 {
    ghost told = { IsShort };

    fn numbers(&self) {
        octet(*self);
    }
}

impl Numbered for Entry {
    ghost told = { texts.IsEndTold };

    fn numbers(&self) {
        two(self.own, self.foreign);
        known_place(self.asked);
        known_place(self.partner);
        known_link(&self.link);
        known_size(&self.size);
        counters(&self.allocation);
    }
}

/// Proves that texts say all numbers of what a host knows of another one.
fn pair_numbers(pair: &Pair)
    ensures busy { All IsShort pair.now.busy }
    ensures ends { All texts.IsEndTold pair.now.entries }
    ensures commands { All texts.IsCommandTold pair.now.queue }
{
    all_numbers(&pair.busy);
    all_numbers(pair.entries.as_slice());
    all_numbers(pair.queue.as_slice());
}

impl Numbered for Peer {
    ghost told = { texts.IsPairTold };

    fn numbers(&self) {
        host(&self.host);
        pair_numbers(&self.pair);
    }
}

impl Numbered for Listener {
    ghost told = { texts.IsListenerTold };

    fn numbers(&self) {
        word(self.socket);
        octet(self.size.bits());
    }
}

/// Proves that texts say all numbers of a program.
fn program_numbers(program: &Ncp)
    ensures { IsProgramTold program.now }
{
    all_numbers(program.peers());
    all_numbers(program.listening());
}

impl Numbered for Seat {
    ghost told = { texts.IsSeatTold };

    fn numbers(&self) {
        host(&self.host);
        if let Some(program) = &self.program {
            program_numbers(program);
        }
    }
}

/// Returns whether a program is this host's, and has not run out of memory.
fn program_lasts(host: &HostAddr, program: &Ncp) -> bool
    ensures lasting { result ≡ true → ProgramLasts host.now program.now }
    ensures exact { ProgramLasts host.now program.now → result ≡ true }
{
    program.own() == *host && !program.is_spent()
}

impl Lasting for Seat {
    ghost going = { SeatLasts };

    fn lasts(&self) -> bool {
        match &self.program {
            Some(program) => program_lasts(&self.host, program),
            None => true,
        }
    }
}

// ---- services

/// Proves that a far end can be named, if it is known.
fn known_partner(partner: Option<Partner>)
    ensures { IfSome partner IsPartnerTold }
{
    if let Some(partner) = partner {
        host(&partner.peer);
        word(partner.socket);
    }
}

impl Numbered for Server {
    ghost told = { texts.IsServerTold };

    fn numbers(&self) {
        word(self.listen().number());
        two(self.receive().number(), self.send().number());
        known_partner(self.user());
        known_partner(self.receiving());
        known_partner(self.sending());
    }
}

impl Numbered for User {
    ghost told = { texts.IsUserTold };

    fn numbers(&self) {
        host(&self.peer());
        two(self.listen().number(), self.own().number());
        two(self.receive().number(), self.send().number());
        known_receiving(self.base());
    }
}

impl Numbered for EchoService {
    ghost use Rattle.host_services.specs.declared.service.Service.TheVariants as service;

    ghost told = { λ e. texts.IsServiceTold (service.Echo e) };

    fn numbers(&self) {
        two(self.receive().number(), self.send().number());
    }
}

impl Numbered for LineTerminal {
    ghost use Rattle.host_services.specs.declared.service.Service.TheVariants as service;

    ghost told = { λ t. texts.IsServiceTold (service.Terminal t) };

    fn numbers(&self) {
        two(self.receive().number(), self.send().number());
        octets(self.rest());
    }
}

impl Numbered for Service {
    ghost told = { texts.IsServiceTold };

    fn numbers(&self) {
        match self {
            Service::Server(server) => server.numbers(),
            Service::User(user) => user.numbers(),
            Service::Echo(echo) => echo.numbers(),
            Service::Terminal(terminal) => terminal.numbers(),
        }
    }
}

impl Lasting for Service {
    ghost going = { ServiceLasts };

    fn lasts(&self) -> bool {
        !match self {
            Service::Server(server) => server.is_spent(),
            Service::User(user) => user.is_spent(),
            Service::Echo(echo) => echo.is_spent(),
            Service::Terminal(terminal) => terminal.is_spent(),
        }
    }
}

impl Numbered for Block {
    ghost told = { All texts.IsServiceTold };

    fn numbers(&self) {
        all_numbers(self.as_slice());
    }
}

impl Lasting for Block {
    ghost going = { All ServiceLasts };

    fn lasts(&self) -> bool {
        all_last(self.as_slice())
    }
}

impl Numbered for ServiceSeat {
    ghost told = { texts.IsServed };

    fn numbers(&self) {
        host(&self.host);
        known_sending(self.services.typing());
        let (blocks, last) = self.services.running();
        all_numbers(blocks);
        all_numbers(last);
    }
}

impl Lasting for ServiceSeat {
    ghost going = { ServicesLast };

    fn lasts(&self) -> bool {
        let (blocks, last) = self.services.running();
        all_last(blocks) && all_last(last)
    }
}

// ---- crossings

/// Proves that a host has a number from 0 to 3, at an IMP from 1 to 63.
fn valid_host(host: HostAddr)
    ensures { IsHost host }
{
    let _ = host.imp();
    let _ = host.host();
}

/// Proves that both hosts of a flow are valid, and that its link has 8 bits.
fn valid_flow(flow: Flow)
    ensures { IsFlow flow }
{
    valid_host(flow.source);
    valid_host(flow.destination);
}

/// Proves that a message is of a valid flow, and that its text has at most 8063 bits.
fn valid_message(message: &HostMessage)
    ensures { IsMessage message.now }
{
    valid_flow(message.flow);
    let _ = message.text.bits();
}

impl Numbered for Crossing {
    ghost told = { IsSaid };

    fn numbers(&self) {
        if let Crossing::Out(message) = self {
            valid_message(message);
        }
    }
}

// ---- worlds

/// Proves that the texts of a trace say all numbers of a world at hand, and that a script may ask for the messages that
/// went out in it, since both have their types. So these texts say all of it ([`crate::law::whole`],
/// [`crate::law::states`]) where a replay has come to it. It is for the proof only.
pub fn says_all<C: Carrier>(world: &World<C>)
    ensures strangers { world.now.strangers ≡ [] }
    ensures numbers { AreNumbersTold world.now }
    ensures messages { All IsSaid world.now.kept.book.crossings }
    ensures reached { (c : C) (script : List WorldEvent) (lines : List Shown) → Replays (shown C.calls) (opening_world C.calls c) script world.now lines → IsWorldTold world.now }
{
    let _ = world.strangers();
    all_numbers(world.seats());
    all_numbers(world.services());
    all_numbers(world.book().crossings());
}

/// Returns whether memory lasts in all programs and services of a world, and each program is its host's. While it lasts
/// in the world too, the texts of a trace say all of them ([`crate::law::whole`]). In a world to which a replay has
/// come it always does.
pub fn lasts<C: Carrier>(world: &World<C>) -> bool
    ensures lasting { result ≡ true → Lasts world.now }
    ensures exact { Lasts world.now → result ≡ true }
    ensures told { result ≡ true → world.now.stopped ≡ false → IsWorldTold world.now }
{
    says_all(world);
    all_last(world.seats()) && all_last(world.services())
}
