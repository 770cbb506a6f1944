//! The program of a host, as JSON: its pairs with their ends, and what listens.

ghost use Rattle.std.specs.Prelude.{◌≡◌, Some};
ghost use Rattle.std.specs.Fmt.{WritesOnOk};
ghost use Rattle.trace.specs.Texts.{bits_members, object, quoted};
ghost use Rattle.world_replay.specs.Printed.{kind_text};
ghost use Rattle.world_trace.specs.Steps.{end_data, end_sockets, end_state, seat_place};
ghost use Rattle.world_trace.specs.Texts.{allocation_object, closing_word, closings_object, end_object, listener_object, number_text, pair_object, phase_word, program_text, requests_object};
ghost use Rattle.world_trace.specs.Texts.{seat_member};

use crate::values::{Array, Flag, HexString, Json, Name, Placed};
use bit_messages::Bits;
use interface::HostAddr;
use ncp_control::{Allocation, ByteSize, ConnectionLink};
use net_sim::Seat;
use sockets::{Closing, Entry, Listener, Ncp, Peer, Phase};
use std::fmt;
use std::fmt::Formatter;

/// The word of a phase.
#[derive(Drop)]
struct PhaseWord(Phase);

impl fmt::Display for PhaseWord {
    ghost output = { λ phase. Some (quoted (phase_word phase.0)) };

    fn fmt<W: fmt::Write>(&self, f: &mut Formatter<W>) -> fmt::Result {
        f.write_str(match self.0 {
            Phase::Closed => "\"closed\"",
            Phase::Want => "\"want\"",
            Phase::Gone { early: false } => "\"gone\"",
            Phase::Gone { early: true } => "\"early\"",
            Phase::Heard => "\"heard\"",
            Phase::Ready => "\"ready\"",
        })
    }
}

/// The word for how far a closing has come.
#[derive(Drop)]
struct ClosingWord(Closing);

impl fmt::Display for ClosingWord {
    ghost output = { λ closing. Some (quoted (closing_word closing.0)) };

    fn fmt<W: fmt::Write>(&self, f: &mut Formatter<W>) -> fmt::Result {
        f.write_str(match self.0 {
            Closing::No => "\"no\"",
            Closing::Due => "\"due\"",
            Closing::Queued => "\"queued\"",
            Closing::Sent => "\"sent\"",
        })
    }
}

/// The word for what a socket does.
#[derive(Drop)]
struct KindWord(u32);

impl fmt::Display for KindWord {
    ghost output = { λ kind. Some (quoted (kind_text kind.0)) };

    fn fmt<W: fmt::Write>(&self, f: &mut Formatter<W>) -> fmt::Result {
        f.write_str(if self.0 % 2 == 0 {
            "\"receive\""
        } else {
            "\"send\""
        })
    }
}

/// A place in the log, once there is one.
#[derive(Drop)]
struct Place(Option<usize>);

impl fmt::Display for Place {
    ghost output = { λ place. Some (number_text place.0) };

    fn fmt<W: fmt::Write>(&self, f: &mut Formatter<W>) -> fmt::Result {
        match self.0 {
            Some(place) => write!(f, "{place}"),
            None => f.write_str("null"),
        }
    }
}

/// The link of an end, once it is known.
#[derive(Drop)]
struct Link<'a>(&'a Option<ConnectionLink>);

impl fmt::Display for Link<'_> {
    ghost output = { λ link. Some (number_text link.0.now) };

    fn fmt<W: fmt::Write>(&self, f: &mut Formatter<W>) -> fmt::Result {
        match self.0 {
            Some(link) => write!(f, "{}", link.number()),
            None => f.write_str("null"),
        }
    }
}

/// The byte size of an end, once it is known.
#[derive(Drop)]
struct Size<'a>(&'a Option<ByteSize>);

impl fmt::Display for Size<'_> {
    ghost output = { λ size. Some (number_text size.0.now) };

    fn fmt<W: fmt::Write>(&self, f: &mut Formatter<W>) -> fmt::Result {
        match self.0 {
            Some(size) => write!(f, "{}", size.bits()),
            None => f.write_str("null"),
        }
    }
}

/// The counters of an end.
#[derive(Drop)]
struct Counters<'a>(&'a Allocation);

impl fmt::Display for Counters<'_> {
    ghost output = { λ counters. Some (allocation_object counters.0.now) };

    fn fmt<W: fmt::Write>(&self, f: &mut Formatter<W>) -> fmt::Result {
        let Allocation { messages, bits } = self.0;
        write!(f, "{{\"messages\":{messages},\"bits\":{bits}}}")
    }
}

/// The bits that wait at an end.
#[derive(Drop)]
struct Waiting<'a>(&'a Bits);

impl fmt::Display for Waiting<'_> {
    ghost output = { λ waiting. Some (object (bits_members waiting.0.now)) };

    fn fmt<W: fmt::Write>(&self, f: &mut Formatter<W>) -> fmt::Result {
        let (bits, octets) = (self.0.len(), HexString(self.0.as_octets()));
        write!(f, "{{\"bits\":{bits},\"octets\":{octets}}}")
    }
}

/// The places of the two requests of an end in the log.
#[derive(Drop)]
struct Requests<'a>(&'a Entry);

impl fmt::Display for Requests<'_> {
    ghost output = { λ requests. Some (requests_object requests.0.now) };

    fn fmt<W: fmt::Write>(&self, f: &mut Formatter<W>) -> fmt::Result {
        let (own, peer) = (Place(self.0.asked), Place(self.0.partner));
        write!(f, "{{\"own\":{own},\"peer\":{peer}}}")
    }
}

/// How far both closings of an end have come.
#[derive(Drop)]
struct Closings<'a>(&'a Entry);

impl fmt::Display for Closings<'_> {
    ghost output = { λ closings. Some (closings_object closings.0.now) };

    fn fmt<W: fmt::Write>(&self, f: &mut Formatter<W>) -> fmt::Result {
        let (own, peer) = (ClosingWord(self.0.closing), Flag(self.0.partner_closed));
        write!(f, "{{\"own\":{own},\"peer\":{peer}}}")
    }
}

/// Shows the sockets of an end, and whose it is, with the beginning of its object.
fn show_sockets<W: fmt::Write>(end: &Entry, f: &mut Formatter<W>) -> fmt::Result
    ensures { WritesOnOk W.write_str_gives f.old result (end_sockets end.now) f.new }
{
    let (socket, foreign) = (end.own, end.foreign);
    let (kind, mine) = (KindWord(end.own), Flag(end.mine));
    write!(
        f,
        "{{\"socket\":{socket},\"foreign\":{foreign},\"kind\":{kind},\"mine\":{mine}"
    )
}

/// Shows how far an end has come, after other members.
fn show_state<W: fmt::Write>(end: &Entry, f: &mut Formatter<W>) -> fmt::Result
    ensures { WritesOnOk W.write_str_gives f.old result (end_state end.now) f.new }
{
    let (requests, closing) = (Requests(end), Closings(end));
    let (link, size) = (Link(&end.link), Size(&end.size));
    write!(
        f,
        ",\"requests\":{requests},\"closing\":{closing},\"link\":{link},\"size\":{size}"
    )
}

/// Shows the counters of an end and what waits there, after other members, and the end of its object.
fn show_data<W: fmt::Write>(end: &Entry, f: &mut Formatter<W>) -> fmt::Result
    ensures { WritesOnOk W.write_str_gives f.old result (end_data end.now) f.new }
{
    let (allocation, waiting) = (Counters(&end.allocation), Waiting(&end.bits));
    write!(f, ",\"allocation\":{allocation},\"waiting\":{waiting}}}")
}

impl Json for Entry {
    ghost text = { end_object };

    fn show<W: fmt::Write>(&self, f: &mut Formatter<W>) -> fmt::Result {
        show_sockets(self, f)?;
        show_state(self, f)?;
        show_data(self, f)
    }
}

impl Json for Listener {
    ghost text = { listener_object };

    fn show<W: fmt::Write>(&self, f: &mut Formatter<W>) -> fmt::Result {
        let (socket, size) = (self.socket, self.size.bits());
        write!(f, "{{\"socket\":{socket},\"size\":{size}}}")
    }
}

impl Json for Peer {
    ghost text = { pair_object };

    fn show<W: fmt::Write>(&self, f: &mut Formatter<W>) -> fmt::Result {
        let (peer, pair) = (Name(&self.host), &self.pair);
        let (phase, owed) = (PhaseWord(pair.phase), Flag(pair.owed));
        let (busy, ends) = (Array(&pair.busy), Array(pair.entries.as_slice()));
        let commands = Array(pair.queue.as_slice());
        write!(
            f,
            "{{\"peer\":{peer},\"phase\":{phase},\"owed\":{owed},\"busy\":{busy},\"ends\":{ends},\"commands\":{commands}}}"
        )
    }
}

/// The program of a host, if it is up.
#[derive(Drop)]
struct Program<'a>(&'a Option<Ncp>);

impl fmt::Display for Program<'_> {
    ghost output = { λ program. Some (program_text program.0.now) };

    fn fmt<W: fmt::Write>(&self, f: &mut Formatter<W>) -> fmt::Result {
        let Some(program) = self.0 else {
            return f.write_str("null");
        };
        let (pairs, listening) = (Array(program.peers()), Array(program.listening()));
        write!(f, "{{\"pairs\":{pairs},\"listening\":{listening}}}")
    }
}

impl Json for Seat {
    ghost text = { seat_member };

    fn show<W: fmt::Write>(&self, f: &mut Formatter<W>) -> fmt::Result {
        let (host, program) = (Name(&self.host), Program(&self.program));
        write!(f, "{host}:{program}")
    }
}

impl Placed for Seat {
    ghost place = { seat_place };

    fn is_at(&self, host: &HostAddr) -> bool {
        *host == self.host
    }
}
