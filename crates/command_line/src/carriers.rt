//! Over which carrier a script is replayed, without host programs or with them, some hosts being strangers or none.

ghost use Rattle.std.specs.Prelude.{◌≡◌, ◌++◌, ◌↔◌, [], codes, Err, IfErr, IfOk, None, OnOk, false, true};
ghost use Rattle.std.specs.Io.KnownBytes.{Appends};
ghost use Rattle.net_sim.specs.Steps.{absent_in};
ghost use Rattle.replay.specs.Failing.{TellsFailure};
ghost use Rattle.replay.specs.Output.{Writes};
ghost use Rattle.world_replay.specs.Output as lines;
ghost use Rattle.command_line.specs.Carriers.{ends_of, subnet_of};
ghost use Rattle.command_line.specs.Events.{asked_of};
ghost use Rattle.command_line.specs.Replayed.{EndsFrom, EndsOn, ReplaysFrom, ReplaysOn, ShowsAmong, ShowsFrom};
ghost use Rattle.command_line.specs.Replayed.{StopsAmong, StopsFrom, book_text, WorldShowsFrom, WorldStopsFrom};
ghost use Rattle.command_line.specs.Replayed.{WritesAll, WritesWorld};
ghost use Rattle.command_line.specs.Steps.{IsReplayFault};
ghost use Rattle.command_line.specs.Stopping.{NothingOr};

use crate::fault::ScriptFault;
use crate::input::Events;
use headline::book_of;
use interface::{Carrier, HostAddr};
use leader1822::PlainBoxes;
use mixed_worlds::book_among;
use net_sim::{Life, MixedWorld, StrangersFault, World};
use replay::{Detail, Output, WriteFailed};
use script::RawEvent;
use std::alloc::{AllocError, Global};
use subnet::Subnet;
use topology::{CarrierKind, LineEnds, Topology};
use world_replay::{print_lives, replay_mixed_events};
use world_script::WorldEvent;

/// Replays events over the carrier that a topology names, plain mailboxes or a subnet. It writes what they
/// show, the lives of connections where the book is asked for, and a last line `end`. Of a message it writes as
/// much as `detail` says.
///
/// Errors: `CannotWrite`; `OutOfMemory`, after which a prefix of that is written.
pub(crate) fn replay_on<W: Output>(
    alloc: Global,
    network: &Topology,
    events: Events,
    book: bool,
    detail: Detail,
    writer: &mut W,
) -> Result<(), ScriptFault>
    requires { W.failed writer.old ≡ false }
    ensures replayed { OnOk result (ReplaysOn network.now book detail (asked_of events) (W.contents writer.old) (W.contents writer.new)) }
    ensures stopped { result ≡ Err ScriptFault.OutOfMemory → NothingOr (EndsOn network.now detail (asked_of events)) (W.contents writer.old) (W.contents writer.new) }
    ensures fault { IfErr result IsReplayFault }
    ensures failed { (result ≡ Err ScriptFault.CannotWrite) ↔ (W.failed writer.new ≡ true) }
    ensures flushed { OnOk result (W.flushed writer.new ≡ true) }
{
    let strangers = network.strangers();
    match network.carrier() {
        CarrierKind::Plain => {
            let hosts = network.hosts(alloc)?;
            let carrier = PlainBoxes::new(alloc, hosts);
            replay_over(alloc, carrier, strangers, events, book, detail, writer)
        }
        CarrierKind::Subnet => {
            let carrier = subnet_of(alloc, network)?;
            replay_over(alloc, carrier, strangers, events, book, detail, writer)
        }
    }
}

/// Replays events over a carrier at its opening, without host programs or with them, where these hosts are strangers.
///
/// Errors: `CannotWrite`; `OutOfMemory`, after which a prefix of that is written.
fn replay_over<C: Carrier, W: Output>(
    alloc: Global,
    carrier: C,
    strangers: &[HostAddr],
    events: Events,
    book: bool,
    detail: Detail,
    writer: &mut W,
) -> Result<(), ScriptFault>
    requires unused { (C.calls.seen carrier).log ≡ [] }
    requires whole { W.failed writer.old ≡ false }
    requires running { (C.calls.seen carrier).stopped ≡ false }
    // strangers are hosts of the network
    requires there { absent_in (C.calls.seen carrier).hosts strangers.now ≡ None }
    ensures replayed { OnOk result (ReplaysFrom C.calls strangers.now carrier book detail (asked_of events) (W.contents writer.old) (W.contents writer.new)) }
    ensures stopped { result ≡ Err ScriptFault.OutOfMemory → NothingOr (EndsFrom C.calls strangers.now carrier detail (asked_of events)) (W.contents writer.old) (W.contents writer.new) }
    ensures fault { IfErr result IsReplayFault }
    ensures failed { (result ≡ Err ScriptFault.CannotWrite) ↔ (W.failed writer.new ≡ true) }
    ensures flushed { OnOk result (W.flushed writer.new ≡ true) }
{
    match events {
        Events::Raw(events) => replay_raw(carrier, &events, detail, writer),
        Events::World(events) => {
            if strangers.is_empty() {
                replay_world(alloc, carrier, events, book, detail, writer)
            } else {
                replay_among(alloc, carrier, strangers, events, book, detail, writer)
            }
        }
    }
}

/// Replays events without host programs, and writes what they show and a last line `end`.
///
/// Errors: `CannotWrite`; `OutOfMemory`, after which a prefix of that is written.
fn replay_raw<C: Carrier, W: Output>(
    mut carrier: C,
    events: &[RawEvent],
    detail: Detail,
    writer: &mut W,
) -> Result<(), ScriptFault>
    requires unused { (C.calls.seen carrier).log ≡ [] }
    requires whole { W.failed writer.old ≡ false }
    ensures replayed { OnOk result (WritesAll detail (ShowsFrom C.calls carrier events.now) (W.contents writer.old) (W.contents writer.new)) }
    ensures stopped { result ≡ Err ScriptFault.OutOfMemory → Writes detail (StopsFrom C.calls carrier events.now) (W.contents writer.old) (W.contents writer.new) }
    ensures fault { IfErr result IsReplayFault }
    ensures failed { (result ≡ Err ScriptFault.CannotWrite) ↔ (W.failed writer.new ≡ true) }
    ensures flushed { OnOk result (W.flushed writer.new ≡ true) }
{
    match replay::replay_events(&mut carrier, events, detail, writer) {
        Ok(()) => Ok(write_last(writer, b"end\n")?),
        Err(fault) => Err(ScriptFault::from(fault)),
    }
}

/// Replays events of hosts with programs, and writes what they show, the lives of connections where the book is asked
/// for, and a last line `end`. The world's book keeps the promise, and what is written is what this book has.
///
/// Errors: `CannotWrite`; `OutOfMemory`, after which a prefix of that is written.
fn replay_world<C: Carrier, W: Output>(
    alloc: Global,
    carrier: C,
    events: Vec<WorldEvent>,
    book: bool,
    detail: Detail,
    writer: &mut W,
) -> Result<(), ScriptFault>
    requires unused { (C.calls.seen carrier).log ≡ [] }
    requires whole { W.failed writer.old ≡ false }
    requires running { (C.calls.seen carrier).stopped ≡ false }
    ensures replayed { OnOk result (WritesWorld book detail (WorldShowsFrom C.calls carrier events.items) (W.contents writer.old) (W.contents writer.new)) }
    ensures stopped { result ≡ Err ScriptFault.OutOfMemory → NothingOr (lines.Writes detail (WorldStopsFrom C.calls carrier events.items)) (W.contents writer.old) (W.contents writer.new) }
    ensures fault { IfErr result IsReplayFault }
    ensures failed { (result ≡ Err ScriptFault.CannotWrite) ↔ (W.failed writer.new ≡ true) }
    ensures flushed { OnOk result (W.flushed writer.new ≡ true) }
{
    let mut world = World::new(alloc, carrier)?;
    let outcome = world_replay::replay_events(&mut world, events, detail, writer);
    // that it does is what `book_of` ensures, whether its lives are asked for or not, and however the replay ended
    let kept = book_of(&world);
    match outcome {
        Ok(()) => Ok(write_lives(kept.lives(), book, writer)?),
        Err(fault) => Err(ScriptFault::from(fault)),
    }
}

/// Replays events over a carrier in which these hosts are strangers, and writes what they show, the lives of
/// connections where the book is asked for, and a last line `end`. The world's book keeps what is promised where there
/// are strangers, and what is written is what this book has.
///
/// Errors: `CannotWrite`; `OutOfMemory`, after which a prefix of that is written.
fn replay_among<C: Carrier, W: Output>(
    alloc: Global,
    carrier: C,
    strangers: &[HostAddr],
    events: Vec<WorldEvent>,
    book: bool,
    detail: Detail,
    writer: &mut W,
) -> Result<(), ScriptFault>
    requires unused { (C.calls.seen carrier).log ≡ [] }
    requires whole { W.failed writer.old ≡ false }
    requires running { (C.calls.seen carrier).stopped ≡ false }
    // strangers are hosts of the network
    requires there { absent_in (C.calls.seen carrier).hosts strangers.now ≡ None }
    ensures replayed { OnOk result (WritesWorld book detail (ShowsAmong C.calls strangers.now carrier events.items) (W.contents writer.old) (W.contents writer.new)) }
    ensures stopped { result ≡ Err ScriptFault.OutOfMemory → NothingOr (lines.Writes detail (StopsAmong C.calls strangers.now carrier events.items)) (W.contents writer.old) (W.contents writer.new) }
    ensures fault { IfErr result IsReplayFault }
    ensures failed { (result ≡ Err ScriptFault.CannotWrite) ↔ (W.failed writer.new ≡ true) }
    ensures flushed { OnOk result (W.flushed writer.new ≡ true) }
{
    let mut world = match MixedWorld::new(alloc, carrier, strangers) {
        Ok(world) => world,
        Err(StrangersFault::OutOfMemory) => return Err(ScriptFault::OutOfMemory),
        Err(StrangersFault::NoSuch(_)) => return Err(ScriptFault::BadTopology),
    };
    let outcome = replay_mixed_events(&mut world, events, detail, writer);
    // that it does is what `book_among` ensures, whether its lives are asked for or not, and however the replay ended
    let kept = book_among(&world);
    match outcome {
        Ok(()) => Ok(write_lives(kept.lives(), book, writer)?),
        Err(fault) => Err(ScriptFault::from(fault)),
    }
}

/// Writes these lives, where the book is asked for, and a last line `end`.
///
/// Errors: `WriteFailed`.
fn write_lives<W: Output>(lives: &[Life], book: bool, writer: &mut W) -> Result<(), WriteFailed>
    requires { W.failed writer.old ≡ false }
    ensures written { OnOk result (Appends (W.contents writer.old) (W.contents writer.new) (book_text book lives.now ++ codes "end\n")) }
    ensures failed { TellsFailure result (W.failed writer.new) }
    ensures flushed { OnOk result (W.flushed writer.new ≡ true) }
{
    if book {
        print_lives(lives, writer)?;
    }
    write_last(writer, b"end\n")
}

/// Returns the subnet of a topology's IMPs and lines, at its opening. What `Subnet::new` requires a topology keeps by
/// its type.
///
/// Errors: `AllocError`.
pub fn subnet_of(alloc: Global, network: &Topology) -> Result<Subnet, AllocError>
    ensures { IfOk result (λ subnet. subnet ≡ subnet_of network.now) }
{
    let hosts = network.hosts(alloc)?;
    let sites = network.sites(alloc)?;
    let ends = ends_of(alloc, network.lines())?;
    Subnet::new(alloc, hosts, sites, &ends)
}

/// Returns the ends of lines, as a subnet takes them.
///
/// Errors: `AllocError`.
fn ends_of(alloc: Global, lines: &[LineEnds]) -> Result<Vec<subnet::Ends>, AllocError>
    ensures { IfOk result (λ ends. ends.items ≡ ends_of lines.now) }
{
    let mut ends = Vec::new(alloc);
    for line in lines {
        ends.push(subnet::Ends {
            a: line.a,
            b: line.b,
        })?;
    }
    Ok(ends)
}

/// Writes the last line, and all that the writer still holds back.
///
/// Errors: `WriteFailed`.
pub(crate) fn write_last<W: Output>(writer: &mut W, line: &[u8]) -> Result<(), WriteFailed>
    requires { W.failed writer.old ≡ false }
    ensures written { OnOk result (Appends (W.contents writer.old) (W.contents writer.new) line.now) }
    ensures failed { TellsFailure result (W.failed writer.new) }
    ensures flushed { OnOk result (W.flushed writer.new ≡ true) }
{
    writer.write_all(line)?;
    writer.flush()
}
