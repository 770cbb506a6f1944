//! The log of a replay's book, in place of what the replay shows.

ghost use Rattle.std.specs.Prelude.{◌≡◌, ◌≢◌, ◌≤◌, ◌↔◌, ◌++◌, Err, IfErr, IfSome, MatchResult, OnOk, None, [], false};
ghost use Rattle.std.specs.Prelude.{length, true};
ghost use Rattle.std.specs.Io.KnownBytes.{Appends};
ghost use Rattle.book_log.specs.Log.{IsBook, log_text, logged_book, strangers_text};
ghost use Rattle.net_sim.specs.Steps.{absent_in};
ghost use Rattle.promise.specs.Fates.{AreFated};
ghost use Rattle.replay.specs.Failing.{TellsFailure};
ghost use Rattle.command_line.specs.Events.{asked_of};
ghost use Rattle.command_line.specs.Input.{IsInputFault, IsScriptFault, IsSomeInput};
ghost use Rattle.topology.specs.Topology.{ArePicked};
ghost use Rattle.command_line.specs.Logs.{Logged, LogsAmong, LogsFrom, LogsInput, LogsOn, LogsRaw, LogsWorld};
ghost use Rattle.command_line.specs.Logs.{world_book};
ghost use Rattle.command_line.specs.Reading.{ReadsAll, ReadsFirst};
ghost use Rattle.command_line.specs.Steps.{IsReplayFault};

use crate::carriers::subnet_of;
use crate::fault::ScriptFault;
use crate::input::{Events, Input, read_input, read_octets};
use crate::source::Source;
use book_log::{print_log, print_strangers};
use headline::book_of;
use interface::{Carrier, Crossing, HostAddr};
use leader1822::PlainBoxes;
use mixed_worlds::book_among;
use net_sim::{BitLog, Book, Life, MixedWorld, StrangersFault, World};
use promise::Fate;
use replay::{Detail, Output, WriteFailed};
use script::{MAX_INPUT, RawEvent};
use std::alloc::Global;
use std::fmt::Display;
use topology::{CarrierKind, Topology};
use world_replay::replay_mixed_events;
use world_script::WorldEvent;

/// An output that prints nothing, and never fails.
#[derive(Drop)]
struct Silent {
    /// Whether the last call was a flush.
    flushed: bool,
}

impl Output for Silent {
    ghost contents = { λ s. None };

    ghost failed = { λ s. false };

    ghost flushed = { λ s. s.flushed };

    fn write_fmt<D: Display>(&mut self, _text: D) -> Result<(), WriteFailed>
    where
        D: Drop,
    {
        self.flushed = false;
        Ok(())
    }

    fn write_all(&mut self, _octets: &[u8]) -> Result<(), WriteFailed> {
        self.flushed = false;
        Ok(())
    }

    fn flush(&mut self) -> Result<(), WriteFailed> {
        self.flushed = true;
        Ok(())
    }
}

/// Reads a topology, the marker line `%` and a script, replays the script, and writes the log of the book that it
/// leaves: what crossed with its texts, the lives of connections with their fates, and what was handed over in each.
/// Where the topology names strangers, a line for each of them comes first.
///
/// Errors: as [`crate::run_script`]. Nothing is written before the replay has come to its end.
pub fn run_log<R: Source, W: Output>(
    alloc: Global,
    reader: &mut R,
    writer: &mut W,
) -> Result<(), ScriptFault>
    // no read and no write has failed yet, and none has come to the end
    requires reads { R.failed reader.old ≡ false }
    requires more { R.ended reader.old ≡ false }
    requires writes { W.failed writer.old ≡ false }

    // a script is replayed over the carrier of a topology, whatever the reader, among strangers or not, and the log of
    // the book that it leaves is written
    ensures ran { OnOk result (Logged (W.contents writer.old) (W.contents writer.new)) }

    // and of a reader whose octets are known these are the script and the topology that were read
    ensures logged { OnOk result (IfSome (R.remaining reader.old) (λ octets. LogsInput octets (W.contents writer.old) (W.contents writer.new))) }

    // the reader is asked for the first octets only, and for an octet more than an input may have at most; unless a
    // read fails or memory runs out, it is asked for all of them
    ensures reads { ReadsFirst (R.remaining reader.old) (R.remaining reader.new) }
    ensures reads_all { result ≢ Err ScriptFault.CannotRead → result ≢ Err ScriptFault.OutOfMemory → ReadsAll (R.remaining reader.old) (R.remaining reader.new) }

    // what is read is an input, or the first fault is given
    ensures read { R.failed reader.new ≡ false → IfSome (R.remaining reader.old) (λ octets. MatchResult result (λ _. IsSomeInput octets) (IsScriptFault octets)) }
    ensures options { IfErr result (λ f. f ≢ ScriptFault.BadOptions) }

    // where a read or a write fails it is reported, and nowhere else
    ensures cannot_read { (result ≡ Err ScriptFault.CannotRead) ↔ (R.failed reader.new ≡ true) }
    ensures cannot_write { (result ≡ Err ScriptFault.CannotWrite) ↔ (W.failed writer.new ≡ true) }

    // at the end all that was written is handed on
    ensures flushed { OnOk result (W.flushed writer.new ≡ true) }

    // a fault leaves nothing written, but for a write that failed
    ensures untouched { IfErr result (λ f. f ≢ ScriptFault.CannotWrite → writer.new ≡ writer.old) }
{
    let octets = read_octets(alloc, reader)?;
    follow(alloc, &octets, writer)
}

/// Writes the log of the input that octets are.
///
/// Errors: `BadTopology`, `BadLine`, `CannotWrite`, `OutOfMemory`, as [`run_log`].
fn follow<W: Output>(alloc: Global, octets: &[u8], writer: &mut W) -> Result<(), ScriptFault>
    requires short { length octets.now ≤ MAX_INPUT }
    requires writes { W.failed writer.old ≡ false }
    ensures logged { OnOk result (LogsInput octets.now (W.contents writer.old) (W.contents writer.new)) }
    ensures read { OnOk result (IsSomeInput octets.now) }
    ensures fault { IfErr result (IsInputFault octets.now) }
    ensures failed { (result ≡ Err ScriptFault.CannotWrite) ↔ (W.failed writer.new ≡ true) }
    ensures flushed { OnOk result (W.flushed writer.new ≡ true) }
    ensures untouched { IfErr result (λ f. f ≢ ScriptFault.CannotWrite → writer.new ≡ writer.old) }
{
    let Input { network, events } = read_input(alloc, octets)?;
    log_on(alloc, &network, events, writer)
}

/// Replays events over the carrier that a topology names, and writes the log of the book that they leave, after a line
/// for each stranger.
///
/// Errors: `CannotWrite`; `OutOfMemory`, after which nothing is written.
fn log_on<W: Output>(
    alloc: Global,
    network: &Topology,
    events: Events,
    writer: &mut W,
) -> Result<(), ScriptFault>
    requires { W.failed writer.old ≡ false }
    ensures logged { OnOk result (LogsOn network.now (asked_of events) (W.contents writer.old) (W.contents writer.new)) }
    ensures untouched { IfErr result (λ f. f ≢ ScriptFault.CannotWrite → writer.new ≡ writer.old) }
    ensures fault { IfErr result IsReplayFault }
    ensures failed { (result ≡ Err ScriptFault.CannotWrite) ↔ (W.failed writer.new ≡ true) }
    ensures flushed { OnOk result (W.flushed writer.new ≡ true) }
{
    let strangers = network.strangers();
    match network.carrier() {
        CarrierKind::Plain => {
            let hosts = network.hosts(alloc)?;
            let carrier = PlainBoxes::new(alloc, hosts);
            log_over(alloc, carrier, strangers, events, writer)
        }
        CarrierKind::Subnet => {
            let carrier = subnet_of(alloc, network)?;
            log_over(alloc, carrier, strangers, events, writer)
        }
    }
}

/// Replays events over a carrier at its opening, without host programs or with them, where these hosts are strangers,
/// and writes the log of the book that they leave.
///
/// Errors: `CannotWrite`; `OutOfMemory`, after which nothing is written.
fn log_over<C: Carrier, W: Output>(
    alloc: Global,
    carrier: C,
    strangers: &[HostAddr],
    events: Events,
    writer: &mut W,
) -> Result<(), ScriptFault>
    requires unused { (C.calls.seen carrier).log ≡ [] }
    requires whole { W.failed writer.old ≡ false }
    requires running { (C.calls.seen carrier).stopped ≡ false }
    // strangers are hosts of the network, in the order of these
    requires there { absent_in (C.calls.seen carrier).hosts strangers.now ≡ None }
    requires picked { ArePicked (C.calls.seen carrier).hosts strangers.now }
    ensures logged { OnOk result (LogsFrom C.calls strangers.now carrier (asked_of events) (W.contents writer.old) (W.contents writer.new)) }
    ensures untouched { IfErr result (λ f. f ≢ ScriptFault.CannotWrite → writer.new ≡ writer.old) }
    ensures fault { IfErr result IsReplayFault }
    ensures failed { (result ≡ Err ScriptFault.CannotWrite) ↔ (W.failed writer.new ≡ true) }
    ensures flushed { OnOk result (W.flushed writer.new ≡ true) }
{
    match events {
        Events::Raw(events) => log_raw(carrier, &events, writer),
        Events::World(events) => {
            if strangers.is_empty() {
                log_world(alloc, carrier, events, writer)
            } else {
                log_among(alloc, carrier, strangers, events, writer)
            }
        }
    }
}

/// Replays events without host programs, and writes what crossed.
///
/// Errors: `CannotWrite`; `OutOfMemory`, after which nothing is written.
fn log_raw<C: Carrier, W: Output>(
    mut carrier: C,
    events: &[RawEvent],
    writer: &mut W,
) -> Result<(), ScriptFault>
    requires unused { (C.calls.seen carrier).log ≡ [] }
    requires whole { W.failed writer.old ≡ false }
    ensures logged { OnOk result (LogsRaw C.calls carrier events.now (W.contents writer.old) (W.contents writer.new)) }
    ensures untouched { IfErr result (λ f. f ≢ ScriptFault.CannotWrite → writer.new ≡ writer.old) }
    ensures fault { IfErr result IsReplayFault }
    ensures failed { (result ≡ Err ScriptFault.CannotWrite) ↔ (W.failed writer.new ≡ true) }
    ensures flushed { OnOk result (W.flushed writer.new ≡ true) }
{
    // what prints nothing doesn't fail, so only memory runs out
    match replay::replay_events(
        &mut carrier,
        events,
        Detail::Sizes,
        &mut Silent { flushed: false },
    ) {
        Ok(()) => Ok(write_log(carrier.log(), &[], &[], &[], writer)?),
        Err(_) => Err(ScriptFault::OutOfMemory),
    }
}

/// Replays events of hosts with programs, and writes the log of their world's book.
///
/// Errors: `CannotWrite`; `OutOfMemory`, after which nothing is written.
fn log_world<C: Carrier, W: Output>(
    alloc: Global,
    carrier: C,
    events: Vec<WorldEvent>,
    writer: &mut W,
) -> Result<(), ScriptFault>
    requires unused { (C.calls.seen carrier).log ≡ [] }
    requires whole { W.failed writer.old ≡ false }
    requires running { (C.calls.seen carrier).stopped ≡ false }
    ensures logged { OnOk result (LogsWorld C.calls carrier events.items (W.contents writer.old) (W.contents writer.new)) }
    ensures untouched { IfErr result (λ f. f ≢ ScriptFault.CannotWrite → writer.new ≡ writer.old) }
    ensures fault { IfErr result IsReplayFault }
    ensures failed { (result ≡ Err ScriptFault.CannotWrite) ↔ (W.failed writer.new ≡ true) }
    ensures flushed { OnOk result (W.flushed writer.new ≡ true) }
{
    let mut world = World::new(alloc, carrier)?;
    // what prints nothing doesn't fail, so only memory runs out
    match world_replay::replay_events(
        &mut world,
        events,
        Detail::Sizes,
        &mut Silent { flushed: false },
    ) {
        Ok(()) => {
            let book = book_of(&world);
            Ok(write_book(&[], &book, writer)?)
        }
        Err(_) => Err(ScriptFault::OutOfMemory),
    }
}

/// Replays events over a carrier at its opening in which these hosts are strangers, and writes a line for each of them
/// and then the log of their world's book.
///
/// Errors: `CannotWrite`; `OutOfMemory`, after which nothing is written.
fn log_among<C: Carrier, W: Output>(
    alloc: Global,
    carrier: C,
    strangers: &[HostAddr],
    events: Vec<WorldEvent>,
    writer: &mut W,
) -> Result<(), ScriptFault>
    requires unused { (C.calls.seen carrier).log ≡ [] }
    requires running { (C.calls.seen carrier).stopped ≡ false }
    // strangers are hosts of the network, in the order of these
    requires there { absent_in (C.calls.seen carrier).hosts strangers.now ≡ None }
    requires picked { ArePicked (C.calls.seen carrier).hosts strangers.now }
    requires whole { W.failed writer.old ≡ false }
    ensures logged { OnOk result (LogsAmong C.calls strangers.now carrier events.items (W.contents writer.old) (W.contents writer.new)) }
    ensures untouched { IfErr result (λ f. f ≢ ScriptFault.CannotWrite → writer.new ≡ writer.old) }
    ensures fault { IfErr result IsReplayFault }
    ensures failed { (result ≡ Err ScriptFault.CannotWrite) ↔ (W.failed writer.new ≡ true) }
    ensures flushed { OnOk result (W.flushed writer.new ≡ true) }
{
    // for the proof only: hosts are in order
    carrier.hosts();
    let mut world = match MixedWorld::new(alloc, carrier, strangers) {
        Ok(world) => world,
        Err(StrangersFault::OutOfMemory) => return Err(ScriptFault::OutOfMemory),
        Err(StrangersFault::NoSuch(_)) => return Err(ScriptFault::BadTopology),
    };
    // what prints nothing doesn't fail, so only memory runs out
    match replay_mixed_events(
        &mut world,
        events,
        Detail::Sizes,
        &mut Silent { flushed: false },
    ) {
        Ok(()) => {
            // for the proof only: each fate says whether its life is over, there is a list for each life, and hosts exist
            world.fates();
            world.handed();
            world.book();
            let book = book_among(&world);
            Ok(write_book(strangers, &book, writer)?)
        }
        Err(_) => Err(ScriptFault::OutOfMemory),
    }
}

/// Writes the log of a book, after a line for each of these strangers, and all that the writer still holds back.
///
/// Errors: `WriteFailed`.
fn write_book<W: Output>(
    strangers: &[HostAddr],
    book: &Book<'_>,
    writer: &mut W,
) -> Result<(), WriteFailed>
    requires { W.failed writer.old ≡ false }
    ensures written { OnOk result (Appends (W.contents writer.old) (W.contents writer.new) (strangers_text strangers.now ++ log_text (world_book book.now))) }
    ensures valid { OnOk result (AreFated book.now.book.lives book.now.fates → IsBook (world_book book.now)) }
    ensures failed { TellsFailure result (W.failed writer.new) }
    ensures flushed { OnOk result (W.flushed writer.new ≡ true) }
{
    print_strangers(strangers, writer)?;
    write_log(
        book.crossings(),
        book.lives(),
        book.handed(),
        book.fates(),
        writer,
    )
}

/// Writes a log, and all that the writer still holds back.
///
/// Errors: `WriteFailed`.
fn write_log<W: Output>(
    crossings: &[Crossing],
    lives: &[Life],
    handed: &[BitLog],
    fates: &[Fate],
    writer: &mut W,
) -> Result<(), WriteFailed>
    requires { W.failed writer.old ≡ false }
    ensures written { OnOk result (Appends (W.contents writer.old) (W.contents writer.new) (log_text (logged_book crossings.now lives.now handed.now fates.now))) }
    ensures valid { OnOk result (AreFated lives.now fates.now → IsBook (logged_book crossings.now lives.now handed.now fates.now)) }
    ensures failed { TellsFailure result (W.failed writer.new) }
    ensures flushed { OnOk result (W.flushed writer.new ≡ true) }
{
    print_log(crossings, lives, handed, fates, writer)?;
    writer.flush()
}
