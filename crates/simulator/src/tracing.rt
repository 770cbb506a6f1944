//! The trace of a replay, in place of what it shows.

ghost use Rattle.std.specs.Prelude.{◌≡◌, ◌≢◌, ◌↔◌, ◌≤◌, [], Err, IfErr, IfOk, IfSome, MatchResult, None, OnOk, false, length, true};
ghost use Rattle.net_sim.specs.Carriers.{shown};
ghost use Rattle.net_sim.specs.Steps.{absent_in};
ghost use Rattle.command_line.specs.Events.{asked_of};
ghost use Rattle.command_line.specs.Input.{IsInputFault, IsScriptFault, IsSomeInput};
ghost use Rattle.command_line.specs.Reading.{ReadsAll, ReadsFirst};
ghost use Rattle.command_line.specs.Steps.{IsReplayFault};
ghost use Rattle.command_line.specs.Stopping.{NothingOr};
ghost use Rattle.simulator.specs.Traced.{EndsAll, EndsAmong, EndsFrom, EndsOn, IsScripted, TraceStops, TraceStopsKnown, Traced, TracedInPart, TracesAll};
ghost use Rattle.simulator.specs.Traced.{TracesAmong, TracesFrom, TracesInput, TracesOn, WorldEndsFrom, WorldTracesFrom};

use command_line::{Events, Input, ScriptFault, Source, read_input, read_octets, subnet_of};
use leader1822::PlainBoxes;
use net_sim::{MixedWorld, StrangersFault, World};
use replay::Output;
use script::{MAX_INPUT, RawEvent, split_input};
use std::alloc::Global;
use subnet_trace::TracedSubnet;
use topology::{CarrierKind, Topology};
use trace::{Inspect, beside_lines, event_lines, trace_events};
use world_script::WorldEvent;
use world_trace::{trace_mixed_world, trace_world};

/// Reads a topology, the marker line `%` and a script, replays the script, and writes its trace: a line with the
/// network and all its parts, and one line for each elementary event.
///
/// Errors, in this order:
/// - `CannotRead`, `BadTopology` and `BadLine`, as [`command_line::run_script`].
/// - `CannotWrite`: a write or a flush failed. Nothing more is asked of the writer, which is the only one to know how
///   much was written.
///
/// `OutOfMemory` may come at any of these steps. What was written by then is a prefix of the trace.
pub fn run_trace<R: Source, W: Output>(
    alloc: Global,
    reader: &mut R,
    writer: &mut W,
) -> Result<(), ScriptFault>
    // no read and no write has failed yet, and none has come to the end
    requires reads { R.failed reader.old ≡ false }
    requires more { R.ended reader.old ≡ false }
    requires writes { W.failed writer.old ≡ false }

    // the trace of some script over the carrier of some topology is written, whatever the reader, among strangers or
    // not
    ensures ran { OnOk result (Traced (W.contents writer.old) (W.contents writer.new)) }

    // and of a reader whose octets are known these are the script and the topology that were read
    ensures traced { OnOk result (IfSome (R.remaining reader.old) (λ octets. TracesInput octets (W.contents writer.old) (W.contents writer.new))) }

    // the reader is asked for the first octets only, and for an octet more than an input may have at most; unless a
    // read fails or memory runs out, it is asked for all of them
    ensures reads { ReadsFirst (R.remaining reader.old) (R.remaining reader.new) }
    ensures reads_all { result ≢ Err ScriptFault.CannotRead → result ≢ Err ScriptFault.OutOfMemory → ReadsAll (R.remaining reader.old) (R.remaining reader.new) }

    // what is read is an input, or the first fault is given
    ensures read { R.failed reader.new ≡ false → IfSome (R.remaining reader.old) (λ octets. MatchResult result (λ _. IsSomeInput octets) (IsScriptFault octets)) }
    ensures options { IfErr result (λ f. f ≢ ScriptFault.BadOptions) }

    // where a read or a write fails it is reported, and nowhere else
    ensures cannot_read { (result ≡ Err ScriptFault.CannotRead) ↔ (R.failed reader.new ≡ true) }
    ensures cannot_write { (result ≡ Err ScriptFault.CannotWrite) ↔ (W.failed writer.new ≡ true) }

    // at the end all that was written is handed on
    ensures flushed { OnOk result (W.flushed writer.new ≡ true) }

    // a fault that is found before the replay leaves nothing written
    ensures untouched { IfErr result (λ f. f ≢ ScriptFault.CannotWrite → f ≢ ScriptFault.OutOfMemory → writer.new ≡ writer.old) }

    // after memory has run out the output is a prefix of the trace
    ensures ran_in_part { result ≡ Err ScriptFault.OutOfMemory → NothingOr TracedInPart (W.contents writer.old) (W.contents writer.new) }
    ensures first_part { result ≡ Err ScriptFault.OutOfMemory → TraceStopsKnown (R.remaining reader.old) (W.contents writer.old) (W.contents writer.new) }
{
    let octets = read_octets(alloc, reader)?;
    follow(alloc, &octets, writer)
}

/// Writes the trace of the input that octets are.
///
/// Errors: `BadTopology`, `BadLine`, `CannotWrite`, `OutOfMemory`, as [`run_trace`].
fn follow<W: Output>(alloc: Global, octets: &[u8], writer: &mut W) -> Result<(), ScriptFault>
    requires short { length octets.now ≤ MAX_INPUT }
    requires writes { W.failed writer.old ≡ false }
    ensures traced { OnOk result (TracesInput octets.now (W.contents writer.old) (W.contents writer.new)) }
    ensures read { OnOk result (IsSomeInput octets.now) }
    ensures stopped { result ≡ Err ScriptFault.OutOfMemory → NothingOr (TraceStops octets.now) (W.contents writer.old) (W.contents writer.new) }
    ensures fault { IfErr result (IsInputFault octets.now) }
    ensures failed { (result ≡ Err ScriptFault.CannotWrite) ↔ (W.failed writer.new ≡ true) }
    ensures flushed { OnOk result (W.flushed writer.new ≡ true) }
    ensures untouched { IfErr result (λ f. f ≢ ScriptFault.CannotWrite → f ≢ ScriptFault.OutOfMemory → writer.new ≡ writer.old) }
{
    let Scripted {
        network,
        lines,
        events,
    } = read_scripted(alloc, octets)?;
    trace_on(alloc, &network, &lines, events, writer)
}

/// What an input asks for, with the lines of its script.
#[derive(Drop)]
struct Scripted {
    /// Its topology.
    network: Topology,
    /// The numbers of the lines that ask for its events.
    lines: Vec<usize>,
    /// The events of its script.
    events: Events,
}

/// Returns the input that these octets are, with the numbers of the lines that ask for its events.
///
/// Errors: `BadTopology`, `BadLine` and `OutOfMemory`, as [`read_input`].
fn read_scripted(alloc: Global, octets: &[u8]) -> Result<Scripted, ScriptFault>
    requires { length octets.now ≤ MAX_INPUT }
    ensures read { IfOk result (λ input. IsScripted octets.now input.network input.lines.items (asked_of input.events)) }
    ensures fault { IfErr result (IsInputFault octets.now) }
    ensures read_only { IfErr result (λ f. f ≢ ScriptFault.CannotWrite) }
{
    let Some((_, script)) = split_input(octets) else {
        return Err(ScriptFault::BadTopology);
    };
    let Input { network, events } = match read_input(alloc, octets) {
        Ok(input) => input,
        Err(fault) => return Err(fault),
    };
    let Ok(lines) = event_lines(alloc, script) else {
        return Err(ScriptFault::OutOfMemory);
    };
    Ok(Scripted {
        network,
        lines,
        events,
    })
}

/// Replays events, which are in these lines of a script, over the carrier that a topology names, and writes their
/// trace.
///
/// Errors: `CannotWrite`; `OutOfMemory`, after which the first lines of the trace are written, if any.
fn trace_on<W: Output>(
    alloc: Global,
    network: &Topology,
    lines: &[usize],
    events: Events,
    writer: &mut W,
) -> Result<(), ScriptFault>
    requires whole { W.failed writer.old ≡ false }
    ensures traced { OnOk result (TracesOn network.now lines.now (asked_of events) (W.contents writer.old) (W.contents writer.new)) }
    ensures stopped { result ≡ Err ScriptFault.OutOfMemory → NothingOr (EndsOn network.now lines.now (asked_of events)) (W.contents writer.old) (W.contents writer.new) }
    ensures fault { IfErr result IsReplayFault }
    ensures failed { (result ≡ Err ScriptFault.CannotWrite) ↔ (W.failed writer.new ≡ true) }
    ensures flushed { OnOk result (W.flushed writer.new ≡ true) }
{
    // for the proof only: strangers are hosts of the network
    network.strangers();
    match network.carrier() {
        CarrierKind::Plain => {
            let hosts = network.hosts(alloc)?;
            let carrier = PlainBoxes::new(alloc, hosts);
            trace_over(alloc, network, carrier, lines, events, writer)
        }
        CarrierKind::Subnet => {
            let carrier = TracedSubnet::new(subnet_of(alloc, network)?);
            trace_over(alloc, network, carrier, lines, events, writer)
        }
    }
}

/// Replays events over a carrier at its opening, without host programs or with them, where some hosts are strangers or
/// none, and writes their trace.
///
/// Errors: `CannotWrite`; `OutOfMemory`, after which the first lines of the trace are written, if any.
fn trace_over<C: Inspect, W: Output>(
    alloc: Global,
    network: &Topology,
    carrier: C,
    lines: &[usize],
    events: Events,
    writer: &mut W,
) -> Result<(), ScriptFault>
    requires unused { (C.calls.seen carrier).log ≡ [] }
    requires running { (C.calls.seen carrier).stopped ≡ false }
    // strangers are hosts of the network
    requires there { absent_in (C.calls.seen carrier).hosts network.now.strangers ≡ None }
    requires whole { W.failed writer.old ≡ false }
    ensures traced { OnOk result (TracesAll C.calls C.inside network.now carrier lines.now (asked_of events) (W.contents writer.old) (W.contents writer.new)) }
    ensures stopped { result ≡ Err ScriptFault.OutOfMemory → NothingOr (EndsAll C.calls C.inside network.now carrier lines.now (asked_of events)) (W.contents writer.old) (W.contents writer.new) }
    ensures fault { IfErr result IsReplayFault }
    ensures failed { (result ≡ Err ScriptFault.CannotWrite) ↔ (W.failed writer.new ≡ true) }
    ensures flushed { OnOk result (W.flushed writer.new ≡ true) }
{
    match events {
        Events::Raw(events) => {
            let events = beside_lines(alloc, lines, events)?;
            trace_from(alloc, network, carrier, &events, writer)
        }
        Events::World(events) => {
            let events = beside_lines(alloc, lines, events)?;
            if network.strangers().is_empty() {
                trace_hosts(alloc, network, carrier, events, writer)
            } else {
                trace_among(alloc, network, carrier, events, writer)
            }
        }
    }
}

/// Replays events of hosts with programs, each of which comes after the number of its line, over a carrier at its
/// opening, and writes their trace.
///
/// Errors: `CannotWrite`; `OutOfMemory`, after which the first lines of the trace are written, if any.
fn trace_hosts<C: Inspect, W: Output>(
    alloc: Global,
    network: &Topology,
    carrier: C,
    events: Vec<(usize, WorldEvent)>,
    writer: &mut W,
) -> Result<(), ScriptFault>
    requires unused { (C.calls.seen carrier).log ≡ [] }
    requires running { (C.calls.seen carrier).stopped ≡ false }
    requires whole { W.failed writer.old ≡ false }
    ensures traced { OnOk result (WorldTracesFrom (shown C.calls) C.inside.members network.now carrier events.items (W.contents writer.old) (W.contents writer.new)) }
    ensures stopped { result ≡ Err ScriptFault.OutOfMemory → NothingOr (WorldEndsFrom (shown C.calls) C.inside.members network.now carrier events.items) (W.contents writer.old) (W.contents writer.new) }
    ensures fault { IfErr result IsReplayFault }
    ensures failed { (result ≡ Err ScriptFault.CannotWrite) ↔ (W.failed writer.new ≡ true) }
    ensures flushed { OnOk result (W.flushed writer.new ≡ true) }
{
    let mut world = World::new(alloc, carrier)?;
    match trace_world(alloc, network, &mut world, events, writer) {
        Ok(()) => Ok(writer.flush()?),
        Err(fault) => Err(ScriptFault::from(fault)),
    }
}

/// Replays events among strangers, each of which comes after the number of its line, over a carrier at its opening, and
/// writes their trace.
///
/// Errors: `CannotWrite`; `OutOfMemory`, after which the first lines of the trace are written, if any.
fn trace_among<C: Inspect, W: Output>(
    alloc: Global,
    network: &Topology,
    carrier: C,
    events: Vec<(usize, WorldEvent)>,
    writer: &mut W,
) -> Result<(), ScriptFault>
    requires unused { (C.calls.seen carrier).log ≡ [] }
    requires running { (C.calls.seen carrier).stopped ≡ false }
    // strangers are hosts of the network
    requires there { absent_in (C.calls.seen carrier).hosts network.now.strangers ≡ None }
    requires whole { W.failed writer.old ≡ false }
    ensures traced { OnOk result (TracesAmong (shown C.calls) C.inside.members network.now carrier events.items (W.contents writer.old) (W.contents writer.new)) }
    ensures stopped { result ≡ Err ScriptFault.OutOfMemory → NothingOr (EndsAmong (shown C.calls) C.inside.members network.now carrier events.items) (W.contents writer.old) (W.contents writer.new) }
    ensures fault { IfErr result IsReplayFault }
    ensures failed { (result ≡ Err ScriptFault.CannotWrite) ↔ (W.failed writer.new ≡ true) }
    ensures flushed { OnOk result (W.flushed writer.new ≡ true) }
{
    let mut world = match MixedWorld::new(alloc, carrier, network.strangers()) {
        Ok(world) => world,
        Err(StrangersFault::OutOfMemory) => return Err(ScriptFault::OutOfMemory),
        Err(StrangersFault::NoSuch(_)) => return Err(ScriptFault::BadTopology),
    };
    match trace_mixed_world(alloc, network, &mut world, events, writer) {
        Ok(()) => Ok(writer.flush()?),
        Err(fault) => Err(ScriptFault::from(fault)),
    }
}

/// Replays events, each of which comes after the number of its line, over a carrier at its opening, and writes their
/// trace.
///
/// Errors: `CannotWrite`; `OutOfMemory`, after which the first lines of the trace are written.
fn trace_from<C: Inspect, W: Output>(
    alloc: Global,
    network: &Topology,
    mut carrier: C,
    events: &[(usize, RawEvent)],
    writer: &mut W,
) -> Result<(), ScriptFault>
    requires whole { W.failed writer.old ≡ false }
    ensures traced { OnOk result (TracesFrom C.calls C.inside network.now carrier events.now (W.contents writer.old) (W.contents writer.new)) }
    ensures stopped { result ≡ Err ScriptFault.OutOfMemory → EndsFrom C.calls C.inside network.now carrier events.now (W.contents writer.old) (W.contents writer.new) }
    ensures fault { IfErr result IsReplayFault }
    ensures failed { (result ≡ Err ScriptFault.CannotWrite) ↔ (W.failed writer.new ≡ true) }
    ensures flushed { OnOk result (W.flushed writer.new ≡ true) }
{
    match trace_events(alloc, network, &mut carrier, events, writer) {
        Ok(()) => Ok(writer.flush()?),
        Err(fault) => Err(ScriptFault::from(fault)),
    }
}
