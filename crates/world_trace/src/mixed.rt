//! Tracing the events of a world some of whose hosts are strangers.

ghost use Rattle.std.specs.Prelude.{◌≡◌, ◌⊎◌, [], Err, IfErr, IfOk, IfSome, OnOk, false};
ghost use Rattle.std.specs.Io.KnownBytes.{Appends};
ghost use Rattle.net_sim.specs.Carriers.{shown};
ghost use Rattle.replay.specs.Failing.{TellsCannotWrite, TellsFailure};
ghost use Rattle.replay.specs.declared.events.ReplayFault.TheVariants as fault;
ghost use Rattle.script.specs.Input.{ended_line};
ghost use Rattle.world_replay.specs.Kinds.{rounds_in};
ghost use Rattle.world_trace.specs.MixedSteps.{HasPassedMixed, MixedEnds, EventEndsAmong, ShowsMixed, mixed_end, mixed_hosts, mixed_reach};
ghost use Rattle.world_trace.specs.MixedTraces.{MixedTraceFails, StopsMixed, WritesMixed, WritesMixedPart, mixed_opening};
ghost use Rattle.world_trace.specs.Seen.{CalmHandsOn, MixedIsSeen};
ghost use Rattle.world_trace.specs.Steps.{AreTextsOf};

use crate::calm::trace_calm;
use crate::line::{Passed, print_line};
use crate::spelling::spelled;
use crate::texts::{Texts, change_all, change_one, known_texts};
use crate::traced::{host_at, is_of_network, trace_all};
use crate::values::{Array, Object};
use interface::HostAddr;
use net_sim::{Event, MixedWorld};
use replay::{Detail, Output, Printer, ReplayFault, WriteFailed};
use std::alloc::{AllocError, Global};
use topology::Topology;
use trace::{Inspect, Spot, print_network};
use world_replay::replay_mixed_events;
use world_script::WorldEvent;

/// Traces a world some of whose hosts are strangers, as [`crate::trace_world`] does one without. The first line also
/// says who they are. A message of a stranger and its taking have a line each, by which parts of the carrier change;
/// and so has what is refused as `NoProgram` or `HasProgram`. In a calm a stranger has no turn. What is printed of the
/// state is the carrier, and the programs and services of the other hosts.
///
/// Errors: as in [`crate::trace_world`].
pub fn trace_mixed_world<C: Inspect, W: Output>(
    alloc: Global,
    network: &Topology,
    world: &mut MixedWorld<C>,
    events: Vec<(usize, WorldEvent)>,
    writer: &mut W,
) -> Result<(), ReplayFault>
    requires whole { W.failed writer.old ≡ false }

    // first the network with the state and the strangers, and then each event happened as in a replay, those of a calm
    // one by one, and its line was written
    ensures traced { OnOk result (WritesMixed (shown C.calls) C.inside.members network.now world.old events.items world.new (W.contents writer.old) (W.contents writer.new)) }

    // a long calm is seen, as in `trace_world`
    ensures seen { OnOk result (MixedIsSeen (shown C.calls) C.inside.members W.contents W.flushed network.now events.items (world.old, writer.old) (world.new, writer.new)) }

    // memory ran out at one of them: the first line and those before it were written, and nothing else
    ensures memory { result ≡ Err fault.OutOfMemory → WritesMixedPart (shown C.calls) C.inside.members network.now world.old events.items world.new (W.contents writer.old) (W.contents writer.new) }

    // `CannotWrite` is answered where a write failed, and nowhere else
    ensures failed { TellsCannotWrite result (W.failed writer.new) }

    // a write failed: the event had already happened, or none had
    ensures cannot_write { result ≡ Err fault.CannotWrite → (world.new ≡ world.old) ⊎ MixedTraceFails (shown C.calls) C.inside.members world.old events.items world.new }
{
    print_opening(network, world, writer)?;
    trace_all(alloc, world, events, writer)
}

/// Prints the first line of a trace: the network, the state of a world, and its strangers.
fn print_opening<C: Inspect, W: Output>(
    network: &Topology,
    world: &MixedWorld<C>,
    writer: &mut W,
) -> Result<(), WriteFailed>
    requires { W.failed writer.old ≡ false }
    ensures written { OnOk result (Appends (W.contents writer.old) (W.contents writer.new) (ended_line (mixed_opening C.inside.members network.now world.now))) }
    ensures failed { TellsFailure result (W.failed writer.new) }
{
    print_network(network, writer)?;
    print_state(world, writer)
}

/// Prints the programs and the services of the hosts after other members, the strangers, and the end of the line.
fn print_hosts<C: Inspect, W: Output>(
    world: &MixedWorld<C>,
    writer: &mut W,
) -> Result<(), WriteFailed>
    requires { W.failed writer.old ≡ false }
    ensures written { OnOk result (Appends (W.contents writer.old) (W.contents writer.new) (mixed_hosts world.now)) }
    ensures failed { TellsFailure result (W.failed writer.new) }
{
    let (programs, services) = (Object(world.seats()), Object(world.services()));
    let foreign = Array(world.strangers());
    write!(
        writer,
        ",\"programs\":{programs},\"services\":{services},\"foreign\":{foreign}}}\n"
    )
}

/// Prints the state of a world after other members, its strangers, and the end of the line.
fn print_state<C: Inspect, W: Output>(
    world: &MixedWorld<C>,
    writer: &mut W,
) -> Result<(), WriteFailed>
    requires { W.failed writer.old ≡ false }
    ensures written { OnOk result (Appends (W.contents writer.old) (W.contents writer.new) (mixed_end C.inside.members world.now)) }
    ensures failed { TellsFailure result (W.failed writer.new) }
{
    world.carrier().print_whole(writer)?;
    print_hosts(world, writer)
}

/// Traces one event, which is at this spot of a script. The texts of the state may be known.
pub(crate) fn trace_mixed_event<C: Inspect, W: Output>(
    alloc: Global,
    world: &mut MixedWorld<C>,
    spot: Spot,
    event: WorldEvent,
    known: &mut Option<Texts>,
    notes: &mut C::Notes,
    writer: &mut W,
) -> Result<(), ReplayFault>
    requires whole { W.failed writer.old ≡ false }
    requires known { IfSome known.old (AreTextsOf C.inside.members world.old) }
    ensures ends { EventEndsAmong (shown C.calls) C.inside.members spot world.old event result world.new (W.contents writer.old) (W.contents writer.new) }
    ensures seen { OnOk result (CalmHandsOn (shown C.calls) C.inside.members W.contents W.flushed spot (rounds_in event) (world.old, writer.old) (world.new, writer.new)) }
    ensures known { OnOk result (IfSome known.new (AreTextsOf C.inside.members world.new)) }
    ensures failed { TellsCannotWrite result (W.failed writer.new) }
{
    match event {
        WorldEvent::Calm(rounds) => { trace_calm(alloc, world, spot, rounds, known, notes, writer) }
        WorldEvent::Happen(event) => {
            trace_mixed(alloc, world, spot, event, known, notes, writer)
        }
    }
}

/// Lets an event happen that is no calm, and prints its line.
fn trace_mixed<C: Inspect, W: Output>(
    alloc: Global,
    world: &mut MixedWorld<C>,
    spot: Spot,
    event: Event,
    known: &mut Option<Texts>,
    notes: &mut C::Notes,
    writer: &mut W,
) -> Result<(), ReplayFault>
    requires whole { W.failed writer.old ≡ false }
    requires known { IfSome known.old (AreTextsOf C.inside.members world.old) }
    ensures ends { MixedEnds (shown C.calls) C.inside.members spot world.old event result world.new (W.contents writer.old) (W.contents writer.new) }
    ensures known { OnOk result (IfSome known.new (AreTextsOf C.inside.members world.new)) }
    ensures failed { TellsCannotWrite result (W.failed writer.new) }
{
    let mut texts = known_texts(alloc, world, known.take(), notes)?;
    let passed = pass(alloc, world, event, &mut texts, notes)?;
    print_line(world, spot, 0, &passed, writer)?;
    *known = Some(texts);
    Ok(())
}

/// What of a state an event may change beside parts of the carrier: what is at a host, or what is at any.
#[derive(Clone, Copy)]
pub(crate) enum Reach {
    /// What is at this host, if there is one.
    At(Option<HostAddr>),
    /// What is at any host.
    All,
}

/// Returns what an event may change. A message of a stranger changes parts of the carrier only.
fn reach_of(event: &Event) -> Reach
    ensures { result ≡ mixed_reach event.now }
{
    if is_of_network(event) {
        Reach::All
    } else {
        Reach::At(host_at(event))
    }
}

/// Lets an event happen that is no calm. Returns the texts of its line. `texts` are those of the state.
fn pass<C: Inspect>(
    alloc: Global,
    world: &mut MixedWorld<C>,
    event: Event,
    texts: &mut Texts,
    notes: &mut C::Notes,
) -> Result<Passed, AllocError>
    requires known { AreTextsOf C.inside.members world.old texts.old }
    ensures passed { IfOk result (HasPassedMixed (shown C.calls) C.inside.members world.old event world.new) }
    ensures texts { OnOk result (AreTextsOf C.inside.members world.new texts.new) }
    ensures memory { IfErr result (λ _. StopsMixed (shown C.calls) world.old event world.new []) }
{
    let text = spelled(alloc, &event)?;
    let crossed = world.book().crossings().len();
    let reach = reach_of(&event);
    let printed = happen(alloc, world, event)?;
    let changes = match reach {
        Reach::All => change_all(alloc, world, texts, notes)?,
        Reach::At(host) => change_one(alloc, world, &host, texts, notes)?,
    };
    Ok(Passed {
        event: text,
        crossed,
        printed,
        changes,
    })
}

/// Lets an event happen that is no calm. Returns the lines that a replay prints for it.
fn happen<C: Inspect>(
    alloc: Global,
    world: &mut MixedWorld<C>,
    event: Event,
) -> Result<Vec<u8>, AllocError>
    ensures shown { IfOk result (λ text. ShowsMixed (shown C.calls) world.old event world.new text.items) }
    ensures memory { IfErr result (λ _. StopsMixed (shown C.calls) world.old event world.new []) }
{
    let events = vec![in alloc; WorldEvent::Happen(event)]?;
    let mut printer = Printer::new(Vec::new(alloc));
    match replay_mixed_events(world, events, Detail::Sizes, &mut printer) {
        Ok(()) => Ok(printer.into_inner()),
        Err(_) => Err(AllocError),
    }
}
