//! Tracing the events of a world's script.

ghost use Rattle.std.specs.Prelude.{◌≡◌, ◌⊎◌, ℕ, [], Err, IfErr, IfOk, IfSome, List, OnOk, false};
ghost use Rattle.net_sim.specs.Carriers.{shown};
ghost use Rattle.replay.specs.Failing.{TellsCannotWrite};
ghost use Rattle.replay.specs.declared.print.Detail.TheVariants.{Sizes};
ghost use Rattle.trace.specs.Traces.{WritesTrace};
ghost use Rattle.world_replay.specs.Output.{output};
ghost use Rattle.world_replay.specs.Kinds.{rounds_in};
ghost use Rattle.world_script.specs.declared.event.WorldEvent.TheVariants as world_event;
ghost use Rattle.world_trace.specs.Seen.{CalmHandsOn, EventsAreSeen, WorldIsSeen};
ghost use Rattle.world_trace.specs.Steps as step;
ghost use Rattle.world_trace.specs.Steps.{AreTextsOf, EventEnds, HasPassed, OneEnds, Shows, at_one};
ghost use Rattle.world_trace.specs.MixedTraces.{AllEnd, AllTell};
ghost use Rattle.world_trace.specs.Traces.{StopsOne, WorldTraceFails, WritesPart, WritesWorld};

use crate::calm::trace_calm;
use crate::line::{Passed, print_line, print_opening};
use crate::spelling::spelled;
use crate::texts::{Texts, change_all, change_one, known_texts};
use crate::worlds::Scripted;
use interface::{Carrier, HostAddr};
use net_sim::{Event, World};
use replay::{Detail, Output, Printer, ReplayFault};
use std::alloc::{AllocError, Global};
use topology::Topology;
use trace::{Inspect, Spot};
use world_replay::replay_events;
use world_script::WorldEvent;

/// Prints the network with the state of a world, lets each event happen in order as a replay does, and prints a JSON
/// object for each event, and of a calm for each of its events: the quiet round of the network, and then the takings
/// and offers of each host that is up, round by round. It says where the event is in the script, in which round of a
/// calm, the event, what crossed, what a replay prints for it, and what of the state is other than before. Each event
/// comes after the number of its line in the script.
///
/// A refused event changes nothing, and has a line too. An event of a calm that prints nothing and changes nothing has
/// none; its refusal is not printed.
///
/// Errors:
/// - `OutOfMemory`: memory ran out at one event, of the script or of a calm. The first line and those of the events
///   before it were written, and none of its own.
/// - `CannotWrite`: a write failed. The event had already happened whose line it was. Nothing more was asked of the
///   writer, which is the only one to know how much of its last lines it wrote.
pub fn trace_world<C: Inspect, W: Output>(
    alloc: Global,
    network: &Topology,
    world: &mut World<C>,
    events: Vec<(usize, WorldEvent)>,
    writer: &mut W,
) -> Result<(), ReplayFault>
    requires whole { W.failed writer.old ≡ false }

    // first the network with the state, and then each event happened as in a replay, those of a calm one by one, and
    // its line was written
    ensures traced { OnOk result (WritesWorld (shown C.calls) C.inside.members network.now world.old events.items world.new (W.contents writer.old) (W.contents writer.new)) }

    // each round of a calm after the 64th is seen when it has passed: all that was written by then is handed on
    ensures seen { OnOk result (WorldIsSeen (shown C.calls) C.inside.members W.contents W.flushed network.now events.items (world.old, writer.old) (world.new, writer.new)) }

    // memory ran out at one of them: the first line and those before it were written, and nothing else
    ensures memory { result ≡ Err ReplayFault.OutOfMemory → WritesPart (shown C.calls) C.inside.members network.now world.old events.items world.new (W.contents writer.old) (W.contents writer.new) }

    // `CannotWrite` is answered where a write failed, and nowhere else
    ensures failed { TellsCannotWrite result (W.failed writer.new) }

    // a write failed: the event had already happened, or none had
    ensures cannot_write { result ≡ Err ReplayFault.CannotWrite → (world.new ≡ world.old) ⊎ WorldTraceFails (shown C.calls) C.inside.members world.old events.items world.new }
{
    print_opening(network, world, writer)?;
    trace_all(alloc, world, events, writer)
}

/// Traces all events, each of which comes after the number of its line.
pub(crate) fn trace_all<C: Inspect, T: Scripted<C>, W: Output>(
    alloc: Global,
    world: &mut T,
    events: Vec<(usize, WorldEvent)>,
    writer: &mut W,
) -> Result<(), ReplayFault>
    requires whole { W.failed writer.old ≡ false }
    ensures traced { OnOk result (WritesTrace (AllTell T.tells world.old events.items world.new) (W.contents writer.old) (W.contents writer.new)) }
    ensures seen { OnOk result (EventsAreSeen (shown C.calls) C.inside.members T.state T.tells W.contents W.flushed events.items (world.old, writer.old) (world.new, writer.new)) }
    ensures memory { result ≡ Err ReplayFault.OutOfMemory → WritesTrace (AllEnd T.tells T.stops world.old events.items world.new) (W.contents writer.old) (W.contents writer.new) }
    ensures failed { TellsCannotWrite result (W.failed writer.new) }
    ensures cannot_write { result ≡ Err ReplayFault.CannotWrite → (lines : List (List ℕ)) × AllEnd T.tells T.fails world.old events.items world.new lines }
{
    let mut passed: usize = 0;
    let mut known = None;
    let mut notes = world.carrier().no_notes(alloc);
    for (line, event) in events {
        let spot = Spot {
            line,
            number: passed + 1,
        };
        world.trace_event(alloc, spot, event, &mut known, &mut notes, writer)?;
        passed += 1;
    }
    Ok(())
}

/// Traces one event, which is at this spot of a script. The texts of the state may be known.
pub(crate) fn trace_world_event<C: Inspect, W: Output>(
    alloc: Global,
    world: &mut World<C>,
    spot: Spot,
    event: WorldEvent,
    known: &mut Option<Texts>,
    notes: &mut C::Notes,
    writer: &mut W,
) -> Result<(), ReplayFault>
    requires whole { W.failed writer.old ≡ false }
    requires known { IfSome known.old (AreTextsOf C.inside.members world.old) }
    ensures ends { EventEnds (shown C.calls) C.inside.members spot world.old event result world.new (W.contents writer.old) (W.contents writer.new) }
    ensures seen { OnOk result (CalmHandsOn (shown C.calls) C.inside.members W.contents W.flushed spot (rounds_in event) (world.old, writer.old) (world.new, writer.new)) }
    ensures known { OnOk result (IfSome known.new (AreTextsOf C.inside.members world.new)) }
    ensures failed { TellsCannotWrite result (W.failed writer.new) }
{
    match event {
        WorldEvent::Calm(rounds) => { trace_calm(alloc, world, spot, rounds, known, notes, writer) }
        WorldEvent::Happen(event) => { trace_one(alloc, world, spot, event, known, notes, writer) }
    }
}

/// Lets an event happen that is no calm, and prints its line.
fn trace_one<C: Inspect, W: Output>(
    alloc: Global,
    world: &mut World<C>,
    spot: Spot,
    event: Event,
    known: &mut Option<Texts>,
    notes: &mut C::Notes,
    writer: &mut W,
) -> Result<(), ReplayFault>
    requires whole { W.failed writer.old ≡ false }
    requires known { IfSome known.old (AreTextsOf C.inside.members world.old) }
    ensures ends { OneEnds (shown C.calls) C.inside.members spot world.old event result world.new (W.contents writer.old) (W.contents writer.new) }
    ensures known { OnOk result (IfSome known.new (AreTextsOf C.inside.members world.new)) }
    ensures failed { TellsCannotWrite result (W.failed writer.new) }
{
    // for the proof only, as in `pass`
    let _ = world.strangers();
    let mut texts = known_texts(alloc, world, known.take(), notes)?;
    let passed = pass(alloc, world, event, &mut texts, notes)?;
    print_line(world, spot, 0, &passed, writer)?;
    *known = Some(texts);
    Ok(())
}

/// Returns the host at which an event is, if it is at one.
pub(crate) fn host_at(event: &Event) -> Option<HostAddr>
    ensures { result ≡ at_one event.now }
{
    match event {
        Event::Net(_) | Event::Quiet | Event::Out(_) => None,
        Event::Offer(host) | Event::Take(host) | Event::Ask(host, _) => Some(*host),
        Event::Server { host, .. } | Event::User { host, .. } | Event::Typed { host, .. } => {
            Some(*host)
        }
    }
}

/// Returns whether an event is inside the network, or to a host, and may change what is at several hosts.
pub(crate) fn is_of_network(event: &Event) -> bool
    ensures { result ≡ step.is_of_network event.now }
{
    matches!(event, Event::Net(_))
}

/// Lets an event happen that is no calm. Returns the texts of its line. `texts` are those of the state.
fn pass<C: Inspect>(
    alloc: Global,
    world: &mut World<C>,
    event: Event,
    texts: &mut Texts,
    notes: &mut C::Notes,
) -> Result<Passed, AllocError>
    requires known { AreTextsOf C.inside.members world.old texts.old }
    ensures passed { IfOk result (HasPassed (shown C.calls) C.inside.members world.old event world.new) }
    ensures texts { OnOk result (AreTextsOf C.inside.members world.new texts.new) }
    ensures memory { IfErr result (λ _. StopsOne (shown C.calls) world.old event world.new []) }
{
    // for the proof only: there are no strangers, so an event happens as one of a calm does
    let _ = world.strangers();
    let text = spelled(alloc, &event)?;
    let crossed = world.book().crossings().len();
    let host = host_at(&event);
    let of_network = is_of_network(&event);
    let printed = happen(alloc, world, event)?;
    let changes = if of_network {
        change_all(alloc, world, texts, notes)?
    } else {
        change_one(alloc, world, &host, texts, notes)?
    };
    Ok(Passed {
        event: text,
        crossed,
        printed,
        changes,
    })
}

/// Lets an event happen that is no calm. Returns the lines that a replay prints for it.
fn happen<C: Carrier>(
    alloc: Global,
    world: &mut World<C>,
    event: Event,
) -> Result<Vec<u8>, AllocError>
    ensures shown { IfOk result (λ text. Shows (shown C.calls) world.old (world_event.Happen event) world.new text.items) }
    ensures memory { IfErr result (λ _. StopsOne (shown C.calls) world.old event world.new []) }
{
    // for the proof only, as in `pass`
    let _ = world.strangers();
    let events = vec![in alloc; WorldEvent::Happen(event)]?;
    let mut printer = Printer::new(Vec::new(alloc));
    match replay_events(world, events, Detail::Sizes, &mut printer) {
        Ok(()) => Ok(printer.into_inner()),
        Err(_) => Err(AllocError),
    }
}
