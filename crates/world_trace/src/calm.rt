//! Tracing a calm of a world, event by event.

ghost use Rattle.std.specs.Prelude.{◌≡◌, ◌++◌, [], IfErr, IfOk, IfSome, OnOk, Some, false, length, map, true};
ghost use Rattle.net_sim.specs.Carriers.{shown};
ghost use Rattle.replay.specs.Failing.{TellsCannotWrite};
ghost use Rattle.replay.specs.declared.print.Detail.TheVariants.{Sizes};
ghost use Rattle.world_replay.specs.Rounds as events;
ghost use Rattle.world_script.specs.declared.event.WorldEvent.TheVariants as world_event;
ghost use Rattle.world_trace.specs.Seen.{CalmHandsOn};
ghost use Rattle.world_trace.specs.Steps as step;
ghost use Rattle.world_trace.specs.Steps.{AgainEnds, AreTextsOf, EventEnds, IsStill, RoundEnds, ShowsInCalm, StepEnds};
ghost use Rattle.world_trace.specs.Traces.{MayTell};

use crate::line::{Passed, print_line};
use crate::spelling::spelled;
use crate::texts::{Texts, change, known_texts};
use crate::worlds::Traced;
use interface::{HostAddr, TAKINGS};
use net_sim::{Event, OFFERS, Seat};
use replay::{Output, Printer, ReplayFault, hand_on_round};
use std::alloc::{AllocError, Global};
use trace::{Inspect, Spot};

/// An event of a calm.
#[derive(Clone, Copy)]
pub(crate) enum CalmEvent {
    /// A quiet round of the network.
    Quiet,
    /// A host takes what came for it.
    Take(HostAddr),
    /// A host's next message goes to the network.
    Offer(HostAddr),
}

/// Returns an event of a calm as an event of a world.
fn event_of(event: CalmEvent) -> Event
    ensures { result ≡ step.event_of event }
{
    match event {
        CalmEvent::Quiet => Event::Quiet,
        CalmEvent::Take(host) => Event::Take(host),
        CalmEvent::Offer(host) => Event::Offer(host),
    }
}

/// Returns the host at which an event of a calm is, if it is at one.
fn host_of(event: CalmEvent) -> Option<HostAddr>
    ensures { result ≡ step.host_of event }
{
    match event {
        CalmEvent::Quiet => None,
        CalmEvent::Take(host) | CalmEvent::Offer(host) => Some(host),
    }
}

/// Adds the events of a host, if it is up, each with how often it happens at most.
fn add_turn(turns: &mut Vec<(CalmEvent, u8)>, seat: &Seat) -> Result<(), AllocError>
    ensures { OnOk result (map step.turn turns.new.items ≡ map step.turn turns.old.items ++ step.turns_at seat.now) }
{
    if seat.program.is_none() {
        return Ok(());
    }
    turns.push((CalmEvent::Take(seat.host), TAKINGS))?;
    Ok(turns.push((CalmEvent::Offer(seat.host), OFFERS))?)
}

/// Returns the events of a round in which these are the seats, each with how often it happens at most.
fn turns_in(alloc: Global, seats: &[Seat]) -> Result<Vec<(CalmEvent, u8)>, AllocError>
    ensures { IfOk result (λ turns. map step.turn turns.items ≡ events.turns_in seats.now) }
{
    let mut turns = Vec::new(alloc);
    turns.push((CalmEvent::Quiet, 1))?;
    for seat in seats {
        add_turn(&mut turns, seat)?;
    }
    Ok(turns)
}

/// Traces a calm round by round, until all have passed or the world rests. The rounds that are left then have no lines.
/// After each round of a long calm it hands on all that was written, so that it is seen though the calm may never rest.
/// The texts of the state may be known.
pub(crate) fn trace_calm<C: Inspect, T: Traced<C>, W: Output>(
    alloc: Global,
    world: &mut T,
    spot: Spot,
    rounds: u32,
    known: &mut Option<Texts>,
    notes: &mut C::Notes,
    writer: &mut W,
) -> Result<(), ReplayFault>
    requires whole { W.failed writer.old ≡ false }
    requires known { IfSome known.old (AreTextsOf C.inside.members (T.state world.old)) }
    ensures ends { EventEnds (shown C.calls) C.inside.members spot (T.state world.old) (world_event.Calm rounds) result (T.state world.new) (W.contents writer.old) (W.contents writer.new) }
    ensures seen { OnOk result (CalmHandsOn (shown C.calls) C.inside.members W.contents W.flushed spot (Some rounds) (T.state world.old, writer.old) (T.state world.new, writer.new)) }
    ensures known { OnOk result (IfSome known.new (AreTextsOf C.inside.members (T.state world.new))) }
    ensures strangers { T.strangers world.new ≡ T.strangers world.old }
    ensures failed { TellsCannotWrite result (W.failed writer.new) }
{
    if rounds == 0 {
        return Ok(());
    }
    let mut texts = known_texts(alloc, world, known.take(), notes)?;
    for passed in 0..rounds {
        let before = count_crossings(world);
        trace_round(alloc, world, spot, passed + 1, &mut texts, notes, writer)?;
        hand_on_round(passed, writer)?;
        if world.has_calmed(before) {
            *known = Some(texts);
            return Ok(());
        }
    }
    *known = Some(texts);
    Ok(())
}

/// Returns how many crossings are in the book of a world.
fn count_crossings<C: Inspect, T: Traced<C>>(world: &T) -> usize
    ensures { result ≡ length (T.state world.now).kept.book.crossings }
{
    world.book().crossings().len()
}

/// Lets the events of a round happen, and prints their lines. `texts` are those of the state.
fn trace_round<C: Inspect, T: Traced<C>, W: Output>(
    alloc: Global,
    world: &mut T,
    spot: Spot,
    round: u32,
    texts: &mut Texts,
    notes: &mut C::Notes,
    writer: &mut W,
) -> Result<(), ReplayFault>
    requires whole { W.failed writer.old ≡ false }
    requires known { AreTextsOf C.inside.members (T.state world.old) texts.old }
    ensures ends { RoundEnds (shown C.calls) C.inside.members spot (T.state world.old) round result (T.state world.new) (W.contents writer.old) (W.contents writer.new) }
    ensures known { OnOk result (AreTextsOf C.inside.members (T.state world.new) texts.new) }
    ensures strangers { T.strangers world.new ≡ T.strangers world.old }
    ensures failed { TellsCannotWrite result (W.failed writer.new) }
{
    let turns = turns_in(alloc, world.seats())?;
    for (event, times) in turns {
        trace_again(
            alloc, world, spot, round, &event, times, texts, notes, writer,
        )?;
    }
    Ok(())
}

/// Lets an event of a calm happen again and again, at most this many times, until nothing crosses by it, and prints the
/// lines.
fn trace_again<C: Inspect, T: Traced<C>, W: Output>(
    alloc: Global,
    world: &mut T,
    spot: Spot,
    round: u32,
    event: &CalmEvent,
    times: u8,
    texts: &mut Texts,
    notes: &mut C::Notes,
    writer: &mut W,
) -> Result<(), ReplayFault>
    requires whole { W.failed writer.old ≡ false }
    requires known { AreTextsOf C.inside.members (T.state world.old) texts.old }
    ensures ends { AgainEnds (shown C.calls) C.inside.members spot round (T.state world.old) (step.turn (event.now, times)) result (T.state world.new) (W.contents writer.old) (W.contents writer.new) }
    ensures known { OnOk result (AreTextsOf C.inside.members (T.state world.new) texts.new) }
    ensures strangers { T.strangers world.new ≡ T.strangers world.old }
    ensures failed { TellsCannotWrite result (W.failed writer.new) }
{
    for _ in 0..times {
        let before = count_crossings(world);
        trace_step(alloc, world, spot, round, *event, texts, notes, writer)?;
        if count_crossings(world) <= before {
            return Ok(());
        }
    }
    Ok(())
}

/// Lets an event of a calm happen, and prints its line, unless it prints nothing and leaves all as it was. `texts` are
/// those of the state.
fn trace_step<C: Inspect, T: Traced<C>, W: Output>(
    alloc: Global,
    world: &mut T,
    spot: Spot,
    round: u32,
    event: CalmEvent,
    texts: &mut Texts,
    notes: &mut C::Notes,
    writer: &mut W,
) -> Result<(), ReplayFault>
    requires whole { W.failed writer.old ≡ false }
    requires known { AreTextsOf C.inside.members (T.state world.old) texts.old }
    ensures ends { StepEnds (shown C.calls) C.inside.members spot round (T.state world.old) (step.event_of event) result (T.state world.new) (W.contents writer.old) (W.contents writer.new) }
    ensures known { OnOk result (AreTextsOf C.inside.members (T.state world.new) texts.new) }
    ensures strangers { T.strangers world.new ≡ T.strangers world.old }
    ensures failed { TellsCannotWrite result (W.failed writer.new) }
{
    let crossed = count_crossings(world);
    let still = is_still(world, event);
    let printed = happen_in_calm(alloc, world, event)?;
    let moved = count_crossings(world) > crossed;
    if still && !moved {
        return Ok(());
    }
    let parts = world.carrier().members(alloc, notes)?;
    let other = parts.have_changed(&texts.parts);
    if !moved && !other {
        texts.parts = parts;
        return Ok(());
    }
    let changes = change(alloc, world, &host_of(event), &parts, texts)?;
    texts.parts = parts;
    let passed = Passed {
        event: spelled(alloc, &event_of(event))?,
        crossed,
        printed,
        changes,
    };
    print_line(world, spot, round, &passed, writer)?;
    Ok(())
}

/// Returns whether it is known that an event of a calm leaves all as it is if nothing crosses by it.
fn is_still<C: Inspect, T: Traced<C>>(world: &T, event: CalmEvent) -> bool
    ensures { result ≡ true → IsStill (shown C.calls) C.inside.members (T.state world.now) (step.event_of event) }
{
    // for the proof only: what is refused changes no part
    world.carrier().keeps();
    match event {
        CalmEvent::Quiet => false,
        CalmEvent::Take(host) => world.carrier().is_still(&host),
        CalmEvent::Offer(_) => true,
    }
}

/// Lets an event of a calm happen. Returns the lines that a replay prints for it, without a refusal.
fn happen_in_calm<C: Inspect, T: Traced<C>>(
    alloc: Global,
    world: &mut T,
    event: CalmEvent,
) -> Result<Vec<u8>, AllocError>
    ensures shown { IfOk result (λ text. ShowsInCalm (shown C.calls) (T.state world.old) (step.event_of event) (T.state world.new) text.items) }
    ensures memory { IfErr result (λ _. MayTell (shown C.calls) (T.state world.old) (step.event_of event) (T.state world.new) []) }
    ensures strangers { T.strangers world.new ≡ T.strangers world.old }
{
    let mut printer = Printer::new(Vec::new(alloc));
    match world.replay_in_calm(event_of(event), &mut printer) {
        Ok(()) => Ok(printer.into_inner()),
        Err(_) => Err(AllocError),
    }
}
