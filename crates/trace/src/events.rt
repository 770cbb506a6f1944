//! Tracing a script's events over a carrier.

ghost use Rattle.std.specs.Bool.{OnFalse, OnTrue};
ghost use Rattle.std.specs.Prelude.{◌≡◌, ◌⊎◌, ◌<◌, ◌≤◌, ◌+◌, Err, IfErr, IfOk, IfSome, OnOk, List, ℕ, false, is_some, true};
ghost use Rattle.replay.specs.Failing.{TellsCannotWrite};
ghost use Rattle.replay.specs.Replay.{GoesOn, Halts, IsCopied, IsOneCall};
ghost use Rattle.script.specs.declared.event.RawEvent.TheVariants as script_event;
ghost use Rattle.trace.specs.Elements.{begins_in};
ghost use Rattle.trace.specs.Seen.{EventHandsOn, EventsAreSeen, TraceIsSeen};
ghost use Rattle.trace.specs.Steps.{Called, ElementEnds, EventEnds, IsAsBegun, RoundEnds};
ghost use Rattle.trace.specs.Changes.{changed_parts};
ghost use Rattle.trace.specs.Texts.{object};
ghost use Rattle.trace.specs.Traces.{AfterOpening, HasHappened, MayTell, StopsElement, TraceEnds, Traces, WritesTrace};

use crate::all_parts::AllParts;
use crate::element::Spot;
use crate::inspect::Inspect;
use crate::line::print_line;
use crate::members::Members;
use crate::opening::print_opening;
use interface::{Carrier, CarrierFault, Crossing};
use replay::{Output, ReplayFault, UNSEEN_ROUNDS, hand_on_round};
use script::RawEvent;
use std::alloc::{AllocError, Global};
use topology::Topology;

/// Prints the network and all parts of its carrier, hands each elementary event of each event to the carrier in
/// order, and prints one line for each: a JSON object with the place of the event in the script, the elementary
/// event, what it printed, and the parts that it changed, as they are after it. Each event comes after the number of
/// its line in the script.
///
/// A refused event changes nothing, and has a line too.
///
/// Errors:
/// - `OutOfMemory`: memory ran out at one elementary event, or for its line. The first line and those of the events
/// before it were
///   written, and none of its own.
/// - `CannotWrite`: a write failed. The carrier had already processed the elementary event whose line it was. Nothing
/// more was
///   asked of the writer, which is the only one to know how much of its last lines it wrote.
pub fn trace_events<C: Inspect, W: Output>(
    alloc: Global,
    network: &Topology,
    carrier: &mut C,
    events: &[(usize, RawEvent)],
    writer: &mut W,
) -> Result<(), ReplayFault>
    requires whole { W.failed writer.old ≡ false }

    // first the network, and then each elementary event in turn went as the carrier says that its calls may go, and its
    // line was written
    ensures traced { OnOk result (WritesTrace (AfterOpening C.inside network.now carrier.old (Traces C.calls C.inside carrier.old events.now carrier.new)) (W.contents writer.old) (W.contents writer.new)) }

    // each round of a calm after the 64th is seen when it has passed: all that was written by then is handed on
    ensures seen { OnOk result (TraceIsSeen C.calls C.inside W.contents W.flushed network.now events.now (carrier.old, writer.old) (carrier.new, writer.new)) }

    // memory ran out at one of them: the first line and those before it were written, and nothing else
    ensures memory { result ≡ Err ReplayFault.OutOfMemory → WritesTrace (AfterOpening C.inside network.now carrier.old (TraceEnds C.calls C.inside (StopsElement C.calls) carrier.old events.now carrier.new)) (W.contents writer.old) (W.contents writer.new) }

    // `CannotWrite` is answered where a write failed, and nowhere else
    ensures failed { TellsCannotWrite result (W.failed writer.new) }

    // a write failed: the carrier had already processed that elementary event, or none
    ensures cannot_write { result ≡ Err ReplayFault.CannotWrite → (carrier.new ≡ carrier.old) ⊎ ((others : List (List ℕ)) × TraceEnds C.calls C.inside (MayTell C.calls) carrier.old events.now carrier.new others) }
{
    print_opening(network, carrier, writer)?;
    trace_all(alloc, carrier, events, writer)
}

/// The texts of all parts.
#[derive(Drop)]
struct Texts {
    /// Each part with its name.
    parts: AllParts,
    /// The object of those that the last event changed.
    changed: Vec<u8>,
}

/// Traces all events, each of which comes after the number of its line.
fn trace_all<C: Inspect, W: Output>(
    alloc: Global,
    carrier: &mut C,
    events: &[(usize, RawEvent)],
    writer: &mut W,
) -> Result<(), ReplayFault>
    requires whole { W.failed writer.old ≡ false }
    ensures traced { OnOk result (WritesTrace (Traces C.calls C.inside carrier.old events.now carrier.new) (W.contents writer.old) (W.contents writer.new)) }
    ensures seen { OnOk result (EventsAreSeen C.calls C.inside W.contents W.flushed events.now (carrier.old, writer.old) (carrier.new, writer.new)) }
    ensures memory { result ≡ Err ReplayFault.OutOfMemory → WritesTrace (TraceEnds C.calls C.inside (StopsElement C.calls) carrier.old events.now carrier.new) (W.contents writer.old) (W.contents writer.new) }
    ensures failed { TellsCannotWrite result (W.failed writer.new) }
    ensures cannot_write { result ≡ Err ReplayFault.CannotWrite → (others : List (List ℕ)) × TraceEnds C.calls C.inside (MayTell C.calls) carrier.old events.now carrier.new others }
{
    let mut known = None;
    for place in 0..events.len() {
        let (line, event) = &events[place];
        let spot = Spot {
            line: *line,
            number: place + 1,
        };
        trace_event(alloc, carrier, spot, event, &mut known, writer)?;
    }
    Ok(())
}

/// Traces one event, which is at this spot of a script. The texts of all parts may be known.
fn trace_event<C: Inspect, W: Output>(
    alloc: Global,
    carrier: &mut C,
    spot: Spot,
    event: &RawEvent,
    known: &mut Option<Texts>,
    writer: &mut W,
) -> Result<(), ReplayFault>
    requires whole { W.failed writer.old ≡ false }
    requires known { IfSome known.old (λ t. t.parts ≡ C.inside.members carrier.old) }
    ensures ends { EventEnds C.calls C.inside carrier.old (spot, event.now) result carrier.new (W.contents writer.old) (W.contents writer.new) }
    ensures seen { OnOk result (EventHandsOn C.calls C.inside W.contents W.flushed (carrier.old, writer.old) (spot, event.now) (carrier.new, writer.new)) }
    ensures known { OnOk result (IfSome known.new (λ t. t.parts ≡ C.inside.members carrier.new)) }
    ensures failed { TellsCannotWrite result (W.failed writer.new) }
{
    match event {
        RawEvent::Out(_) | RawEvent::Take(_) | RawEvent::Net(_) => {
            trace_element(alloc, carrier, spot, 0, event, known, writer)
        }
        RawEvent::Calm(rounds) => trace_calm(alloc, carrier, spot, *rounds, known, writer),
    }
}

/// Traces a calm, round by round. A round after which all parts and the log are as they were before it is the last
/// one: every round after it would be the same. What a long calm writes is handed on as its rounds pass.
fn trace_calm<C: Inspect, W: Output>(
    alloc: Global,
    carrier: &mut C,
    spot: Spot,
    rounds: u32,
    known: &mut Option<Texts>,
    writer: &mut W,
) -> Result<(), ReplayFault>
    requires whole { W.failed writer.old ≡ false }
    requires known { IfSome known.old (λ t. t.parts ≡ C.inside.members carrier.old) }
    ensures ends { EventEnds C.calls C.inside carrier.old (spot, script_event.Calm rounds) result carrier.new (W.contents writer.old) (W.contents writer.new) }
    ensures seen { OnOk result (EventHandsOn C.calls C.inside W.contents W.flushed (carrier.old, writer.old) (spot, script_event.Calm rounds) (carrier.new, writer.new)) }
    ensures known { OnOk result (IfSome known.new (λ t. t.parts ≡ C.inside.members carrier.new)) }
    ensures failed { TellsCannotWrite result (W.failed writer.new) }
{
    let mut place = carrier.begin_calm(rounds);
    let mut passed = 0;
    'rounds: while let Some((element, _)) = carrier.next_in_calm(place) {
        let begun = begin_round(alloc, carrier, known)?;
        place = pass_round(
            alloc,
            carrier,
            spot,
            element.round,
            place,
            passed,
            known,
            writer,
        )?;
        drop(element);
        if is_still(carrier, known, &begun) {
            return Ok(());
        }
        passed = count_round(passed);
    }
    Ok(())
}

/// Returns how many rounds have passed after one more. From 64 on they are no longer counted.
fn count_round(passed: u32) -> u32
    ensures { result < 64 → result ≡ passed + 1 }
{
    if passed < UNSEEN_ROUNDS {
        passed + 1
    } else {
        passed
    }
}

/// Traces a round of a calm before which this many have passed, and of a long calm hands on all that was written so
/// far. Returns the place after it.
fn pass_round<C: Inspect, W: Output>(
    alloc: Global,
    carrier: &mut C,
    spot: Spot,
    round: u32,
    begin: C::Place,
    passed: u32,
    known: &mut Option<Texts>,
    writer: &mut W,
) -> Result<C::Place, ReplayFault>
    requires begins { begins_in round (C.left carrier.old begin) ≡ true }
    requires whole { W.failed writer.old ≡ false }
    requires known { IfSome known.old (λ t. t.parts ≡ C.inside.members carrier.old) }
    requires some { is_some known.old ≡ true }
    ensures ends { RoundEnds C.calls C.inside C.left spot carrier.old begin result carrier.new (W.contents writer.old) (W.contents writer.new) }
    ensures seen { 64 ≤ passed → OnOk result (W.flushed writer.new ≡ true) }
    ensures known { OnOk result (IfSome known.new (λ t. t.parts ≡ C.inside.members carrier.new)) }
    ensures some { OnOk result (is_some known.new ≡ true) }
    ensures failed { TellsCannotWrite result (W.failed writer.new) }
{
    let place = trace_round(alloc, carrier, spot, round, begin, known, writer)?;
    hand_on_round(passed, writer)?;
    Ok(place)
}

/// How things were where a round of a calm began.
#[derive(Drop)]
struct Begun {
    /// All parts.
    parts: AllParts,
    /// How many crossings were in the log.
    booked: usize,
}

/// Returns how things are where a round begins, and sees that the texts of all parts are known.
fn begin_round<C: Inspect>(
    alloc: Global,
    carrier: &C,
    known: &mut Option<Texts>,
) -> Result<Begun, AllocError>
    requires known { IfSome known.old (λ t. t.parts ≡ C.inside.members carrier.now) }
    ensures begun { IfOk result (λ b. IsAsBegun C.calls C.inside carrier.now b.parts b.booked) }
    ensures known { OnOk result (IfSome known.new (λ t. t.parts ≡ C.inside.members carrier.now)) }
    ensures some { OnOk result (is_some known.new ≡ true) }
{
    let texts = known_texts(alloc, carrier, known.take())?;
    let parts = copy_of(alloc, &texts.parts)?;
    *known = Some(texts);
    Ok(Begun {
        parts,
        booked: carrier.log().len(),
    })
}

/// Returns the same parts again.
fn copy_of(alloc: Global, parts: &AllParts) -> Result<AllParts, AllocError>
    ensures { IfOk result (λ copy. copy ≡ parts.now) }
{
    Ok(AllParts {
        fixed: copy_of_members(&parts.fixed)?,
        flows: parts.flows.copy(alloc)?,
    })
}

/// Returns the same members again.
fn copy_of_members(members: &Members) -> Result<Members, AllocError>
    ensures { IfOk result (λ copy. copy ≡ members.now) }
{
    let copy = members.clone()?;
    Ok(copy)
}

/// Returns whether all parts and the log are as they were where a round began.
fn is_still<C: Inspect>(carrier: &C, known: &Option<Texts>, begun: &Begun) -> bool
    requires known { IfSome known.now (λ t. t.parts ≡ C.inside.members carrier.now) }
    requires some { is_some known.now ≡ true }
    ensures still { OnTrue result (IsAsBegun C.calls C.inside carrier.now begun.now.parts begun.now.booked) }
    ensures moved { OnFalse result (IsAsBegun C.calls C.inside carrier.now begun.now.parts begun.now.booked → ⊥) }
{
    match known {
        Some(texts) => {
            carrier.log().len() == begun.booked
                && are_same(&texts.parts.fixed, &begun.parts.fixed)
                && texts.parts.flows.is_same(&begun.parts.flows)
        }
        None => unreachable!(),
    }
}

/// Returns whether two lists of members are the same.
fn are_same(one: &Members, other: &Members) -> bool
    ensures same { OnTrue result (one.now ≡ other.now) }
    ensures apart { OnFalse result (one.now ≡ other.now → ⊥) }
{
    !one.have_changed(other) && !other.have_changed(one)
}

/// Traces a round of a calm, which begins at a place: one of its elementary events after another. Returns the place
/// after it.
fn trace_round<C: Inspect, W: Output>(
    alloc: Global,
    carrier: &mut C,
    spot: Spot,
    round: u32,
    begin: C::Place,
    known: &mut Option<Texts>,
    writer: &mut W,
) -> Result<C::Place, ReplayFault>
    requires begins { begins_in round (C.left carrier.old begin) ≡ true }
    requires whole { W.failed writer.old ≡ false }
    requires known { IfSome known.old (λ t. t.parts ≡ C.inside.members carrier.old) }
    requires some { is_some known.old ≡ true }
    ensures ends { RoundEnds C.calls C.inside C.left spot carrier.old begin result carrier.new (W.contents writer.old) (W.contents writer.new) }
    ensures known { OnOk result (IfSome known.new (λ t. t.parts ≡ C.inside.members carrier.new)) }
    ensures some { OnOk result (is_some known.new ≡ true) }
    ensures failed { TellsCannotWrite result (W.failed writer.new) }
{
    let mut place = begin;
    'elements: while let Some((element, next)) = carrier.next_in_calm(place) {
        if element.round != round {
            return Ok(place);
        }
        trace_element(
            alloc,
            carrier,
            spot,
            element.round,
            &element.event,
            known,
            writer,
        )?;
        drop(element);
        place = next;
    }
    Ok(place)
}

/// Hands an elementary event to the carrier, and prints its line.
fn trace_element<C: Inspect, W: Output>(
    alloc: Global,
    carrier: &mut C,
    spot: Spot,
    round: u32,
    event: &RawEvent,
    known: &mut Option<Texts>,
    writer: &mut W,
) -> Result<(), ReplayFault>
    requires one_call { IsOneCall event.now }
    requires whole { W.failed writer.old ≡ false }
    requires known { IfSome known.old (λ t. t.parts ≡ C.inside.members carrier.old) }
    ensures ends { ElementEnds C.calls C.inside spot carrier.old (record { round = round; event = event.now }) result carrier.new (W.contents writer.old) (W.contents writer.new) }
    ensures known { OnOk result (IfSome known.new (λ t. t.parts ≡ C.inside.members carrier.new)) }
    ensures some { OnOk result (is_some known.new ≡ true) }
    ensures failed { TellsCannotWrite result (W.failed writer.new) }
{
    let texts = known_texts(alloc, carrier, known.take())?;
    let booked = carrier.log().len();
    let fate = carrier.fate(event);
    let outcome = call(carrier, event)?;
    if has_halted(outcome) {
        return Err(ReplayFault::OutOfMemory);
    }
    let (_, crossings) = carrier.log().split_at(booked);
    let texts = change(alloc, carrier, event, crossings, outcome, texts)?;
    print_line(
        spot,
        round,
        event,
        fate,
        crossings,
        outcome,
        &texts.changed,
        writer,
    )?;
    *known = Some(texts);
    Ok(())
}

/// Returns the texts of all parts of a carrier, which may be known.
fn known_texts<C: Inspect>(
    alloc: Global,
    carrier: &C,
    known: Option<Texts>,
) -> Result<Texts, AllocError>
    requires { IfSome known (λ t. t.parts ≡ C.inside.members carrier.now) }
    ensures { IfOk result (λ t. t.parts ≡ C.inside.members carrier.now) }
{
    match known {
        Some(texts) => Ok(texts),
        None => Ok(Texts {
            parts: carrier.members(alloc, &mut carrier.no_notes(alloc))?,
            changed: Vec::new(alloc),
        }),
    }
}

/// Returns the texts of all parts after an event that has just happened, with the object of those that it changed.
fn change<C: Inspect>(
    alloc: Global,
    carrier: &C,
    event: &RawEvent,
    crossings: &[Crossing],
    outcome: Result<(), CarrierFault>,
    texts: Texts,
) -> Result<Texts, AllocError>
    requires { HasHappened C.calls C.inside.members texts.parts event.now crossings.now outcome carrier.now }
    ensures parts { IfOk result (λ t. t.parts ≡ C.inside.members carrier.now) }
    ensures changed { IfOk result (λ t. t.changed.items ≡ object (changed_parts texts.parts (C.inside.members carrier.now))) }
{
    let Texts { mut parts, changed } = texts;
    let mut room = changed;
    room.clear();
    let changed = carrier.change(alloc, event, crossings, outcome, &mut parts, room)?;
    Ok(Texts { parts, changed })
}

/// Returns whether running out of memory has stopped the carrier.
fn has_halted(outcome: Result<(), CarrierFault>) -> bool
    ensures halts { OnTrue result (Halts outcome) }
    ensures goes_on { OnFalse result (GoesOn outcome) }
{
    matches!(
        outcome,
        Err(CarrierFault::Stopped | CarrierFault::OutOfMemory)
    )
}

/// Hands an event to the carrier.
///
/// Errors: `AllocError` where a message could not be copied.
fn call<C: Carrier>(
    carrier: &mut C,
    event: &RawEvent,
) -> Result<Result<(), CarrierFault>, AllocError>
    requires { IsOneCall event.now }
    ensures called { IfOk result (λ outcome. Called C.calls carrier.old event.now outcome carrier.new) }
    ensures memory { IfErr result (λ e. IsCopied event.now × (carrier.new ≡ carrier.old)) }
{
    match event {
        RawEvent::Out(message) => Ok(carrier.offer_out(message.clone()?)),
        RawEvent::Take(host) => match carrier.take_in(*host) {
            Ok(_) => Ok(Ok(())),
            Err(fault) => Ok(Err(fault)),
        },
        RawEvent::Net(event) => Ok(carrier.step(*event)),
        RawEvent::Calm(_) => unreachable!(),
    }
}
