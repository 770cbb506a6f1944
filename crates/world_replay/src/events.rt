//! Replaying the events of a world's script.

ghost use Rattle.std.specs.Prelude.{◌≡◌, ◌≤◌, ◌<◌, Err, List, Ok, OnOk, Some, false, length, true, ℕ};
ghost use Rattle.interface.specs.Messages.{SafeMessages};
ghost use Rattle.net_sim.specs.Carriers.{shown};
ghost use Rattle.net_sim.specs.Rest.{IsAtRest};
ghost use Rattle.net_sim.specs.World.{CalmGives};
ghost use Rattle.replay.specs.Failing.{TellsCannotWrite};
ghost use Rattle.world_replay.specs.Kinds.{BreaksOffBy, ReplaysBy, RunsOutBy, rounds_in};
ghost use Rattle.world_replay.specs.Output.{Shown, Writes};
ghost use Rattle.world_replay.specs.Replay.{EndsIn, HappensInCalm, MayDo, MayStep, Replays, StopsIn, StopsInCalm};
ghost use Rattle.world_replay.specs.Replay.{world_kind};
ghost use Rattle.world_replay.specs.Seen.{AreSeenBy, CalmHandsOn};
ghost use Rattle.world_replay.specs.Steps.{EventEnds, OneEnds};

use crate::print::{check_memory, print_news, print_refusal};
use crate::replayed::Replayed;
use crate::turning::Turning;
use interface::Carrier;
use net_sim::{Event, MixedWorld, World};
use replay::{Detail, Line, Output, ReplayFault, hand_on_round};
use world_script::WorldEvent;

/// Lets each event happen in order, and prints what it shows: each crossing, each notice after the crossings that
/// were before it, each report after its notice, and then the refusal, if there is one. Of a message it prints as much
/// as `detail` says.
///
/// A refused event changes nothing, and the replay continues with the next one. A calm shows what each of its events
/// shows, round by round, and its refusals are not printed.
///
/// However it ends, each RFNM in the book belongs to one message that was taken exactly once (BBN Report 1822: a link
/// carries one message at a time).
///
/// Errors:
/// - `OutOfMemory`: memory ran out at one event. The lines of the events before it were written, and no line of its
///   own. If it was a calm, what happened before memory ran out was written too.
/// - `CannotWrite`: a write failed. The event whose line it was had already happened, or of a calm all rounds up to
///   the one whose line it was. Nothing more was asked of the writer, which is the only one to know how much of its
///   last lines it wrote.
pub fn replay_events<C: Carrier, W: Output>(
    world: &mut World<C>,
    events: Vec<WorldEvent>,
    detail: Detail,
    writer: &mut W,
) -> Result<(), ReplayFault>
    requires { W.failed writer.old ≡ false }

    // each RFNM belongs to one message, which was taken exactly once
    ensures messages { SafeMessages world.new.kept.book.crossings }

    // each event in turn went as the world says that its calls may go, and what it showed was printed
    ensures replayed { OnOk result (Writes detail (Replays (shown C.calls) world.old events.items world.new) (W.contents writer.old) (W.contents writer.new)) }

    // memory ran out at one event: what the events before it showed was printed, and nothing of that event, save what a
    // calm showed before memory ran out
    ensures memory { result ≡ Err ReplayFault.OutOfMemory → Writes detail (EndsIn (shown C.calls) (StopsIn (shown C.calls)) world.old events.items world.new) (W.contents writer.old) (W.contents writer.new) }

    // `CannotWrite` is answered where a write failed, and nowhere else
    ensures failed { TellsCannotWrite result (W.failed writer.new) }

    // each round of a calm after the 64th is seen when it has passed: all that was printed by then is handed on
    ensures seen { OnOk result (AreSeenBy (world_kind (shown C.calls)) detail W.contents W.flushed (world.old, writer.old) events.items (world.new, writer.new)) }

    // a write failed: the event had already happened, or the rounds of a calm up to that one
    ensures cannot_write { result ≡ Err ReplayFault.CannotWrite → (lines : List Shown) × EndsIn (shown C.calls) (MayDo (shown C.calls)) world.old events.items world.new lines }
{
    let outcome = replay_in_turn(world, events, detail, writer);
    // for the proof only: by `World::book` the world is lawful, so its messages are safe
    let _book = world.book();
    outcome
}

/// Lets each event happen in order in a world some of whose hosts are strangers, and prints what it shows, as
/// [`replay_events`] does. What a stranger says and takes is shown as crossings, and what it is asked for as a refusal
/// (`NoProgram`), and so is what another host is to say (`HasProgram`). In a calm a stranger has no turn: what waits
/// for it stays.
///
/// Errors: as in [`replay_events`].
pub fn replay_mixed_events<C: Carrier, W: Output>(
    world: &mut MixedWorld<C>,
    events: Vec<WorldEvent>,
    detail: Detail,
    writer: &mut W,
) -> Result<(), ReplayFault>
    requires { W.failed writer.old ≡ false }

    // each RFNM belongs to one message, which was taken exactly once, whatever strangers say
    ensures messages { SafeMessages world.new.kept.book.crossings }

    // each event in turn went as the world says that its calls may go, and what it showed was printed
    ensures replayed { OnOk result (Writes detail (Replays (shown C.calls) world.old events.items world.new) (W.contents writer.old) (W.contents writer.new)) }

    // memory ran out at one event: as in `replay_events`
    ensures memory { result ≡ Err ReplayFault.OutOfMemory → Writes detail (EndsIn (shown C.calls) (StopsIn (shown C.calls)) world.old events.items world.new) (W.contents writer.old) (W.contents writer.new) }

    // `CannotWrite` is answered where a write failed, and nowhere else
    ensures failed { TellsCannotWrite result (W.failed writer.new) }

    // a long calm is seen, as in `replay_events`
    ensures seen { OnOk result (AreSeenBy (world_kind (shown C.calls)) detail W.contents W.flushed (world.old, writer.old) events.items (world.new, writer.new)) }

    // a write failed: the event had already happened, or the rounds of a calm up to that one
    ensures cannot_write { result ≡ Err ReplayFault.CannotWrite → (lines : List Shown) × EndsIn (shown C.calls) (MayDo (shown C.calls)) world.old events.items world.new lines }
{
    let outcome = replay_in_turn(world, events, detail, writer);
    // for the proof only: by `MixedWorld::book` the world is lawful among its hosts with programs, so its messages are
    // safe
    let _book = world.book();
    outcome
}

/// Lets one event happen as an event of a calm, and prints what it shows: its crossings, notices and reports. A refusal
/// changes nothing, and isn't printed.
///
/// Errors:
/// - `OutOfMemory`: memory ran out at the event. Nothing was written.
/// - `CannotWrite`: a write failed. The event had already happened. Nothing more was asked of the writer, which is
///   the only one to know how much of its lines it wrote.
pub fn replay_in_calm<C: Carrier, W: Output>(
    world: &mut World<C>,
    event: Event,
    detail: Detail,
    writer: &mut W,
) -> Result<(), ReplayFault>
    requires { W.failed writer.old ≡ false }

    // it went as the world says that its calls may go, and what the book gained was printed
    ensures replayed { OnOk result (Writes detail (HappensInCalm (shown C.calls) world.old event world.new) (W.contents writer.old) (W.contents writer.new)) }

    // memory ran out at it
    ensures memory { result ≡ Err ReplayFault.OutOfMemory → Writes detail (StopsInCalm (shown C.calls) world.old event world.new) (W.contents writer.old) (W.contents writer.new) }

    // `CannotWrite` is answered where a write failed, and nowhere else
    ensures failed { TellsCannotWrite result (W.failed writer.new) }

    // a write failed: the event had already happened
    ensures cannot_write { result ≡ Err ReplayFault.CannotWrite → MayStep (shown C.calls) world.old event world.new }
{
    show_turn(world, event, detail, writer)
}

/// Lets one event happen as an event of a calm in a world some of whose hosts are strangers, and prints what it shows,
/// as [`replay_in_calm`] does. It goes as in the world of the hosts with programs: a stranger has no turn, and an event
/// at one is refused.
///
/// Errors: as in [`replay_in_calm`].
pub fn replay_mixed_in_calm<C: Carrier, W: Output>(
    world: &mut MixedWorld<C>,
    event: Event,
    detail: Detail,
    writer: &mut W,
) -> Result<(), ReplayFault>
    requires { W.failed writer.old ≡ false }

    // it went as that world says that its calls may go, and what the book gained was printed
    ensures replayed { OnOk result (Writes detail (HappensInCalm (shown C.calls) world.old event world.new) (W.contents writer.old) (W.contents writer.new)) }

    // memory ran out at it
    ensures memory { result ≡ Err ReplayFault.OutOfMemory → Writes detail (StopsInCalm (shown C.calls) world.old event world.new) (W.contents writer.old) (W.contents writer.new) }

    // `CannotWrite` is answered where a write failed, and nowhere else
    ensures failed { TellsCannotWrite result (W.failed writer.new) }

    // a write failed: the event had already happened
    ensures cannot_write { result ≡ Err ReplayFault.CannotWrite → MayStep (shown C.calls) world.old event world.new }

    // its strangers are the same
    ensures strangers { world.new.strangers ≡ world.old.strangers }
{
    show_turn(world, event, detail, writer)
}

/// Lets one event happen as an event of a calm, and prints what it shows.
fn show_turn<C: Carrier, R: Turning<C>, W: Output>(
    world: &mut R,
    event: Event,
    detail: Detail,
    writer: &mut W,
) -> Result<(), ReplayFault>
    requires { W.failed writer.old ≡ false }
    ensures replayed { OnOk result (Writes detail (HappensInCalm (shown C.calls) (R.state world.old) event (R.state world.new)) (W.contents writer.old) (W.contents writer.new)) }
    ensures memory { result ≡ Err ReplayFault.OutOfMemory → Writes detail (StopsInCalm (shown C.calls) (R.state world.old) event (R.state world.new)) (W.contents writer.old) (W.contents writer.new) }
    ensures failed { TellsCannotWrite result (W.failed writer.new) }
    ensures cannot_write { result ≡ Err ReplayFault.CannotWrite → MayStep (shown C.calls) (R.state world.old) event (R.state world.new) }
    ensures strangers { R.strangers world.new ≡ R.strangers world.old }
{
    let crossed = world.book().crossings().len();
    let told = world.book().notices().len();
    let said = world.book().reports().len();
    let outcome = world.turn(event);
    let mut line = Line::new();
    print_news(
        &mut line,
        &world.book(),
        crossed,
        told,
        said,
        detail,
        writer,
    )?;
    check_memory(outcome)
}

/// Lets each event happen in order, and prints what it shows.
fn replay_in_turn<R: Replayed, W: Output>(
    world: &mut R,
    events: Vec<WorldEvent>,
    detail: Detail,
    writer: &mut W,
) -> Result<(), ReplayFault>
    requires { W.failed writer.old ≡ false }
    ensures failed { TellsCannotWrite result (W.failed writer.new) }
    ensures seen { OnOk result (AreSeenBy R.kind detail W.contents W.flushed (world.old, writer.old) events.items (world.new, writer.new)) }
    ensures replayed { OnOk result (Writes detail (ReplaysBy R.kind world.old events.items world.new) (W.contents writer.old) (W.contents writer.new)) }
    ensures memory { result ≡ Err ReplayFault.OutOfMemory → Writes detail (RunsOutBy R.kind world.old events.items world.new) (W.contents writer.old) (W.contents writer.new) }
    ensures cannot_write { result ≡ Err ReplayFault.CannotWrite → (lines : List Shown) × BreaksOffBy R.kind world.old events.items world.new lines }
{
    let mut line = Line::new();
    for event in events {
        replay_event(world, event, &mut line, detail, writer)?;
    }
    Ok(())
}

/// Lets one event happen, and prints what it shows, of a calm round by round. Lines are put together in this buffer, of
/// which nothing is kept.
fn replay_event<R: Replayed, W: Output>(
    world: &mut R,
    event: WorldEvent,
    line: &mut Line,
    detail: Detail,
    writer: &mut W,
) -> Result<(), ReplayFault>
    requires { W.failed writer.old ≡ false }
    ensures ends { EventEnds R.kind detail world.old event result world.new (W.contents writer.old) (W.contents writer.new) }
    ensures seen { OnOk result (CalmHandsOn R.kind detail W.contents W.flushed (rounds_in event) (world.old, writer.old) (world.new, writer.new)) }
    ensures failed { TellsCannotWrite result (W.failed writer.new) }
{
    R::is_replayable();
    let rounds = rounds_of(&event);
    match rounds {
        None | Some(0) => replay_one(world, event, line, detail, writer),
        Some(rounds) => replay_calm(world, rounds, line, detail, writer),
    }
}

/// Returns how many rounds an event has that is a calm.
fn rounds_of(event: &WorldEvent) -> Option<u32>
    ensures { result ≡ rounds_in event.now }
{
    match event {
        WorldEvent::Happen(_) => None,
        WorldEvent::Calm(rounds) => Some(*rounds),
    }
}

/// Lets this many rounds pass, and prints after each what it showed. Where the world rests, the rounds that are left
/// would change nothing and show nothing, and are not made.
fn replay_calm<R: Replayed, W: Output>(
    world: &mut R,
    rounds: u32,
    line: &mut Line,
    detail: Detail,
    writer: &mut W,
) -> Result<(), ReplayFault>
    requires some { 0 < rounds }
    requires whole { W.failed writer.old ≡ false }
    ensures ends { EventEnds R.kind detail world.old (WorldEvent.Calm rounds) result world.new (W.contents writer.old) (W.contents writer.new) }
    ensures seen { OnOk result (CalmHandsOn R.kind detail W.contents W.flushed (Some rounds) (world.old, writer.old) (world.new, writer.new)) }
    ensures failed { TellsCannotWrite result (W.failed writer.new) }
{
    R::is_replayable();
    for passed in 0..rounds {
        let before = world.book().crossings().len();
        replay_round(world, passed, line, detail, writer)?;
        if rests_since(world, before) {
            return Ok(());
        }
    }
    Ok(())
}

/// Lets one more round of a calm pass of which this many have passed, and prints what it showed. Of a long calm it
/// hands on all that was printed so far, so that it is seen though the calm may never rest.
fn replay_round<R: Replayed, W: Output>(
    world: &mut R,
    passed: u32,
    line: &mut Line,
    detail: Detail,
    writer: &mut W,
) -> Result<(), ReplayFault>
    requires { W.failed writer.old ≡ false }
    ensures ends { OneEnds R.kind detail world.old (WorldEvent.Calm 1) result world.new (W.contents writer.old) (W.contents writer.new) }
    ensures seen { 64 ≤ passed → OnOk result (W.flushed writer.new ≡ true) }
    ensures failed { TellsCannotWrite result (W.failed writer.new) }
{
    replay_one(world, WorldEvent::Calm(1), line, detail, writer)?;
    Ok(hand_on_round(passed, writer)?)
}

/// Returns whether more rounds of a calm are known to change nothing: nothing has crossed since the book had this many
/// crossings, and the world rests. It may answer `false` though none would change anything. This takes no memory.
pub fn has_calmed<C: Carrier>(world: &World<C>, before: usize) -> bool
    ensures crossed { result ≡ true → length world.now.kept.book.crossings ≡ before }
    ensures unchanged { result ≡ true → (times : ℕ) → CalmGives (shown C.calls) times world.now (Ok tt) world.now }
    ensures rest { result ≡ true → IsAtRest (shown C.calls) world.now }
{
    rests_since(world, before)
}

/// Returns whether nothing has crossed since the book had this many crossings, and the world is known to rest.
fn rests_since<R: Replayed>(world: &R, before: usize) -> bool
    ensures crossed { result ≡ true → length (R.kind.kept world.now).book.crossings ≡ before }
    ensures unchanged { result ≡ true → (n : ℕ) → R.kind.gives world.now (WorldEvent.Calm n) (Ok tt) world.now }
    ensures rest { result ≡ true → R.kind.rests world.now }
{
    world.book().crossings().len() == before && world.rests()
}

/// Lets one event happen, and then prints what it showed.
fn replay_one<R: Replayed, W: Output>(
    world: &mut R,
    event: WorldEvent,
    line: &mut Line,
    detail: Detail,
    writer: &mut W,
) -> Result<(), ReplayFault>
    requires { W.failed writer.old ≡ false }
    ensures ends { OneEnds R.kind detail world.old event result world.new (W.contents writer.old) (W.contents writer.new) }
    ensures failed { TellsCannotWrite result (W.failed writer.new) }
{
    R::is_replayable();
    let crossed = world.book().crossings().len();
    let told = world.book().notices().len();
    let said = world.book().reports().len();
    let outcome = world.happen(event);
    print_news(line, &world.book(), crossed, told, said, detail, writer)?;
    print_refusal(outcome, writer)
}
