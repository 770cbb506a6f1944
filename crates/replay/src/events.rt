//! Replaying a script's events over a carrier.

ghost use Rattle.std.specs.Prelude.{◌≡◌, Err, OnOk, List, false};
ghost use Rattle.interface.specs.Mailboxes.{IsRun};
ghost use Rattle.interface.specs.Messages.{SafeMessages};
ghost use Rattle.replay.specs.Failing.{TellsCannotWrite};
ghost use Rattle.replay.specs.Replay.{EndsIn, MayDo, Replays, StopsIn, outcome_of};
ghost use Rattle.replay.specs.Output.{Shown, Writes};
ghost use Rattle.replay.specs.Steps.{EventEnds};
ghost use Rattle.script.specs.declared.event.RawEvent.TheVariants as script_event;

use crate::calm::replay_calm;
use crate::line::Line;
use crate::output::{Output, WriteFailed};
use crate::print::{Detail, print_outcome};
use interface::{Carrier, CarrierFault, HostAddr, HostMessage, Inbound, NetEvent};
use script::RawEvent;
use std::alloc::AllocError;
use thiserror::Error;

/// Why a replay ends before its last event.
#[derive(Clone, Copy, Debug, Drop, PartialEq, Eq, Error)]
pub enum ReplayFault {
    /// No memory was left.
    #[error("out of memory")]
    OutOfMemory,
    /// What was to be printed could not be written.
    #[error("cannot write")]
    CannotWrite,
}

impl From<AllocError> for ReplayFault {
    ghost use Rattle.replay.specs.declared.events.ReplayFault.TheVariants.{OutOfMemory};

    ghost from_gives = { λ _ e. e ≡ OutOfMemory };

    fn from(_error: AllocError) -> ReplayFault {
        ReplayFault::OutOfMemory
    }
}

impl From<WriteFailed> for ReplayFault {
    ghost use Rattle.replay.specs.declared.events.ReplayFault.TheVariants.{CannotWrite};

    ghost from_gives = { λ _ e. e ≡ CannotWrite };

    fn from(_error: WriteFailed) -> ReplayFault {
        ReplayFault::CannotWrite
    }
}

/// Hands each event to the carrier in order, and prints each crossing and each refusal as it comes, one line
/// each. Of a message it prints as much as `detail` says.
///
/// A refused event changes nothing, and the replay continues with the next one. A calm of `n` rounds is many
/// calls: in each round the carrier has a quiet round, and then each of its hosts takes, in order of IMP and
/// host, until nothing waits for it, until it is refused, or 16 times. Its refusals are not printed.
///
/// However it ends, each RFNM belongs to one message that was taken exactly once (BBN Report 1822: a link
/// carries one message at a time).
///
/// Errors:
/// - `OutOfMemory`: memory ran out at one event. The lines of the events before it were written, and no line
///   of its own. If it was a calm, what crossed before memory ran out was written too.
/// - `CannotWrite`: a write failed. The carrier had already processed the event whose line it was, or of a
///   calm all rounds up to the one whose line it was. Nothing more was asked of the writer, which is the only one to know
///   how much of its last lines it wrote.
pub fn replay_events<C: Carrier, W: Output>(
    carrier: &mut C,
    events: &[RawEvent],
    detail: Detail,
    writer: &mut W,
) -> Result<(), ReplayFault>
    requires { W.failed writer.old ≡ false }

    // each RFNM belongs to one message, which was taken exactly once; and what crossed is a run of the mailboxes
    ensures messages { SafeMessages (C.calls.seen carrier.new).log }
    ensures run { IsRun (C.calls.seen carrier.new).hosts (C.calls.seen carrier.new).log }

    // each event in turn went as the carrier says that its calls may go, and what it showed was printed: what
    // crossed, and then its refusal
    ensures replayed { OnOk result (Writes detail (Replays C.calls carrier.old events.now carrier.new) (W.contents writer.old) (W.contents writer.new)) }

    // memory ran out at one event: what the events before it showed was printed, and nothing of that event, except for
    // what crossed in a calm before memory ran out
    ensures memory { result ≡ Err ReplayFault.OutOfMemory → Writes detail (EndsIn C.calls StopsIn carrier.old events.now carrier.new) (W.contents writer.old) (W.contents writer.new) }

    // `CannotWrite` is answered where a write failed, and nowhere else
    ensures failed { TellsCannotWrite result (W.failed writer.new) }

    // a write failed: the carrier had already processed that event, or the rounds of a calm of which it wrote
    ensures cannot_write { result ≡ Err ReplayFault.CannotWrite → (shown : List Shown) × EndsIn C.calls MayDo carrier.old events.now carrier.new shown }
{
    let outcome = replay_in_turn(carrier, events, detail, writer);
    // for the proof only: the log is a run of the mailboxes, and the messages of each run are safe
    let _log = carrier.log();
    outcome
}

/// Hands each event to the carrier in order, and prints what it shows.
fn replay_in_turn<C: Carrier, W: Output>(
    carrier: &mut C,
    events: &[RawEvent],
    detail: Detail,
    writer: &mut W,
) -> Result<(), ReplayFault>
    requires { W.failed writer.old ≡ false }
    ensures failed { TellsCannotWrite result (W.failed writer.new) }
    ensures replayed { OnOk result (Writes detail (Replays C.calls carrier.old events.now carrier.new) (W.contents writer.old) (W.contents writer.new)) }
    ensures memory { result ≡ Err ReplayFault.OutOfMemory → Writes detail (EndsIn C.calls StopsIn carrier.old events.now carrier.new) (W.contents writer.old) (W.contents writer.new) }
    ensures cannot_write { result ≡ Err ReplayFault.CannotWrite → (shown : List Shown) × EndsIn C.calls MayDo carrier.old events.now carrier.new shown }
{
    let mut line = Line::new();
    for event in events {
        replay_event(carrier, event, &mut line, detail, writer)?;
    }
    Ok(())
}

/// Hands one event to the carrier, and prints what it shows. Lines are put together in this buffer, of which nothing is kept.
fn replay_event<C: Carrier, W: Output>(
    carrier: &mut C,
    event: &RawEvent,
    line: &mut Line,
    detail: Detail,
    writer: &mut W,
) -> Result<(), ReplayFault>
    requires { W.failed writer.old ≡ false }
    ensures ends { EventEnds C.calls detail carrier.old event.now result carrier.new (W.contents writer.old) (W.contents writer.new) }
    ensures failed { TellsCannotWrite result (W.failed writer.new) }
{
    match event {
        RawEvent::Out(message) => replay_offer(carrier, message.clone()?, line, detail, writer),
        RawEvent::Take(host) => replay_taking(carrier, *host, line, detail, writer),
        RawEvent::Net(event) => replay_step(carrier, *event, line, detail, writer),
        RawEvent::Calm(rounds) => replay_calm(carrier, *rounds, line, detail, writer),
    }
}

/// Offers a message, and prints that it crossed, or the refusal.
fn replay_offer<C: Carrier, W: Output>(
    carrier: &mut C,
    message: HostMessage,
    line: &mut Line,
    detail: Detail,
    writer: &mut W,
) -> Result<(), ReplayFault>
    requires { W.failed writer.old ≡ false }
    ensures ends { EventEnds C.calls detail carrier.old (script_event.Out message) result carrier.new (W.contents writer.old) (W.contents writer.new) }
    ensures failed { TellsCannotWrite result (W.failed writer.new) }
{
    let booked = carrier.log().len();
    let outcome = carrier.offer_out(message);
    print_outcome(line, carrier.log(), booked, outcome, detail, writer)
}

/// Lets a host take, and prints what crossed, or the refusal.
fn replay_taking<C: Carrier, W: Output>(
    carrier: &mut C,
    host: HostAddr,
    line: &mut Line,
    detail: Detail,
    writer: &mut W,
) -> Result<(), ReplayFault>
    requires { W.failed writer.old ≡ false }
    ensures ends { EventEnds C.calls detail carrier.old (script_event.Take host) result carrier.new (W.contents writer.old) (W.contents writer.new) }
    ensures failed { TellsCannotWrite result (W.failed writer.new) }
{
    let booked = carrier.log().len();
    let outcome = outcome_of(carrier.take_in(host));
    print_outcome(line, carrier.log(), booked, outcome, detail, writer)
}

/// Returns whether a taking was refused.
fn outcome_of(answer: Result<Option<Inbound>, CarrierFault>) -> Result<(), CarrierFault>
    ensures { result ≡ outcome_of answer }
{
    match answer {
        Ok(_) => Ok(()),
        Err(fault) => Err(fault),
    }
}

/// Lets something happen inside the network, and prints what crossed, or the refusal.
fn replay_step<C: Carrier, W: Output>(
    carrier: &mut C,
    event: NetEvent,
    line: &mut Line,
    detail: Detail,
    writer: &mut W,
) -> Result<(), ReplayFault>
    requires { W.failed writer.old ≡ false }
    ensures ends { EventEnds C.calls detail carrier.old (script_event.Net event) result carrier.new (W.contents writer.old) (W.contents writer.new) }
    ensures failed { TellsCannotWrite result (W.failed writer.new) }
{
    let booked = carrier.log().len();
    let outcome = carrier.step(event);
    print_outcome(line, carrier.log(), booked, outcome, detail, writer)
}
