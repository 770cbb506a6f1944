//! A calm: rounds in which nothing is done to the network, and its hosts take what comes.

ghost use Rattle.std.specs.Prelude.{◌≡◌, ◌≤◌, Err, IfErr, OnOk, false, true};
ghost use Rattle.std.specs.Io.KnownBytes.{Keeps};
ghost use Rattle.replay.specs.Failing.{TellsCannotWrite, TellsFailure};
ghost use Rattle.replay.specs.Replay.{Halts, Round, Takings, calmly};
ghost use Rattle.replay.specs.Steps.{EventEnds, Grew};
ghost use Rattle.script.specs.declared.event.RawEvent.TheVariants as script_event;

use crate::events::ReplayFault;
use crate::line::Line;
use crate::output::{Output, WriteFailed};
use crate::print::{Detail, print_outcome};
use interface::{Carrier, CarrierFault, HostAddr, TAKINGS};

/// How many rounds of a calm pass before each further one is seen at once.
pub const UNSEEN_ROUNDS: u32 = 64;

/// Hands on all that was printed so far, after a round of a calm before which this many have passed. It does so only
/// where the calm is long, so that it is seen though it may never end.
///
/// Errors: `WriteFailed`.
pub fn hand_on_round<W: Output>(passed: u32, writer: &mut W) -> Result<(), WriteFailed>
    requires { W.failed writer.old ≡ false }
    ensures seen { 64 ≤ passed → OnOk result (W.flushed writer.new ≡ true) }
    ensures kept { Keeps (W.contents writer.old) (W.contents writer.new) }
    ensures failed { TellsFailure result (W.failed writer.new) }
{
    if passed >= UNSEEN_ROUNDS {
        writer.flush()?;
    }
    Ok(())
}

/// Lets this many rounds pass, and prints after each what crossed in it. Refusals are not printed. Where the network rests, the
/// rounds that are left would change nothing and print nothing, and are not made.
pub(crate) fn replay_calm<C: Carrier, W: Output>(
    carrier: &mut C,
    rounds: u32,
    line: &mut Line,
    detail: Detail,
    writer: &mut W,
) -> Result<(), ReplayFault>
    requires { W.failed writer.old ≡ false }
    ensures ends { EventEnds C.calls detail carrier.old (script_event.Calm rounds) result carrier.new (W.contents writer.old) (W.contents writer.new) }
    ensures failed { TellsCannotWrite result (W.failed writer.new) }
{
    for _ in 0..rounds {
        if carrier.rests_beside(&[]) {
            return Ok(());
        }
        let booked = carrier.log().len();
        let outcome = pass_round(carrier);
        print_outcome(line, carrier.log(), booked, outcome, detail, writer)?;
    }
    Ok(())
}

/// Lets one round pass: a quiet round, and then each host takes.
///
/// Errors: `OutOfMemory` and `Stopped`, which end the round.
fn pass_round<C: Carrier>(carrier: &mut C) -> Result<(), CarrierFault>
    ensures round { Round C.calls carrier.old result carrier.new }
    ensures grew { Grew (C.calls.seen carrier.old) (C.calls.seen carrier.new) }
    ensures told { IfErr result (λ f. Halts (Err f)) }
{
    calmly(carrier.quiet_round())?;
    let hosts = carrier.hosts().len();
    for index in 0..hosts {
        let host = carrier.hosts()[index];
        take_all(carrier, host)?;
    }
    Ok(())
}

/// Lets a host take until nothing waits for it, until it is refused, or 16 times.
///
/// Errors: `OutOfMemory` and `Stopped`.
fn take_all<C: Carrier>(carrier: &mut C, host: HostAddr) -> Result<(), CarrierFault>
    ensures takings { Takings C.calls host 16 carrier.old result carrier.new }
    ensures grew { Grew (C.calls.seen carrier.old) (C.calls.seen carrier.new) }
    ensures told { IfErr result (λ f. Halts (Err f)) }
{
    for _ in 0..TAKINGS {
        match carrier.take_in(host) {
            Ok(Some(_)) => {}
            Ok(None) => return Ok(()),
            Err(fault) => return calmly(Err(fault)),
        }
    }
    Ok(())
}

/// Answers what a calm makes of an outcome: it continues after a refusal, but not after memory has run out.
fn calmly(outcome: Result<(), CarrierFault>) -> Result<(), CarrierFault>
    ensures calm { result ≡ calmly outcome }
    ensures told { IfErr result (λ f. Halts (Err f)) }
{
    match outcome {
        Err(CarrierFault::Stopped | CarrierFault::OutOfMemory) => outcome,
        _ => Ok(()),
    }
}
