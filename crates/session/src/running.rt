//! A whole session: the head of an input, and then its lines.

ghost use Rattle.std.specs.Prelude.{◌≡◌, ◌≢◌, ◌+◌, ◌≤◌, ◌↔◌, [], codes, Err, IfErr, IfSome, List, None, OnOk, false, length, true, ℕ};
ghost use Rattle.std.specs.Io.KnownBytes.{Appends};
ghost use Rattle.net_sim.specs.Steps.{absent_in};
ghost use Rattle.session.specs.Hearing.{hearing};
ghost use Rattle.session.specs.Head.{IsHead};
ghost use Rattle.session.specs.Session.{EndsEarly, IsSession, Serving, on, over};
ghost use Rattle.session.specs.Turns.{Ends};

use crate::answering::answer_lines;
use crate::head::read_head;
use crate::networks::Bare;
use command_line::{Input, ScriptFault, Source, read_input, subnet_of};
use interface::{Carrier, HostAddr};
use leader1822::PlainBoxes;
use net_sim::{MixedWorld, StrangersFault, World};
use replay::Output;
use script::MAX_INPUT;
use std::alloc::Global;
use topology::{CarrierKind, Topology};

/// Answers the lines of a script over the carrier that a topology names.
///
/// Errors: as in [`answer_lines`].
fn serve_on<R: Source, W: Output>(
    alloc: Global,
    network: &Topology,
    reader: &mut R,
    ahead: &mut Vec<u8>,
    heard: usize,
    writer: &mut W,
) -> Result<(), ScriptFault>
    requires reads { R.failed reader.old ≡ false }
    requires more { R.ended reader.old ≡ false }
    requires writes { W.failed writer.old ≡ false }
    requires handed { W.flushed writer.old ≡ true }
    requires short { heard + length ahead.old.items ≤ MAX_INPUT }
    ensures ends { Ends (on network.now) (hearing heard ahead.old.items (R.remaining reader.old)) (W.contents writer.old) (W.contents writer.new) result }
    ensures kept { IfErr result (λ f. f ≢ ScriptFault.CannotWrite → f ≢ ScriptFault.OutOfMemory → W.flushed writer.new ≡ true) }
    ensures cannot_read { (result ≡ Err ScriptFault.CannotRead) ↔ (R.failed reader.new ≡ true) }
    ensures cannot_write { (result ≡ Err ScriptFault.CannotWrite) ↔ (W.failed writer.new ≡ true) }
{
    let raw = network.is_raw();
    let strangers = network.strangers();
    match network.carrier() {
        CarrierKind::Plain => {
            let hosts = network.hosts(alloc)?;
            let carrier = PlainBoxes::new(alloc, hosts);
            serve_over(alloc, carrier, raw, strangers, reader, ahead, heard, writer)
        }
        CarrierKind::Subnet => {
            let carrier = subnet_of(alloc, network)?;
            serve_over(alloc, carrier, raw, strangers, reader, ahead, heard, writer)
        }
    }
}

/// Answers the lines of a script over a carrier at its opening, without host programs or with them, where these hosts
/// are strangers.
///
/// Errors: as in [`answer_lines`].
fn serve_over<C: Carrier, R: Source, W: Output>(
    alloc: Global,
    carrier: C,
    raw: bool,
    strangers: &[HostAddr],
    reader: &mut R,
    ahead: &mut Vec<u8>,
    heard: usize,
    writer: &mut W,
) -> Result<(), ScriptFault>
    requires unused { (C.calls.seen carrier).log ≡ [] }
    requires running { (C.calls.seen carrier).stopped ≡ false }
    requires there { absent_in (C.calls.seen carrier).hosts strangers.now ≡ None }
    requires reads { R.failed reader.old ≡ false }
    requires more { R.ended reader.old ≡ false }
    requires writes { W.failed writer.old ≡ false }
    requires handed { W.flushed writer.old ≡ true }
    requires short { heard + length ahead.old.items ≤ MAX_INPUT }
    ensures ends { Ends (over C.calls carrier raw strangers.now) (hearing heard ahead.old.items (R.remaining reader.old)) (W.contents writer.old) (W.contents writer.new) result }
    ensures kept { IfErr result (λ f. f ≢ ScriptFault.CannotWrite → f ≢ ScriptFault.OutOfMemory → W.flushed writer.new ≡ true) }
    ensures cannot_read { (result ≡ Err ScriptFault.CannotRead) ↔ (R.failed reader.new ≡ true) }
    ensures cannot_write { (result ≡ Err ScriptFault.CannotWrite) ↔ (W.failed writer.new ≡ true) }
{
    if raw {
        let mut bare = Bare { carrier };
        answer_lines(alloc, &mut bare, false, reader, ahead, heard, writer)
    } else if strangers.is_empty() {
        let mut world = World::new(alloc, carrier)?;
        answer_lines(alloc, &mut world, false, reader, ahead, heard, writer)
    } else {
        let mut world = match MixedWorld::new(alloc, carrier, strangers) {
            Ok(world) => world,
            Err(StrangersFault::OutOfMemory) => return Err(ScriptFault::OutOfMemory),
            Err(StrangersFault::NoSuch(_)) => return Err(ScriptFault::BadTopology),
        };
        answer_lines(alloc, &mut world, true, reader, ahead, heard, writer)
    }
}

/// Answers the lines of the script that follows this head of an input.
///
/// Errors: `BadTopology` where the head describes no topology; as in [`answer_lines`].
fn serve<R: Source, W: Output>(
    alloc: Global,
    head: &[u8],
    reader: &mut R,
    ahead: &mut Vec<u8>,
    writer: &mut W,
) -> Result<(), ScriptFault>
    requires opens { (document : List ℕ) × IsHead head.now document }
    requires reads { R.failed reader.old ≡ false }
    requires more { R.ended reader.old ≡ false }
    requires writes { W.failed writer.old ≡ false }
    requires handed { W.flushed writer.old ≡ true }
    requires short { length head.now + length ahead.old.items ≤ MAX_INPUT }
    ensures ends { Serving head.now (hearing (length head.now) ahead.old.items (R.remaining reader.old)) (W.contents writer.old) (W.contents writer.new) result }
    ensures kept { IfErr result (λ f. f ≢ ScriptFault.CannotWrite → f ≢ ScriptFault.OutOfMemory → W.flushed writer.new ≡ true) }
    ensures cannot_read { (result ≡ Err ScriptFault.CannotRead) ↔ (R.failed reader.new ≡ true) }
    ensures cannot_write { (result ≡ Err ScriptFault.CannotWrite) ↔ (W.failed writer.new ≡ true) }
{
    let Input { network, .. } = read_input(alloc, head)?;
    serve_on(alloc, &network, reader, ahead, head.len(), writer)
}

/// Runs a session: it reads a topology and the marker line `%`, hears the lines of a script to the end of the input,
/// answers each before it hears the next, and writes a last line `end`.
///
/// Errors: as in [`answer_lines`]; `BadTopology` where no marker line with its end comes, or what precedes it describes
/// no topology, with nothing written.
pub fn run_session<R: Source, W: Output>(
    alloc: Global,
    reader: &mut R,
    writer: &mut W,
) -> Result<(), ScriptFault>
    requires reads { R.failed reader.old ≡ false }
    requires more { R.ended reader.old ≡ false }
    requires writes { W.failed writer.old ≡ false }

    // the lines of the script are answered in turn, and that is written; or those before the fault, and how it came
    ensures session { OnOk result (IfSome (R.remaining reader.old) (λ octets. IsSession octets (W.contents writer.old) (W.contents writer.new))) }
    ensures early { IfErr result (λ f. IfSome (R.remaining reader.old) (λ octets. EndsEarly octets f (W.contents writer.old) (W.contents writer.new))) }
    ensures options { IfErr result (λ f. f ≢ ScriptFault.BadOptions) }

    // what was written is handed on, unless a write failed or memory ran out
    ensures flushed { OnOk result (W.flushed writer.new ≡ true) }
    ensures kept { IfErr result (λ f. f ≢ ScriptFault.CannotWrite → f ≢ ScriptFault.OutOfMemory → W.flushed writer.new ≡ true) }
    ensures cannot_read { (result ≡ Err ScriptFault.CannotRead) ↔ (R.failed reader.new ≡ true) }
    ensures cannot_write { (result ≡ Err ScriptFault.CannotWrite) ↔ (W.failed writer.new ≡ true) }
{
    writer.flush()?;
    let mut ahead = Vec::new(alloc);
    let head = read_head(alloc, reader, &*writer, &mut ahead)?;
    serve(alloc, &head, reader, &mut ahead, writer)?;
    write_end(writer)
}

/// Writes the last line, and hands on all.
///
/// Errors: `CannotWrite`.
fn write_end<W: Output>(writer: &mut W) -> Result<(), ScriptFault>
    requires { W.failed writer.old ≡ false }
    ensures written { OnOk result (Appends (W.contents writer.old) (W.contents writer.new) (codes "end\n")) }
    ensures flushed { OnOk result (W.flushed writer.new ≡ true) }
    ensures fault { IfErr result (λ f. f ≡ ScriptFault.CannotWrite) }
    ensures failed { (result ≡ Err ScriptFault.CannotWrite) ↔ (W.failed writer.new ≡ true) }
{
    writer.write_all(b"end\n")?;
    Ok(writer.flush()?)
}
