//! The lines of a world's trace.

ghost use Rattle.std.specs.Prelude.{◌≡◌, ◌≤◌, OnOk, false, length, map};
ghost use Rattle.std.specs.Io.KnownBytes.{Appends};
ghost use Rattle.replay.specs.Failing.{TellsFailure};
ghost use Rattle.script.specs.Input.{ended_line};
ghost use Rattle.world_trace.specs.Steps.{head_text, hosts_text, outcome_text, passed_line, whole_end};
ghost use Rattle.world_trace.specs.Texts.{opening_text, seat_member, services_member};
ghost use Rattle.world_trace.specs.Traces.{state_of};

use crate::spelling::print_lines;
use crate::texts::{Changes, print_changes};
use crate::values::Object;
use crate::worlds::Traced;
use interface::Crossing;
use net_sim::World;
use replay::{Output, WriteFailed};
use topology::Topology;
use trace::json::print_array;
use trace::{Inspect, Spot, print_network};

/// Prints the programs and the services of the hosts, after other members.
fn print_hosts<C: Inspect, W: Output>(world: &World<C>, writer: &mut W) -> Result<(), WriteFailed>
    requires { W.failed writer.old ≡ false }
    ensures written { OnOk result (Appends (W.contents writer.old) (W.contents writer.new) (hosts_text (map seat_member world.now.seats) (map services_member world.now.services))) }
    ensures failed { TellsFailure result (W.failed writer.new) }
{
    let (programs, services) = (Object(world.seats()), Object(world.services()));
    write!(
        writer,
        ",\"programs\":{programs},\"services\":{services}}}\n"
    )
}

/// Prints where an event is in a script, its round of a calm, and the event.
fn print_head<W: Output>(
    spot: Spot,
    round: u32,
    event: &[u8],
    writer: &mut W,
) -> Result<(), WriteFailed>
    requires { W.failed writer.old ≡ false }
    ensures written { OnOk result (Appends (W.contents writer.old) (W.contents writer.new) (head_text spot round event.now)) }
    ensures failed { TellsFailure result (W.failed writer.new) }
{
    let (line, number) = (spot.line, spot.number);
    write!(
        writer,
        "{{\"line\":{line},\"number\":{number},\"round\":{round},\"event\":\""
    )?;
    writer.write_all(event)
}

/// Prints what crossed and the lines that a replay prints, after an event.
fn print_outcome<W: Output>(
    crossings: &[Crossing],
    printed: &[u8],
    writer: &mut W,
) -> Result<(), WriteFailed>
    requires { W.failed writer.old ≡ false }
    ensures written { OnOk result (Appends (W.contents writer.old) (W.contents writer.new) (outcome_text crossings.now printed.now)) }
    ensures failed { TellsFailure result (W.failed writer.new) }
{
    writer.write_all(b"\",\"crossed\":")?;
    print_array(&crossings, writer)?;
    writer.write_all(b",\"printed\":")?;
    print_lines(printed, writer)
}

/// Prints the state of a world after other members, and the end of the line.
fn print_state<C: Inspect, W: Output>(world: &World<C>, writer: &mut W) -> Result<(), WriteFailed>
    requires { W.failed writer.old ≡ false }
    ensures written { OnOk result (Appends (W.contents writer.old) (W.contents writer.new) (whole_end C.inside.members world.now)) }
    ensures failed { TellsFailure result (W.failed writer.new) }
{
    world.carrier().print_whole(writer)?;
    print_hosts(world, writer)
}

/// An event that has happened: the texts of its line.
#[derive(Drop)]
pub(crate) struct Passed {
    /// The event, within a string.
    pub event: Vec<u8>,
    /// How many crossings were in the book before it.
    pub crossed: usize,
    /// The lines that a replay prints for it.
    pub printed: Vec<u8>,
    /// What of the state is other than before.
    pub changes: Changes,
}

/// Prints the line of an event that has just happened in a world, in this round of a calm, or 0.
pub(crate) fn print_line<C: Inspect, T: Traced<C>, W: Output>(
    world: &T,
    spot: Spot,
    round: u32,
    passed: &Passed,
    writer: &mut W,
) -> Result<(), WriteFailed>
    requires crossed { passed.now.crossed ≤ length (T.state world.now).kept.book.crossings }
    requires whole { W.failed writer.old ≡ false }
    ensures written { OnOk result (Appends (W.contents writer.old) (W.contents writer.new) (ended_line (passed_line spot round (T.state world.now) passed.now))) }
    ensures failed { TellsFailure result (W.failed writer.new) }
{
    let (_, crossings) = world.book().crossings().split_at(passed.crossed);
    print_head(spot, round, &passed.event, writer)?;
    print_outcome(crossings, &passed.printed, writer)?;
    writer.write_all(b",\"parts\":")?;
    print_changes(&passed.changes, writer)
}

/// Prints the first line of a trace: the network, and the state of a world.
pub(crate) fn print_opening<C: Inspect, W: Output>(
    network: &Topology,
    world: &World<C>,
    writer: &mut W,
) -> Result<(), WriteFailed>
    requires { W.failed writer.old ≡ false }
    ensures written { OnOk result (Appends (W.contents writer.old) (W.contents writer.new) (ended_line (opening_text network.now (state_of C.inside.members world.now)))) }
    ensures failed { TellsFailure result (W.failed writer.new) }
{
    print_network(network, writer)?;
    print_state(world, writer)
}
