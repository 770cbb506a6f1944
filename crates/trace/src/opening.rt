//! The first line of a trace.

ghost use Rattle.std.specs.Prelude.{◌≡◌, ◌++◌, OnOk, codes, false, map};
ghost use Rattle.std.specs.Io.KnownBytes.{Appends};
ghost use Rattle.replay.specs.Failing.{TellsFailure};
ghost use Rattle.script.specs.Input.{ended_line};
ghost use Rattle.trace.specs.Changes.{members_of};
ghost use Rattle.trace.specs.Joined.{network_front};
ghost use Rattle.trace.specs.Texts.{carrier_word, ends_text, object, opening_line, pair_text, site_text};

use crate::inspect::Inspect;
use crate::json::{Item, bool_word, print_array};
use replay::{Output, WriteFailed};
use topology::{CarrierKind, ImpHosts, LineEnds, Topology};

/// Returns the word of a carrier.
fn word_of(carrier: CarrierKind) -> &'static str
    ensures { result.now ≡ carrier_word carrier }
{
    match carrier {
        CarrierKind::Plain => "plain",
        CarrierKind::Subnet => "subnet",
    }
}

/// Prints an array of two numbers.
fn print_pair<W: Output>(a: u8, b: u8, writer: &mut W) -> Result<(), WriteFailed>
    requires { W.failed writer.old ≡ false }
    ensures written { OnOk result (Appends (W.contents writer.old) (W.contents writer.new) (pair_text a b)) }
    ensures failed { TellsFailure result (W.failed writer.new) }
{
    write!(writer, "[{a},{b}]")
}

impl Item for ImpHosts {
    ghost text = { site_text };

    fn print<W: Output>(&self, writer: &mut W) -> Result<(), WriteFailed> {
        print_pair(self.imp, self.hosts, writer)
    }
}

impl Item for LineEnds {
    ghost text = { ends_text };

    fn print<W: Output>(&self, writer: &mut W) -> Result<(), WriteFailed> {
        print_pair(self.a, self.b, writer)
    }
}

/// Prints the first line of a trace up to its parts: the number of this form of traces, and the network. What it prints
/// is followed by the object of all parts, `}` and the end of the line.
///
/// Errors: `WriteFailed`.
pub fn print_network<W: Output>(network: &Topology, writer: &mut W) -> Result<(), WriteFailed>
    requires { W.failed writer.old ≡ false }
    ensures written { OnOk result (Appends (W.contents writer.old) (W.contents writer.new) (network_front network.now)) }
    ensures failed { TellsFailure result (W.failed writer.new) }
{
    let (carrier, raw) = (word_of(network.carrier()), bool_word(network.is_raw()));
    write!(
        writer,
        "{{\"trace\":3,\"carrier\":\"{carrier}\",\"raw\":{raw},\"imps\":"
    )?;
    print_array(&network.imps(), writer)?;
    writer.write_all(b",\"lines\":")?;
    print_array(&network.lines(), writer)?;
    writer.write_all(b",\"parts\":")
}

/// Prints the first line of a trace: the network, and all parts of its carrier.
///
/// Errors: `WriteFailed`.
pub(crate) fn print_opening<C: Inspect, W: Output>(
    network: &Topology,
    carrier: &C,
    writer: &mut W,
) -> Result<(), WriteFailed>
    requires { W.failed writer.old ≡ false }
    ensures written { OnOk result (Appends (W.contents writer.old) (W.contents writer.new) (ended_line (opening_line network.now (object (members_of (C.inside.members carrier.now)))))) }
    ensures failed { TellsFailure result (W.failed writer.new) }
{
    print_network(network, writer)?;
    carrier.print_whole(writer)?;
    writer.write_all(b"}\n")
}
