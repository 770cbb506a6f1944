//! Messages, answers and crossings, printed.

ghost use Rattle.std.specs.Prelude.{◌≡◌, ◌++◌, OnOk, codes, false};
ghost use Rattle.std.specs.Io.KnownBytes.{Appends};
ghost use Rattle.hex.specs.Hex.{encode_upper};
ghost use Rattle.bit_messages.specs.Octets.{octets_of};
ghost use Rattle.interface.specs.Printed.{host_text};
ghost use Rattle.replay.specs.Failing.{TellsFailure};
ghost use Rattle.trace.specs.Texts.{answer_object, answer_word, bits_members, crossing_object, flow_members, host_string, message_object, of_kind, quoted};

use crate::json::Item;
use bit_messages::Bits;
use interface::{Answer, Crossing, Flow, HostAddr, HostMessage};
use replay::{Output, WriteFailed, print_bits};

/// Prints the octets of bits in hexadecimal, as a string, which is empty where there are no bits.
///
/// Errors: `WriteFailed`.
pub fn print_octets<W: Output>(bits: &Bits, writer: &mut W) -> Result<(), WriteFailed>
    requires { W.failed writer.old ≡ false }
    ensures written { OnOk result (Appends (W.contents writer.old) (W.contents writer.new) (quoted (encode_upper (octets_of bits.now)))) }
    ensures failed { TellsFailure result (W.failed writer.new) }
{
    if bits.len() == 0 {
        return writer.write_all(b"\"\"");
    }
    writer.write_all(b"\"")?;
    print_bits(bits, writer)?;
    writer.write_all(b"\"")
}

/// Returns the word of an answer. `NotTaken` has one of its own, though hosts get `Incomplete` for it.
pub fn answer_word(kind: Answer) -> &'static str
    ensures { result.now ≡ answer_word kind }
{
    match kind {
        Answer::Rfnm => "rfnm",
        Answer::Incomplete => "incomplete",
        Answer::Dead => "dead",
        Answer::NotTaken => "nottaken",
    }
}

impl Item for HostMessage {
    ghost text = { message_object };

    fn print<W: Output>(&self, writer: &mut W) -> Result<(), WriteFailed> {
        let (source, destination) = (&self.flow.source, &self.flow.destination);
        let link = self.flow.link.0;
        let bits = self.text.bits();
        let count = bits.len();
        write!(
            writer,
            "{{\"from\":\"{source}\",\"to\":\"{destination}\",\"link\":{link},\"bits\":{count},\"octets\":"
        )?;
        print_octets(bits, writer)?;
        writer.write_all(b"}")
    }
}

/// Prints a message that crossed, with a word for its way.
fn print_crossed<W: Output>(
    word: &str,
    message: &HostMessage,
    writer: &mut W,
) -> Result<(), WriteFailed>
    requires { W.failed writer.old ≡ false }
    ensures written { OnOk result (Appends (W.contents writer.old) (W.contents writer.new) (of_kind word.now (flow_members message.now.flow ++ bits_members message.now.text))) }
    ensures failed { TellsFailure result (W.failed writer.new) }
{
    let (source, destination) = (&message.flow.source, &message.flow.destination);
    let link = message.flow.link.0;
    let bits = message.text.bits();
    let count = bits.len();
    write!(
        writer,
        "{{\"kind\":\"{word}\",\"from\":\"{source}\",\"to\":\"{destination}\",\"link\":{link},\"bits\":{count},\"octets\":"
    )?;
    print_octets(bits, writer)?;
    writer.write_all(b"}")
}

/// Prints an answer about a flow.
///
/// Errors: `WriteFailed`.
pub fn print_answer<W: Output>(kind: Answer, flow: &Flow, writer: &mut W) -> Result<(), WriteFailed>
    requires { W.failed writer.old ≡ false }
    ensures written { OnOk result (Appends (W.contents writer.old) (W.contents writer.new) (answer_object (kind, flow.now))) }
    ensures failed { TellsFailure result (W.failed writer.new) }
{
    let word = answer_word(kind);
    let (source, destination) = (&flow.source, &flow.destination);
    let link = flow.link.0;
    write!(
        writer,
        "{{\"kind\":\"{word}\",\"from\":\"{source}\",\"to\":\"{destination}\",\"link\":{link}}}"
    )
}

impl Item for Crossing {
    ghost text = { crossing_object };

    fn print<W: Output>(&self, writer: &mut W) -> Result<(), WriteFailed> {
        match self {
            Crossing::Out(message) => print_crossed("out", message, writer),
            Crossing::In(message) => print_crossed("in", message, writer),
            Crossing::Answer(kind, flow) => print_answer(*kind, flow, writer),
            Crossing::Down(host) => write!(writer, "{{\"kind\":\"down\",\"host\":\"{host}\"}}"),
            Crossing::Up(host) => write!(writer, "{{\"kind\":\"up\",\"host\":\"{host}\"}}"),
        }
    }
}

impl Item for HostAddr {
    ghost text = { host_string };

    fn print<W: Output>(&self, writer: &mut W) -> Result<(), WriteFailed> {
        write!(writer, "\"{self}\"")
    }
}
