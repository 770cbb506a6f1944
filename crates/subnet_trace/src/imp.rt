//! What an IMP keeps, printed.

ghost use Rattle.std.specs.Prelude.{◌≡◌, ◌++◌, IfSome, None, OnOk, Some, codes, false, map};
ghost use Rattle.std.specs.Io.KnownBytes.{Appends};
ghost use Rattle.replay.specs.Failing.{TellsFailure};
ghost use Rattle.subnet_trace.specs.Printing.{begun_text, held_text};
ghost use Rattle.subnet_trace.specs.Texts.{channel_text, heard_text, host_object, imp_text, packet_text, port_object};
ghost use Rattle.subnet_trace.specs.Texts.{slot_text, told_text};
ghost use Rattle.subnet_trace.specs.Texts.{whole_text};
ghost use Rattle.trace.specs.Texts.{array, bool_text};

use crate::lists::{All, Held};
use crate::packets::{digit, digit_octet, digits, print_vector};
use crate::ways::{Ways, print_concluded, print_heard};
use imp_channel::{CHANNELS, Channel};
use imp_node::{Host, Imp, Message, Port, Told};
use packetiser::Reassembly;
use replay::{Output, WriteFailed};
use routing::Vector;
use trace::json::{Listed, print_array};
use trace::{print_answer, print_octets};

impl Held for Message {
    ghost text = { whole_text };

    fn print<W: Output>(&self, writer: &mut W) -> Result<(), WriteFailed> {
        let (source, destination) = (&self.flow.source, &self.flow.destination);
        let (link, number) = (self.flow.link.0, self.number);
        let bits = self.text.bits();
        let count = bits.len();
        write!(
            writer,
            "{{\"from\":\"{source}\",\"to\":\"{destination}\",\"link\":{link},\"number\":{number},\"bits\":{count},\"octets\":"
        )?;
        print_octets(bits, writer)?;
        writer.write_all(b"}")
    }
}

/// The messages that wait for a host.
#[derive(Drop)]
struct Messages<'a>(&'a Host);

impl Listed for Messages<'_> {
    ghost texts = { λ messages. map whole_text messages.0.now.queue };

    fn count(&self) -> usize {
        self.0.message_count()
    }

    fn print_at<W: Output>(&self, place: usize, writer: &mut W) -> Result<(), WriteFailed> {
        let Some(message) = self.0.message_at(place) else {
            unreachable!();
        };
        message.print(writer)
    }
}

/// The answers that wait for a host.
#[derive(Drop)]
struct Answers<'a>(&'a Host);

impl Listed for Answers<'_> {
    ghost texts = { λ answers. map told_text answers.0.now.answers };

    fn count(&self) -> usize {
        self.0.answer_count()
    }

    fn print_at<W: Output>(&self, place: usize, writer: &mut W) -> Result<(), WriteFailed> {
        let Some(told) = self.0.answer_at(place) else {
            unreachable!();
        };
        print_answer(told.kind, &told.flow, writer)
    }
}

/// Returns what is printed of a host before its messages.
fn host_front(up: bool) -> &'static str
    ensures { result.now ≡ codes "{\"up\":" ++ (bool_text up ++ codes ",\"messages\":") }
{
    if up {
        "{\"up\":true,\"messages\":"
    } else {
        "{\"up\":false,\"messages\":"
    }
}

impl Held for Host {
    ghost text = { host_object };

    fn print<W: Output>(&self, writer: &mut W) -> Result<(), WriteFailed> {
        writer.write_all(host_front(self.is_up()).as_bytes())?;
        print_array(&Messages(self), writer)?;
        writer.write_all(b",\"answers\":")?;
        print_array(&Answers(self), writer)?;
        writer.write_all(b"}")
    }
}

/// Returns the text of a free channel, by its bit.
fn free_channel(bit: bool) -> &'static str
    ensures { result.now ≡ channel_text (record { bit = bit; packet = None }) }
{
    if bit { "{\"bit\":1}" } else { "{\"bit\":0}" }
}

impl Held for Channel {
    ghost text = { channel_text };

    fn print<W: Output>(&self, writer: &mut W) -> Result<(), WriteFailed> {
        let bit = digit(self.bit);
        let Some(packet) = &self.packet else {
            return writer.write_all(free_channel(self.bit).as_bytes());
        };
        write!(writer, "{{\"bit\":{bit},\"packet\":")?;
        packet.print(writer)?;
        writer.write_all(b"}")
    }
}

/// Returns a comma and the text of a free channel, by its bit.
fn free_octets(bit: bool) -> [u8; 10]
    ensures { result ≡ codes "," ++ channel_text (record { bit = bit; packet = None }) }
{
    [
        b',',
        b'{',
        b'"',
        b'b',
        b'i',
        b't',
        b'"',
        b':',
        digit_octet(bit),
        b'}',
    ]
}

/// Returns the texts of the channels of a line, each after a comma, if all of them are free.
fn all_free(channels: &[Channel]) -> Option<[[u8; 10]; CHANNELS]>
    ensures { IfSome result (λ texts. texts ≡ map (λ c. codes "," ++ channel_text c) channels.now) }
{
    if channels.len() != CHANNELS {
        return None;
    }
    let mut texts = [[0; 10]; CHANNELS];
    for place in 0..CHANNELS {
        let channel = &channels[place];
        if channel.packet.is_some() {
            return None;
        }
        texts[place] = free_octets(channel.bit);
    }
    Some(texts)
}

/// Prints the channels of a line. If all are free, as they nearly always are, they are printed by one call.
fn print_channels<W: Output>(channels: &[Channel], writer: &mut W) -> Result<(), WriteFailed>
    requires { W.failed writer.old ≡ false }
    ensures written { OnOk result (Appends (W.contents writer.old) (W.contents writer.new) (array (map channel_text channels.now))) }
    ensures failed { TellsFailure result (W.failed writer.new) }
{
    let Some(texts) = all_free(channels) else {
        return print_array(&All(channels), writer);
    };
    let (_, items) = texts.as_flattened().split_at(1);
    writer.write_all(b"[")?;
    writer.write_all(items)?;
    writer.write_all(b"]")
}

/// Returns what is printed of an end of a line before its channels.
fn port_front(up: bool) -> &'static str
    ensures { result.now ≡ codes "{\"up\":" ++ (bool_text up ++ codes ",\"sending\":") }
{
    if up {
        "{\"up\":true,\"sending\":"
    } else {
        "{\"up\":false,\"sending\":"
    }
}

impl Held for Port {
    ghost text = { port_object };

    fn print<W: Output>(&self, writer: &mut W) -> Result<(), WriteFailed> {
        writer.write_all(port_front(self.up).as_bytes())?;
        print_channels(self.line.channels(), writer)?;
        writer.write_all(b",\"expected\":\"")?;
        writer.write_all(&digits(self.line.expected()))?;
        writer.write_all(b"\"}")
    }
}

impl Held for Option<Vector> {
    ghost text = { heard_text };

    fn print<W: Output>(&self, writer: &mut W) -> Result<(), WriteFailed> {
        match self {
            None => writer.write_all(b"null"),
            Some(vector) => print_vector(vector, writer),
        }
    }
}

/// The messages in reassembly, each of which is a list of packets.
#[derive(Drop)]
struct Slots<'a>(&'a Reassembly);

impl Listed for Slots<'_> {
    ghost texts = { λ slots. map slot_text slots.0.now };

    fn count(&self) -> usize {
        self.0.count()
    }

    fn print_at<W: Output>(&self, place: usize, writer: &mut W) -> Result<(), WriteFailed> {
        print_array(&All(self.0.pieces_at(place)), writer)
    }
}

/// Prints the beginning of an IMP: its hosts, its ends of lines, and what its neighbours announced.
fn print_ends<W: Output>(imp: &Imp, noted: Option<&Ways>, writer: &mut W) -> Result<(), WriteFailed>
    requires { W.failed writer.old ≡ false }
    ensures written { OnOk result (Appends (W.contents writer.old) (W.contents writer.new) (begun_text imp.now)) }
    ensures failed { TellsFailure result (W.failed writer.new) }
{
    writer.write_all(b"{\"hosts\":")?;
    print_array(&All(imp.hosts()), writer)?;
    writer.write_all(b",\"ports\":")?;
    print_array(&All(imp.ports()), writer)?;
    writer.write_all(b",\"routes\":")?;
    print_heard(imp.routes(), noted, writer)
}

/// Prints the packets that an IMP holds outside of channels: those that wait for one, and those of messages in
/// reassembly.
fn print_held<W: Output>(imp: &Imp, writer: &mut W) -> Result<(), WriteFailed>
    requires { W.failed writer.old ≡ false }
    ensures written { OnOk result (Appends (W.contents writer.old) (W.contents writer.new) (held_text imp.now)) }
    ensures failed { TellsFailure result (W.failed writer.new) }
{
    writer.write_all(b",\"store\":")?;
    print_array(&All(imp.store()), writer)?;
    writer.write_all(b",\"slots\":")?;
    print_array(&Slots(imp.slots()), writer)
}

/// Prints an IMP that is up. What is noted of its routes may be of another state.
pub(crate) fn print_imp<W: Output>(
    imp: &Imp,
    noted: Option<&Ways>,
    writer: &mut W,
) -> Result<(), WriteFailed>
    requires { W.failed writer.old ≡ false }
    ensures written { OnOk result (Appends (W.contents writer.old) (W.contents writer.new) (imp_text (Some imp.now))) }
    ensures failed { TellsFailure result (W.failed writer.new) }
{
    print_ends(imp, noted, writer)?;
    print_held(imp, writer)?;
    print_concluded(imp.routes(), noted, writer)
}
