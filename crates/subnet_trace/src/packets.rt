//! Packets and frames, printed.

ghost use Rattle.std.specs.Prelude.{◌≡◌, ◌+◌, ◌/◌, ◌%◌, ◌<◌, ◌∷◌, ◌++◌, [], IfOk, OnOk, codes, false, nat_lt, true};
ghost use Rattle.std.specs.Io.KnownBytes.{Appends};
ghost use Rattle.replay.specs.Failing.{TellsFailure};
ghost use Rattle.routing.specs.Vector.{infinite};
ghost use Rattle.subnet_trace.specs.Printing.{distance_behind, next_behind, number_behind, place_after};
ghost use Rattle.trace.specs.Joined.{mark, place_behind};
ghost use Rattle.subnet_trace.specs.Texts.{bit_text, bits_text, content_members, distances_text, frame_text, kind_word, next_text, packet_text};
ghost use Rattle.trace.specs.Texts.{further};

use crate::lists::Held;
use imp_channel::{ACKS, Content, Frame};
use interface::MOST_IMPS;
use packetiser::{Packet, PacketKind};
use replay::{Output, WriteFailed};
use routing::{INFINITE, RouteTable, Vector};
use trace::json::{bool_word, mark};
use trace::print_octets;

/// Returns the word of a kind of packet.
fn word_of(kind: PacketKind) -> &'static str
    ensures { result.now ≡ kind_word kind }
{
    match kind {
        PacketKind::Data => "data",
        PacketKind::Rfnm => "rfnm",
        PacketKind::Dead => "dead",
        PacketKind::Ask => "ask",
        PacketKind::Never => "never",
    }
}

/// Returns a bit as a digit.
pub(crate) fn digit(bit: bool) -> &'static str
    ensures { result.now ≡ bit_text bit }
{
    if bit { "1" } else { "0" }
}

/// Returns a bit as the octet of a digit.
pub(crate) fn digit_octet(bit: bool) -> u8
    ensures { result ∷ [] ≡ bit_text bit }
{
    if bit { b'1' } else { b'0' }
}

/// Returns eight bits as digits.
pub(crate) fn digits(bits: &[bool; ACKS]) -> [u8; ACKS]
    ensures { result ≡ bits_text bits.now }
{
    let [a, b, c, d, e, f, g, h] = *bits;
    [
        digit_octet(a),
        digit_octet(b),
        digit_octet(c),
        digit_octet(d),
        digit_octet(e),
        digit_octet(f),
        digit_octet(g),
        digit_octet(h),
    ]
}

impl Held for Packet {
    ghost text = { packet_text };

    fn print<W: Output>(&self, writer: &mut W) -> Result<(), WriteFailed> {
        let kind = word_of(self.kind());
        let flow = self.flow();
        let (source, destination, link) = (flow.source, flow.destination, flow.link.0);
        let (number, place, last) = (self.number(), self.place(), bool_word(self.is_last()));
        let bits = self.bits();
        let count = bits.len();
        write!(writer, "{{\"kind\":\"{kind}\",\"from\":\"{source}\",")?;
        write!(writer, "\"to\":\"{destination}\",\"link\":{link},")?;
        write!(writer, "\"number\":{number},\"place\":{place},")?;
        write!(writer, "\"last\":{last},\"bits\":{count},\"octets\":")?;
        print_octets(bits, writer)?;
        writer.write_all(b"}")
    }
}

/// Returns the octet before a number at a place of an object.
fn octet_before(place: usize) -> u8
    ensures { result ∷ [] ≡ mark (codes "{") (codes ",") place }
{
    if place == 0 { b'{' } else { b',' }
}

/// Returns both digits of a number below 100.
fn two_digits(number: usize) -> (u8, u8)
    requires { number < 100 }
    ensures tens { result.0 ≡ 48 + number / 10 }
    ensures ones { result.1 ≡ 48 + number % 10 }
{
    (b'0' + (number / 10) as u8, b'0' + (number % 10) as u8)
}

/// Prints a number under the number of an IMP, after this many others. Those below 100, as nearly all are, are printed by one call.
fn print_number<W: Output>(
    place: usize,
    imp: usize,
    number: usize,
    writer: &mut W,
) -> Result<(), WriteFailed>
    requires { W.failed writer.old ≡ false }
    ensures written { OnOk result (Appends (W.contents writer.old) (W.contents writer.new) (number_behind place imp number true)) }
    ensures failed { TellsFailure result (W.failed writer.new) }
{
    if imp >= 100 || number >= 100 {
        let first = mark("{", ",", place);
        return write!(writer, "{first}\"{imp}\":{number}");
    }
    let first = octet_before(place);
    let (a, b) = two_digits(imp);
    let (c, d) = two_digits(number);
    if imp < 10 {
        if number < 10 {
            return writer.write_all(&[first, b'"', b, b'"', b':', d]);
        }
        return writer.write_all(&[first, b'"', b, b'"', b':', c, d]);
    }
    if number < 10 {
        return writer.write_all(&[first, b'"', a, b, b'"', b':', d]);
    }
    writer.write_all(&[first, b'"', a, b, b'"', b':', c, d])
}

/// Prints the distance to an IMP after this many others, and nothing where there is no way. Returns the place after it.
fn print_distance<W: Output>(
    place: usize,
    imp: usize,
    distance: u8,
    writer: &mut W,
) -> Result<usize, WriteFailed>
    requires { W.failed writer.old ≡ false }
    ensures written { OnOk result (Appends (W.contents writer.old) (W.contents writer.new) (distance_behind place imp distance)) }
    ensures place { IfOk result (λ next. next ≡ place_behind place (nat_lt distance infinite)) }
    ensures failed { TellsFailure result (W.failed writer.new) }
{
    if distance >= INFINITE {
        return Ok(place);
    }
    print_number(place, imp, distance as usize, writer)?;
    Ok(1)
}

/// Prints those of the distances to IMP 1, 2 and so on that are finite.
fn print_distances<W: Output>(distances: &[u8], writer: &mut W) -> Result<(), WriteFailed>
    requires { W.failed writer.old ≡ false }
    ensures written { OnOk result (Appends (W.contents writer.old) (W.contents writer.new) (distances_text distances.now)) }
    ensures failed { TellsFailure result (W.failed writer.new) }
{
    let mut place: usize = 0;
    for index in 0..distances.len() {
        place = print_distance(place, index + 1, distances[index], writer)?;
    }
    writer.write_all(mark("{}", "}", place).as_bytes())
}

/// Prints a vector's distances.
pub(crate) fn print_vector<W: Output>(vector: &Vector, writer: &mut W) -> Result<(), WriteFailed>
    requires { W.failed writer.old ≡ false }
    ensures written { OnOk result (Appends (W.contents writer.old) (W.contents writer.new) (distances_text vector.now)) }
    ensures failed { TellsFailure result (W.failed writer.new) }
{
    print_distances(vector.distances(), writer)
}

/// Prints what a frame has after its acknowledgement bits: the end of their string, its other members, and its end.
fn print_content<W: Output>(content: &Content, writer: &mut W) -> Result<(), WriteFailed>
    requires { W.failed writer.old ≡ false }
    ensures written { OnOk result (Appends (W.contents writer.old) (W.contents writer.new) (codes "\"" ++ further (codes "}") (content_members content.now))) }
    ensures failed { TellsFailure result (W.failed writer.new) }
{
    match content {
        Content::Packet(carried) => {
            let (channel, bit) = (carried.channel(), digit(carried.bit()));
            write!(writer, "\",\"channel\":{channel},\"bit\":{bit},\"packet\":")?;
            carried.packet().print(writer)?;
            writer.write_all(b"}")
        }
        Content::Nothing => writer.write_all(b"\"}"),
        Content::Routes(vector) => {
            writer.write_all(b"\",\"routes\":")?;
            print_vector(vector, writer)?;
            writer.write_all(b"}")
        }
    }
}

impl Held for Frame {
    ghost text = { frame_text };

    fn print<W: Output>(&self, writer: &mut W) -> Result<(), WriteFailed> {
        writer.write_all(b"{\"acks\":\"")?;
        writer.write_all(&digits(&self.acks))?;
        print_content(&self.content, writer)
    }
}

/// Prints the port to an IMP after this many others, and nothing where no way leads there. Returns the place after it.
fn print_next<W: Output>(
    place: usize,
    imp: u8,
    port: Option<usize>,
    writer: &mut W,
) -> Result<usize, WriteFailed>
    requires { W.failed writer.old ≡ false }
    ensures written { OnOk result (Appends (W.contents writer.old) (W.contents writer.new) (next_behind place imp port)) }
    ensures place { IfOk result (λ next. next ≡ place_after place port) }
    ensures failed { TellsFailure result (W.failed writer.new) }
{
    let Some(port) = port else {
        return Ok(place);
    };
    print_number(place, imp as usize, port, writer)?;
    Ok(1)
}

/// Prints the ports to IMP 1, 2 and so on, where ways lead there.
pub(crate) fn print_ports<W: Output>(routes: &RouteTable, writer: &mut W) -> Result<(), WriteFailed>
    requires { W.failed writer.old ≡ false }
    ensures written { OnOk result (Appends (W.contents writer.old) (W.contents writer.new) (next_text routes.now)) }
    ensures failed { TellsFailure result (W.failed writer.new) }
{
    let mut place: usize = 0;
    for index in 0..MOST_IMPS as u8 {
        let imp = index + 1;
        place = print_next(place, imp, routes.next(imp), writer)?;
    }
    writer.write_all(mark("{}", "}", place).as_bytes())
}
