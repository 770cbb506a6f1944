//! Printing an event of a world as a line of a script, within a string.

ghost use Rattle.std.specs.Prelude.{◌≡◌, ◌++◌, IfOk, OnOk, codes, false};
ghost use Rattle.std.specs.List.{flat_map};
ghost use Rattle.std.specs.Io.KnownBytes.{Appends};
ghost use Rattle.replay.specs.Failing.{TellsFailure};
ghost use Rattle.net_sim.specs.declared.event.Event.TheVariants as event;
ghost use Rattle.script.specs.Spelling.{message_text};
ghost use Rattle.sockets.specs.declared.request.Request.TheVariants as request;
ghost use Rattle.world_script.specs.WorldSpelling.{request_spelling};
ghost use Rattle.world_script.specs.declared.event.WorldEvent.TheVariants as world;
ghost use Rattle.world_trace.specs.Texts.{escaped, event_text, lines_octet, lines_text};

use bit_messages::Bits;
use interface::{HostAddr, HostMessage};
use net_sim::Event;
use replay::{Output, Printer, WriteFailed, print_bits, print_text};
use sockets::Request;
use std::alloc::{AllocError, Global};
use trace::print_net_event;

/// Prints octets of a string, with a backslash before quotation marks and backslashes.
fn print_escaped<W: Output>(octets: &[u8], writer: &mut W) -> Result<(), WriteFailed>
    requires { W.failed writer.old ≡ false }
    ensures written { OnOk result (Appends (W.contents writer.old) (W.contents writer.new) (escaped octets.now)) }
    ensures failed { TellsFailure result (W.failed writer.new) }
{
    for octet in octets {
        match octet {
            b'"' => writer.write_all(b"\\\"")?,
            b'\\' => writer.write_all(b"\\\\")?,
            octet => writer.write_all(&[*octet])?,
        }
    }
    Ok(())
}

/// Prints octets of lines as strings: where a line ends, one string ends and the next one begins.
fn print_between<W: Output>(octets: &[u8], writer: &mut W) -> Result<(), WriteFailed>
    requires { W.failed writer.old ≡ false }
    ensures written { OnOk result (Appends (W.contents writer.old) (W.contents writer.new) (flat_map lines_octet octets.now)) }
    ensures failed { TellsFailure result (W.failed writer.new) }
{
    for octet in octets {
        match octet {
            b'\n' => writer.write_all(b"\",\"")?,
            b'"' => writer.write_all(b"\\\"")?,
            b'\\' => writer.write_all(b"\\\\")?,
            octet => writer.write_all(&[*octet])?,
        }
    }
    Ok(())
}

/// Prints the lines of a text, each of which ends with a line feed, as an array of strings.
pub(crate) fn print_lines<W: Output>(text: &[u8], writer: &mut W) -> Result<(), WriteFailed>
    requires { W.failed writer.old ≡ false }
    ensures written { OnOk result (Appends (W.contents writer.old) (W.contents writer.new) (lines_text text.now)) }
    ensures failed { TellsFailure result (W.failed writer.new) }
{
    let count = text.len();
    if count == 0 {
        return writer.write_all(b"[]");
    }
    writer.write_all(b"[\"")?;
    print_between(&text[..count - 1], writer)?;
    writer.write_all(b"\"]")
}

/// Prints a request to send bits.
fn print_send<W: Output>(
    host: &HostAddr,
    socket: u32,
    bits: &Bits,
    writer: &mut W,
) -> Result<(), WriteFailed>
    requires { W.failed writer.old ≡ false }
    ensures written { OnOk result (Appends (W.contents writer.old) (W.contents writer.new) (request_spelling host.now (request.Send socket bits.now))) }
    ensures failed { TellsFailure result (W.failed writer.new) }
{
    let count = bits.len();
    write!(writer, "send {host} {socket} {count} ")?;
    print_bits(bits, writer)
}

/// Prints what the user of a host asks for.
fn print_request<W: Output>(
    host: &HostAddr,
    request: &Request,
    writer: &mut W,
) -> Result<(), WriteFailed>
    requires { W.failed writer.old ≡ false }
    ensures written { OnOk result (Appends (W.contents writer.old) (W.contents writer.new) (request_spelling host.now request.now)) }
    ensures failed { TellsFailure result (W.failed writer.new) }
{
    match request {
        Request::Contact { peer } => write!(writer, "contact {host} {peer}"),
        Request::Listen { socket, size } => write!(writer, "listen {host} {socket} {size}"),
        Request::OpenSend {
            peer,
            own,
            foreign,
            size,
        } => write!(writer, "opensend {host} {peer} {own} {foreign} {size}"),
        Request::OpenReceive { peer, own, foreign } => {
            write!(writer, "openrecv {host} {peer} {own} {foreign}")
        }
        Request::Send { socket, bits } => print_send(host, *socket, bits, writer),
        Request::Grant {
            socket,
            messages,
            bits,
        } => write!(writer, "grant {host} {socket} {messages} {bits}"),
        Request::AskBack {
            socket,
            messages,
            bits,
        } => write!(writer, "askback {host} {socket} {messages} {bits}"),
        Request::Interrupt { socket } => write!(writer, "interrupt {host} {socket}"),
        Request::Close { socket } => write!(writer, "close {host} {socket}"),
        Request::Echo { peer, octet } => write!(writer, "echo {host} {peer} {octet}"),
    }
}

/// Prints a line that is typed.
fn print_typed<W: Output>(host: &HostAddr, text: &[u8], writer: &mut W) -> Result<(), WriteFailed>
    requires { W.failed writer.old ≡ false }
    ensures written { OnOk result (Appends (W.contents writer.old) (W.contents writer.new) (event_text (world.Happen (event.Typed host.now text.now)))) }
    ensures failed { TellsFailure result (W.failed writer.new) }
{
    write!(writer, "type {host} ")?;
    print_escaped(text, writer)
}

/// Prints a message that a stranger sends.
fn print_out<W: Output>(message: &HostMessage, writer: &mut W) -> Result<(), WriteFailed>
    requires { W.failed writer.old ≡ false }
    ensures written { OnOk result (Appends (W.contents writer.old) (W.contents writer.new) (codes "out " ++ message_text message.now)) }
    ensures failed { TellsFailure result (W.failed writer.new) }
{
    let flow = &message.flow;
    let bits = message.text.bits().len();
    write!(writer, "out {flow} {bits} ")?;
    print_text(&message.text, writer)
}

/// Prints something that may happen in a world. A quiet round is an event of a calm, for which no script asks by
/// itself.
fn print_happening<W: Output>(event: &Event, writer: &mut W) -> Result<(), WriteFailed>
    requires { W.failed writer.old ≡ false }
    ensures written { OnOk result (Appends (W.contents writer.old) (W.contents writer.new) (event_text (world.Happen event.now))) }
    ensures failed { TellsFailure result (W.failed writer.new) }
{
    match event {
        Event::Net(event) => print_net_event(event, writer),
        Event::Quiet => writer.write_all(b"quiet"),
        Event::Offer(host) => write!(writer, "offer {host}"),
        Event::Take(host) => write!(writer, "take {host}"),
        Event::Ask(host, request) => print_request(host, request, writer),
        Event::Server { host, listen, base } => write!(writer, "server {host} {listen} {base}"),
        Event::User {
            host,
            peer,
            listen,
            own,
        } => write!(writer, "user {host} {peer} {listen} {own}"),
        Event::Typed { host, line } => print_typed(host, line.text(), writer),
        Event::Out(message) => print_out(message, writer),
    }
}

/// Returns an event as a line of a script, within a string.
pub(crate) fn spelled(alloc: Global, event: &Event) -> Result<Vec<u8>, AllocError>
    ensures { IfOk result (λ text. text.items ≡ event_text (world.Happen event.now)) }
{
    let mut printer = Printer::new(Vec::new(alloc));
    match print_happening(event, &mut printer) {
        Ok(()) => Ok(printer.into_inner()),
        Err(_) => Err(AllocError),
    }
}
