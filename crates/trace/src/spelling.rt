//! Printing an event as a line of a script.

ghost use Rattle.std.specs.Prelude.{◌≡◌, ◌++◌, OnOk, codes, false};
ghost use Rattle.std.specs.Fmt.{decimal};
ghost use Rattle.std.specs.Io.KnownBytes.{Appends};
ghost use Rattle.replay.specs.Failing.{TellsFailure};
ghost use Rattle.script.specs.Spelling.{direction_text, message_text, net_spelling, spelling};

use interface::{Direction, HostMessage, ImpNumber, NetEvent};
use replay::{Output, WriteFailed, print_text};
use script::RawEvent;

/// Returns the word of a direction.
fn word_of(direction: Direction) -> &'static str
    ensures { result.now ≡ direction_text direction }
{
    match direction {
        Direction::Forward => "+",
        Direction::Back => "-",
    }
}

/// Prints a message: its flow, how many bits its text has, and their octets.
fn print_message<W: Output>(message: &HostMessage, writer: &mut W) -> Result<(), WriteFailed>
    requires { W.failed writer.old ≡ false }
    ensures written { OnOk result (Appends (W.contents writer.old) (W.contents writer.new) (message_text message.now)) }
    ensures failed { TellsFailure result (W.failed writer.new) }
{
    let flow = &message.flow;
    let bits = message.text.bits().len();
    write!(writer, "{flow} {bits} ")?;
    print_text(&message.text, writer)
}

/// Prints a word and an IMP.
fn print_imp<W: Output>(word: &str, imp: ImpNumber, writer: &mut W) -> Result<(), WriteFailed>
    requires { W.failed writer.old ≡ false }
    ensures written { OnOk result (Appends (W.contents writer.old) (W.contents writer.new) (word.now ++ (codes " " ++ decimal imp))) }
    ensures failed { TellsFailure result (W.failed writer.new) }
{
    let imp = imp.number();
    write!(writer, "{word} {imp}")
}

/// Prints a word, an IMP and a line.
fn print_end<W: Output>(
    word: &str,
    imp: ImpNumber,
    line: u32,
    writer: &mut W,
) -> Result<(), WriteFailed>
    requires { W.failed writer.old ≡ false }
    ensures written { OnOk result (Appends (W.contents writer.old) (W.contents writer.new) (word.now ++ (codes " " ++ (decimal imp ++ (codes " " ++ decimal line))))) }
    ensures failed { TellsFailure result (W.failed writer.new) }
{
    let imp = imp.number();
    write!(writer, "{word} {imp} {line}")
}

/// Prints a word, a line, a direction of it, and the place of a frame there.
fn print_frame<W: Output>(
    word: &str,
    line: u32,
    direction: Direction,
    frame: u32,
    writer: &mut W,
) -> Result<(), WriteFailed>
    requires { W.failed writer.old ≡ false }
    ensures written { OnOk result (Appends (W.contents writer.old) (W.contents writer.new) (word.now ++ (codes " " ++ (decimal line ++ (codes " " ++ (direction_text direction ++ (codes " " ++ decimal frame))))))) }
    ensures failed { TellsFailure result (W.failed writer.new) }
{
    let way = word_of(direction);
    write!(writer, "{word} {line} {way} {frame}")
}

/// Prints an event inside a network as a line of a script, without its end.
///
/// Errors: `WriteFailed`.
pub fn print_net_event<W: Output>(event: &NetEvent, writer: &mut W) -> Result<(), WriteFailed>
    requires { W.failed writer.old ≡ false }
    ensures written { OnOk result (Appends (W.contents writer.old) (W.contents writer.new) (net_spelling event.now)) }
    ensures failed { TellsFailure result (W.failed writer.new) }
{
    match *event {
        NetEvent::Deliver {
            line,
            direction,
            frame,
        } => print_frame("deliver", line, direction, frame, writer),
        NetEvent::Drop {
            line,
            direction,
            frame,
        } => print_frame("drop", line, direction, frame, writer),
        NetEvent::Garble {
            line,
            direction,
            frame,
        } => print_frame("garble", line, direction, frame, writer),
        NetEvent::Resend(imp) => print_imp("resend", imp, writer),
        NetEvent::Route(imp) => print_imp("route", imp, writer),
        NetEvent::Claim(imp) => print_imp("claim", imp, writer),
        NetEvent::EndDown { imp, line } => print_end("enddown", imp, line, writer),
        NetEvent::EndUp { imp, line } => print_end("endup", imp, line, writer),
        NetEvent::ImpDown(imp) => print_imp("impdown", imp, writer),
        NetEvent::ImpUp(imp) => print_imp("impup", imp, writer),
        NetEvent::HostDown(host) => write!(writer, "hostdown {host}"),
        NetEvent::HostUp(host) => write!(writer, "hostup {host}"),
        NetEvent::GiveUp(flow) => write!(writer, "giveup {flow}"),
        NetEvent::Forget { at, from } => {
            let (at, from) = (at.number(), from.number());
            write!(writer, "forget {at} {from}")
        }
        NetEvent::Abandon(flow) => write!(writer, "abandon {flow}"),
        NetEvent::Ask(flow) => write!(writer, "ask {flow}"),
    }
}

/// Prints an event as a line of a script, without its end.
pub(crate) fn print_event<W: Output>(event: &RawEvent, writer: &mut W) -> Result<(), WriteFailed>
    requires { W.failed writer.old ≡ false }
    ensures written { OnOk result (Appends (W.contents writer.old) (W.contents writer.new) (spelling event.now)) }
    ensures failed { TellsFailure result (W.failed writer.new) }
{
    match event {
        RawEvent::Out(message) => {
            writer.write_all(b"out ")?;
            print_message(message, writer)
        }
        RawEvent::Take(host) => write!(writer, "take {host}"),
        RawEvent::Net(event) => print_net_event(event, writer),
        RawEvent::Calm(rounds) => write!(writer, "calm {rounds}"),
    }
}
