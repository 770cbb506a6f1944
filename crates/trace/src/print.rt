//! Printing the parts of plain mailboxes.

ghost use Rattle.std.specs.Prelude.{◌≡◌, OnOk, false, map};
ghost use Rattle.std.specs.Io.KnownBytes.{Appends};
ghost use Rattle.leader1822.specs.Boxes.{for_host};
ghost use Rattle.replay.specs.Failing.{TellsFailure};
ghost use Rattle.trace.specs.Joined.{comma_before};
ghost use Rattle.trace.specs.Texts.{answer_object, message_object, queues_text};

use crate::json::{Item, Listed, print_array};
use crate::values::print_answer;
use interface::HostAddr;
use leader1822::PlainBoxes;
use replay::{Output, WriteFailed};

/// Prints a comma before every item but the first.
pub(crate) fn print_comma<W: Output>(place: usize, writer: &mut W) -> Result<(), WriteFailed>
    requires { W.failed writer.old ≡ false }
    ensures written { OnOk result (Appends (W.contents writer.old) (W.contents writer.new) (comma_before place)) }
    ensures failed { TellsFailure result (W.failed writer.new) }
{
    if place == 0 {
        return Ok(());
    }
    writer.write_all(b",")
}

/// The messages that wait for a host.
#[derive(Drop)]
struct Messages<'a> {
    boxes: &'a PlainBoxes,
    host: &'a HostAddr,
}

impl Listed for Messages<'_> {
    ghost texts = { λ messages. map message_object (for_host messages.boxes.now.messages messages.host.now) };

    fn count(&self) -> usize {
        self.boxes.message_count(self.host)
    }

    fn print_at<W: Output>(&self, place: usize, writer: &mut W) -> Result<(), WriteFailed> {
        let Some(message) = self.boxes.message_at(self.host, place) else {
            unreachable!();
        };
        message.print(writer)
    }
}

/// The answers that wait for a host.
#[derive(Drop)]
struct Answers<'a> {
    boxes: &'a PlainBoxes,
    host: &'a HostAddr,
}

impl Listed for Answers<'_> {
    ghost texts = { λ answers. map answer_object (for_host answers.boxes.now.answers answers.host.now) };

    fn count(&self) -> usize {
        self.boxes.answer_count(self.host)
    }

    fn print_at<W: Output>(&self, place: usize, writer: &mut W) -> Result<(), WriteFailed> {
        let Some((kind, flow)) = self.boxes.answer_at(self.host, place) else {
            unreachable!();
        };
        print_answer(kind, &flow, writer)
    }
}

/// Prints what waits for a host.
pub(crate) fn print_waiting<W: Output>(
    boxes: &PlainBoxes,
    host: &HostAddr,
    writer: &mut W,
) -> Result<(), WriteFailed>
    requires { W.failed writer.old ≡ false }
    ensures written { OnOk result (Appends (W.contents writer.old) (W.contents writer.new) (queues_text (for_host boxes.now.messages host.now) (for_host boxes.now.answers host.now))) }
    ensures failed { TellsFailure result (W.failed writer.new) }
{
    writer.write_all(b"{\"messages\":")?;
    print_array(&Messages { boxes, host }, writer)?;
    writer.write_all(b",\"answers\":")?;
    print_array(&Answers { boxes, host }, writer)?;
    writer.write_all(b"}")
}
