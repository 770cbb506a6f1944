//! Values that have JSON texts, and lists of them.

ghost use Rattle.std.specs.Prelude.{◌≡◌, ◌<◌, ◌∷◌, [], IfOk, IsOk, List, Some, map, slice_index, ℕ};
ghost use Rattle.std.specs.Fmt.{HasWritten, IsPlainFormatter, WritesOnOk, decimal};
ghost use Rattle.hex.specs.Hex.{upper_digits};
ghost use Rattle.interface.specs.Host.{Host, same_host};
ghost use Rattle.trace.specs.Texts.{array, bool_text, object, quoted};
ghost use Rattle.world_trace.specs.Steps.{mark_after, marked};

use interface::HostAddr;
use replay::{Output, WriteFailed};
use std::fmt;
use std::fmt::Formatter;
use trace::json::Item;

/// What has a JSON text.
pub(crate) trait Json {
    /// Its text.
    ghost text: { Self → List ℕ };

    /// Shows its text.
    fn show<W: fmt::Write>(&self, f: &mut Formatter<W>) -> fmt::Result
        ensures { WritesOnOk W.write_str_gives f.old result (text self.now) f.new };
}

/// What is at a host, and has a JSON text.
pub(crate) trait Placed: Json {
    /// The host.
    ghost place: { Self → Host };

    /// Returns whether it is at this host.
    fn is_at(&self, host: &HostAddr) -> bool
        ensures { result ≡ same_host host.now (place self.now) };
}

impl Json for u8 {
    ghost text = { decimal };

    fn show<W: fmt::Write>(&self, f: &mut Formatter<W>) -> fmt::Result {
        write!(f, "{self}")
    }
}

/// Shows items with a mark before the first and a comma before each other one. Returns the mark for one more.
pub(crate) fn show_each<T: Json, W: fmt::Write>(
    mark: &'static str,
    items: &[T],
    f: &mut Formatter<W>,
) -> Result<&'static str, fmt::Error>
    ensures written { IsPlainFormatter f.old → IsOk result → HasWritten W.write_str_gives f.old (marked mark.now (map T.text items.now)) f.new }
    ensures next { IfOk result (λ next. next.now ≡ mark_after mark.now (map T.text items.now)) }
{
    let mut before = mark;
    for item in items {
        f.write_str(before)?;
        item.show(f)?;
        before = ",";
    }
    Ok(before)
}

/// An array of these items.
#[derive(Drop)]
pub(crate) struct Array<'a, T>(pub &'a [T]);

impl<T: Json> fmt::Display for Array<'_, T> {
    ghost output = { λ items. Some (array (map T.text items.0.now)) };

    fn fmt<W: fmt::Write>(&self, f: &mut Formatter<W>) -> fmt::Result {
        f.write_str("[")?;
        show_each("", self.0, f)?;
        f.write_str("]")
    }
}

/// What has a JSON text.
#[derive(Drop)]
pub(crate) struct Printed<'a, T>(pub &'a T);

impl<T: Json> fmt::Display for Printed<'_, T> {
    ghost output = { λ printed. Some (T.text printed.0.now) };

    fn fmt<W: fmt::Write>(&self, f: &mut Formatter<W>) -> fmt::Result {
        self.0.show(f)
    }
}

impl<T: Json> Item for Printed<'_, T> {
    ghost text = { λ printed. T.text printed.0.now };

    fn print<W: Output>(&self, writer: &mut W) -> Result<(), WriteFailed> {
        write!(writer, "{self}")
    }
}

/// An object of these members.
#[derive(Drop)]
pub(crate) struct Object<'a, T>(pub &'a [T]);

impl<T: Json> fmt::Display for Object<'_, T> {
    ghost output = { λ members. Some (object (map T.text members.0.now)) };

    fn fmt<W: fmt::Write>(&self, f: &mut Formatter<W>) -> fmt::Result {
        f.write_str("{")?;
        show_each("", self.0, f)?;
        f.write_str("}")
    }
}

/// A truth value.
#[derive(Drop)]
pub(crate) struct Flag(pub bool);

impl fmt::Display for Flag {
    ghost output = { λ flag. Some (bool_text flag.0) };

    fn fmt<W: fmt::Write>(&self, f: &mut Formatter<W>) -> fmt::Result {
        f.write_str(if self.0 { "true" } else { "false" })
    }
}

/// Octets in upper case hexadecimal, two digits each.
#[derive(Drop)]
struct Hex<'a>(&'a [u8]);

impl fmt::Display for Hex<'_> {
    ghost use Rattle.hex.specs.Hex.{encode_upper};

    ghost output = { λ hex. Some (encode_upper hex.0.now) };

    fn fmt<W: fmt::Write>(&self, f: &mut Formatter<W>) -> fmt::Result {
        for octet in self.0 {
            f.write_str(digit(*octet / 16))?;
            f.write_str(digit(*octet % 16))?;
        }
        Ok(())
    }
}

/// Returns a digit in upper case hexadecimal.
fn digit(number: u8) -> &'static str
    requires { number < 16 }
    ensures { result.now ≡ slice_index upper_digits number ∷ [] }
{
    match number {
        0 => "0",
        1 => "1",
        2 => "2",
        3 => "3",
        4 => "4",
        5 => "5",
        6 => "6",
        7 => "7",
        8 => "8",
        9 => "9",
        10 => "A",
        11 => "B",
        12 => "C",
        13 => "D",
        14 => "E",
        _ => "F",
    }
}

/// Octets as a string of their digits.
#[derive(Drop)]
pub(crate) struct HexString<'a>(pub &'a [u8]);

impl fmt::Display for HexString<'_> {
    ghost use Rattle.hex.specs.Hex.{encode_upper};

    ghost output = { λ hex. Some (quoted (encode_upper hex.0.now)) };

    fn fmt<W: fmt::Write>(&self, f: &mut Formatter<W>) -> fmt::Result {
        write!(f, "\"{}\"", Hex(self.0))
    }
}

impl Json for HostAddr {
    ghost use Rattle.world_trace.specs.MixedTraces.{stranger_text};

    ghost text = { stranger_text };

    fn show<W: fmt::Write>(&self, f: &mut Formatter<W>) -> fmt::Result {
        let name = Name(self);
        write!(f, "{name}")
    }
}

/// A host as a string.
#[derive(Drop)]
pub(crate) struct Name<'a>(pub &'a HostAddr);

impl fmt::Display for Name<'_> {
    ghost use Rattle.interface.specs.Printed.{host_text};

    ghost output = { λ name. Some (quoted (host_text name.0.now)) };

    fn fmt<W: fmt::Write>(&self, f: &mut Formatter<W>) -> fmt::Result {
        write!(f, "\"{}\"", self.0)
    }
}
