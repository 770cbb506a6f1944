//! Lists of things that have JSON texts.

ghost use Rattle.std.specs.Prelude.{◌≡◌, ◌<◌, ◌++◌, [], List, OnOk, codes, false, length, slice_index_or, ℕ};
ghost use Rattle.std.specs.Io.KnownBytes.{Appends};
ghost use Rattle.replay.specs.Failing.{TellsFailure};
ghost use Rattle.trace.specs.Joined.{mark};
ghost use Rattle.trace.specs.Texts.{array, bool_text, listed};

use replay::{Output, WriteFailed};

/// What has a JSON text.
pub trait Item {
    /// Its text.
    ghost text: { Self → List ℕ };

    /// Prints its text.
    fn print<W: Output>(&self, writer: &mut W) -> Result<(), WriteFailed>
        requires { W.failed writer.old ≡ false }
        ensures written { OnOk result (Appends (W.contents writer.old) (W.contents writer.new) (text self.now)) }
        ensures failed { TellsFailure result (W.failed writer.new) };
}

/// A list of things that have JSON texts.
pub trait Listed {
    /// Their texts.
    ghost texts: { Self → List (List ℕ) };

    /// Returns how many there are.
    fn count(&self) -> usize
        ensures { result ≡ length (texts self.now) };

    /// Prints the text of the one at a place.
    fn print_at<W: Output>(&self, place: usize, writer: &mut W) -> Result<(), WriteFailed>
        requires place { place < length (texts self.now) }
        requires whole { W.failed writer.old ≡ false }
        ensures written { OnOk result (Appends (W.contents writer.old) (W.contents writer.new) (slice_index_or (texts self.now) place [])) }
        ensures failed { TellsFailure result (W.failed writer.new) };
}

impl<T: Item> Listed for &[T] {
    ghost use Rattle.std.specs.Prelude.{map};

    ghost texts = { λ items. map T.text items.now };

    fn count(&self) -> usize {
        self.len()
    }

    fn print_at<W: Output>(&self, place: usize, writer: &mut W) -> Result<(), WriteFailed> {
        self[place].print(writer)
    }
}

/// Returns one mark at place 0, and another at any other place.
pub fn mark<'a>(first: &'a str, other: &'a str, place: usize) -> &'a str
    ensures { result.now ≡ mark first.now other.now place }
{
    if place == 0 { first } else { other }
}

/// Returns the word of a truth value.
pub fn bool_word(truth: bool) -> &'static str
    ensures { result.now ≡ bool_text truth }
{
    if truth { "true" } else { "false" }
}

/// Prints the items of a list that isn't empty, with commas between and the end.
fn print_some<L: Listed, W: Output>(list: &L, writer: &mut W) -> Result<(), WriteFailed>
    requires some { 0 < length (L.texts list.now) }
    requires whole { W.failed writer.old ≡ false }
    ensures written { OnOk result (Appends (W.contents writer.old) (W.contents writer.new) (codes "[" ++ listed (codes "]") (L.texts list.now))) }
    ensures failed { TellsFailure result (W.failed writer.new) }
{
    for place in 0..list.count() {
        writer.write_all(mark("[", ",", place).as_bytes())?;
        list.print_at(place, writer)?;
    }
    writer.write_all(b"]")
}

/// Prints an array of what has JSON texts.
///
/// Errors: `WriteFailed`.
pub fn print_array<L: Listed, W: Output>(list: &L, writer: &mut W) -> Result<(), WriteFailed>
    requires { W.failed writer.old ≡ false }
    ensures written { OnOk result (Appends (W.contents writer.old) (W.contents writer.new) (array (L.texts list.now))) }
    ensures failed { TellsFailure result (W.failed writer.new) }
{
    if list.count() == 0 {
        return writer.write_all(b"[]");
    }
    print_some(list, writer)
}
