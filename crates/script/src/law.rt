//! What scripts promise, as laws over their definitions. The functions here do nothing: each clause is the law.

ghost use Rattle.std.specs.Prelude.{◌≡◌, ℕ, ◌<◌, List};
ghost use Rattle.script.specs.Input.{IsParted};
ghost use Rattle.script.specs.Script.{AskFor, lines_of};
ghost use Rattle.script.specs.Spelling.{IsTextWord, IsWordOfText};
ghost use Rattle.script.specs.declared.event.RawEvent.{RawEvent};

/// There is one reading: lines ask for one list of events, and an input has one topology and the lines of one
/// script.
pub fn one_reading()
    ensures events { (lines : List (List ℕ)) (events others : List RawEvent) → AskFor events lines → AskFor others lines → events ≡ others }
    ensures parts { (input topology script other more : List ℕ) → IsParted input topology script → IsParted input other more → (topology ≡ other) × (lines_of script ≡ lines_of more) }
{}

/// Which words spell a text of at least one bit: exactly those of upper case hexadecimal digits, two for each
/// octet that the bits take, whose unused bits are zero. So a reader of texts looks at these, and need not spell
/// a text again to compare.
pub fn texts()
    ensures words { (word : List ℕ) (count : ℕ) → 0 < count → IsTextWord word count → IsWordOfText word count }
    ensures only_these { (word : List ℕ) (count : ℕ) → 0 < count → IsWordOfText word count → IsTextWord word count }
{}
