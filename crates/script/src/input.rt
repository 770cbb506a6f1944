//! The two parts of an input, and the lines of a text.

ghost use Rattle.std.specs.Prelude.{◌≡◌, ◌≢◌, ◌≤◌, ◌++◌, ◌∷◌, [], length, codes, MatchOption, IfSome, IsTrue, ◌↔◌};
ghost use Rattle.std.specs.List.{All};
ghost use Rattle.script.specs.Script.{lines_of, lines_after};
ghost use Rattle.script.specs.Input.{IsParted};

use crate::word::cut;

/// The most octets that an input may have.
pub const MAX_INPUT: usize = 268_435_456;

/// Returns the topology and the script of an input: what precedes its first marker, the line that is exactly
/// `%`, and what follows that line. `None` where there is no marker.
pub fn split_input(input: &[u8]) -> Option<(&[u8], &[u8])>
    requires { length input.now ≤ MAX_INPUT }
    ensures short { IfSome result (λ parts. length parts.1.now ≤ length input.now) }
    ensures parted { MatchOption result (All (λ line. line ≢ codes "%") (lines_of input.now)) (λ parts. IsParted input.now parts.0.now parts.1.now) }
{
    let mut passed = 0;
    let mut rest = Some(input);
    'lines: while let Some(left) = rest {
        let (line, more) = first_line(left);
        if is_marker(line) {
            return Some((&input[..passed], text_behind(more)));
        }
        passed += line.len() + 1;
        rest = more;
    }
    None
}

/// Returns the text after a line. It is empty where there is no further line.
fn text_behind(more: Option<&[u8]>) -> &[u8]
    ensures { MatchOption more.entry (result.now ≡ []) (λ text. result.now ≡ text.now) }
{
    match more {
        Some(text) => text,
        None => &[],
    }
}

/// Returns whether a line is the marker between topology and script.
fn is_marker(line: &[u8]) -> bool
    ensures { IsTrue result ↔ (line.now ≡ codes "%") }
{
    line.len() == 1 && line[0] == b'%'
}

/// Returns the first line of a text, and the text after it where there is a further line.
pub fn first_line(text: &[u8]) -> (&[u8], Option<&[u8]>)
    ensures lines { lines_of text.now ≡ result.0.now ∷ lines_after result.1 }
    ensures whole { MatchOption result.1 (text.now ≡ result.0.now) (λ more. text.now ≡ result.0.now ++ 10 ∷ more.now) }
{
    match cut(text, b'\n') {
        Some((line, more)) => (line, Some(more)),
        None => (text, None),
    }
}
