//! Whether two texts are the same.

ghost use Rattle.std.specs.Prelude.{◌≡◌};
ghost use Rattle.book_judge.specs.Inside as tests;

use interface::Text;

/// Returns whether these are the same bits.
pub(crate) fn same_text(a: &Text, b: &Text) -> bool
    ensures { result ≡ tests.same_text a.now b.now }
{
    let (a, b) = (a.bits(), b.bits());
    a.len() == b.len() && a.as_octets() == b.as_octets()
}
