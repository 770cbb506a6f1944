//! Whether contacts have reset the lives of hosts with peers, and where those are over, and the others.

ghost use Rattle.std.specs.Prelude.{◌≡◌, OnOk};
ghost use Rattle.book_judge.specs.Inside.Contacts as tests;

use super::begins::key;
use super::key_map::{Key, KeyMap};
use net_sim::Life;
use std::alloc::AllocError;

/// What is said of a life that has begun, and that nothing that crossed has reset.
#[derive(Clone, Copy, Drop)]
pub(super) struct Said {
    /// Whether a contact has.
    pub reset: bool,
    /// Where its connections are cut, or would be if nobody closed it.
    pub cut: usize,
    /// Where it is over.
    pub end: usize,
}

/// Returns what the ends are found by of lives whose connections are cut at a place: of those that a contact has reset,
/// or of the others.
fn ends_key(life: &Life, reset: bool, cut: usize) -> Key
    ensures { result ≡ tests.ends_key life.now reset cut }
{
    key(cut, life.host, life.peer, reset, 0, 0)
}

/// Returns the end that is kept: the first of lives that a contact has reset, and the last of the others.
fn kept_end(reset: bool, known: Option<usize>, end: usize) -> usize
    ensures { result ≡ tests.kept_end reset known end }
{
    let Some(known) = known else {
        return end;
    };
    let is_kept = if reset { end < known } else { known < end };
    if is_kept { end } else { known }
}

/// Returns whether a life is over after all others of which none is `reset`, where a contact has reset it, or else
/// before all that one has. Of these the last end is known, or the first.
fn is_apart(reset: bool, known: Option<usize>, end: usize) -> bool
    ensures { result ≡ tests.is_apart reset known end }
{
    match known {
        Some(known) if reset => known < end,
        Some(known) => end < known,
        None => true,
    }
}

/// Returns whether what is said of a life agrees with what is known of the others.
pub(super) fn agrees(ends: &KeyMap<usize>, life: &Life, said: Option<Said>) -> bool
    ensures { result ≡ tests.agrees ends.now life.now said }
{
    let Some(said) = said else {
        return true;
    };
    let Said { reset, cut, end } = said;
    is_apart(reset, ends.get(&ends_key(life, !reset, cut)), end)
}

/// Keeps what is said of a life.
///
/// Errors: `AllocError`.
pub(super) fn note(
    ends: &mut KeyMap<usize>,
    life: &Life,
    said: Option<Said>,
) -> Result<(), AllocError>
    ensures { OnOk result (ends.new ≡ tests.noted life.now said ends.old) }
{
    let Some(said) = said else {
        return Ok(());
    };
    let Said { reset, cut, end } = said;
    let key = ends_key(life, reset, cut);
    let kept = kept_end(reset, ends.get(&key), end);
    ends.set(key, kept)
}
