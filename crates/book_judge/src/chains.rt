//! The lives of each own request, from the last to the first.

ghost use Rattle.std.specs.Prelude.{◌≡◌, ◌<◌, IfOk, length, slice_get};
ghost use Rattle.book_judge.specs.Inside.Asked as asked;
ghost use Rattle.book_judge.specs.Inside.Chains as tests;
ghost use Rattle.book_judge.specs.Inside.Chains.{AreChained, IsLast};

use crate::names::Name;
use crate::places::Places;
use net_sim::Life;
use std::alloc::{AllocError, Global};

/// Returns the map from the key of each own request to its last life; and for each life the last one before it with its key.
///
/// Errors: `AllocError`.
pub(crate) fn chained(
    alloc: Global,
    lives: &[Life],
) -> Result<(Places, Vec<Option<usize>>), AllocError>
    ensures { IfOk result (λ chains. AreChained (length lives.now) chains.0 chains.1.items lives.now) }
{
    let mut last = Places::new(alloc);
    let mut before = Vec::new(alloc);
    for (place, life) in lives.iter().enumerate() {
        let key = Name::own_of(life).key();
        before.push(last.get(key))?;
        last.set(key, place)?;
    }
    Ok((last, before))
}
