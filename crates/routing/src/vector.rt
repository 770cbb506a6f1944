//! What an IMP announces to its neighbours: its distance to every IMP.

ghost use Rattle.std.specs.Prelude.{◌≡◌, ◌≤◌, ◌<◌, ◌↔◌, ℕ, min, slice_index_or, All, IsTrue, nat_le, true, Some, None, if◌then◌else◌};
ghost use Rattle.interface.specs.Host.{most_imps};
ghost use Rattle.std.specs.List.{list_all};
ghost use Rattle.routing.specs.Vector.{IsVector, is_vector, infinite};

use interface::MOST_IMPS;
use std::alloc::AllocError;
use std::marker::Model;

/// The distance of an IMP that no path leads to. Every other distance is below it.
pub const INFINITE: u8 = 63;

/// The distances of an IMP to IMP 1, IMP 2 and so on to the last: [`MOST_IMPS`] of them, each at most
/// [`INFINITE`].
#[derive(Debug, Drop, PartialEq, Eq)]
pub struct Vector {
    distances: [u8; MOST_IMPS],
}

impl Model for Vector {
    ghost use Rattle.std.specs.Prelude.{ℕ, List};
    ghost use Rattle.routing.specs.Vector.{IsVector};

    ghost Value = { List ℕ };

    ghost view = { λ v. v.distances };

    ghost invariant = { λ v. IsVector v.distances };

    ghost inverse = { λ distances. record { distances = distances } };
}

impl Clone for Vector {
    ghost use Rattle.std.specs.Prelude.{◌≡◌, ⊤};

    ghost is_clone = { λ vector copy. copy ≡ vector };

    ghost is_infallible = { λ _. ⊤ };

    /// Returns the same distances. This takes no memory.
    fn clone(&self) -> Result<Self, AllocError> {
        Ok(self.copy())
    }
}

impl Vector {
    /// Returns the vector with these distances, on the condition that none is above [`INFINITE`].
    pub fn new(distances: [u8; MOST_IMPS]) -> Self
        requires { All (λ d. d ≤ infinite) distances }
        ensures { result ≡ distances }
    {
        Vector { distances }
    }

    /// Returns the vector with these distances; `None` where they aren't [`MOST_IMPS`] numbers of at most [`INFINITE`].
    pub fn from_slice(distances: &[u8]) -> Option<Self>
        ensures { result ≡ (if is_vector distances.now then Some distances.now else None) }
    {
        if distances.len() != MOST_IMPS || !all_in_range(distances) {
            return None;
        }
        let mut copy = [0; MOST_IMPS];
        copy.copy_from_slice(distances);
        Some(Vector { distances: copy })
    }

    /// Returns a copy of the vector.
    pub(crate) fn copy(&self) -> Self
        ensures { result ≡ self.now }
    {
        Vector {
            distances: self.distances,
        }
    }

    /// Lowers each of these distances to the vector's own to the same IMP, where that is less.
    pub(crate) fn lower(&self, least: &mut [u8; MOST_IMPS])
        ensures a_vector { IsVector self.now }
        ensures lowered { (place : ℕ) → place < most_imps → slice_index_or least.new place 0 ≡ min (slice_index_or least.old place 0) (slice_index_or self.now place 0) }
    {
        for place in 0..MOST_IMPS {
            least[place] = least[place].min(self.distances[place]);
        }
    }

    /// Returns whether another vector has the same distances. It looks at all of them, with no early end, which is
    /// faster where vectors mostly are the same.
    pub fn is_same(&self, other: &Vector) -> bool
        ensures { (result ≡ true) ↔ (self.now ≡ other.now) }
    {
        are_same(&self.distances, &other.distances)
    }

    /// Returns the distances, that to IMP 1 first.
    pub fn distances(&self) -> &[u8]
        ensures value { result.now ≡ self.now }
        ensures a_vector { IsVector self.now }
        ensures tested { IsTrue (is_vector self.now) }
    {
        &self.distances
    }
}

/// Half of the places, which are an odd number.
const HALF: usize = MOST_IMPS / 2;

/// Returns whether these are the same numbers, place by place. Two halves that share the place in the middle are
/// compared side by side: as many octets as the processor takes at once then leave no rest.
fn are_same(these: &[u8; MOST_IMPS], those: &[u8; MOST_IMPS]) -> bool
    ensures { (result ≡ true) ↔ (these.now ≡ those.now) }
{
    let mut same = true;
    for place in 0..HALF + 1 {
        let first = these[place] == those[place];
        let second = these[place + HALF] == those[place + HALF];
        same = same & first & second;
    }
    same
}

/// Returns whether no distance is above the infinite one.
fn all_in_range(distances: &[u8]) -> bool
    ensures test { result ≡ list_all (λ d. nat_le d infinite) distances.now }
    ensures fact { IsTrue result ↔ All (λ d. d ≤ infinite) distances.now }
{
    distances.iter().all(|distance| *distance <= INFINITE)
}
