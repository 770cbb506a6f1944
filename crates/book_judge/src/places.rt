//! A map from keys to places.

ghost use Rattle.std.specs.Prelude.{◌≡◌, OnOk};
ghost use Rattle.std.specs.FinMap as map;

use std::alloc::{AllocError, Global};
use std::collections::BTreeMap;
use std::marker::Model;

/// The last place of each key.
#[derive(Drop)]
pub(crate) struct Places {
    places: BTreeMap<u128, usize>,
}

impl Model for Places {
    ghost use Rattle.std.specs.Coded.{coded_ℕ};
    ghost use Rattle.std.specs.FinMap as map;
    ghost use Rattle.std.specs.Ordering.{nat_cmp};
    ghost use Rattle.std.specs.Prelude.{ℕ};

    ghost Value = { map.FinMap nat_cmp ℕ };

    ghost coded = { map.code coded_ℕ coded_ℕ };

    ghost view = { λ a. map.from_entries a.places.entries };
}

impl Places {
    /// Returns the map in which there is no key.
    pub(crate) fn new(alloc: Global) -> Places
        ensures { result ≡ map.empty }
    {
        Places {
            places: BTreeMap::new(alloc),
        }
    }

    /// Returns the place of a key.
    pub(crate) fn get(&self, key: u128) -> Option<usize>
        ensures { result ≡ map.get self.now key }
    {
        self.places.get(&key).copied()
    }

    /// Puts a key's place in the stead of the one before.
    ///
    /// Errors: `AllocError`, only for a key that had none.
    pub(crate) fn set(&mut self, key: u128, place: usize) -> Result<(), AllocError>
        ensures { OnOk result (self.new ≡ map.insert self.old key place) }
    {
        self.places.insert(key, place)?;
        Ok(())
    }
}
