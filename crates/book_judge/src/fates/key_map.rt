//! A map from what requests and CLS are found by.

ghost use Rattle.std.specs.Prelude.{◌≡◌, OnOk};
ghost use Rattle.std.specs.FinMap as map;

use interface::HostAddr;
use std::alloc::{AllocError, Global};
use std::collections::BTreeMap;
use std::marker::Model;

/// What a command is found by that a host sends to a peer, or takes from it: its two sockets, its sender's own and the
/// foreign one, and a place.
#[derive(Clone, Copy, PartialEq, Eq, PartialOrd, Ord)]
pub(super) struct Key {
    pub place: usize,
    pub host: HostAddr,
    pub peer: HostAddr,
    pub comes: bool,
    pub own: u32,
    pub foreign: u32,
}

/// A value for each key of which something is known.
#[derive(Drop)]
pub(super) struct KeyMap<V> {
    keys: BTreeMap<Key, V>,
}

impl<V> Model for KeyMap<V> {
    ghost use Rattle.std.specs.FinMap as map;
    ghost use Rattle.book_judge.specs.Inside.Keys.{coded_key, key_cmp};

    ghost Value = { map.FinMap key_cmp V };

    ghost coded = { map.code coded_key V.code };

    ghost view = { λ a. map.from_entries a.keys.entries };
}

impl<V: Copy> KeyMap<V> {
    /// Returns the map in which there is no key.
    pub(super) fn new(alloc: Global) -> KeyMap<V>
        ensures { result ≡ map.empty }
    {
        KeyMap {
            keys: BTreeMap::new(alloc),
        }
    }

    /// Returns what is known of a key.
    pub(super) fn get(&self, key: &Key) -> Option<V>
        ensures { result ≡ map.get self.now key.now }
    {
        self.keys.get(key).copied()
    }

    /// Puts a key's value in the place of what was known of it.
    ///
    /// Errors: `AllocError`, only for a key of which nothing was known.
    pub(super) fn set(&mut self, key: Key, value: V) -> Result<(), AllocError>
        ensures { OnOk result (self.new ≡ map.insert self.old key value) }
    {
        self.keys.insert(key, value)?;
        Ok(())
    }
}
