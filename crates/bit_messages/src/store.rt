//! Octets and how many bits they keep. They lie in the value itself while they are few, and else in memory of their own.

ghost use Rattle.std.specs.Prelude.{◌≡◌, ℕ, ◌+◌, ◌<◌, ◌≤◌, ◌++◌, ◌∷◌, [], length, take, slice_set, IfOk, OnOk, OnErr};
ghost use Rattle.std.specs.Bool.{OnTrue, OnFalse};
ghost use Rattle.bit_messages.specs.Place.{stored_in};
ghost use Rattle.bit_messages.specs.Store.{stored, octets_for};

use std::alloc::{AllocError, Global};
use std::marker::Model;

/// How many bits lie in the value itself. The text of a control message with one command has at most 120, and so has
/// that of a message with ten octets of data.
const ROOM: usize = 240;

/// At most 30 octets, as many as their bits need.
#[derive(Debug, Drop)]
pub(crate) struct Few {
    all: [u8; 30],
    len: u8,
}

impl Model for Few {
    ghost use Rattle.std.specs.Prelude.{◌≡◌, ◌≤◌, length, take};
    ghost use Rattle.bit_messages.specs.Store.{Stored, stored, octets_for};

    ghost Value = { Stored };

    ghost view = { λ f. stored (take (octets_for f.len) f.all) f.len };

    ghost invariant = { λ f. (f.len ≤ 240) × (length f.all ≡ 30) };
}

/// Puts octets into others from a place on.
fn put_at(all: &mut [u8], start: usize, more: &[u8])
    requires room { start + length more.now ≤ length all.old }
    ensures size { length all.new ≡ length all.old }
    ensures written { take (start + length more.now) all.new ≡ take start all.old ++ more.now }
{
    let end = start + more.len();
    all[start..end].copy_from_slice(more);
}

impl Few {
    /// Returns no octets.
    fn new() -> Few
        ensures { result ≡ stored [] 0 }
    {
        Few {
            all: [0; ROOM / 8],
            len: 0,
        }
    }

    /// Returns the same octets.
    fn copy(&self) -> Few
        ensures { result ≡ self.now }
    {
        Few {
            all: self.all,
            len: self.len,
        }
    }

    /// Returns the octets.
    fn as_slice(&self) -> &[u8]
        ensures { result.now ≡ self.now.octets }
    {
        &self.all[..(self.len as usize).div_ceil(8)]
    }

    /// Puts octets after the others, which then keep `len` bits, or changes nothing if there is no room.
    fn append(&mut self, more: &[u8], len: usize) -> bool
        requires { octets_for len ≡ length self.old.octets + length more.now }
        ensures done { OnTrue result (self.new ≡ stored (self.old.octets ++ more.now) len) }
        ensures kept { OnFalse result (self.new ≡ self.old) }
        ensures full { OnFalse result (240 < len) }
    {
        if len > ROOM {
            return false;
        }
        let start = (self.len as usize).div_ceil(8);
        put_at(&mut self.all, start, more);
        self.len = len as u8;
        true
    }

    /// Changes the octet at a place.
    fn set(&mut self, at: usize, octet: u8)
        requires { at < length self.old.octets }
        ensures { self.new ≡ stored (slice_set self.old.octets at octet) self.old.len }
    {
        self.all[at] = octet;
    }
}

/// Where octets lie.
#[derive(Debug, Drop)]
pub(crate) enum Place {
    /// In the value itself.
    Within(Few),
    /// In memory of their own, with the number of their bits.
    Apart(u32, Vec<u8>),
}

/// Octets and how many bits they keep.
#[derive(Debug, Drop)]
pub(crate) struct Octets {
    place: Place,
    alloc: Global,
}

impl Model for Octets {
    ghost use Rattle.bit_messages.specs.Place.{stored_in};
    ghost use Rattle.bit_messages.specs.Store.{Stored};

    ghost Value = { Stored };

    ghost view = { λ o. stored_in o.place };
}

/// Returns octets with others after them, in memory of their own.
pub(crate) fn joined(alloc: Global, octets: &[u8], more: &[u8]) -> Result<Vec<u8>, AllocError>
    ensures joined { IfOk result (λ all. all.items ≡ octets.now ++ more.now) }
    ensures memory { OnErr result (0 < length octets.now + length more.now) }
{
    let mut all = Vec::new(alloc);
    all.reserve_exact(octets.len().saturating_add(more.len()))?;
    all.extend_from_slice(octets)?;
    all.extend_from_slice(more)?;
    Ok(all)
}

/// Returns a number of bits, if memory of their own can keep that many.
fn len_apart(len: usize) -> Result<u32, AllocError>
    ensures { IfOk result (λ short. short ≡ len) }
{
    if len > u32::MAX as usize {
        return Err(AllocError);
    }
    Ok(len as u32)
}

impl Place {
    /// Returns the octets.
    fn as_slice(&self) -> &[u8]
        ensures { result.now ≡ (stored_in self.now).octets }
    {
        match self {
            Place::Within(few) => few.as_slice(),
            Place::Apart(_, octets) => octets.as_slice(),
        }
    }

    /// Puts octets after the others if they lie in the value itself and have room there; else changes nothing.
    fn append_within(&mut self, more: &[u8], len: usize) -> bool
        requires { octets_for len ≡ length (stored_in self.old).octets + length more.now }
        ensures done { OnTrue result (stored_in self.new ≡ stored ((stored_in self.old).octets ++ more.now) len) }
        ensures kept { OnFalse result (self.new ≡ self.old) }
    {
        match self {
            Place::Within(few) => few.append(more, len),
            Place::Apart(_, _) => false,
        }
    }

    /// Puts octets after the others, in memory of their own.
    fn append_apart(&mut self, alloc: Global, more: &[u8], len: usize) -> Result<(), AllocError>
        ensures done { OnOk result (stored_in self.new ≡ stored ((stored_in self.old).octets ++ more.now) len) }
        ensures kept { OnErr result (stored_in self.new ≡ stored_in self.old) }
    {
        let short = len_apart(len)?;
        if let Place::Apart(kept, octets) = self {
            octets.extend_from_slice(more)?;
            *kept = short;
            return Ok(());
        }
        let octets = joined(alloc, self.as_slice(), more)?;
        *self = Place::Apart(short, octets);
        Ok(())
    }

    /// Changes the octet at a place.
    fn set(&mut self, at: usize, octet: u8)
        requires { at < length (stored_in self.old).octets }
        ensures { stored_in self.new ≡ stored (slice_set (stored_in self.old).octets at octet) (stored_in self.old).len }
    {
        match self {
            Place::Within(few) => few.set(at, octet),
            Place::Apart(_, octets) => octets[at] = octet,
        }
    }
}

impl Octets {
    /// Returns no octets.
    pub(crate) fn new(alloc: Global) -> Octets
        ensures { result ≡ stored [] 0 }
    {
        Octets {
            place: Place::Within(Few::new()),
            alloc,
        }
    }

    /// Returns these octets, which keep `len` bits.
    pub(crate) fn from_slice(alloc: Global, octets: &[u8], len: usize) -> Result<Octets, AllocError>
        requires { octets_for len ≡ length octets.now }
        ensures octets { IfOk result (λ copy. copy.octets ≡ octets.now) }
        ensures len { IfOk result (λ copy. copy.len ≡ len) }
        ensures memory { OnErr result (0 < len) }
    {
        let mut few = Few::new();
        if few.append(octets, len) {
            return Ok(Octets {
                place: Place::Within(few),
                alloc,
            });
        }
        Ok(Octets {
            place: Place::Apart(len_apart(len)?, joined(alloc, octets, &[])?),
            alloc,
        })
    }

    /// Returns a copy.
    pub(crate) fn copied(&self, alloc: Global) -> Result<Octets, AllocError>
        ensures same { IfOk result (λ copy. copy ≡ self.now) }
        ensures memory { OnErr result (0 < length self.now.octets) }
    {
        match &self.place {
            Place::Within(few) => Ok(Octets {
                place: Place::Within(few.copy()),
                alloc,
            }),
            Place::Apart(len, octets) => Ok(Octets {
                place: Place::Apart(*len, joined(alloc, octets, &[])?),
                alloc,
            }),
        }
    }

    /// Returns the octets, lent.
    pub(crate) fn as_slice(&self) -> &[u8]
        ensures { result.now ≡ self.now.octets }
    {
        self.place.as_slice()
    }

    /// Returns how many bits they keep.
    pub(crate) fn len(&self) -> usize
        ensures { result ≡ self.now.len }
    {
        match &self.place {
            Place::Within(few) => few.len as usize,
            Place::Apart(len, _) => *len as usize,
        }
    }

    /// Puts octets after the others, which then keep `len` bits, or changes nothing if memory runs out.
    pub(crate) fn append(&mut self, more: &[u8], len: usize) -> Result<(), AllocError>
        requires { octets_for len ≡ length self.old.octets + length more.now }
        ensures octets { OnOk result (self.new.octets ≡ self.old.octets ++ more.now) }
        ensures len { OnOk result (self.new.len ≡ len) }
        ensures kept { OnErr result (self.new ≡ self.old) }
    {
        if self.place.append_within(more, len) {
            return Ok(());
        }
        self.place.append_apart(self.alloc, more, len)
    }

    /// Changes the octet at a place.
    pub(crate) fn set(&mut self, at: usize, octet: u8)
        requires { at < length self.old.octets }
        ensures octets { self.new.octets ≡ slice_set self.old.octets at octet }
        ensures len { self.new.len ≡ self.old.len }
    {
        self.place.set(at, octet);
    }

    /// Returns what gives memory to them.
    pub(crate) fn alloc(&self) -> Global {
        self.alloc
    }
}
