//! Where the lives that haven't ended are: by host, and by host and socket.

ghost use Rattle.std.specs.Prelude.{◌≡◌, ◌<◌, ◌++◌, ℕ, false, List, [], ◌∷◌, filter, length, slice_index_or, OnErr, OnOk};
ghost use Rattle.net_sim.specs.Inside.Open.{AreKnown, Covers, Enters, Extends, host_key, places_at, places_by, places_of, socket_key};
ghost use Rattle.net_sim.specs.Inside.Places.{is_open_at};
ghost use Rattle.promise.specs.declared.life.Life.{Life};

use crate::life::{Ending, Turn};
use interface::HostAddr;
use promise::Life;
use std::alloc::{AllocError, Global};
use std::marker::Model;

/// How many lists the sockets of all hosts share.
const SOCKET_LISTS: usize = 1024;

/// Lists of places, by a number.
///
/// Each list has, in order, at least the places of the lives with its number that haven't ended. Places of ended lives may stay in it
/// until it has to grow.
#[derive(Drop)]
struct Table {
    lists: Vec<Vec<usize>>,
    alloc: Global,
}

impl Model for Table {
    ghost use Rattle.std.specs.Prelude.{ℕ, List, map};

    ghost Value = { List (List ℕ) };

    ghost view = { λ t. map (λ list. list.items) t.lists.items };
}

/// Returns whether there is an open life at this place.
fn is_open(lives: &[Life], at: usize) -> bool
    ensures { result ≡ is_open_at lives.now at }
{
    let Some(life) = lives.get(at) else {
        return false;
    };
    !life.ended
}

/// Forgets the places of lives that have ended.
fn forget_ended(list: &mut Vec<usize>, lives: &[Life])
    ensures { list.new.items ≡ filter (is_open_at lives.now) list.old.items }
{
    list.retain(|at| is_open(lives, *at));
}

/// Keeps the places of lives that haven't ended, and puts one more at the end. Room is reserved for as many again.
fn put_behind_open(list: &mut Vec<usize>, lives: &[Life], at: usize) -> Result<(), AllocError>
    ensures { OnOk result (list.new.items ≡ filter (is_open_at lives.now) list.old.items ++ at ∷ []) }
{
    forget_ended(list, lives);
    list.reserve(list.len())?;
    list.push(at)?;
    Ok(())
}

/// Adds a place at the end. Where the list would have to grow, the places of lives that have ended go first.
fn put(list: &mut Vec<usize>, lives: &[Life], at: usize) -> Result<(), AllocError>
    ensures { OnOk result (Extends lives.now at list.old.items list.new.items) }
{
    if list.len() == list.capacity() {
        return put_behind_open(list, lives, at);
    }
    list.push(at)?;
    Ok(())
}

impl Table {
    /// Returns no places.
    fn new(alloc: Global) -> Table
        ensures { result ≡ [] }
    {
        Table {
            lists: Vec::new(alloc),
            alloc,
        }
    }

    /// Returns the places with this number.
    fn at(&self, key: usize) -> &[usize]
        ensures { result.now ≡ slice_index_or self.now key [] }
    {
        match self.lists.get(key) {
            Some(list) => list,
            None => &[],
        }
    }

    /// Makes empty lists until there is one with this number.
    fn widen(&mut self, key: usize) -> Result<(), AllocError>
        ensures there { OnOk result (key < length self.new) }
        ensures same { (k : ℕ) → slice_index_or self.new k [] ≡ slice_index_or self.old k [] }
    {
        'more: while self.lists.len() <= key {
            self.lists.push(Vec::new(self.alloc))?;
        }
        Ok(())
    }

    /// Adds the place after these lives to those with this number.
    fn add(&mut self, key: usize, lives: &[Life]) -> Result<(), AllocError>
        ensures here { OnOk result (Extends lives.now (length lives.now) (slice_index_or self.old key []) (slice_index_or self.new key [])) }
        ensures others { OnOk result ((k : ℕ) → (k ≡ key → ⊥) → slice_index_or self.new k [] ≡ slice_index_or self.old k []) }
    {
        self.widen(key)?;
        put(&mut self.lists[key], lives, lives.len())
    }
}

/// Returns the number of a host's list.
fn host_number(host: HostAddr) -> usize
    ensures { result ≡ host_key host }
{
    usize::from(host.octet())
}

/// Returns the number of the list of a host's socket. Others may share it.
fn socket_number(host: HostAddr, socket: u32) -> usize
    ensures { result ≡ socket_key host socket }
{
    (usize::from(host.octet()) * 61 + (socket / 2) as usize) % SOCKET_LISTS
}

/// The places of the lives that haven't ended, by host and by socket, so far as they are known.
#[derive(Drop)]
pub(crate) struct Open {
    hosts: Table,
    sockets: Table,
    known: bool,
}

impl Open {
    /// Returns those of no lives.
    pub(crate) fn new(alloc: Global) -> Open
        ensures { (result.hosts ≡ []) × (result.sockets ≡ []) }
    {
        Open {
            hosts: Table::new(alloc),
            sockets: Table::new(alloc),
            known: true,
        }
    }

    /// Returns where to look for the life of a host's socket.
    pub(crate) fn at(&self, host: HostAddr, socket: u32) -> &[usize]
        ensures { result.now ≡ places_at host socket self.now.sockets }
    {
        self.sockets.at(socket_number(host, socket))
    }

    /// Returns where to look for the lives that end.
    pub(crate) fn of(&self, ending: &Ending) -> &[usize]
        ensures { result.now ≡ places_of ending.now self.now.hosts self.now.sockets }
    {
        match ending {
            Ending::Between { host, socket, .. } => self.at(*host, *socket),
            Ending::With { host, .. } | Ending::On { host } => { self.hosts.at(host_number(*host)) }
        }
    }

    /// Returns where to look for the lives whose fate changes.
    pub(crate) fn by(&self, turn: &Turn) -> &[usize]
        ensures { result.now ≡ places_by turn.now self.now.hosts self.now.sockets }
    {
        match turn {
            Turn::Closes { host, socket } | Turn::Over { host, socket, .. } => {
                self.at(*host, *socket)
            }
            Turn::Resets { host, .. } | Turn::Stops { host } => self.hosts.at(host_number(*host)),
        }
    }

    /// Adds a life of a host's socket, after these.
    fn add(&mut self, host: HostAddr, socket: u32, lives: &[Life]) -> Result<(), AllocError>
        ensures done { OnOk result (Enters host socket lives.now (Covers self.old.hosts self.old.sockets) (Covers self.new.hosts self.new.sockets)) }
        ensures known { self.new.known ≡ self.old.known }
    {
        self.hosts.add(host_number(host), lives)?;
        self.sockets.add(socket_number(host, socket), lives)?;
        Ok(())
    }

    /// Adds a life of a host's socket, after these. Without memory for its place no places are known any more.
    pub(crate) fn enter(
        &mut self,
        host: HostAddr,
        socket: u32,
        lives: &[Life],
    ) -> Result<(), AllocError>
        ensures done { OnOk result (Enters host socket lives.now (AreKnown self.old.known self.old.hosts self.old.sockets) (AreKnown self.new.known self.new.hosts self.new.sockets)) }
        ensures lost { OnErr result (self.new.known ≡ false) }
    {
        if !self.known {
            return Ok(());
        }
        let added = self.add(host, socket, lives);
        self.known = added.is_ok();
        added
    }

    /// Forgets all places.
    pub(crate) fn forget(&mut self)
        ensures { self.new.known ≡ false }
    {
        self.known = false;
    }

    /// Makes the places of these lives known. They are learnt anew where they had been forgotten.
    pub(crate) fn know(&mut self, alloc: Global, lives: &[Life]) -> Result<(), AllocError>
        requires { AreKnown self.old.known self.old.hosts self.old.sockets lives.now }
        ensures known { OnOk result (Covers self.new.hosts self.new.sockets lives.now) }
        ensures kept { AreKnown self.new.known self.new.hosts self.new.sockets lives.now }
    {
        if self.known {
            return Ok(());
        }
        self.hosts = Table::new(alloc);
        self.sockets = Table::new(alloc);
        for at in 0..lives.len() {
            self.add(lives[at].host, lives[at].socket, &lives[..at])?;
        }
        self.known = true;
        Ok(())
    }
}
