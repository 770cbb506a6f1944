//! What an IMP knows of routes.

ghost use Rattle.std.specs.Prelude.{◌≡◌, ◌≢◌, ◌+◌, ◌<◌, ◌≤◌, ◌==◌, ℕ, min, if◌then◌else◌, IfOk, IfSome, OnErr, length, position, ◌↔◌, true, ◌-◌, All, Some, map, [], slice_index_or, false};
ghost use Rattle.routing.specs.RouteTable.{opening_table, hears, loses, distance_in, heard_distance, least_heard, distance_to, vector_of, claiming, next_of};
ghost use Rattle.interface.specs.Host.{most_imps};
ghost use Rattle.routing.specs.Vector.{infinite, IsVector};
ghost use Rattle.routing.specs.Inside.{IsKept};
ghost use Rattle.routing.specs.Settle.{IsImp, after_round, neighbours, other_end};

use crate::vector::{INFINITE, Vector};
use interface::MOST_IMPS;
use std::alloc::{AllocError, Global};
use std::marker::Model;

/// The route table of one IMP: its own number, and for each port the distances last heard there (Heart et
/// al., "Routing algorithm"). Contracts see it as a `Table`.
///
/// It keeps the distances that follow from what was heard, since they are asked for far more often than
/// something else is heard.
#[derive(Debug, Drop)]
pub struct RouteTable {
    own: u8,
    heard: Vec<Option<Vector>>,
    told: Vector,
    claims: bool,
    claim: Vector,
}

impl Model for RouteTable {
    ghost use Rattle.std.specs.Prelude.{◌≡◌, false};
    ghost use Rattle.routing.specs.Inside.{IsKept};
    ghost use Rattle.routing.specs.RouteTable.{Table, nearest};

    ghost Value = { Table };

    ghost view = { λ t. record { own = t.own; heard = t.heard.items; claims = t.claims } };

    ghost invariant = { λ t. IsKept (record { own = t.own; heard = t.heard.items; claims = false }) t.told × (t.claim ≡ nearest) };
}

impl RouteTable {
    /// Returns the table of an IMP with this number and this many ports. Nothing was heard on any port.
    ///
    /// Errors: memory runs out, which can happen only if there are ports.
    #[tactic(auto, unfolding(crate::specs::RouteTable::nearest))]
    pub fn new(alloc: Global, own: u8, ports: u8) -> Result<Self, AllocError>
        ensures opening { IfOk result (λ table. table ≡ opening_table own ports) }
        ensures memory { OnErr result (0 < ports) }
    {
        let mut heard = Vec::new(alloc);
        for _ in 0..ports {
            heard.push(None)?;
        }
        let told = told_by(own, &heard);
        let claim = Vector::new([0; MOST_IMPS]);
        Ok(RouteTable {
            own,
            heard,
            told,
            claims: false,
            claim,
        })
    }

    /// Notes the distances that came on a port, in place of those that were heard there before.
    pub fn hear(&mut self, port: u8, distances: Vector)
        requires { port < length self.old.heard }
        ensures { self.new ≡ hears self.old port distances }
    {
        if is_heard(&self.heard[port as usize], &distances) {
            return;
        }
        self.heard[port as usize] = Some(distances);
        self.told = told_by(self.own, &self.heard);
    }

    /// Forgets what was heard on a port, since its line was lost.
    pub fn lost(&mut self, port: u8)
        requires { port < length self.old.heard }
        ensures { self.new ≡ loses self.old port }
    {
        self.heard[port as usize] = None;
        self.told = told_by(self.own, &self.heard);
    }

    /// Claims from now on that every IMP is at distance 0.
    pub fn claim(&mut self)
        ensures { self.new ≡ claiming self.old }
    {
        self.claims = true;
    }

    /// Returns whether the IMP claims that.
    pub fn claims(&self) -> bool
        ensures { result ≡ self.now.claims }
    {
        self.claims
    }

    /// Returns what the IMP announces, its distances: 0 to itself, and to any other IMP the least that was heard plus
    /// one, at most [`INFINITE`]; or 0 to every IMP, where it claims that. This takes no memory.
    pub fn vector(&self) -> Vector
        ensures { result ≡ vector_of self.now }
    {
        self.distances().copy()
    }

    /// Returns what the IMP announces as [`vector`](Self::vector) gives it, without a copy.
    #[tactic(auto, unfolding(crate::specs::RouteTable::vector_of))]
    pub fn distances(&self) -> &Vector
        ensures { result.now ≡ vector_of self.now }
    {
        if self.claims {
            return &self.claim;
        }
        &self.told
    }

    /// Returns the IMP's own number.
    pub fn own(&self) -> u8
        ensures { result ≡ self.now.own }
    {
        self.own
    }

    /// Returns the distances last heard on each port, in the order of the ports; `None` where nothing was heard since
    /// the line came up.
    pub fn heard(&self) -> &[Option<Vector>]
        ensures { result.now ≡ self.now.heard }
    {
        &self.heard
    }

    /// Returns the lowest port whose neighbour attains the IMP's distance to another IMP. `None` for the IMP itself,
    /// and for an IMP at the infinite distance, such as one that there can't be. This takes no memory.
    #[tactic(auto, unfolding(crate::specs::RouteTable::next_of))]
    pub fn next(&self, imp: u8) -> Option<usize>
        ensures next { result ≡ next_of self.now imp }
        ensures within { IfSome result (λ port. (port < length self.now.heard) × (imp ≤ most_imps)) }
    {
        let distance = self.distance_to(imp);
        if imp == self.own || distance == INFINITE {
            return None;
        }
        first_port(&self.heard, imp, distance)
    }

    /// Hears on each port what the neighbour there announced.
    pub(crate) fn hear_neighbours(&mut self, graph: &[(u8, u8)], told: &[Vector])
        requires ports { length self.old.heard ≡ length (neighbours graph.now self.old.own) }
        requires named { All (λ line. IsImp (length told.now) line.0 × IsImp (length told.now) line.1) graph.now }
        ensures { self.new ≡ after_round graph.now told.now self.old }
    {
        hear_lines(self.own, graph, told, &mut self.heard);
        self.told = told_by(self.own, &self.heard);
    }

    /// Returns the distance to one IMP.
    fn distance_to(&self, imp: u8) -> u8
        ensures value { result ≡ distance_to self.now imp }
        ensures most { result ≤ infinite }
        ensures no_imp { most_imps < imp → imp ≢ self.now.own → result ≡ infinite }
    {
        if imp == self.own {
            0
        } else {
            distance_in(self.told.distances(), imp)
        }
    }
}

/// Returns the distances of an IMP whose ports have heard this.
fn told_by(own: u8, ports: &[Option<Vector>]) -> Vector
    ensures { IsKept (record { own = own; heard = ports.now; claims = false }) result }
{
    let least = all_least_heard(ports);
    let mut distances = [INFINITE; MOST_IMPS];
    for place in 0..MOST_IMPS {
        distances[place] = distance_by(own, place as u8 + 1, least[place]);
    }
    Vector::new(distances)
}

/// Returns the distance to an IMP, of which this is the least that was heard.
fn distance_by(own: u8, imp: u8, least: u8) -> u8
    ensures value { result ≡ (if imp == own then 0 else min (least + 1) infinite) }
    ensures most { result ≤ infinite }
{
    if imp == own {
        return 0;
    }
    if least < INFINITE {
        least + 1
    } else {
        INFINITE
    }
}

/// Returns whether these distances were heard on a port.
pub fn is_heard(heard: &Option<Vector>, distances: &Vector) -> bool
    ensures { (result ≡ true) ↔ (heard.now ≡ Some distances.now) }
{
    match heard {
        Some(vector) => vector.is_same(distances),
        None => false,
    }
}

/// Returns the IMP at the other end of a line; `None` for a line of other IMPs.
fn other_end(imp: u8, line: (u8, u8)) -> Option<u8>
    ensures { result ≡ other_end imp line }
{
    if line.0 == imp {
        Some(line.1)
    } else if line.1 == imp {
        Some(line.0)
    } else {
        None
    }
}

/// Writes what an IMP's neighbours announced over what its ports had heard.
fn hear_lines(own: u8, graph: &[(u8, u8)], told: &[Vector], heard: &mut [Option<Vector>])
    requires ports { length heard.old ≡ length (neighbours graph.now own) }
    requires named { All (λ line. IsImp (length told.now) line.0 × IsImp (length told.now) line.1) graph.now }
    ensures { heard.new ≡ map (λ imp. Some (slice_index_or told.now (imp - 1) [])) (neighbours graph.now own) }
{
    let mut port = 0;
    for line in graph {
        if let Some(imp) = other_end(own, *line) {
            heard[port] = Some(told[imp as usize - 1].copy());
            port += 1;
        }
    }
}

/// Returns the least distance to each IMP that was heard on any port, that to IMP 1 first. It takes one port's
/// distances after the other, which is faster than to ask every port for each IMP.
fn all_least_heard(ports: &[Option<Vector>]) -> [u8; MOST_IMPS]
    ensures least { (place : ℕ) → place < most_imps → slice_index_or result place 0 ≡ least_heard ports.now (place + 1) }
    ensures no_imp { (imp : ℕ) → most_imps < imp → least_heard ports.now imp ≡ infinite }
{
    let mut least = [INFINITE; MOST_IMPS];
    for heard in ports {
        if let Some(vector) = heard {
            vector.lower(&mut least);
        }
    }
    least
}

/// Returns the lowest port on which a distance to an IMP is attained.
fn first_port(ports: &[Option<Vector>], imp: u8, distance: u8) -> Option<usize>
    ensures first { result ≡ position (λ heard. heard_distance heard imp + 1 == distance) ports.now }
    ensures within { IfSome result (λ port. port < length ports.now) }
{
    ports
        .iter()
        .position(|heard| heard_distance(heard, imp) + 1 == distance)
}

/// Returns the distance to an IMP that was heard on a port; infinite where nothing was heard.
fn heard_distance(heard: &Option<Vector>, imp: u8) -> u8
    ensures value { result ≡ heard_distance heard.now imp }
    ensures most { result ≤ infinite }
    ensures no_imp { most_imps < imp → result ≡ infinite }
{
    match heard {
        Some(vector) => distance_in(vector.distances(), imp),
        None => INFINITE,
    }
}

/// Returns the distance to an IMP in these distances; infinite to an IMP that there can't be.
fn distance_in(distances: &[u8], imp: u8) -> u8
    requires { IsVector distances.now }
    ensures value { result ≡ distance_in distances.now imp }
    ensures most { result ≤ infinite }
    ensures no_imp { most_imps < imp → result ≡ infinite }
{
    if imp == 0 {
        return INFINITE;
    }
    distances.get(imp as usize - 1).copied().unwrap_or(INFINITE)
}
