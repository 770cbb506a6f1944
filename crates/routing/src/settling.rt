//! Tables of neighbouring IMPs that exchange vectors.

ghost use Rattle.std.specs.Prelude.{◌≡◌, ◌<◌, ◌≤◌, ℕ, map, length, OnOk, OnErr, IfOk, All, Some, slice_index_or, []};
ghost use Rattle.routing.specs.Vector.{infinite};
ghost use Rattle.routing.specs.RouteTable.{vector_of};
ghost use Rattle.routing.specs.Settle.{AreTablesOf, IsImp, IsRight, settled, one_round, table_of, after_round, neighbours, other_end};

use crate::{RouteTable, Vector};
use std::alloc::{AllocError, Global};

/// Lets the tables of a network exchange their distances, for this many rounds: in each round every IMP hears, on
/// each of its ports, what the neighbour there announced when the round began.
///
/// `graph` has the live lines, each as a pair of IMPs, and an IMP's ports are its lines in that order.
/// `tables` are those of IMP 1, IMP 2 and so on. After [`INFINITE`](crate::INFINITE) rounds, from whatever
/// they had heard before, the tables are right.
///
/// Errors: memory runs out, which can happen only if there are tables and rounds. The tables then are as before.
pub fn settle(
    alloc: Global,
    graph: &[(u8, u8)],
    tables: &mut [RouteTable],
    rounds: u32,
) -> Result<(), AllocError>
    requires { AreTablesOf graph.now tables.old }
    ensures settled { OnOk result (tables.new ≡ settled graph.now tables.old rounds) }
    ensures right { OnOk result (infinite ≤ rounds → (imp : ℕ) → IsImp (length tables.old) imp → IsRight graph.now (table_of tables.new imp)) }
    ensures memory { OnErr result ((0 < length tables.old) × (0 < rounds)) }
    ensures unchanged { OnErr result (tables.new ≡ tables.old) }
{
    if rounds == 0 || tables.is_empty() {
        return Ok(());
    }
    let mut told = vectors(alloc, tables)?;
    for _ in 0..rounds {
        hear_all(graph, &told, tables);
        tell_all(tables, &mut told);
    }
    Ok(())
}

/// Returns the vectors of tables, in their order.
fn vectors(alloc: Global, tables: &[RouteTable]) -> Result<Vec<Vector>, AllocError>
    ensures { IfOk result (λ told. told.items ≡ map vector_of tables.now) }
{
    tables.iter().map(|table| table.vector()).collect(alloc)
}

/// Writes the vectors of tables over others.
fn tell_all(tables: &[RouteTable], told: &mut Vec<Vector>)
    requires { length told.old.items ≡ length tables.now }
    ensures { told.new.items ≡ map vector_of tables.now }
{
    for (place, table) in tables.iter().enumerate() {
        told[place] = table.vector();
    }
}

/// Lets each table hear what its neighbours sent.
fn hear_all(graph: &[(u8, u8)], told: &[Vector], tables: &mut [RouteTable])
    requires ports { All (λ t. length t.heard ≡ length (neighbours graph.now t.own)) tables.old }
    requires named { All (λ line. IsImp (length told.now) line.0 × IsImp (length told.now) line.1) graph.now }
    ensures { tables.new ≡ map (after_round graph.now told.now) tables.old }
{
    for table in tables.iter_mut() {
        table.hear_neighbours(graph, told);
    }
}
