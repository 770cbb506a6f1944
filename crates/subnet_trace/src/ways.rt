//! What IMPs know of routes, printed, and kept with its texts while it stays the same.
//!
//! Most events change no route. What is known of routes is most of an IMP's text, though, in a large network nearly all of it.

ghost use Rattle.std.specs.Prelude.{◌≡◌, IfOk, OnOk, false, map, true};
ghost use Rattle.std.specs.Io.KnownBytes.{Appends};
ghost use Rattle.replay.specs.Failing.{TellsFailure};
ghost use Rattle.subnet_trace.specs.Printing.{concluded_text, heard_list};

use crate::lists::All;
use crate::packets::{print_ports, print_vector};
use replay::{Output, WriteFailed};
use routing::{RouteTable, Vector};
use std::alloc::{AllocError, Global};
use std::marker::Model;
use trace::json::{Item, print_array};
use trace::text_of;

/// What the neighbours of an IMP announced.
#[derive(Drop)]
struct Heard<'a>(&'a RouteTable);

impl Item for Heard<'_> {
    ghost text = { λ heard. heard_list heard.0.now };

    fn print<W: Output>(&self, writer: &mut W) -> Result<(), WriteFailed> {
        print_array(&All(self.0.heard()), writer)
    }
}

/// What an IMP concludes of routes: the distances that it announces, and the port that packets to each IMP take.
#[derive(Drop)]
struct Concluded<'a>(&'a RouteTable);

impl Item for Concluded<'_> {
    ghost text = { λ concluded. concluded_text concluded.0.now };

    fn print<W: Output>(&self, writer: &mut W) -> Result<(), WriteFailed> {
        let routes = self.0;
        writer.write_all(b",\"distances\":")?;
        print_vector(routes.distances(), writer)?;
        writer.write_all(b",\"next\":")?;
        print_ports(routes, writer)?;
        writer.write_all(b"}")
    }
}

/// What an IMP knows of routes, with its texts. It is seen as that table.
#[derive(Drop)]
pub(crate) struct Ways {
    own: u8,
    heard: Vec<Option<Vector>>,
    claims: bool,
    heard_list: Vec<u8>,
    concluded: Vec<u8>,
}

impl Model for Ways {
    ghost use Rattle.routing.specs.RouteTable.{Table};
    ghost use Rattle.subnet_trace.specs.Printing.{AreWaysTexts};

    ghost Value = { Table };

    ghost view = { λ w. record { own = w.own; heard = w.heard.items; claims = w.claims } };

    ghost invariant = { λ w. AreWaysTexts (record { own = w.own; heard = w.heard.items; claims = w.claims }) w.heard_list.items w.concluded.items };
}

/// Returns a copy of what was heard on a port.
fn copy_of(heard: &Option<Vector>) -> Result<Option<Vector>, AllocError>
    ensures { IfOk result (λ copy. copy ≡ heard.now) }
{
    match heard {
        Some(vector) => Ok(Some(vector.clone()?)),
        None => Ok(None),
    }
}

/// Returns a copy of what was heard on each port.
fn copies_of(alloc: Global, heard: &[Option<Vector>]) -> Result<Vec<Option<Vector>>, AllocError>
    ensures { IfOk result (λ copies. copies.items ≡ heard.now) }
{
    let mut copies = Vec::new(alloc);
    for port in 0..heard.len() {
        let copy = copy_of(&heard[port])?;
        copies.push(copy)?;
    }
    Ok(copies)
}

/// Returns whether the same was heard on a port.
fn is_same(one: &Option<Vector>, other: &Option<Vector>) -> bool
    ensures { result ≡ true → one.now ≡ other.now }
{
    match (one, other) {
        (Some(one), Some(other)) => one.is_same(other),
        (None, None) => true,
        _ => false,
    }
}

/// Returns whether the same was heard on each port.
fn are_same(these: &[Option<Vector>], those: &[Option<Vector>]) -> bool
    ensures { result ≡ true → these.now ≡ those.now }
{
    if these.len() != those.len() {
        return false;
    }
    for port in 0..these.len() {
        let same = is_same(&these[port], &those[port]);
        if !same {
            return false;
        }
    }
    true
}

impl Ways {
    /// Returns what an IMP knows of routes, with its texts.
    fn of(alloc: Global, routes: &RouteTable) -> Result<Ways, AllocError>
        ensures { IfOk result (λ ways. ways ≡ routes.now) }
    {
        Ok(Ways {
            own: routes.own(),
            heard: copies_of(alloc, routes.heard())?,
            claims: routes.claims(),
            heard_list: text_of(alloc, &Heard(routes))?,
            concluded: text_of(alloc, &Concluded(routes))?,
        })
    }

    /// Returns whether it is known that an IMP knows this of routes.
    fn is_of(&self, routes: &RouteTable) -> bool
        ensures { result ≡ true → self.now ≡ routes.now }
    {
        self.own == routes.own()
            && self.claims == routes.claims()
            && are_same(&self.heard, routes.heard())
    }

    /// Returns the text of what the neighbours announced.
    fn heard_list(&self) -> &[u8]
        ensures { result.now ≡ heard_list self.now }
    {
        &self.heard_list
    }

    /// Returns the text of what the IMP concludes.
    fn concluded(&self) -> &[u8]
        ensures { result.now ≡ concluded_text self.now }
    {
        &self.concluded
    }
}

/// Prints what the neighbours of an IMP announced, by what is noted where that is the same.
pub(crate) fn print_heard<W: Output>(
    routes: &RouteTable,
    noted: Option<&Ways>,
    writer: &mut W,
) -> Result<(), WriteFailed>
    requires { W.failed writer.old ≡ false }
    ensures written { OnOk result (Appends (W.contents writer.old) (W.contents writer.new) (heard_list routes.now)) }
    ensures failed { TellsFailure result (W.failed writer.new) }
{
    if let Some(ways) = noted
        && ways.is_of(routes)
    {
        return writer.write_all(ways.heard_list());
    }
    Heard(routes).print(writer)
}

/// Prints what an IMP concludes of routes, by what is noted where that is the same.
pub(crate) fn print_concluded<W: Output>(
    routes: &RouteTable,
    noted: Option<&Ways>,
    writer: &mut W,
) -> Result<(), WriteFailed>
    requires { W.failed writer.old ≡ false }
    ensures written { OnOk result (Appends (W.contents writer.old) (W.contents writer.new) (concluded_text routes.now)) }
    ensures failed { TellsFailure result (W.failed writer.new) }
{
    if let Some(ways) = noted
        && ways.is_of(routes)
    {
        return writer.write_all(ways.concluded());
    }
    Concluded(routes).print(writer)
}

/// What IMPs knew of routes when they were last printed, by their numbers. No text depends on it: what is noted of an IMP is printed only
/// where the IMP still knows the same.
#[derive(Drop)]
pub struct Notes {
    ways: Vec<Option<Ways>>,
}

impl Notes {
    /// Returns notes of no IMP. This takes no memory.
    pub(crate) fn new(alloc: Global) -> Notes {
        Notes {
            ways: Vec::new(alloc),
        }
    }

    /// Returns what is noted of an IMP.
    pub(crate) fn of(&self, imp: u8) -> Option<&Ways> {
        self.ways.get(imp as usize)?.as_ref()
    }

    /// Notes what an IMP knows of routes.
    pub(crate) fn note(
        &mut self,
        alloc: Global,
        imp: u8,
        routes: &RouteTable,
    ) -> Result<(), AllocError> {
        if let Some(ways) = self.of(imp)
            && ways.is_of(routes)
        {
            return Ok(());
        }
        let place = imp as usize;
        for _ in self.ways.len()..place + 1 {
            self.ways.push(None)?;
        }
        let ways = Ways::of(alloc, routes)?;
        if let Some(noted) = self.ways.get_mut(place) {
            *noted = Some(ways);
        }
        Ok(())
    }
}
