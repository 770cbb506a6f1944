//! Lists of flows, and which of them have changed.

ghost use Rattle.std.specs.Bool.{OnFalse, OnTrue};
ghost use Rattle.std.specs.Prelude.{◌≡◌, ◌<◌, ◌++◌, [], ◌∷◌, IfOk, OnOk, length, map, nat_lt, slice_index_or};
ghost use Rattle.std.specs.Prelude.{slice_set};
ghost use Rattle.trace.specs.Changes.{altered, changed_flows, changed_lists, is_told, is_there, lost};
ghost use Rattle.trace.specs.Flows.{gone, told};
ghost use Rattle.trace.specs.Joined.{extended};

use crate::flow_part::{FlowPart, Gone};
use crate::members::add;
use std::alloc::{AllocError, Global};
use std::marker::Model;

/// Lists of what is known of flows, each in its place: of each IMP, at each side. In a list the flows are in order.
#[derive(Drop)]
pub struct FlowLists {
    lists: Vec<Vec<FlowPart>>,
}

impl Model for FlowLists {
    ghost use Rattle.std.specs.Bool.{OnFalse, OnTrue};
    ghost use Rattle.std.specs.Prelude.{List, map};
    ghost use Rattle.trace.specs.declared.flow_part.FlowPart.{FlowPart};

    ghost Value = { List (List FlowPart) };

    ghost view = { λ f. map (λ l. l.items) f.lists.items };
}

impl FlowLists {
    /// Returns no lists.
    pub fn new(alloc: Global) -> FlowLists
        ensures { result ≡ [] }
    {
        FlowLists {
            lists: Vec::new(alloc),
        }
    }

    /// Adds a list after the others.
    ///
    /// Errors: `AllocError`.
    pub fn push(&mut self, list: Vec<FlowPart>) -> Result<(), AllocError>
        ensures { OnOk result (self.new ≡ self.old ++ list.items ∷ []) }
    {
        Ok(self.lists.push(list)?)
    }

    /// Puts a list in the place of the one at a place. Adds what has changed by it to an object of members that have
    /// changed. `object` is the text of this object without its end.
    ///
    /// Errors: `AllocError`.
    pub fn put(
        &mut self,
        place: usize,
        now: Vec<FlowPart>,
        object: Vec<u8>,
    ) -> Result<Vec<u8>, AllocError>
        requires { place < length self.old }
        ensures lists { OnOk result (self.new ≡ slice_set self.old place now.items) }
        ensures object { IfOk result (λ text. text.items ≡ extended object.items (changed_flows (slice_index_or self.old place []) now.items)) }
    {
        let text = add_changed(&self.lists[place], &now, object)?;
        self.lists[place] = now;
        Ok(text)
    }

    /// Returns whether anything is other than in the lists that were before.
    pub fn have_changed(&self, before: &FlowLists) -> bool
        ensures { result ≡ nat_lt 0 (length (changed_lists before.now self.now)) }
    {
        for place in 0..self.lists.len() {
            if differ(before.at(place), self.at(place)) {
                return true;
            }
        }
        false
    }

    /// Returns the same lists again.
    ///
    /// Errors: `AllocError`.
    pub(crate) fn copy(&self, alloc: Global) -> Result<FlowLists, AllocError>
        ensures { IfOk result (λ copy. copy ≡ self.now) }
    {
        let mut copy = FlowLists::new(alloc);
        for place in 0..self.lists.len() {
            copy.push(copy_of(alloc, self.at(place))?)?;
        }
        Ok(copy)
    }

    /// Returns whether others are the same lists.
    pub(crate) fn is_same(&self, other: &FlowLists) -> bool
        ensures same { OnTrue result (self.now ≡ other.now) }
        ensures apart { OnFalse result (self.now ≡ other.now → ⊥) }
    {
        if self.lists.len() != other.lists.len() {
            return false;
        }
        for place in 0..self.lists.len() {
            if !are_same(self.at(place), other.at(place)) {
                return false;
            }
        }
        true
    }

    /// Returns the list at a place, if there is one.
    fn at(&self, place: usize) -> &[FlowPart]
        ensures { result.now ≡ slice_index_or self.now place [] }
    {
        match self.lists.get(place) {
            Some(list) => list.as_slice(),
            None => &[],
        }
    }

    /// Adds what is other than in the lists that were before to an object of members that have changed.
    ///
    /// Errors: `AllocError`.
    pub fn add_changed(&self, before: &FlowLists, object: Vec<u8>) -> Result<Vec<u8>, AllocError>
        ensures { IfOk result (λ text. text.items ≡ extended object.items (changed_lists before.now self.now)) }
    {
        let mut text = object;
        for place in 0..self.lists.len() {
            text = add_changed(before.at(place), self.at(place), text)?;
        }
        Ok(text)
    }
}

/// Returns the same list again.
fn copy_of(alloc: Global, list: &[FlowPart]) -> Result<Vec<FlowPart>, AllocError>
    ensures { IfOk result (λ copy. copy.items ≡ list.now) }
{
    let mut copy = Vec::new(alloc);
    for part in list {
        copy.push(*part)?;
    }
    Ok(copy)
}

/// Returns whether two lists are the same.
fn are_same(one: &[FlowPart], other: &[FlowPart]) -> bool
    ensures same { OnTrue result (one.now ≡ other.now) }
    ensures apart { OnFalse result (one.now ≡ other.now → ⊥) }
{
    if one.len() != other.len() {
        return false;
    }
    for place in 0..one.len() {
        if !one[place].is_same(&other[place]) {
            return false;
        }
    }
    true
}

/// Returns whether a flow is in a list with this state. It is looked for first at a place, where it mostly is.
fn is_told(list: &[FlowPart], place: usize, part: &FlowPart) -> bool
    ensures { result ≡ is_told list.now part.now }
{
    if place < list.len() && list[place].is_same(part) {
        return true;
    }
    list.iter().any(|other| other.is_same(part))
}

/// Returns whether a flow is in a list. It is looked for first at a place, where it mostly is.
fn is_there(list: &[FlowPart], place: usize, part: &FlowPart) -> bool
    ensures { result ≡ is_there list.now part.now }
{
    if place < list.len() && list[place].has_name_of(part) {
        return true;
    }
    list.iter().any(|other| other.has_name_of(part))
}

/// Returns whether a list is other than before.
fn differ(before: &[FlowPart], now: &[FlowPart]) -> bool
    ensures { result ≡ nat_lt 0 (length (changed_flows before.now now.now)) }
{
    has_altered(before, now) || has_lost(before, now)
}

/// Returns whether a flow is new in a list, or other than before.
fn has_altered(before: &[FlowPart], now: &[FlowPart]) -> bool
    ensures { result ≡ nat_lt 0 (length (altered before.now now.now)) }
{
    for place in 0..now.len() {
        if !is_told(before, place, &now[place]) {
            return true;
        }
    }
    false
}

/// Returns whether a flow of a list is there no more.
fn has_lost(before: &[FlowPart], now: &[FlowPart]) -> bool
    ensures { result ≡ nat_lt 0 (length (lost before.now now.now)) }
{
    for place in 0..before.len() {
        if !is_there(now, place, &before[place]) {
            return true;
        }
    }
    false
}

/// Adds what is other than in the list before to an object of members that have changed.
fn add_changed(
    before: &[FlowPart],
    now: &[FlowPart],
    object: Vec<u8>,
) -> Result<Vec<u8>, AllocError>
    ensures { IfOk result (λ text. text.items ≡ extended object.items (changed_flows before.now now.now)) }
{
    add_lost(before, now, add_altered(before, now, object)?)
}

/// Adds the flows that are new in a list, or other than before.
fn add_altered(
    before: &[FlowPart],
    now: &[FlowPart],
    object: Vec<u8>,
) -> Result<Vec<u8>, AllocError>
    ensures { IfOk result (λ text. text.items ≡ extended object.items (map told (altered before.now now.now))) }
{
    let mut text = object;
    for place in 0..now.len() {
        let part = &now[place];
        if !is_told(before, place, part) {
            text = add(text, part)?;
        }
    }
    Ok(text)
}

/// Adds that flows are there no more.
fn add_lost(before: &[FlowPart], now: &[FlowPart], object: Vec<u8>) -> Result<Vec<u8>, AllocError>
    ensures { IfOk result (λ text. text.items ≡ extended object.items (map gone (lost before.now now.now))) }
{
    let mut text = object;
    for place in 0..before.len() {
        let part = &before[place];
        if !is_there(now, place, part) {
            text = add(text, &Gone(part))?;
        }
    }
    Ok(text)
}
