//! The texts of a world's state, and which of them have changed.

ghost use Rattle.std.specs.Prelude.{◌≡◌, IfOk, IfSome, OnOk, false, map};
ghost use Rattle.std.specs.Io.KnownBytes.{Appends};
ghost use Rattle.replay.specs.Failing.{TellsFailure};
ghost use Rattle.trace.specs.Changes.{changed, changed_parts};
ghost use Rattle.trace.specs.Texts.{object};
ghost use Rattle.world_trace.specs.Steps.{AreChanged, AreOthers, AreTextsOf, at_host, changed_end, seat_place, service_place};
ghost use Rattle.world_trace.specs.Texts.{seat_member, services_member};

use crate::values::{Json, Placed, Printed};
use crate::worlds::Traced;
use interface::HostAddr;
use replay::{Output, WriteFailed};
use std::alloc::{AllocError, Global};
use trace::json::Item;
use trace::{AllParts, Inspect, Members, ended};

/// The texts of a world's state, each with its name.
#[derive(Drop)]
pub(crate) struct Texts {
    /// All parts of the carrier.
    pub parts: AllParts,
    /// The program of each host.
    pub programs: Members,
    /// The services of each host.
    pub services: Members,
}

/// Returns the texts of these, in order.
fn members_of<T: Json>(alloc: Global, items: &[T]) -> Result<Members, AllocError>
    ensures { IfOk result (λ members. members ≡ map T.text items.now) }
{
    let mut members = Members::new(alloc);
    for item in items {
        members.push(alloc, &Printed(item))?;
    }
    Ok(members)
}

/// Returns the texts of a world's state.
pub(crate) fn texts_of<C: Inspect, T: Traced<C>>(
    alloc: Global,
    world: &T,
    notes: &mut C::Notes,
) -> Result<Texts, AllocError>
    ensures { IfOk result (AreTextsOf C.inside.members (T.state world.now)) }
{
    Ok(Texts {
        parts: world.carrier().members(alloc, notes)?,
        programs: members_of(alloc, world.seats())?,
        services: members_of(alloc, world.services())?,
    })
}

/// Returns the texts of a world's state, which may be known.
pub(crate) fn known_texts<C: Inspect, T: Traced<C>>(
    alloc: Global,
    world: &T,
    known: Option<Texts>,
    notes: &mut C::Notes,
) -> Result<Texts, AllocError>
    requires { IfSome known (AreTextsOf C.inside.members (T.state world.now)) }
    ensures { IfOk result (AreTextsOf C.inside.members (T.state world.now)) }
{
    match known {
        Some(texts) => Ok(texts),
        None => texts_of(alloc, world, notes),
    }
}

/// What of a state is other than before: three objects, each as its text.
#[derive(Drop)]
pub(crate) struct Changes {
    /// Parts of the carrier.
    pub parts: Vec<u8>,
    /// Programs.
    pub programs: Vec<u8>,
    /// Services.
    pub services: Vec<u8>,
}

/// Returns the object of the members that are other than before.
fn changed_object(alloc: Global, before: &Members, now: &Members) -> Result<Vec<u8>, AllocError>
    ensures { IfOk result (λ text. text.items ≡ object (changed before.now now.now)) }
{
    ended(now.add_changed(before, Vec::new(alloc))?)
}

/// Returns what is other than before.
pub(crate) fn changes_of(alloc: Global, before: &Texts, now: &Texts) -> Result<Changes, AllocError>
    ensures { IfOk result (λ c. AreChanged before.now now.now c) }
{
    Ok(Changes {
        parts: now.parts.changed(alloc, &before.parts)?,
        programs: changed_object(alloc, &before.programs, &now.programs)?,
        services: changed_object(alloc, &before.services, &now.services)?,
    })
}

/// Returns whether something is at a host, if there is one.
fn is_at<T: Placed>(host: &Option<HostAddr>, item: &T) -> bool
    ensures { result ≡ at_host T.place host.now item.now }
{
    match host {
        Some(host) => item.is_at(host),
        None => false,
    }
}

/// Puts the texts of what is at a host in the place of those before them. Returns the object of those that are other
/// than before.
fn change_at<T: Placed>(
    alloc: Global,
    host: &Option<HostAddr>,
    items: &[T],
    known: &mut Members,
) -> Result<Vec<u8>, AllocError>
    requires others { AreOthers (at_host T.place host.now) T.text known.old items.now }
    ensures known { OnOk result (known.new ≡ map T.text items.now) }
    ensures changed { IfOk result (λ text. text.items ≡ object (changed known.old (map T.text items.now))) }
{
    let mut text = Vec::new(alloc);
    for place in 0..items.len() {
        let item = &items[place];
        text = known.put(is_at(host, item), place, &Printed(item), text)?;
    }
    ended(text)
}

/// Puts the texts of the program and the services of a host in the place of those before them. Returns what is other
/// than before, these parts too.
pub(crate) fn change<C: Inspect, T: Traced<C>>(
    alloc: Global,
    world: &T,
    host: &Option<HostAddr>,
    parts: &AllParts,
    texts: &mut Texts,
) -> Result<Changes, AllocError>
    requires programs { AreOthers (at_host seat_place host.now) seat_member texts.old.programs (T.state world.now).seats }
    requires services { AreOthers (at_host service_place host.now) services_member texts.old.services (T.state world.now).services }
    ensures programs { OnOk result (texts.new.programs ≡ map seat_member (T.state world.now).seats) }
    ensures services { OnOk result (texts.new.services ≡ map services_member (T.state world.now).services) }
    ensures changes { IfOk result (λ c. AreChanged texts.old (record texts.new { parts = parts.now }) c) }
{
    Ok(Changes {
        parts: parts.changed(alloc, &texts.parts)?,
        programs: change_at(alloc, host, world.seats(), &mut texts.programs)?,
        services: change_at(alloc, host, world.services(), &mut texts.services)?,
    })
}

/// Puts the texts of all of a world's state in the place of those before them. Returns what is other than before.
pub(crate) fn change_all<C: Inspect, T: Traced<C>>(
    alloc: Global,
    world: &T,
    texts: &mut Texts,
    notes: &mut C::Notes,
) -> Result<Changes, AllocError>
    ensures known { OnOk result (AreTextsOf C.inside.members (T.state world.now) texts.new) }
    ensures changes { IfOk result (λ c. AreChanged texts.old texts.new c) }
{
    let now = texts_of(alloc, world, notes)?;
    let changes = changes_of(alloc, texts, &now)?;
    *texts = now;
    Ok(changes)
}

/// Puts the texts of the parts of a world's carrier, and those of what is at a host, if there is one, in the place of
/// those before them. Returns what is other than before.
pub(crate) fn change_one<C: Inspect, T: Traced<C>>(
    alloc: Global,
    world: &T,
    host: &Option<HostAddr>,
    texts: &mut Texts,
    notes: &mut C::Notes,
) -> Result<Changes, AllocError>
    requires programs { AreOthers (at_host seat_place host.now) seat_member texts.old.programs (T.state world.now).seats }
    requires services { AreOthers (at_host service_place host.now) services_member texts.old.services (T.state world.now).services }
    ensures known { OnOk result (AreTextsOf C.inside.members (T.state world.now) texts.new) }
    ensures changes { IfOk result (λ c. AreChanged texts.old texts.new c) }
{
    let parts = world.carrier().members(alloc, notes)?;
    let changes = change(alloc, world, host, &parts, texts)?;
    texts.parts = parts;
    Ok(changes)
}

/// Prints what is other than before, after other members, and the end of the line.
pub(crate) fn print_changes<W: Output>(changes: &Changes, writer: &mut W) -> Result<(), WriteFailed>
    requires { W.failed writer.old ≡ false }
    ensures written { OnOk result (Appends (W.contents writer.old) (W.contents writer.new) (changed_end changes.now)) }
    ensures failed { TellsFailure result (W.failed writer.new) }
{
    writer.write_all(&changes.parts)?;
    writer.write_all(b",\"programs\":")?;
    writer.write_all(&changes.programs)?;
    writer.write_all(b",\"services\":")?;
    writer.write_all(&changes.services)?;
    writer.write_all(b"}\n")
}
