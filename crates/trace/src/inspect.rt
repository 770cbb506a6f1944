//! Carriers whose inside can be traced.

ghost use Rattle.std.specs.Prelude.{◌≡◌, [], Err, IfOk, List, None, Ok, OnOk, false, true};
ghost use Rattle.std.specs.Io.KnownBytes.{Appends};
ghost use Rattle.interface.specs.Calls.{is_memory};
ghost use Rattle.interface.specs.Host.{Host};
ghost use Rattle.interface.specs.declared.CarrierFault.{CarrierFault};
ghost use Rattle.interface.specs.declared.HostMessage.{HostMessage};
ghost use Rattle.replay.specs.Failing.{TellsFailure};
ghost use Rattle.trace.specs.Changes.{changed_parts, members_of};
ghost use Rattle.trace.specs.Texts.{object};
ghost use Rattle.trace.specs.Traces.{GoesOnWith, HasHappened, Inside};
ghost use Rattle.trace.specs.declared.element.Element.{Element};

use crate::all_parts::AllParts;
use crate::element::Element;
use crate::fate::Fate;
use interface::{Carrier, CarrierFault, Crossing, HostAddr};
use replay::{Output, WriteFailed};
use script::RawEvent;
use std::alloc::{AllocError, Global};

/// A carrier whose inside can be traced: it lists the elementary events of a calm one after another, and says which
/// parts an event has changed.
pub trait Inspect: Carrier {
    /// A place in a calm, between two of its elementary events.
    type Place: Copy;

    /// What is kept of texts that were made, by which the same ones are made again with less work. No text depends on
    /// it.
    type Notes: Drop;

    /// What it shows of its inside.
    ghost inside: { Inside Self };

    /// The elementary events that are left of a calm at a place.
    ghost left: { Self → Self.Place → List Element };

    /// Returns the place at which a calm begins.
    fn begin_calm(&self, rounds: u32) -> Self::Place
        ensures { left self.now result ≡ inside.calm self.now rounds };

    /// Returns the next elementary event of a calm, and the place after it; `None` where the calm is over.
    fn next_in_calm(&self, place: Self::Place) -> Option<(Element, Self::Place)>
        ensures { GoesOnWith Self.calls left self.now place result };

    /// Returns what becomes of the frame that an event is going to deliver; `None` where it delivers none.
    fn fate(&self, event: &RawEvent) -> Option<Fate>
        ensures { result ≡ inside.fate self.now event.now };

    /// Prints all parts, as a JSON object.
    ///
    /// Errors: `WriteFailed`.
    fn print_whole<W: Output>(&self, writer: &mut W) -> Result<(), WriteFailed>
        requires { W.failed writer.old ≡ false }
        ensures written { OnOk result (Appends (W.contents writer.old) (W.contents writer.new) (object (members_of (inside.members self.now)))) }
        ensures failed { TellsFailure result (W.failed writer.new) };

    /// Returns notes of no texts. This takes no memory.
    fn no_notes(&self, alloc: Global) -> Self::Notes;

    /// Returns all parts, each with its name, as the members of an object.
    ///
    /// Errors: `AllocError`.
    fn members(&self, alloc: Global, notes: &mut Self::Notes) -> Result<AllParts, AllocError>
        ensures { IfOk result (λ members. members ≡ inside.members self.now) };

    /// Puts the texts of the parts that an event has changed in the place of those before it. Returns these parts, each
    /// with its name, as the text of an object, which begins in this room.
    ///
    /// Errors: `AllocError`.
    fn change(
        &self,
        alloc: Global,
        event: &RawEvent,
        crossings: &[Crossing],
        outcome: Result<(), CarrierFault>,
        known: &mut AllParts,
        room: Vec<u8>,
    ) -> Result<Vec<u8>, AllocError>
        requires happened { HasHappened Self.calls inside.members known.old event.now crossings.now outcome self.now }
        requires empty { room.items ≡ [] }
        ensures known { OnOk result (known.new ≡ inside.members self.now) }
        ensures changed { IfOk result (λ text. text.items ≡ object (changed_parts known.old (inside.members self.now))) };

    /// Proves that an offer and a taking which are refused, though memory lasts, change no part. It does nothing.
    fn keeps(&self)
        ensures offered { (old new : Self) (m : HostMessage) (e : CarrierFault) → is_memory e ≡ false → Self.calls.offers old m (Err e) new → inside.members new ≡ inside.members old }
        ensures refused { (old new : Self) (h : Host) (e : CarrierFault) → is_memory e ≡ false → Self.calls.takes old h (Err e) new → inside.members new ≡ inside.members old };

    /// Returns whether it is known that a taking by which a host gets nothing changes no part. This takes no memory.
    fn is_still(&self, host: &HostAddr) -> bool
        ensures { result ≡ true → (new : Self) → Self.calls.takes self.now host.now (Ok None) new → inside.members new ≡ inside.members self.now };
}
