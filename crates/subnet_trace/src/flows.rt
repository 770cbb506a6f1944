//! What is known of flows: a part for each of them.

ghost use Rattle.std.specs.Prelude.{◌≡◌, IfOk, OnOk, false, map, option_copied, ℕ};
ghost use Rattle.std.specs.Io.KnownBytes.{Appends};
ghost use Rattle.imp_node.specs.State.{State};
ghost use Rattle.interface.specs.declared.address.Flow.{Flow};
ghost use Rattle.link_table.specs.Flows.{last_of};
ghost use Rattle.replay.specs.Failing.{TellsFailure};
ghost use Rattle.subnet_trace.specs.Printing.{known_members, known_part, members_behind, place_after_members};
ghost use Rattle.subnet_trace.specs.Texts as texts;
ghost use Rattle.subnet_trace.specs.Texts.{awaits_host, fate_state, standing_state};
ghost use Rattle.trace.specs.Flows.{told};
ghost use Rattle.trace.specs.declared.flow_part.FlowState.{FlowState};

use imp_node::Imp;
use interface::{Flow, Number};
use link_table::{Fate, Noted, Standing};
use replay::{Output, WriteFailed};
use std::alloc::{AllocError, Global};
use std::collections::btree_map;
use trace::json::{Item, mark};
use trace::{FlowPart, FlowState, Side};

/// What an IMP knows of a flow.
pub(crate) trait Known {
    /// What it is, at an IMP of this state.
    ghost state: { State → Flow → Self → FlowState };

    /// The number that it is about.
    ghost number: { Self → ℕ };

    /// Returns what it is.
    fn state(&self, imp: &Imp, flow: &Flow) -> FlowState
        ensures { result ≡ state imp.now flow.now self.now };

    /// Returns the number that it is about.
    fn number(&self) -> Number
        ensures { result ≡ number self.now };
}

impl Known for Standing {
    ghost state = { λ imp flow standing. standing_state (awaits_host imp flow) standing };

    ghost number = { last_of };

    fn state(&self, imp: &Imp, flow: &Flow) -> FlowState {
        match self {
            Standing::Idle(_) if imp.has_answer_about(flow) => FlowState::Dead,
            Standing::Idle(_) => FlowState::Idle,
            Standing::Outstanding(_) => FlowState::Outstanding,
            Standing::Answered(_) => FlowState::Answered,
        }
    }

    fn number(&self) -> Number {
        self.last()
    }
}

impl Known for Noted {
    ghost state = { λ imp flow noted. fate_state noted.fate };

    ghost number = { λ noted. noted.number };

    fn state(&self, _imp: &Imp, _flow: &Flow) -> FlowState {
        match self.fate {
            Fate::Waits => FlowState::Waits,
            Fate::Taken => FlowState::Taken,
            Fate::Dead => FlowState::Dead,
            Fate::Never => FlowState::Never,
        }
    }

    fn number(&self) -> Number {
        self.number
    }
}

/// Returns what is known of a flow at an IMP, as a part.
fn part_of<V: Known>(side: Side, imp: &Imp, flow: &Flow, known: &V) -> FlowPart
    ensures { result ≡ known_part side (V.state imp.now) V.number (flow.now, known.now) }
{
    FlowPart {
        side,
        flow: *flow,
        state: known.state(imp, flow),
        number: known.number(),
    }
}

/// Returns what an IMP knows of each of these flows.
fn parts_of<V: Known>(
    alloc: Global,
    side: Side,
    imp: &Imp,
    flows: btree_map::Iter<'_, Flow, V>,
) -> Result<Vec<FlowPart>, AllocError>
    ensures { IfOk result (λ parts. parts.items ≡ map (known_part side (V.state imp.now) V.number) flows.entry) }
{
    let mut parts = Vec::new(alloc);
    for (flow, known) in flows {
        parts.push(part_of(side, imp, flow, known))?;
    }
    Ok(parts)
}

/// Returns what an IMP, which may be down, knows of the flows that begin there.
pub(crate) fn sources_of(alloc: Global, imp: Option<&Imp>) -> Result<Vec<FlowPart>, AllocError>
    ensures { IfOk result (λ parts. parts.items ≡ texts.sources_of (option_copied imp.entry)) }
{
    match imp {
        Some(imp) => parts_of(alloc, Side::Source, imp, imp.sources().iter()),
        None => Ok(Vec::new(alloc)),
    }
}

/// Returns what an IMP, which may be down, knows of the flows that end there.
pub(crate) fn kept_of(alloc: Global, imp: Option<&Imp>) -> Result<Vec<FlowPart>, AllocError>
    ensures { IfOk result (λ parts. parts.items ≡ texts.kept_of (option_copied imp.entry)) }
{
    match imp {
        Some(imp) => parts_of(alloc, Side::Kept, imp, imp.kept_flows().iter()),
        None => Ok(Vec::new(alloc)),
    }
}

/// Prints what an IMP knows of each of these flows, after this many other parts. Returns the place after them.
fn print_flows<V: Known, W: Output>(
    place: usize,
    side: Side,
    imp: &Imp,
    flows: btree_map::Iter<'_, Flow, V>,
    writer: &mut W,
) -> Result<usize, WriteFailed>
    requires { W.failed writer.old ≡ false }
    ensures written { OnOk result (Appends (W.contents writer.old) (W.contents writer.new) (members_behind place (map told (map (known_part side (V.state imp.now) V.number) flows.entry)))) }
    ensures place { IfOk result (λ next. next ≡ place_after_members place (map told (map (known_part side (V.state imp.now) V.number) flows.entry))) }
    ensures failed { TellsFailure result (W.failed writer.new) }
{
    let mut place = place;
    for (flow, known) in flows {
        writer.write_all(mark("{", ",", place).as_bytes())?;
        part_of(side, imp, flow, known).print(writer)?;
        place = 1;
    }
    Ok(place)
}

/// Prints what an IMP knows of flows: of those that begin there, and of those that end there.
pub(crate) fn print_known<W: Output>(
    place: usize,
    imp: &Imp,
    writer: &mut W,
) -> Result<usize, WriteFailed>
    requires { W.failed writer.old ≡ false }
    ensures written { OnOk result (Appends (W.contents writer.old) (W.contents writer.new) (members_behind place (known_members imp.now))) }
    ensures place { IfOk result (λ next. next ≡ place_after_members place (known_members imp.now)) }
    ensures failed { TellsFailure result (W.failed writer.new) }
{
    let place = print_flows(place, Side::Source, imp, imp.sources().iter(), writer)?;
    print_flows(place, Side::Kept, imp, imp.kept_flows().iter(), writer)
}
