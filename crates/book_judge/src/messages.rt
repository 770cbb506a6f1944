//! Whether each message was taken once.

ghost use Rattle.std.specs.Prelude.{◌≡◌, IfOk, MatchOption, OnOk, reverse};
ghost use Rattle.interface.specs.Messages.{SafeMessages};
ghost use Rattle.net_sim.specs.Findings.{ShowsCrossing};
ghost use Rattle.book_judge.specs.Inside.Taken as tests;

use crate::flow_map::FlowMap;
use crate::mail::{Held, waits_with};
use interface::{Answer, Crossing, Flow};
use net_sim::Finding;
use std::alloc::{AllocError, Global};

/// Returns what crossed last on a flow: a message that went out and waits, or one that was taken.
fn last_on(last: &FlowMap<Held>, flow: &Flow) -> Held
    ensures { result ≡ tests.last_on last.now flow.now }
{
    match last.get(flow) {
        Some(held) => held,
        None => Held::Empty,
    }
}

/// Returns whether a crossing finds what it has to: a message that is taken is the flow's last one out, and of one that an RFNM
/// is about the last was taken.
fn finds(last: &FlowMap<Held>, log: &[Crossing], crossing: &Crossing) -> bool
    ensures { result ≡ tests.finds last.now log.now crossing.now }
{
    match crossing {
        Crossing::In(message) => waits_with(last_on(last, &message.flow), log, &message.text),
        Crossing::Answer(Answer::Rfnm, flow) => matches!(last_on(last, flow), Held::Taken(_)),
        Crossing::Answer(Answer::Incomplete | Answer::Dead | Answer::NotTaken, _)
        | Crossing::Out(_)
        | Crossing::Down(_)
        | Crossing::Up(_) => true,
    }
}

/// Notes what crosses on a flow.
///
/// Errors: `AllocError`.
fn note(last: &mut FlowMap<Held>, place: usize, crossing: &Crossing) -> Result<(), AllocError>
    ensures { OnOk result (last.new ≡ tests.noted place crossing.now last.old) }
{
    match crossing {
        Crossing::Out(message) => last.set(message.flow, Held::Waiting(place)),
        Crossing::In(message) => last.set(message.flow, Held::Taken(place)),
        Crossing::Answer(..) | Crossing::Down(_) | Crossing::Up(_) => Ok(()),
    }
}

/// Returns the first crossing with which messages are broken, an RFNM or a taking; `None` where they are kept. The log is the
/// oldest first.
///
/// It says what [`net_sim::broken_messages`] says, which takes no memory, and goes back from each crossing to its flow's last one.
///
/// Errors: `AllocError`.
pub fn broken_message(alloc: Global, log: &[Crossing]) -> Result<Option<Finding>, AllocError>
    ensures { IfOk result (λ found. MatchOption found (SafeMessages (reverse log.now)) (λ at. ShowsCrossing at (reverse log.now))) }
{
    let mut last = FlowMap::new(alloc);
    for (place, crossing) in log.iter().enumerate() {
        if !finds(&last, log, crossing) {
            return Ok(Some(Finding::Crossing(place)));
        }
        note(&mut last, place, crossing)?;
    }
    Ok(None)
}
