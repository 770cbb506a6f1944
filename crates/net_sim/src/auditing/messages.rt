//! Whether each message was taken once.

ghost use Rattle.std.specs.Prelude.{◌≡◌, length, reverse, take};
ghost use Rattle.net_sim.specs.Inside.Audit as tests;
ghost use Rattle.net_sim.specs.Inside.Audit.{Found, same_bits, crossing_holds};

use bit_messages::Bits;
use interface::{Answer, Crossing, Flow, HostMessage};

/// Returns whether these are the same bits.
fn same_bits(a: &Bits, b: &Bits) -> bool
    ensures { result ≡ tests.same_bits a.now b.now }
{
    a.len() == b.len() && a.as_octets() == b.as_octets()
}

/// Returns whether the flow's last message out has this text and wasn't taken yet.
fn is_fresh(message: &HostMessage, log: &[Crossing]) -> bool
    ensures { result ≡ tests.is_fresh message.now (reverse log.now) }
{
    let mut at = log.len();
    'back: while at > 0 {
        at -= 1;
        match &log[at] {
            Crossing::Out(out) if out.flow == message.flow => {
                return same_bits(out.text.bits(), message.text.bits());
            }
            Crossing::In(taken) if taken.flow == message.flow => return false,
            _ => {}
        }
    }
    false
}

/// Returns whether a message was taken on the flow since its last message out.
fn was_taken(flow: Flow, log: &[Crossing]) -> bool
    ensures { result ≡ tests.was_taken flow (reverse log.now) }
{
    let mut at = log.len();
    'back: while at > 0 {
        at -= 1;
        match &log[at] {
            Crossing::Out(out) if out.flow == flow => return false,
            Crossing::In(taken) if taken.flow == flow => return true,
            _ => {}
        }
    }
    false
}

/// Returns whether a crossing finds what it has to, in the log below it.
fn crossing_holds(crossing: &Crossing, log: &[Crossing]) -> bool
    ensures { result ≡ tests.crossing_holds crossing.now (reverse log.now) }
{
    match crossing {
        Crossing::In(message) => is_fresh(message, log),
        Crossing::Answer(Answer::Rfnm, flow) => was_taken(*flow, log),
        Crossing::Answer(Answer::Incomplete | Answer::Dead | Answer::NotTaken, _)
        | Crossing::Out(_)
        | Crossing::Down(_)
        | Crossing::Up(_) => true,
    }
}

/// Returns the place of the first crossing that doesn't find what it has to.
pub(super) fn break_at(log: &[Crossing]) -> Option<usize>
    ensures { Found (λ n. tests.messages_hold (reverse (take n log.now))) (length log.now) result }
{
    for (at, crossing) in log.iter().enumerate() {
        if !crossing_holds(crossing, &log[..at]) {
            return Some(at);
        }
    }
    None
}

/// Returns whether each message was taken once.
pub(super) fn messages_hold(log: &[Crossing]) -> bool
    ensures { result ≡ tests.messages_hold (reverse log.now) }
{
    break_at(log).is_none()
}
