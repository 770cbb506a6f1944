//! What of a log may change how far lives are: commands, failures and stops.

ghost use Rattle.std.specs.Prelude.{◌≡◌, ◌∷◌, ◌++◌, ◌<◌, ◌≤◌, [], IfOk, OnOk};
ghost use Rattle.std.specs.Prelude.{drop, length, reverse};
ghost use Rattle.host_pairs.specs.Control.{orders_of};
ghost use Rattle.book_judge.specs.Inside.Deeds as tests;
ghost use Rattle.book_judge.specs.Inside.Deeds.{LeavesDeeds};

use bit_messages::Bits;
use host_pairs::control_octets;
use interface::{Answer, Crossing, Flow, HostAddr, HostMessage, Link};
use ncp_control::{Command, ControlFault, read_one};
use std::alloc::{AllocError, Global};

/// What a host does, or what comes to it. Of a command it says whether the host takes it, and else the host sends it.
#[derive(Clone, Copy, Drop)]
pub(super) enum Act {
    /// The request of two sockets, its sender's own and the foreign one.
    Asks { comes: bool, own: u32, foreign: u32 },
    /// The CLS of them.
    Closes { comes: bool, own: u32, foreign: u32 },
    /// RST.
    Resets { comes: bool },
    /// The host sends RRP.
    Replies,
    /// A message to its peer fails.
    Fails,
    /// It stops.
    Stops,
    /// It starts.
    Starts,
}

/// An act of a host, where it crossed.
#[derive(Clone, Copy, Drop)]
pub(super) struct Deed {
    /// The place of the crossing.
    pub place: usize,
    pub host: HostAddr,
    /// The host itself, where the act is about no other.
    pub peer: HostAddr,
    pub act: Act,
}

/// Returns what a command is that a host takes or sends; `None` where it changes no life.
fn act_of(comes: bool, command: &Command) -> Option<Act>
    ensures { result ≡ tests.act_of comes command.now }
{
    match command {
        Command::Rts { receive, send, .. } => Some(Act::Asks {
            comes,
            own: receive.number(),
            foreign: send.number(),
        }),
        Command::Str { send, receive, .. } => Some(Act::Asks {
            comes,
            own: send.number(),
            foreign: receive.number(),
        }),
        Command::Cls { own, foreign } => Some(Act::Closes {
            comes,
            own: *own,
            foreign: *foreign,
        }),
        Command::Rst => Some(Act::Resets { comes }),
        Command::Rrp if !comes => Some(Act::Replies),
        _ => None,
    }
}

/// Returns an act of a host, at a place.
fn deed_at(place: usize, host: HostAddr, peer: HostAddr, act: Act) -> Deed
    ensures { result ≡ tests.deed place host peer act }
{
    Deed {
        place,
        host,
        peer,
        act,
    }
}

/// Puts one at the end.
///
/// Errors: `AllocError`.
fn push(deeds: &mut Vec<Deed>, deed: Deed) -> Result<(), AllocError>
    ensures { OnOk result (deeds.new.items ≡ deeds.old.items ++ deed ∷ []) }
{
    deeds.push(deed)?;
    Ok(())
}

/// Puts an act at the end, if there is one.
///
/// Errors: `AllocError`.
fn push_act(
    deeds: &mut Vec<Deed>,
    place: usize,
    host: HostAddr,
    peer: HostAddr,
    act: Option<Act>,
) -> Result<(), AllocError>
    ensures { OnOk result (deeds.new.items ≡ deeds.old.items ++ tests.with_act place host peer act []) }
{
    match act {
        Some(act) => push(deeds, deed_at(place, host, peer, act)),
        None => Ok(()),
    }
}

/// Puts the command at the end that the octets begin with, if it is one. Returns how many octets are read by it: all
/// of them, where the reading ends.
///
/// Errors: `AllocError`.
#[tactic(auto, using(crate::proofs::Identities::Named::orders_of_none))]
fn add_first(
    deeds: &mut Vec<Deed>,
    comes: bool,
    place: usize,
    host: HostAddr,
    peer: HostAddr,
    octets: &[u8],
) -> Result<usize, AllocError>
    requires { 0 < length octets.now }
    ensures first { IfOk result (LeavesDeeds comes place host peer octets.now deeds.old.items deeds.new.items) }
    ensures some { IfOk result (λ read. 0 < read) }
    ensures there { IfOk result (λ read. read ≤ length octets.now) }
{
    match read_one(octets) {
        Ok((command, used)) => {
            push_act(deeds, place, host, peer, act_of(comes, &command))?;
            Ok(used)
        }
        Err(ControlFault::Erroneous { quoted }) => Ok(quoted),
        Err(ControlFault::IllegalCode { .. } | ControlFault::Short { .. }) => Ok(octets.len()),
        Err(ControlFault::OutOfMemory) => unreachable!(),
    }
}

/// Puts the commands of a text at the end.
///
/// Errors: `AllocError`.
fn add_orders(
    deeds: &mut Vec<Deed>,
    comes: bool,
    place: usize,
    host: HostAddr,
    peer: HostAddr,
    text: &Bits,
) -> Result<(), AllocError>
    ensures { OnOk result (deeds.new.items ≡ deeds.old.items ++ tests.deeds_by comes place host peer (orders_of text.now)) }
{
    let Some(octets) = control_octets(text) else {
        return Ok(());
    };
    let mut rest = octets;
    'orders: while !rest.is_empty() {
        let read = add_first(deeds, comes, place, host, peer, rest)?;
        (_, rest) = rest.split_at(read);
    }
    Ok(())
}

/// Puts the commands of a message at the end, of which it has none on another link than 0.
///
/// Errors: `AllocError`.
fn add_message(
    deeds: &mut Vec<Deed>,
    comes: bool,
    place: usize,
    message: &HostMessage,
) -> Result<(), AllocError>
    ensures { OnOk result (deeds.new.items ≡ deeds.old.items ++ tests.deeds_of comes place message.now) }
{
    let Flow {
        source,
        destination,
        link,
    } = message.flow;
    if Link(0) != link {
        return Ok(());
    }
    let text = message.text.bits();
    if comes {
        add_orders(deeds, true, place, destination, source, text)
    } else {
        add_orders(deeds, false, place, source, destination, text)
    }
}

/// Puts what crossed at a place at the end.
///
/// Errors: `AllocError`.
fn add(deeds: &mut Vec<Deed>, place: usize, crossing: &Crossing) -> Result<(), AllocError>
    ensures { OnOk result (deeds.new.items ≡ deeds.old.items ++ tests.deeds_at place crossing.now) }
{
    match crossing {
        Crossing::Out(message) => add_message(deeds, false, place, message),
        Crossing::In(message) => add_message(deeds, true, place, message),
        Crossing::Answer(Answer::Rfnm, _) => Ok(()),
        Crossing::Answer(_, flow) => {
            let Flow {
                source,
                destination,
                ..
            } = *flow;
            push(deeds, deed_at(place, source, destination, Act::Fails))
        }
        Crossing::Down(host) => push(deeds, deed_at(place, *host, *host, Act::Stops)),
        Crossing::Up(host) => push(deeds, deed_at(place, *host, *host, Act::Starts)),
    }
}

/// Returns all that may change how far a life is, the oldest first. The log is the oldest first.
///
/// Errors: `AllocError`.
pub(super) fn deeds_of(alloc: Global, log: &[Crossing]) -> Result<Vec<Deed>, AllocError>
    ensures { IfOk result (λ deeds. deeds.items ≡ tests.deeds_in (reverse log.now)) }
{
    let mut deeds = Vec::new(alloc);
    for (place, crossing) in log.iter().enumerate() {
        add(&mut deeds, place, crossing)?;
    }
    Ok(deeds)
}
