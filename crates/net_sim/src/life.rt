//! Lives of connections: each opened end, from its opening on.

ghost use Rattle.std.specs.Prelude.{◌≡◌, ◌+◌, ◌<◌, ◌≤◌, ◌^◌, ◌++◌, ℕ, if◌then◌else◌, OnOk};
ghost use Rattle.net_sim.specs.Book as book;
ghost use Rattle.net_sim.specs.Book.{lives_at, lives_between, lives_with, lives_on, changed_when};
ghost use Rattle.net_sim.specs.Inside.Counts.{IsWithin};
ghost use Rattle.net_sim.specs.Inside.Endings.{ends, turn_by, turned, turns};
ghost use Rattle.net_sim.specs.Inside.Growing.{grown};
ghost use Rattle.net_sim.specs.Inside.Undo.{AreNoted, IsEndNoted, IsNoted, IsTurnNoted, cut_amount, life_back, mark_of};

use crate::tally::Tally;
use crate::undo::{Mark, Undo};
use bit_messages::Bits;
use interface::HostAddr;
use promise::{Amount, BitLog, Fate, Life};
use std::alloc::{AllocError, Global};

/// Which lives of a host end.
#[derive(Drop)]
pub(crate) enum Ending {
    /// That of an end.
    Between {
        /// The host whose lives they are.
        host: HostAddr,
        /// The host's own socket.
        socket: u32,
        /// The host of its partner.
        peer: HostAddr,
        /// The socket of its partner.
        foreign: u32,
    },
    /// Those with a peer.
    With {
        /// The host whose lives they are.
        host: HostAddr,
        /// The peer that they are with.
        peer: HostAddr,
    },
    /// All lives of a host.
    On {
        /// The host whose lives they are.
        host: HostAddr,
    },
}

/// By what a life grows.
#[derive(Drop)]
pub(crate) enum Growth<'a> {
    /// A message that was sent or taken.
    Message {
        /// Its bits.
        bits: &'a Bits,
    },
    /// What was granted.
    Grant {
        /// How many messages.
        messages: u16,
        /// How many bits.
        bits: u32,
    },
    /// What was returned of that.
    Return {
        /// How many messages.
        messages: u16,
        /// How many bits.
        bits: u32,
    },
}

/// By what the fates of lives change.
#[derive(Drop)]
pub(crate) enum Turn {
    /// A user or a service closes the end of its socket.
    Closes {
        /// The host whose life it is.
        host: HostAddr,
        /// Its socket.
        socket: u32,
    },
    /// The end of a life is over by CLS.
    Over {
        /// The host whose life it is.
        host: HostAddr,
        /// Its own socket.
        socket: u32,
        /// The host of its partner.
        peer: HostAddr,
        /// The socket of its partner.
        foreign: u32,
    },
    /// All lives with a peer end.
    Resets {
        /// The host whose lives they are.
        host: HostAddr,
        /// The peer that they are with.
        peer: HostAddr,
    },
    /// All lives of a host end.
    Stops {
        /// The host whose lives they are.
        host: HostAddr,
    },
}

/// Returns an amount of no messages and no bits.
pub(crate) fn nothing() -> Amount
    ensures { result ≡ book.nothing }
{
    Amount {
        messages: 0,
        bits: 0,
    }
}

/// Adds messages and bits, if both counts have room for them.
fn add_to(amount: &mut Amount, messages: u16, bits: u32)
    requires messages { amount.old.messages + messages < 2 ^ 128 }
    requires bits { amount.old.bits + bits < 2 ^ 128 }
    ensures { amount.new ≡ book.more messages bits amount.old }
{
    amount.messages += u128::from(messages);
    amount.bits += u128::from(bits);
}

/// Lowers both counts to what they were.
fn cut_to(amount: &mut Amount, was: &Amount)
    ensures { amount.new ≡ cut_amount was.now amount.old }
{
    amount.messages = amount.messages.min(was.messages);
    amount.bits = amount.bits.min(was.bits);
}

/// Returns whether it is the life of this host's socket: one that has ended is not.
fn is_at(life: &Life, host: HostAddr, socket: u32) -> bool
    ensures { result ≡ lives_at host socket life.now }
{
    host == life.host && life.socket == socket && !life.ended
}

/// Returns whether it is the life of this end.
fn is_between(life: &Life, host: HostAddr, socket: u32, peer: HostAddr, foreign: u32) -> bool
    ensures { result ≡ lives_between host socket peer foreign life.now }
{
    is_at(life, host, socket) && peer == life.peer && life.foreign == foreign
}

/// Returns whether it is a life of this host with this peer.
fn is_with(life: &Life, host: HostAddr, peer: HostAddr) -> bool
    ensures { result ≡ lives_with host peer life.now }
{
    host == life.host && peer == life.peer && !life.ended
}

/// Returns whether it is a life of this host.
fn is_on(life: &Life, host: HostAddr) -> bool
    ensures { result ≡ lives_on host life.now }
{
    host == life.host && !life.ended
}

/// Returns whether it is one of those that end.
fn is_of(life: &Life, ending: &Ending) -> bool
    ensures { result ≡ ends ending.now life.now }
{
    match ending {
        Ending::Between {
            host,
            socket,
            peer,
            foreign,
        } => is_between(life, *host, *socket, *peer, *foreign),
        Ending::With { host, peer } => is_with(life, *host, *peer),
        Ending::On { host } => is_on(life, *host),
    }
}

/// Returns by what the fates change where these lives end.
pub(crate) fn turn_of(ending: &Ending) -> Turn
    ensures { result ≡ turn_by ending.now }
{
    match ending {
        Ending::Between {
            host,
            socket,
            peer,
            foreign,
        } => {
            Turn::Over {
                host: *host,
                socket: *socket,
                peer: *peer,
                foreign: *foreign,
            }
        }
        Ending::With { host, peer } => {
            Turn::Resets {
                host: *host,
                peer: *peer,
            }
        }
        Ending::On { host } => Turn::Stops { host: *host },
    }
}

/// Returns whether the fate of this life changes.
fn is_turned(life: &Life, turn: &Turn) -> bool
    ensures { result ≡ turns turn.now life.now }
{
    match turn {
        Turn::Closes { host, socket } => is_at(life, *host, *socket),
        Turn::Over {
            host,
            socket,
            peer,
            foreign,
        } => is_between(life, *host, *socket, *peer, *foreign),
        Turn::Resets { host, peer } => is_with(life, *host, *peer),
        Turn::Stops { host } => is_on(life, *host),
    }
}

/// Returns the fate of a life whose user closes its end.
fn closing(fate: Fate) -> Fate
    ensures { result ≡ book.closing fate }
{
    match fate {
        Fate::Open => Fate::Closing,
        other => other,
    }
}

/// Returns the fate of a life that is over by CLS.
fn over_by_cls(fate: Fate) -> Fate
    ensures { result ≡ book.over_by_cls fate }
{
    match fate {
        Fate::Closing => Fate::Closed,
        _ => Fate::Ended,
    }
}

/// Returns what the fate changes to.
fn turned_by(turn: &Turn, fate: Fate) -> Fate
    ensures { result ≡ turned turn.now fate }
{
    match turn {
        Turn::Closes { .. } => closing(fate),
        Turn::Over { .. } => over_by_cls(fate),
        Turn::Resets { .. } => Fate::Reset,
        Turn::Stops { .. } => Fate::Stopped,
    }
}

/// Changes the fate of this life if it is one of those whose fate changes, and records what it was.
pub(crate) fn turn_at(
    life: &Life,
    at: usize,
    turn: &Turn,
    fate: &mut Fate,
    done: &mut Vec<Undo>,
) -> Result<(), AllocError>
    ensures done { OnOk result (fate.new ≡ (if turns turn.now life.now then turned turn.now fate.old else fate.old)) }
    ensures noted { IsTurnNoted at done.old.items fate.old done.new.items fate.new }
{
    if !is_turned(life, turn) {
        return Ok(());
    }
    done.push(Undo::Turned { at, was: *fate })?;
    *fate = turned_by(turn, *fate);
    Ok(())
}

/// Ends this life if it is one of those that end, and records that.
pub(crate) fn end_at(
    life: &mut Life,
    at: usize,
    ending: &Ending,
    done: &mut Vec<Undo>,
) -> Result<(), AllocError>
    ensures done { OnOk result (life.new ≡ changed_when (ends ending.now life.old) book.life_ended life.old) }
    ensures noted { IsEndNoted at done.old.items life.old done.new.items life.new }
    ensures within { (n : ℕ) → IsWithin n life.old → IsWithin n life.new }
{
    if !is_of(life, ending) {
        return Ok(());
    }
    done.push(Undo::Ended { at })?;
    life.ended = true;
    Ok(())
}

/// Returns its counts.
fn mark(life: &Life) -> Mark
    ensures { result ≡ mark_of life.now }
{
    Mark {
        bits: life.bits.len(),
        messages: life.messages,
        granted: life.granted,
        returned: life.returned,
    }
}

/// Restores the counts, which have only grown since.
pub(crate) fn put_back(life: &mut Life, was: &Mark)
    ensures { life.new ≡ life_back was.now life.old }
{
    life.bits.cut(was.bits);
    life.messages = life.messages.min(was.messages);
    cut_to(&mut life.granted, &was.granted);
    cut_to(&mut life.returned, &was.returned);
}

/// Lets a life grow, where it is that of the socket. How it was is noted.
pub(crate) fn grow_at(
    life: &mut Life,
    at: usize,
    host: HostAddr,
    socket: u32,
    growth: &Growth,
    changes: &mut Tally,
    done: &mut Vec<Undo>,
) -> Result<(), AllocError>
    requires { IsWithin changes.old life.old }
    ensures done { OnOk result (life.new ≡ changed_when (lives_at host socket life.old) (grown growth.now) life.old) }
    ensures noted { IsNoted at done.old.items life.old done.new.items life.new }
    ensures within { IsWithin changes.new life.new }
    ensures more { changes.old ≤ changes.new }
{
    if !is_at(life, host, socket) {
        return Ok(());
    }
    changes.add_one()?;
    done.push(Undo::Changed {
        at,
        was: mark(life),
    })?;
    match growth {
        Growth::Message { bits } => {
            life.bits.append(bits)?;
            life.messages += 1;
        }
        Growth::Grant { messages, bits } => add_to(&mut life.granted, *messages, *bits),
        Growth::Return { messages, bits } => add_to(&mut life.returned, *messages, *bits),
    }
    Ok(())
}

/// Adds bits that were handed over to be sent at a socket. How many there were is noted.
pub(crate) fn hand_at(
    life: &Life,
    at: usize,
    host: HostAddr,
    socket: u32,
    bits: &Bits,
    handed: &mut BitLog,
    done: &mut Vec<Undo>,
) -> Result<(), AllocError>
    ensures done { OnOk result (handed.new ≡ (if lives_at host socket life.now then handed.old ++ bits.now else handed.old)) }
    ensures noted { AreNoted at done.old.items handed.old done.new.items handed.new }
{
    if !is_at(life, host, socket) {
        return Ok(());
    }
    done.push(Undo::Handed {
        at,
        bits: handed.len(),
    })?;
    handed.append(bits)
}
