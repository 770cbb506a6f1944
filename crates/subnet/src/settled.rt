//! Networks in which a quiet round changes nothing.

ghost use Rattle.std.specs.Prelude.{◌≡◌, ◌<◌, ℕ, length, false, true, Some};
ghost use Rattle.std.specs.List.{list_all};
ghost use Rattle.interface.specs.Host.{is_host};
ghost use Rattle.interface.specs.declared.event.Direction.{Direction};
ghost use Rattle.imp_node.specs.State.{port_at};
ghost use Rattle.subnet.specs.Net.{imp_at};
ghost use Rattle.subnet.specs.Events as events;
ghost use Rattle.subnet.specs.Inside.Resting.{TakesNone, TakesNoneAt, is_away};
ghost use Rattle.subnet.specs.Inside.Settled as settled;
ghost use Rattle.subnet.specs.Inside.Settled.{IsFree, IsStill, IsStillOn, is_silent, waits_at};

use crate::parts::Parts;
use crate::stuck::only_waits;
use crate::wire::Wire;
use imp_node::Imp;
use interface::{Direction, HostAddr};

impl Parts {
    /// Returns whether no frame is on a line, each packet that waits in an IMP is stuck, and where both ends of a line are
    /// up, nothing new goes over it. A quiet round then changes nothing: what it sends again is lost at ends that are down.
    #[tactic(auto, using(crate::proofs::Calls::Settled::round_rests))]
    pub(crate) fn is_settled(&self) -> bool
        ensures { result ≡ true → events.quiet_round self.now ≡ self.now }
    {
        all_silent(self.lines.all()) && all_wait(&self.imps) && self.all_are_still()
    }

    /// Returns whether a taking of any host of the network but these is refused, or gives nothing and changes nothing.
    pub(crate) fn all_take_nothing(&self, hosts: &[HostAddr]) -> bool
        ensures { result ≡ true → (i : ℕ) → i < length self.now.hosts → TakesNoneAt self.now hosts.now i }
    {
        let count = self.hosts.all().len();
        for at in 0..count {
            if !self.takes_nothing_at(at, hosts) {
                return false;
            }
        }
        true
    }

    /// Returns whether this is so of the host at this place, or it is one of these.
    fn takes_nothing_at(&self, at: usize, hosts: &[HostAddr]) -> bool
        requires { at < length self.now.hosts }
        ensures { result ≡ true → TakesNoneAt self.now hosts.now at }
    {
        self.takes_nothing_beside(&self.hosts.all()[at], hosts)
    }

    /// Returns whether this is so of a host, or it is one of these.
    fn takes_nothing_beside(&self, host: &HostAddr, hosts: &[HostAddr]) -> bool
        ensures { result ≡ true → is_host hosts.now host.now ≡ false → TakesNone self.now host.now }
    {
        self.takes_nothing(host) || hosts.contains(host)
    }

    /// Returns whether this host is down, or its IMP is, or nothing waits for it and all packets in its IMP are stuck.
    #[tactic(auto, using(crate::proofs::Calls::Restful::away_takes, crate::proofs::Calls::Restful::empty_takes))]
    fn takes_nothing(&self, host: &HostAddr) -> bool
        ensures { result ≡ true → TakesNone self.now host.now }
    {
        self.is_away(host) || self.has_nothing_for(host)
    }

    /// Returns whether a host of an IMP is down, or the IMP is.
    fn is_away(&self, host: &HostAddr) -> bool
        ensures { result ≡ is_away (imp_at self.now.imps host.now.imp) host.now.host }
    {
        match self.imp(host.imp()) {
            Some(imp) => !imp.is_up(host.host()),
            None => true,
        }
    }

    /// Returns whether nothing new goes over any line, either way.
    fn all_are_still(&self) -> bool
        ensures { result ≡ true → (l : ℕ) (d : Direction) → l < length self.now.lines → IsStillOn self.now l d }
    {
        let lines = self.lines.len();
        for line in 0..lines {
            if !self.is_still(line) {
                return false;
            }
        }
        true
    }

    /// Returns whether nothing new goes over a line, either way.
    #[tactic(auto, using(crate::proofs::Calls::Settled::both_still))]
    fn is_still(&self, line: usize) -> bool
        requires { line < length self.now.lines }
        ensures { result ≡ true → (d : Direction) → IsStillOn self.now line d }
    {
        self.is_still_on(line, Direction::Forward) && self.is_still_on(line, Direction::Back)
    }

    /// Returns whether nothing new goes one way over a line: an end is down, or the IMP at the far end has heard last what the
    /// other would announce, and no packet waits at either end for its acknowledgement.
    #[tactic(auto, using(crate::proofs::Calls::Settled::still_at))]
    fn is_still_on(&self, line: usize, direction: Direction) -> bool
        requires { line < length self.now.lines }
        ensures { result ≡ true → IsStillOn self.now line direction }
    {
        let back = other_way(direction);
        let Some(from) = self.imp(self.far_end(line, back)) else {
            return true;
        };
        let Some(to) = self.imp(self.far_end(line, direction)) else {
            return true;
        };
        let port = self.far_port(line, direction);
        let from_port = self.far_port(line, back);
        are_still(from, from_port, to, port)
    }
}

/// Returns whether an end of a line is down, or nothing new goes from the first to the second.
#[tactic(auto, using(crate::proofs::Calls::Settled::near_down, crate::proofs::Calls::Settled::far_down))]
fn are_still(from: &Imp, from_port: u8, to: &Imp, port: u8) -> bool
    ensures { result ≡ true → IsStill (Some from.now) from_port (Some to.now) port }
{
    if !is_up(from, from_port) {
        return true;
    }
    if !is_up(to, port) {
        return true;
    }
    is_free(from, from_port) && is_free(to, port) && to.has_heard(port, from, from_port)
}

/// Returns whether an IMP's end of a line is up.
fn is_up(imp: &Imp, port: u8) -> bool
    ensures { result ≡ (port_at imp.now.ports port).up }
{
    let at = port as usize;
    at < imp.ports().len() && imp.ports()[at].up
}

/// Returns whether no packet waits at an IMP's end of a line for its acknowledgement.
fn is_free(imp: &Imp, port: u8) -> bool
    ensures { result ≡ true → IsFree imp.now port }
{
    let at = port as usize;
    at < imp.ports().len() && imp.ports()[at].line.busy_channels() == 0
}

/// Returns the other direction of a line.
fn other_way(direction: Direction) -> Direction
    ensures { result ≡ settled.other_way direction }
{
    match direction {
        Direction::Forward => Direction::Back,
        Direction::Back => Direction::Forward,
    }
}

/// Returns whether no frame is on any of these lines.
fn all_silent(lines: &[Wire]) -> bool
    ensures { result ≡ list_all is_silent lines.now }
{
    lines.iter().all(|wire| is_silent(wire))
}

/// Returns whether no frame is on a line.
fn is_silent(wire: &Wire) -> bool
    ensures { result ≡ is_silent wire.now }
{
    wire.live(Direction::Forward) == 0 && wire.live(Direction::Back) == 0
}

/// Returns whether in each of these IMPs the packets that wait are stuck.
fn all_wait(imps: &[Option<Imp>]) -> bool
    ensures { result ≡ list_all waits_at imps.now }
{
    imps.iter().all(|imp| waits_at(imp))
}

/// Returns whether an IMP is down, or each packet that waits in it is stuck.
fn waits_at(imp: &Option<Imp>) -> bool
    ensures { result ≡ waits_at imp.now }
{
    match imp {
        Some(imp) => only_waits(imp),
        None => true,
    }
}
