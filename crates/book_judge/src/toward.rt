//! Whether lives toward strangers keep what may be asked of them.

ghost use Rattle.std.specs.Prelude.{◌≡◌, MatchBool, MatchOption};
ghost use Rattle.interface.specs.Host.{is_host};
ghost use Rattle.book_judge.specs.Toward.{AreToward, IsToward, UntowardAt};

use crate::data::receives;
use crate::sought::is_granted;
use crate::streams::is_handed;
use interface::HostAddr;
use net_sim::{BitLog, Life};

/// Returns whether a host is one of these.
fn is_among(hosts: &[HostAddr], host: HostAddr) -> bool
    ensures { result ≡ is_host hosts.now host }
{
    hosts.iter().any(|other| host == *other)
}

/// Returns whether a life is of a host with a program, and if its peer is a stranger, whether it took what it granted, or
/// sent what was handed over in it.
fn is_toward(strangers: &[HostAddr], life: &Life, handed: &BitLog) -> bool
    ensures { MatchBool result (IsToward (λ h. is_host strangers.now h) life.now handed.now) (IsToward (λ h. is_host strangers.now h) life.now handed.now → ⊥) }
{
    let own = is_among(strangers, life.host);
    let peer = is_among(strangers, life.peer);
    if own {
        return false;
    }
    if !peer {
        return true;
    }
    if receives(life) {
        return is_granted(life, life.messages, life.bits.len());
    }
    is_handed(life, handed)
}

/// Returns the place of the first life that is a stranger's, or that is toward a stranger, and took more than it granted or
/// sent something else than was handed over in it, counted from 0; `None` where there is none. Each life has a list of
/// what was handed over; those without one aren't looked at.
pub fn untoward_at(strangers: &[HostAddr], lives: &[Life], handed: &[BitLog]) -> Option<usize>
    ensures { MatchOption result (AreToward (λ h. is_host strangers.now h) lives.now handed.now) (λ place. UntowardAt (λ h. is_host strangers.now h) lives.now handed.now place) }
{
    for (place, life) in lives.iter().enumerate() {
        let Some(text) = handed.get(place) else {
            return None;
        };
        if !is_toward(strangers, life, text) {
            return Some(place);
        }
    }
    None
}
