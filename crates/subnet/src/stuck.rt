//! IMPs in which each packet that waits is stuck: its route goes by a line without a free channel.

ghost use Rattle.std.specs.Prelude.{◌≡◌, ◌<◌, length, None, true};
ghost use Rattle.std.specs.List.{list_all};
ghost use Rattle.imp_node.specs.Arrival.{ignored};
ghost use Rattle.imp_node.specs.State.{host_at};
ghost use Rattle.imp_node.specs.Taking.{first_of, next_for, to_host, to_host_refusal};
ghost use Rattle.subnet.specs.Inside.Settled as settled;

use imp_node::{Host, Imp, target};
use packetiser::Packet;

/// Returns whether each packet that waits in an IMP is stuck.
pub(crate) fn only_waits(imp: &Imp) -> bool
    ensures { result ≡ settled.only_waits imp.now }
{
    all_stuck(imp, imp.store())
}

/// Returns whether a host of an IMP is up, nothing waits for it, and each packet that waits in the IMP is stuck. A taking of
/// the host is then not refused, gives nothing and changes nothing.
#[tactic(auto, using(crate::proofs::Calls::Stuck::stuck_takes))]
pub(crate) fn gives_nothing(imp: &Imp, host: u8) -> bool
    ensures accepted { result ≡ true → to_host_refusal imp.now host ≡ None }
    ensures nothing { result ≡ true → next_for imp.now host ≡ None }
    ensures unchanged { result ≡ true → to_host imp.now host ≡ ignored imp.now }
{
    if !imp.is_up(host) {
        return false;
    }
    if !has_none_for(imp, host) {
        return false;
    }
    only_waits(imp)
}

/// Returns whether nothing waits for a host of an IMP, which is there.
fn has_none_for(imp: &Imp, host: u8) -> bool
    ensures { result ≡ true → next_for imp.now host ≡ None }
{
    let at = host as usize;
    at < imp.hosts().len() && is_empty(&imp.hosts()[at])
}

/// Returns whether nothing waits for a host.
#[tactic(auto, using(crate::proofs::Calls::Stuck::none_first))]
fn is_empty(host: &Host) -> bool
    ensures { result ≡ true → first_of host.now.answers host.now.queue ≡ None }
{
    host.answer_count() == 0 && host.message_count() == 0
}

/// Returns whether each of these packets is stuck where it waits in an IMP.
fn all_stuck(imp: &Imp, packets: &[Packet]) -> bool
    ensures { result ≡ list_all (settled.is_stuck imp.now) packets.now }
{
    packets.iter().all(|packet| is_stuck(imp, packet))
}

/// Returns whether a packet that waits in an IMP is stuck.
fn is_stuck(imp: &Imp, packet: &Packet) -> bool
    ensures { result ≡ settled.is_stuck imp.now packet.now }
{
    match imp.routes().next(target(packet)) {
        Some(port) => is_full_at(imp, port),
        None => false,
    }
}

/// Returns whether no channel of an IMP's end of a line is free.
fn is_full_at(imp: &Imp, port: usize) -> bool
    ensures { result ≡ settled.is_full_at imp.now port }
{
    port < imp.ports().len() && imp.ports()[port].line.is_full()
}
