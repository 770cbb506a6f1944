//! Waiting packets go out on lines.

ghost use Rattle.std.specs.Prelude.{◌≡◌, ◌<◌, ◌++◌, length, true, None, IfOk, OnOk, OnErr};
ghost use Rattle.std.specs.Option.{option_to_list};
ghost use Rattle.imp_channel.specs.Line.{submitted};
ghost use Rattle.routing.specs.RouteTable.{next_of};
ghost use Rattle.imp_node.specs.State.{port_at};
ghost use Rattle.imp_node.specs.Pump.{target, sent_on, packet_sent, pumped};

use crate::Outgoing;
use crate::outgoing::push_frame;
use crate::port::Port;
use imp_channel::SubmitFault;
use packetiser::{Packet, PacketKind};
use routing::RouteTable;
use std::alloc::AllocError;

/// Returns the IMP that a packet is for.
pub fn target(packet: &Packet) -> u8
    ensures { result ≡ target packet.now }
{
    let flow = packet.flow();
    match packet.kind() {
        PacketKind::Data | PacketKind::Ask => flow.destination.imp(),
        PacketKind::Rfnm | PacketKind::Dead | PacketKind::Never => flow.source.imp(),
    }
}

/// Puts a packet into the lowest free channel of a port, and its frame after the other frames. Without a free channel
/// it is handed back.
fn send_on(
    ports: &mut [Port],
    at: usize,
    packet: Packet,
    frames: &mut Vec<Outgoing>,
) -> Result<Option<Packet>, AllocError>
    requires there { at < length ports.old }
    requires few { length ports.old < 256 }
    ensures ports { OnOk result (ports.new ≡ (sent_on ports.old at packet (submitted (port_at ports.old at).line packet)).ports) }
    ensures waits { IfOk result (λ back. option_to_list back ≡ (sent_on ports.old at packet (submitted (port_at ports.old at).line packet)).waits) }
    ensures frames { OnOk result (frames.new.items ≡ frames.old.items ++ (sent_on ports.old at packet (submitted (port_at ports.old at).line packet)).frames) }
    ensures memory { OnErr result (0 < length (sent_on ports.old at packet (submitted (port_at ports.old at).line packet)).frames) }
{
    let port = &mut ports[at];
    match port.line.submit(packet) {
        Ok(frame) => {
            push_frame(frames, at as u8, frame)?;
            Ok(None)
        }
        Err(SubmitFault::AllBusy(packet)) => Ok(Some(packet)),
        Err(SubmitFault::OutOfMemory(_)) => Err(AllocError),
    }
}

/// Sends a packet on its route's line, hands it back if that has no free channel, and drops it without a live route.
pub(crate) fn send(
    routes: &RouteTable,
    ports: &mut [Port],
    packet: Packet,
    frames: &mut Vec<Outgoing>,
) -> Result<Option<Packet>, AllocError>
    requires routed { length routes.now.heard ≡ length ports.old }
    requires few { length ports.old < 256 }
    ensures ports { OnOk result (ports.new ≡ (packet_sent ports.old packet (next_of routes.now (target packet))).ports) }
    ensures waits { IfOk result (λ back. option_to_list back ≡ (packet_sent ports.old packet (next_of routes.now (target packet))).waits) }
    ensures frames { OnOk result (frames.new.items ≡ frames.old.items ++ (packet_sent ports.old packet (next_of routes.now (target packet))).frames) }
    ensures memory { OnErr result (0 < length (packet_sent ports.old packet (next_of routes.now (target packet))).frames) }
{
    match routes.next(target(&packet)) {
        Some(at) => send_on(ports, at, packet, frames),
        None => Ok(None),
    }
}

/// Returns whether a packet has a route's line without a free channel, and so keeps waiting.
#[tactic(auto, using(crate::proofs::Pumping::stays))]
fn is_stuck(routes: &RouteTable, ports: &[Port], packet: &Packet) -> bool
    requires { length routes.now.heard ≡ length ports.now }
    ensures { result ≡ true → packet_sent ports.now packet.now (next_of routes.now (target packet.now)) ≡ sent_on ports.now 0 packet.now None }
{
    match routes.next(target(packet)) {
        Some(at) => ports[at].line.is_full(),
        None => false,
    }
}

/// Sends, keeps or drops each waiting packet, in order. The frames go after those that are there.
#[tactic(auto, using(crate::proofs::Pumping::skipped_ports, crate::proofs::Pumping::skipped_waits, crate::proofs::Pumping::skipped_frames))]
#[inline(never)]
pub(crate) fn pump(
    routes: &RouteTable,
    ports: &mut [Port],
    store: &mut Vec<Packet>,
    frames: &mut Vec<Outgoing>,
) -> Result<(), AllocError>
    requires routed { length routes.now.heard ≡ length ports.old }
    requires few { length ports.old < 256 }
    ensures ports { OnOk result (ports.new ≡ (pumped routes.now ports.old store.old.items).ports) }
    ensures store { OnOk result (store.new.items ≡ (pumped routes.now ports.old store.old.items).waits) }
    ensures frames { OnOk result (frames.new.items ≡ frames.old.items ++ (pumped routes.now ports.old store.old.items).frames) }
    ensures memory { OnErr result (0 < length (pumped routes.now ports.old store.old.items).frames) }
{
    let mut at = 0;
    'packets: while at < store.len() {
        if is_stuck(routes, ports, &store[at]) {
            at += 1;
        } else {
            let packet = store.remove(at);
            if let Some(packet) = send(routes, ports, packet, frames)? {
                if store.insert(at, packet).is_err() {
                    unreachable!();
                }
                at += 1;
            }
        }
    }
    Ok(())
}
