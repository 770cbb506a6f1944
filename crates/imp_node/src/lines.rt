//! Calls on the ends of lines: what is sent again, the distances that are announced, and ends that go down and up.

ghost use Rattle.std.specs.Prelude.{◌≡◌, ◌<◌, ◌++◌, ◌∷◌, [], true, false, length, map, nat_lt, slice_set, IfOk, OnOk, OnErr, IsSome};
ghost use Rattle.imp_channel.specs.Holding.{packets_in};
ghost use Rattle.imp_channel.specs.Line.{resent, opening_end, frames_of, channel_at};
ghost use Rattle.imp_channel.specs.declared.frame.TheConstants.{ACKS};
ghost use Rattle.routing.specs.RouteTable.{loses};
ghost use Rattle.imp_node.specs.State.{port_at, down_port, with_port};
ghost use Rattle.imp_node.specs.Lines as lines;
ghost use Rattle.imp_node.specs.Lines.{on_port};
ghost use Rattle.imp_node.specs.Turns.{Turned, Takes, sends, resend_grows, route_grows, claim_grows, end_down_grows, end_up_grows};

use crate::outgoing::push_frame;
use crate::port::Port;
use crate::{Imp, Outgoing};
use imp_channel::{CHANNELS, Line};
use interface::CarrierFault;
use routing::Vector;
use std::alloc::{AllocError, Global};

impl Imp {
    /// Returns the frames of all busy channels of live ends once more. It answers the frames to put on lines.
    ///
    /// Errors: only `OutOfMemory`, only where a frame is sent, and then the IMP is spent.
    pub fn resend(&mut self) -> Result<Vec<Outgoing>, CarrierFault>
        requires { self.old.spent ≡ false }
        ensures turn { Turned None (resend_grows self.old) (λ frames. Takes (lines.resend self.old) self.new frames.items) self.old self.new result }
        ensures live { OnOk result (self.new.spent ≡ false) }
    {
        let Ok(frames) = self.resent() else {
            return Err(self.exhaust());
        };
        Ok(frames)
    }

    /// Sends again, and pumps.
    fn resent(&mut self) -> Result<Vec<Outgoing>, AllocError>
        ensures ok { IfOk result (λ frames. Takes (lines.resend self.old) self.new frames.items) }
        ensures memory { OnErr result (resend_grows self.old ≡ true) }
    {
        let spare = self.spare.take(self.alloc);
        let frames = resent_from(spare, &self.ports)?;
        self.pump(frames)
    }

    /// Sends the IMP's distances on each live end. It answers the frames to put on lines.
    ///
    /// Errors: only `OutOfMemory`, only where a frame is sent, and then the IMP is spent.
    pub fn route(&mut self) -> Result<Vec<Outgoing>, CarrierFault>
        requires { self.old.spent ≡ false }
        ensures turn { Turned None (route_grows self.old) (λ frames. Takes (lines.route self.old) self.new frames.items) self.old self.new result }
        ensures live { OnOk result (self.new.spent ≡ false) }
    {
        let Ok(frames) = self.routed() else {
            return Err(self.exhaust());
        };
        Ok(frames)
    }

    /// Tells its distances, and pumps.
    fn routed(&mut self) -> Result<Vec<Outgoing>, AllocError>
        ensures ok { IfOk result (λ frames. Takes (lines.route self.old) self.new frames.items) }
        ensures memory { OnErr result (route_grows self.old ≡ true) }
    {
        let spare = self.spare.take(self.alloc);
        let frames = told_from(spare, &self.routes.vector(), &self.ports)?;
        self.pump(frames)
    }

    /// Claims from now on to be at distance 0 from every IMP. It answers the frames to put on lines.
    ///
    /// Errors: only `OutOfMemory`, only where a frame is sent, and then the IMP is spent.
    pub fn claim(&mut self) -> Result<Vec<Outgoing>, CarrierFault>
        requires { self.old.spent ≡ false }
        ensures turn { Turned None (claim_grows self.old) (λ frames. Takes (lines.claim self.old) self.new frames.items) self.old self.new result }
        ensures live { OnOk result (self.new.spent ≡ false) }
    {
        let Ok(frames) = self.claimed() else {
            return Err(self.exhaust());
        };
        Ok(frames)
    }

    /// Claims it, and pumps.
    fn claimed(&mut self) -> Result<Vec<Outgoing>, AllocError>
        ensures ok { IfOk result (λ frames. Takes (lines.claim self.old) self.new frames.items) }
        ensures memory { OnErr result (claim_grows self.old ≡ true) }
    {
        self.routes.claim();
        self.pump_alone()
    }

    /// Returns how many ports it has.
    pub fn port_count(&self) -> u8
        ensures { result ≡ length self.now.ports }
    {
        self.ports.len() as u8
    }

    /// Returns whether its end at this port is up; an end that isn't there is not.
    pub(crate) fn is_live(&self, port: u8) -> bool
        ensures up { result ≡ (port_at self.now.ports port).up }
        ensures there { result ≡ true → port < length self.now.ports }
    {
        (port as usize) < self.ports.len() && self.ports[port as usize].up
    }

    /// Takes an end down. The packets of its channels wait after those that wait already, for other routes; the end is
    /// as just reset, and the distances that were heard on it are forgotten. It answers the frames to put on lines.
    ///
    /// Errors: `NoSuch` for a port that isn't there, `IsDown` where the end is down. `OutOfMemory` only where a
    /// channel is busy or a frame is sent, and then the IMP is spent.
    pub fn end_down(&mut self, port: u8) -> Result<Vec<Outgoing>, CarrierFault>
        requires { self.old.spent ≡ false }
        ensures turn { Turned (lines.end_down_refusal self.old port) (end_down_grows self.old port) (λ frames. Takes (lines.end_down self.old port) self.new frames.items) self.old self.new result }
        ensures live { OnOk result (self.new.spent ≡ false) }
    {
        if port as usize >= self.ports.len() {
            return Err(CarrierFault::NoSuch);
        }
        if !self.is_live(port) {
            return Err(CarrierFault::IsDown);
        }
        let Ok(frames) = self.ended(port) else {
            return Err(self.exhaust());
        };
        Ok(frames)
    }

    /// Takes an end down, and pumps.
    fn ended(&mut self, port: u8) -> Result<Vec<Outgoing>, AllocError>
        requires { port < length self.old.ports }
        ensures ok { IfOk result (λ frames. Takes (lines.end_down self.old port) self.new frames.items) }
        ensures memory { OnErr result (end_down_grows self.old port ≡ true) }
    {
        let mut packets = reset_port(self.alloc, &mut self.ports, port as usize)?;
        self.routes.lost(port);
        self.store.append(&mut packets)?;
        self.pump_alone()
    }

    /// Brings an end up. It answers the frames to put on lines.
    ///
    /// Errors: `NoSuch` for a port that isn't there, `IsUp` where the end is up. `OutOfMemory` only where a
    /// frame is sent, and then the IMP is spent.
    pub fn end_up(&mut self, port: u8) -> Result<Vec<Outgoing>, CarrierFault>
        requires { self.old.spent ≡ false }
        ensures turn { Turned (lines.end_up_refusal self.old port) (end_up_grows self.old port) (λ frames. Takes (lines.end_up self.old port) self.new frames.items) self.old self.new result }
        ensures live { OnOk result (self.new.spent ≡ false) }
    {
        if port as usize >= self.ports.len() {
            return Err(CarrierFault::NoSuch);
        }
        if self.is_live(port) {
            return Err(CarrierFault::IsUp);
        }
        let Ok(frames) = self.started(port) else {
            return Err(self.exhaust());
        };
        Ok(frames)
    }

    /// Takes an end up, and pumps.
    fn started(&mut self, port: u8) -> Result<Vec<Outgoing>, AllocError>
        requires { port < length self.old.ports }
        ensures ok { IfOk result (λ frames. Takes (lines.end_up self.old port) self.new frames.items) }
        ensures memory { OnErr result (end_up_grows self.old port ≡ true) }
    {
        self.ports[port as usize].up = true;
        self.pump_alone()
    }
}

/// Resets a port and takes it down. The packets of its busy channels are given back.
fn reset_port(
    alloc: Global,
    ports: &mut [Port],
    at: usize,
) -> Result<Vec<packetiser::Packet>, AllocError>
    requires { at < length ports.old }
    ensures ports { OnOk result (ports.new ≡ slice_set ports.old at down_port) }
    ensures packets { IfOk result (λ packets. packets.items ≡ packets_in (port_at ports.old at).line.sending) }
    ensures memory { OnErr result (0 < length (packets_in (port_at ports.old at).line.sending)) }
{
    let port = &mut ports[at];
    let packets = port.line.reset(alloc)?;
    port.up = false;
    Ok(packets)
}

/// Returns the frames of all busy channels of live ports again, in order of ports and channels, put on an empty list.
fn resent_from(mut frames: Vec<Outgoing>, ports: &[Port]) -> Result<Vec<Outgoing>, AllocError>
    requires few { length ports.now < 256 }
    requires none { frames.items ≡ [] }
    ensures ok { IfOk result (λ frames. frames.items ≡ lines.resent_from 0 ports.now) }
    ensures memory { OnErr result (0 < length (lines.resent_from 0 ports.now)) }
{
    for (at, port) in ports.iter().enumerate() {
        push_resent(&mut frames, at as u8, port)?;
    }
    Ok(frames)
}

/// Puts the frames of a port's busy channels after the others, if it is live.
#[tactic(auto, using(crate::proofs::Sending::again_more, crate::proofs::Sending::resent_some))]
fn push_resent(frames: &mut Vec<Outgoing>, at: u8, port: &Port) -> Result<(), AllocError>
    ensures ok { OnOk result (frames.new.items ≡ frames.old.items ++ lines.resent_by at port.now) }
    ensures memory { OnErr result (0 < length (lines.resent_by at port.now)) }
{
    if !port.up {
        return Ok(());
    }
    if port.line.busy_channels() == 0 {
        return Ok(());
    }
    for channel in 0..CHANNELS as u8 {
        push_again(frames, at, &port.line, channel)?;
    }
    Ok(())
}

/// Puts the frame of a channel after the others, if the channel is busy.
fn push_again(
    frames: &mut Vec<Outgoing>,
    at: u8,
    line: &Line,
    channel: u8,
) -> Result<(), AllocError>
    requires { channel < ACKS }
    ensures ok { OnOk result (frames.new.items ≡ frames.old.items ++ map (on_port at) (frames_of line.now channel (channel_at line.now channel).bit (channel_at line.now channel).packet)) }
    ensures memory { OnErr result (IsSome (channel_at line.now channel).packet) }
{
    if let Some(frame) = line.again(channel)? {
        push_frame(frames, at, frame)?;
    }
    Ok(())
}

/// Returns the frames that announce these distances on live ports, in order of ports, put on an empty list.
fn told_from(
    mut frames: Vec<Outgoing>,
    distances: &Vector,
    ports: &[Port],
) -> Result<Vec<Outgoing>, AllocError>
    requires few { length ports.now < 256 }
    requires none { frames.items ≡ [] }
    ensures ok { IfOk result (λ frames. frames.items ≡ lines.told_from distances.now 0 ports.now) }
    ensures memory { OnErr result (0 < length (lines.told_from distances.now 0 ports.now)) }
{
    for (at, port) in ports.iter().enumerate() {
        push_told(&mut frames, distances, at as u8, port)?;
    }
    Ok(frames)
}

/// Puts the frame that announces these distances on a port after the others, if it is live.
fn push_told(
    frames: &mut Vec<Outgoing>,
    distances: &Vector,
    at: u8,
    port: &Port,
) -> Result<(), AllocError>
    ensures ok { OnOk result (frames.new.items ≡ frames.old.items ++ lines.told_by distances.now at port.now) }
    ensures memory { OnErr result (0 < length (lines.told_by distances.now at port.now)) }
{
    if port.up {
        let frame = port.line.routes_frame(distances.clone()?);
        push_frame(frames, at, frame)?;
    }
    Ok(())
}
