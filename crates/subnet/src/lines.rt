//! The lines of a subnet, and where the ports of its IMPs lead.

ghost use Rattle.std.specs.Prelude.{◌≡◌, ◌<◌, ◌∷◌, ℕ, [], length, map, slice_get, slice_set, slice_index_or, IfOk, IfSome, OnOk, OnErr, Some, true};
ghost use Rattle.std.specs.Option.{option_to_list};
ghost use Rattle.subnet.specs.Net.{Wire, wire_at, far_end, frames_on, dropping, port_of, line_from, put_one, put_all};
ghost use Rattle.subnet.specs.Opening as start;
ghost use Rattle.subnet.specs.Inside.Joined.{numbers, lines_from, ports_at, ports_from, AreJoined};
ghost use Rattle.subnet.specs.Inside.Losing.{LosesAllAt};
ghost use Rattle.subnet.specs.Inside.Taking.{hollowed};

use crate::wire::{Ends, Wire};
use imp_channel::Frame;
use imp_node::{Outgoing, Passed};
use interface::Direction;
use std::alloc::{AllocError, Global};
use std::collections::VecDeque;
use std::marker::Model;

/// How many numbers an IMP can have that fit in an octet.
const NUMBERS: usize = 256;

/// The lines at the ports of one IMP, in their order.
#[derive(Drop)]
pub struct PortLines {
    lines: Vec<u8>,
}

impl Model for PortLines {
    ghost use Rattle.std.specs.Prelude.{ℕ, List};

    ghost Value = { List ℕ };

    ghost view = { λ p. p.lines.items };
}

impl PortLines {
    /// Returns the line at this port.
    fn line(&self, port: u8) -> Option<usize>
        ensures { result ≡ slice_get self.now port }
    {
        match self.lines.get(port as usize) {
            Some(line) => Some(*line as usize),
            None => None,
        }
    }
}

/// The ports that are a line's ends at its two IMPs.
#[derive(Clone, Copy, Debug)]
pub struct EndPorts {
    /// The port of its first IMP.
    pub a: u8,
    /// The port of its second IMP.
    pub b: u8,
}

/// All lines, in their order. What their ends determine is beside them: the lines at each IMP's ports, and the
/// ports of each line. So a frame's line and port are read, and not looked for.
#[derive(Drop)]
pub(crate) struct Lines {
    wires: Vec<Wire>,
    by_imp: Vec<PortLines>,
    ports: Vec<EndPorts>,
}

impl Model for Lines {
    ghost use Rattle.std.specs.Prelude.{List};
    ghost use Rattle.subnet.specs.Net.{Wire};
    ghost use Rattle.subnet.specs.Inside.Joined.{AreJoined};

    ghost Value = { List Wire };

    ghost view = { λ l. l.wires.items };

    ghost invariant = { λ l. AreJoined l.wires.items l.by_imp.items l.ports.items };
}

impl Lines {
    /// Returns lines without frames, with these ends.
    #[tactic(auto, using(crate::proofs::Calls::Joining::opened_joined))]
    pub(crate) fn new(alloc: Global, ends: &[Ends]) -> Result<Lines, AllocError>
        requires { length ends.now < 256 }
        ensures { IfOk result (λ lines. lines ≡ map start.empty_wire ends.now) }
    {
        let wires = empty_wires(alloc, ends)?;
        let by_imp = all_port_lines(alloc, &wires)?;
        let ports = end_ports(alloc, &wires)?;
        Ok(Lines {
            wires,
            by_imp,
            ports,
        })
    }

    /// Returns how many there are.
    pub(crate) fn len(&self) -> usize
        ensures { result ≡ length self.now }
    {
        self.wires.len()
    }

    /// Returns all of them, in order.
    pub(crate) fn all(&self) -> &[Wire]
        ensures { result.now ≡ self.now }
    {
        &self.wires
    }

    /// Returns the port that is the far end of a directed line, at the IMP there.
    #[tactic(auto, using(crate::proofs::Calls::Joining::port_read))]
    pub(crate) fn far_port(&self, line: usize, direction: Direction) -> u8
        requires { line < length self.now }
        ensures { result ≡ port_of self.now (far_end direction (wire_at self.now line)) line }
    {
        let ports = self.ports[line];
        match direction {
            Direction::Forward => ports.b,
            Direction::Back => ports.a,
        }
    }

    /// Takes out the oldest frame of a directed line. An empty frame is in its place.
    pub(crate) fn take_first(&mut self, line: usize, direction: Direction) -> Frame
        requires line { line < length self.old }
        requires some { 0 < length (frames_on direction (wire_at self.old line)) }
        ensures frame { slice_get (frames_on direction (wire_at self.old line)) 0 ≡ Some result }
        ensures lines { self.new ≡ slice_set self.old line (hollowed direction (wire_at self.old line)) }
    {
        let wire = &mut self.wires[line];
        wire.take_first(direction)
    }

    /// Loses the frame at a place of a directed line.
    #[inline(always)]
    pub(crate) fn lose(&mut self, line: usize, direction: Direction, place: usize)
        requires line { line < length self.old }
        requires place { place < length (frames_on direction (wire_at self.old line)) }
        ensures { self.new ≡ slice_set self.old line (dropping direction place (wire_at self.old line)) }
    {
        let wire = &mut self.wires[line];
        wire.lose(direction, place);
    }

    /// Puts one frame of an IMP after another on the lines at its ports. The list comes back empty.
    ///
    /// Errors: memory runs out, and nothing else.
    #[tactic(auto, using(crate::proofs::Calls::Putting::none_left))]
    #[inline]
    pub(crate) fn put_all(
        &mut self,
        imp: u8,
        frames: Vec<Outgoing>,
    ) -> Result<Vec<Outgoing>, AllocError>
        ensures ok { OnOk result (self.new ≡ put_all self.old imp frames.items) }
        ensures none { IfOk result (λ spare. spare.items ≡ []) }
        ensures count { length self.new ≡ length self.old }
        ensures memory { OnErr result (0 < length frames.items) }
    {
        let mut queue = VecDeque::from_vec(frames);
        'frames: while let Some(outgoing) = queue.pop_front() {
            self.put_one(imp, outgoing)?;
        }
        Ok(queue.into_vec())
    }

    /// Puts a frame of an IMP on the line at one of its ports.
    #[inline(always)]
    pub(crate) fn put_one(&mut self, imp: u8, outgoing: Outgoing) -> Result<(), AllocError>
        ensures ok { OnOk result (self.new ≡ put_one self.old imp outgoing) }
        ensures count { length self.new ≡ length self.old }
    {
        let Outgoing { port, frame } = outgoing;
        match self.line_at(imp, port) {
            Some(line) => {
                let wire = &mut self.wires[line];
                wire.put(imp, frame)
            }
            None => Ok(()),
        }
    }

    /// Puts on lines what an IMP sends for a packet that it passes on: the acknowledgement, at the port where the packet came in, and
    /// then the packet's frame.
    ///
    /// Errors: memory runs out, and nothing else.
    pub(crate) fn put_passed(&mut self, imp: u8, port: u8, passed: Passed) -> Result<(), AllocError>
        ensures ok { OnOk result (self.new ≡ put_all self.old imp (record { port = port; frame = passed.ack } ∷ option_to_list passed.on)) }
        ensures count { length self.new ≡ length self.old }
    {
        let Passed { ack, on } = passed;
        self.put_one(imp, Outgoing { port, frame: ack })?;
        match on {
            Some(outgoing) => self.put_one(imp, outgoing),
            None => Ok(()),
        }
    }

    /// Returns whether a frame that an IMP puts on the line at one of its ports is lost, since that line is full.
    #[tactic(auto, using(crate::proofs::Calls::Losing::lost_there, crate::proofs::Calls::Losing::lost_nowhere))]
    pub(crate) fn is_full(&self, imp: u8, port: u8) -> bool
        ensures { result ≡ true → LosesAllAt self.now imp port }
    {
        match self.line_at(imp, port) {
            Some(line) => self.wires[line].is_full(imp),
            None => true,
        }
    }

    /// Returns the line at a port of an IMP.
    #[tactic(auto, using(crate::proofs::Calls::Joining::line_read))]
    fn line_at(&self, imp: u8, port: u8) -> Option<usize>
        ensures line { result ≡ line_from 0 self.now imp port }
        ensures there { IfSome result (λ line. line < length self.now) }
    {
        self.by_imp[imp as usize].line(port)
    }
}

/// Returns lines without frames, with these ends.
fn empty_wires(alloc: Global, ends: &[Ends]) -> Result<Vec<Wire>, AllocError>
    ensures lines { IfOk result (λ lines. lines.items ≡ map start.empty_wire ends.now) }
    ensures count { IfOk result (λ lines. length lines.items ≡ length ends.now) }
{
    let mut lines = Vec::new(alloc);
    for end in ends {
        lines.push(Wire::new(alloc, *end))?;
    }
    Ok(lines)
}

/// Returns the lines at the ports of the IMPs of all numbers.
#[tactic(auto, using(crate::proofs::Calls::Joining::read_pushed))]
fn all_port_lines(alloc: Global, wires: &[Wire]) -> Result<Vec<PortLines>, AllocError>
    requires { length wires.now < 256 }
    ensures count { IfOk result (λ lines. length lines.items ≡ numbers) }
    ensures lines { IfOk result (λ lines. (i : ℕ) → i < length lines.items → slice_index_or lines.items i [] ≡ lines_from 0 wires.now i) }
{
    let mut lines = Vec::new(alloc);
    for imp in 0..NUMBERS {
        lines.push(port_lines(alloc, wires, imp as u8)?)?;
    }
    Ok(lines)
}

/// Returns the lines at the ports of an IMP.
fn port_lines(alloc: Global, wires: &[Wire], imp: u8) -> Result<PortLines, AllocError>
    requires { length wires.now < 256 }
    ensures { IfOk result (λ lines. lines ≡ lines_from 0 wires.now imp) }
{
    let mut lines = Vec::new(alloc);
    for (line, wire) in wires.iter().enumerate() {
        if wire.ends_at(imp) {
            lines.push(line as u8)?;
        }
    }
    Ok(PortLines { lines })
}

/// Returns the ports that are the ends of each line.
fn end_ports(alloc: Global, wires: &[Wire]) -> Result<Vec<EndPorts>, AllocError>
    requires { length wires.now < 256 }
    ensures { IfOk result (λ ports. ports.items ≡ ports_from 0 wires.now wires.now) }
{
    let mut ports = Vec::new(alloc);
    for (line, wire) in wires.iter().enumerate() {
        ports.push(ports_at(wires, line, wire))?;
    }
    Ok(ports)
}

/// Returns the ports that are the ends of a line, the one of this place.
fn ports_at(wires: &[Wire], line: usize, wire: &Wire) -> EndPorts
    requires { length wires.now < 256 }
    ensures { result ≡ ports_at wires.now line wire.now }
{
    let ends = wire.ends();
    EndPorts {
        a: port_of(wires, ends.a, line),
        b: port_of(wires, ends.b, line),
    }
}

/// Returns the port of an IMP that is its end of a line: its lines are its ports, in their order.
pub(crate) fn port_of(lines: &[Wire], imp: u8, line: usize) -> u8
    requires { length lines.now < 256 }
    ensures { result ≡ port_of lines.now imp line }
{
    lines
        .iter()
        .take(line)
        .filter(|wire| wire.ends_at(imp))
        .count() as u8
}
