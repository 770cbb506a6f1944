//! What the simulator reads: octets up to a limit, and the topology and the script in them.

ghost use Rattle.std.specs.Prelude.{◌≡◌, ◌≢◌, ◌≤◌, Err, IsUtf8, ◌<◌, ◌↔◌, false, length, IfSome, IfOk, IfErr, MatchResult, OnOk, true};
ghost use Rattle.command_line.specs.Described.{Describes};
ghost use Rattle.command_line.specs.Events.{AsksFor, IsFirstBadIn, are_some, asked_of};
ghost use Rattle.command_line.specs.Input.{IsInput, IsInputFault};
ghost use Rattle.command_line.specs.Reading.{ReadsAll, ReadsFirst};
ghost use Rattle.script.specs.Script.{lines_of};
ghost use Rattle.command_line.specs.Steps.{IsEventsFault, IsNetworkFault, IsReadFault};
ghost use Rattle.toml.specs.Errors.{IsBlank};
ghost use Rattle.topology.specs.Topology.{TopologyFields};

use crate::fault::ScriptFault;
use crate::source::Source;
use script::{LineFault, MAX_INPUT, RawEvent, read_script, split_input};
use std::alloc::Global;
use std::str;
use topology::{Topology, TopologyFault};
use world_script::{WorldEvent, read_world_script};

/// What a script asks for.
#[derive(Drop)]
pub enum Events {
    /// Events of a network without host programs.
    Raw(Vec<RawEvent>),
    /// Events of a network whose hosts have programs.
    World(Vec<WorldEvent>),
}

/// What an input asks for.
#[derive(Drop)]
pub struct Input {
    /// Its topology.
    pub network: Topology,
    /// The events of its script.
    pub events: Events,
}

/// Returns the input that these octets are.
///
/// Errors: `BadTopology` where the octets have no line `%` or begin with no topology,
/// `BadLine` for the first line of the script that is no event, `OutOfMemory`.
pub fn read_input(alloc: Global, octets: &[u8]) -> Result<Input, ScriptFault>
    requires { length octets.now ≤ MAX_INPUT }
    ensures read { IfOk result (λ input. IsInput octets.now input.network (asked_of input.events)) }
    ensures fault { IfErr result (IsInputFault octets.now) }
    ensures read_only { IfErr result (λ f. f ≢ ScriptFault.CannotWrite) }
{
    let Some((topology, script)) = split_input(octets) else {
        return Err(ScriptFault::BadTopology);
    };
    let network = match read_network(alloc, topology) {
        Ok(network) => network,
        Err(fault) => return Err(fault),
    };
    let events = match read_events(alloc, &network, script) {
        Ok(events) => events,
        Err(fault) => return Err(fault),
    };
    Ok(Input { network, events })
}

/// Returns the events that a script asks for, of a network that is raw or has host programs, with strangers or without.
///
/// Errors: `BadLine` for the first line that is no event of such a network, `OutOfMemory`.
fn read_events(alloc: Global, network: &Topology, script: &[u8]) -> Result<Events, ScriptFault>
    requires { length script.now ≤ MAX_INPUT }
    ensures { MatchResult result (λ events. AsksFor network.now.raw (are_some network.now.strangers) (asked_of events) (lines_of script.now)) (IsEventsFault (IsFirstBadIn network.now.raw (are_some network.now.strangers)) script.now) }
{
    let fault = if network.is_raw() {
        match read_script(alloc, script) {
            Ok(events) => return Ok(Events::Raw(events)),
            Err(fault) => fault,
        }
    } else {
        match read_world_script(alloc, script, !network.strangers().is_empty()) {
            Ok(events) => return Ok(Events::World(events)),
            Err(fault) => fault,
        }
    };
    match fault {
        LineFault::BadLine(number) => Err(ScriptFault::BadLine(number)),
        LineFault::OutOfMemory => Err(ScriptFault::OutOfMemory),
    }
}

/// How many octets are asked for at once.
pub(crate) const CHUNK: usize = 4096;

/// Returns all octets that the reader gives. It is asked for one octet more than an input may have, and for none after
/// that.
///
/// Errors: `CannotRead` where a read fails, `TooLong` where there are more octets than an input may have,
/// `OutOfMemory`.
pub fn read_octets<R: Source>(alloc: Global, reader: &mut R) -> Result<Vec<u8>, ScriptFault>
    requires reads { R.failed reader.old ≡ false }
    requires more { R.ended reader.old ≡ false }
    ensures long { IfOk result (λ octets. length octets.items ≤ MAX_INPUT) }
    ensures whole { IfOk result (λ octets. IfSome (R.remaining reader.old) (λ known. octets.items ≡ known)) }
    ensures too_long { result ≡ Err ScriptFault.TooLong → IfSome (R.remaining reader.old) (λ known. MAX_INPUT < length known) }
    ensures fault { IfErr result IsReadFault }
    ensures failed { (result ≡ Err ScriptFault.CannotRead) ↔ (R.failed reader.new ≡ true) }
    ensures reads { ReadsFirst (R.remaining reader.old) (R.remaining reader.new) }
    ensures reads_all { result ≢ Err ScriptFault.CannotRead → result ≢ Err ScriptFault.OutOfMemory → ReadsAll (R.remaining reader.old) (R.remaining reader.new) }
{
    let mut octets = Vec::new(alloc);
    let mut buffer = [0; CHUNK];
    while octets.len() <= MAX_INPUT {
        let room = CHUNK.min(MAX_INPUT + 1 - octets.len());
        let chunk = &mut buffer[..room];
        let count = reader.read(chunk)?;
        if count == 0 {
            return Ok(octets);
        }
        octets.extend_from_slice(&chunk[..count])?;
    }
    Err(ScriptFault::TooLong)
}

/// Returns the topology that a document describes.
///
/// Errors: `BadTopology` for a document that describes none; `OutOfMemory`, only for UTF-8 that isn't blank.
fn read_network(alloc: Global, document: &[u8]) -> Result<Topology, ScriptFault>
    ensures found { IfOk result (λ network. Describes document.now network) }
    ensures refused { result ≡ Err ScriptFault.BadTopology → IsUtf8 document.now → (t : TopologyFields) → ¬ Describes document.now t }
    ensures memory { result ≡ Err ScriptFault.OutOfMemory → IsUtf8 document.now × (¬ IsBlank document.now) }
    ensures fault { IfErr result IsNetworkFault }
{
    let document = str::from_utf8(document).map_err(|_| ScriptFault::BadTopology)?;
    match Topology::read(alloc, document) {
        Ok(network) => Ok(network),
        Err(TopologyFault::BadTopology) => Err(ScriptFault::BadTopology),
        Err(TopologyFault::OutOfMemory) => Err(ScriptFault::OutOfMemory),
    }
}
