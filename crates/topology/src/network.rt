//! Which IMPs, hosts and lines a network has.

ghost use Rattle.std.specs.Prelude.{◌≡◌, ◌≢◌, ◌↔◌, ◌==◌, ◌*◌, ◌≤◌, not, true, Some, None, Err, ◌/◌, ◌%◌, ◌+◌, ◌<◌};
ghost use Rattle.std.specs.Prelude.{◌++◌, [], IfOk, IfErr, OnOk, codes, length};
ghost use Rattle.std.specs.List.{All, list_any, list_all, cons_option};
ghost use Rattle.toml.specs.View.{view, items_view};
ghost use Rattle.toml.specs.Data.{get};
ghost use Rattle.toml.specs.Errors.{IsBlank, IsMemory};
ghost use Rattle.interface.specs.Calls.{InOrder};
ghost use Rattle.interface.specs.Host.{is_host, most_imps};
ghost use Rattle.topology.specs.Topology.{TopologyFields, most_hosts, most_network_lines, hosts_of, has_host};
ghost use Rattle.topology.specs.Topology.{topology_in, topology_of, naming, network_of, ArePicked, number_of, imp_of, imps_of};
ghost use Rattle.topology.specs.Topology.{size, has, one_if, known_members, carrier_of, raw_of};
ghost use Rattle.topology.specs.Topology.{number_at, host_if, hosts_from, site_of, sites_of, AreSites, is_imp, is_line};
ghost use Rattle.topology.specs.Topology.{each_of, line_of, lines_of, are_imps, is_there, are_lines};
ghost use Rattle.topology.specs.Topology.{are_apart, joins_same, has_ports, line_count, by_number, imp_of_number};
ghost use Rattle.topology.specs.Reading.{Described, DescribedIn, MemoryLast};

use crate::strangers::{all_foreign, listed, strangers_of};
use interface::{HostAddr, MOST_HOSTS, MOST_IMPS};
use std::alloc::{AllocError, AllocFailed, Global};
use std::marker::Model;
use thiserror::Error;
use toml::Value;

/// The most lines that an IMP has: a limit of the networks here.
pub const MOST_LINES: usize = 5;

/// What carries the messages between the hosts.
#[derive(Clone, Copy, Debug, PartialEq, Eq)]
pub enum CarrierKind {
    /// One mailbox for each flow, and nothing between.
    Plain,
    /// IMPs and lines.
    Subnet,
}

/// An IMP and its hosts.
#[derive(Clone, Copy, Debug, PartialEq, Eq)]
pub struct ImpHosts {
    /// The IMP's number, 1 to [`MOST_IMPS`].
    pub imp: u8,
    /// How many hosts it has, 0 to 4. They are numbered from 0.
    pub hosts: u8,
}

/// The two IMPs that a line joins.
#[derive(Clone, Copy, Debug, PartialEq, Eq)]
pub struct LineEnds {
    /// The number of its first IMP.
    pub a: u8,
    /// The number of its second IMP.
    pub b: u8,
}

/// A network's IMPs by rising number, its lines in order, what carries its messages, and which of its hosts are
/// strangers, that run no program of these. The rules of a network hold of every value.
#[derive(Debug, Drop)]
pub struct Topology {
    carrier: CarrierKind,
    raw: bool,
    imps: Vec<ImpHosts>,
    lines: Vec<LineEnds>,
    strangers: Vec<HostAddr>,
}

impl Model for Topology {
    ghost use Rattle.topology.specs.Topology.{TopologyFields, IsTopology};

    ghost Value = { TopologyFields };

    ghost view = { λ t. record { carrier = t.carrier; raw = t.raw; imps = t.imps.items; lines = t.lines.items; strangers = t.strangers.items } };

    ghost invariant = { λ t. IsTopology (record { carrier = t.carrier; raw = t.raw; imps = t.imps.items; lines = t.lines.items; strangers = t.strangers.items }) };
}

/// Why there is no topology.
#[derive(Clone, Copy, Debug, Drop, PartialEq, Eq, Error)]
pub enum TopologyFault {
    /// The text is not a TOML document, or the document doesn't describe a topology.
    #[error("bad topology")]
    BadTopology,
    /// No memory was left.
    #[error("out of memory")]
    OutOfMemory,
}

impl From<AllocError> for TopologyFault {
    ghost use Rattle.topology.specs.declared.network.TopologyFault.TheVariants.{OutOfMemory};

    ghost from_gives = { λ _ e. e ≡ OutOfMemory };

    fn from(_error: AllocError) -> TopologyFault {
        TopologyFault::OutOfMemory
    }
}

impl<T: Drop> From<AllocFailed<T>> for TopologyFault {
    ghost use Rattle.topology.specs.declared.network.TopologyFault.TheVariants.{OutOfMemory};

    ghost from_gives = { λ _ e. e ≡ OutOfMemory };

    fn from(_error: AllocFailed<T>) -> TopologyFault {
        TopologyFault::OutOfMemory
    }
}

impl Topology {
    /// Returns the topology that this TOML document describes. Each IMP may have a key `foreign`, with the numbers of its
    /// strangers.
    ///
    /// Errors: `BadTopology` where the text is no TOML 1.1 document or describes no topology. `OutOfMemory` may
    /// come for any text that isn't blank, since its values are put in memory.
    pub fn read(alloc: Global, text: &str) -> Result<Topology, TopologyFault>
        ensures described { Described (topology_in text.now) result }
        ensures memory { result ≡ Err TopologyFault.OutOfMemory → ¬ IsBlank text.now }
    {
        match toml::table_from_str(alloc, text) {
            Ok(table) => Topology::from_document(alloc, &Value::Table(table)),
            Err(error) => Err(fault_of(&error)),
        }
    }

    /// Returns the topology that a document's value describes.
    ///
    /// Errors: `BadTopology`; `OutOfMemory`, only for a document that lists an IMP.
    fn from_document(alloc: Global, document: &Value) -> Result<Topology, TopologyFault>
        ensures described { Described (topology_of (view document.now)) result }
        ensures memory { result ≡ Err TopologyFault.OutOfMemory → has (codes "imp") (view document.now) ≡ true }
    {
        let network = Topology::network_of(alloc, document)?;
        network.naming(alloc, listed(document, "imp"))
    }

    /// Returns the network that a document's value describes, without strangers, whichever its IMPs name.
    ///
    /// Errors: `BadTopology`; `OutOfMemory`, only for a document that lists an IMP.
    fn network_of(alloc: Global, document: &Value) -> Result<Topology, TopologyFault>
        ensures described { Described (network_of (view document.now)) result }
        ensures memory { result ≡ Err TopologyFault.OutOfMemory → has (codes "imp") (view document.now) ≡ true }
    {
        if size(document) != known_members(document) {
            return Err(TopologyFault::BadTopology);
        }
        let carrier = carrier_of(document).ok_or(TopologyFault::BadTopology)?;
        let raw = raw_of(document).ok_or(TopologyFault::BadTopology)?;
        let listed = imps_of(alloc, document)?;
        let lines = lines_of(alloc, document)?;
        let imps = by_number(alloc, &listed)?;
        if imps.len() == listed.len() && are_imps(&imps) && are_lines(&imps, &lines) {
            Ok(Topology {
                carrier,
                raw,
                imps,
                lines,
                strangers: Vec::new(alloc),
            })
        } else {
            Err(TopologyFault::BadTopology)
        }
    }

    /// Returns the topology with the strangers that its IMPs name, as a document lists them.
    ///
    /// Errors: `BadTopology` where an IMP names hosts wrongly, or any in a raw network; `OutOfMemory`, only where nothing
    /// is refused.
    fn naming(mut self, alloc: Global, imps: &[Value]) -> Result<Topology, TopologyFault>
        ensures described { Described (naming (items_view imps.now) self) result }
        ensures memory { MemoryLast (naming (items_view imps.now) self) result }
    {
        if !all_foreign(self.raw, imps) {
            return Err(TopologyFault::BadTopology);
        }
        self.strangers = strangers_of(alloc, &self.imps, imps)?;
        Ok(self)
    }

    /// Returns what carries the messages.
    pub fn carrier(&self) -> CarrierKind
        ensures { result ≡ self.now.carrier }
    {
        self.carrier
    }

    /// Returns whether the script sends and takes messages itself, without host programs.
    pub fn is_raw(&self) -> bool
        ensures { result ≡ self.now.raw }
    {
        self.raw
    }

    /// Returns the IMPs with their hosts, by rising number.
    pub fn imps(&self) -> &[ImpHosts]
        ensures { result.now ≡ self.now.imps }
    {
        &self.imps
    }

    /// Returns all hosts, by IMP and then by number.
    ///
    /// Errors: `AllocError`, only where there is a host.
    pub fn hosts(&self, alloc: Global) -> Result<Vec<HostAddr>, AllocError>
        ensures all { IfOk result (λ hosts. hosts.items ≡ hosts_of self.now) }
        ensures ordered { IfOk result (λ hosts. InOrder hosts.items) }
        ensures memory { IfErr result (λ _. hosts_of self.now ≢ []) }
    {
        let mut hosts = Vec::new(alloc);
        for place in 0..MOST_IMPS as u8 * MOST_HOSTS {
            push_host(&mut hosts, &self.imps, place)?;
        }
        Ok(hosts)
    }

    /// Returns the hosts that are strangers, by IMP and then by number. A raw network has none.
    pub fn strangers(&self) -> &[HostAddr]
        ensures all { result.now ≡ self.now.strangers }
        ensures there { All (λ h. is_host (hosts_of self.now) h ≡ true) self.now.strangers }
        ensures picked { ArePicked (hosts_of self.now) self.now.strangers }
        ensures raw { self.now.raw ≡ true → self.now.strangers ≡ [] }
    {
        &self.strangers
    }

    /// By number, from 0 to [`MOST_IMPS`]: how many hosts the IMP of that number has, where there is one.
    ///
    /// Errors: `AllocError`.
    pub fn sites(&self, alloc: Global) -> Result<Vec<Option<u8>>, AllocError>
        ensures all { IfOk result (λ sites. sites.items ≡ sites_of self.now) }
        ensures kept { IfOk result (λ sites. AreSites sites.items) }
        ensures listed { IfOk result (λ sites. hosts_of self.now ≡ hosts_from 0 sites.items) }
    {
        let mut sites = Vec::new(alloc);
        for number in 0..=MOST_IMPS as u8 {
            sites.push(site_of(&self.imps, number))?;
        }
        Ok(sites)
    }

    /// Returns the lines, in the order of the document: at most half as many as [`MOST_IMPS`] have ends for, 157. They
    /// are numbered from 0.
    pub fn lines(&self) -> &[LineEnds]
        ensures all { result.now ≡ self.now.lines }
        ensures few { length result.now ≤ most_network_lines }
    {
        &self.lines
    }
}

/// Returns why a text is not a document, as a fault of a topology: only running out of memory is reported as such.
fn fault_of(error: &toml::de::Error) -> TopologyFault
    ensures memory { (result ≡ TopologyFault.OutOfMemory) ↔ IsMemory error.now }
{
    if error.is_memory() {
        TopologyFault::OutOfMemory
    } else {
        TopologyFault::BadTopology
    }
}

/// Returns how many members a table has. Any other value has 0.
fn size(value: &Value) -> usize
    ensures { result ≡ size (view value.now) }
{
    match value.as_table() {
        Some(table) => table.len(),
        None => 0,
    }
}

/// Returns whether a table has a member with this key.
fn has(value: &Value, key: &str) -> bool
    ensures { result ≡ has key.now (view value.now) }
{
    value.get(key).is_some()
}

/// Returns how many of the four keys of a topology a document has.
fn known_members(document: &Value) -> usize
    ensures { result ≡ known_members (view document.now) }
{
    usize::from(has(document, "carrier"))
        + usize::from(has(document, "raw"))
        + usize::from(has(document, "imp"))
        + usize::from(has(document, "line"))
}

/// Returns the carrier that a document names. It is a subnet where the document names none. `None` for any other name.
fn carrier_of(document: &Value) -> Option<CarrierKind>
    ensures { result ≡ carrier_of (get (codes "carrier") (view document.now)) }
{
    let Some(value) = document.get("carrier") else {
        return Some(CarrierKind::Subnet);
    };
    let name = value.as_str()?;
    if name == "plain" {
        Some(CarrierKind::Plain)
    } else if name == "subnet" {
        Some(CarrierKind::Subnet)
    } else {
        None
    }
}

/// Returns the value of `raw`: whether the network has no host programs. It is false without the key, and `None` for a
/// value that is not a boolean.
fn raw_of(document: &Value) -> Option<bool>
    ensures { result ≡ raw_of (get (codes "raw") (view document.now)) }
{
    match document.get("raw") {
        Some(value) => value.as_bool(),
        None => Some(false),
    }
}

/// Returns the number from 0 to 255 that a table has at a key. `None` for anything else.
pub(crate) fn number_at(table: &Value, key: &str) -> Option<u8>
    ensures { result ≡ number_at key.now (view table.now) }
{
    number_of(table.get(key)?)
}

/// Returns the number from 0 to 255 that a value is. `None` for anything else.
pub(crate) fn number_of(value: &Value) -> Option<u8>
    ensures { result ≡ number_of (view value.now) }
{
    u8::try_from(value.as_integer()?).ok()
}

/// Returns the IMP that a table with the keys `id` and `hosts`, and perhaps `foreign`, describes.
fn imp_of(value: &Value) -> Option<ImpHosts>
    ensures { result ≡ imp_of (view value.now) }
{
    if size(value) != 2 + usize::from(has(value, "foreign")) {
        return None;
    }
    Some(ImpHosts {
        imp: number_at(value, "id")?,
        hosts: number_at(value, "hosts")?,
    })
}

/// Returns the line that a table with the keys `a` and `b` describes.
fn line_of(value: &Value) -> Option<LineEnds>
    ensures { result ≡ line_of (view value.now) }
{
    if size(value) != 2 {
        return None;
    }
    Some(LineEnds {
        a: number_at(value, "a")?,
        b: number_at(value, "b")?,
    })
}

/// Returns the IMPs of a document, in its order.
fn imps_of(alloc: Global, document: &Value) -> Result<Vec<ImpHosts>, TopologyFault>
    ensures described { DescribedIn (imps_of (get (codes "imp") (view document.now))) result }
    ensures memory { result ≡ Err TopologyFault.OutOfMemory → has (codes "imp") (view document.now) ≡ true }
{
    let Some(listed) = document.get("imp") else {
        return Err(TopologyFault::BadTopology);
    };
    match listed.as_array() {
        Some(values) => each_imp(alloc, values),
        None => Err(TopologyFault::BadTopology),
    }
}

/// Returns the IMPs that these values describe.
fn each_imp(alloc: Global, values: &[Value]) -> Result<Vec<ImpHosts>, TopologyFault>
    ensures { DescribedIn (each_of imp_of (items_view values.now)) result }
{
    let mut imps = Vec::new(alloc);
    for value in values {
        let Some(imp) = imp_of(value) else {
            return Err(TopologyFault::BadTopology);
        };
        imps.push(imp)?;
    }
    Ok(imps)
}

/// Returns the lines of a document, in its order. There are none where it has no key for them.
fn lines_of(alloc: Global, document: &Value) -> Result<Vec<LineEnds>, TopologyFault>
    ensures { DescribedIn (lines_of (get (codes "line") (view document.now))) result }
{
    let Some(listed) = document.get("line") else {
        return Ok(Vec::new(alloc));
    };
    match listed.as_array() {
        Some(values) => each_line(alloc, values),
        None => Err(TopologyFault::BadTopology),
    }
}

/// Returns the lines that these values describe.
fn each_line(alloc: Global, values: &[Value]) -> Result<Vec<LineEnds>, TopologyFault>
    ensures { DescribedIn (each_of line_of (items_view values.now)) result }
{
    let mut lines = Vec::new(alloc);
    for value in values {
        let Some(line) = line_of(value) else {
            return Err(TopologyFault::BadTopology);
        };
        lines.push(line)?;
    }
    Ok(lines)
}

/// Returns whether these are 1 to [`MOST_IMPS`] IMPs, with such numbers and at most 4 hosts each.
fn are_imps(imps: &[ImpHosts]) -> bool
    ensures { result ≡ are_imps imps.now }
{
    1 <= imps.len() && imps.len() <= MOST_IMPS && all_imps(imps)
}

/// Returns whether each of these IMPs is numbered 1 to [`MOST_IMPS`] and has at most 4 hosts.
fn all_imps(imps: &[ImpHosts]) -> bool
    ensures { result ≡ list_all is_imp imps.now }
{
    imps.iter().all(is_imp)
}

/// Returns whether an IMP is numbered 1 to [`MOST_IMPS`] and has at most 4 hosts.
fn is_imp(imp: &ImpHosts) -> bool
    ensures { result ≡ is_imp imp.now }
{
    1 <= imp.imp && usize::from(imp.imp) <= MOST_IMPS && imp.hosts <= MOST_HOSTS
}

/// Returns whether there is an IMP with this number.
fn is_there(imps: &[ImpHosts], number: u8) -> bool
    ensures { result ≡ is_there imps.now number }
{
    imps.iter().any(|other| other.imp == number)
}

/// Returns whether lines join IMPs that are there, no two the same, and no IMP has more than five.
fn are_lines(imps: &[ImpHosts], lines: &[LineEnds]) -> bool
    ensures { result ≡ are_lines imps.now lines.now }
{
    join_imps(imps, lines) && are_apart(lines) && has_ports(imps, lines)
}

/// Returns whether each of these lines joins two IMPs that are there.
fn join_imps(imps: &[ImpHosts], lines: &[LineEnds]) -> bool
    ensures { result ≡ list_all (is_line imps.now) lines.now }
{
    lines.iter().all(|line| is_line(imps, line))
}

/// Returns whether a line joins two IMPs that are there.
fn is_line(imps: &[ImpHosts], line: &LineEnds) -> bool
    ensures { result ≡ is_line imps.now line.now }
{
    line.a != line.b && is_there(imps, line.a) && is_there(imps, line.b)
}

/// Returns whether no two of these lines join the same IMPs.
fn are_apart(lines: &[LineEnds]) -> bool
    ensures { result ≡ are_apart lines.now }
{
    match lines.split_first() {
        Some((first, rest)) => !is_joined(rest, first) && are_apart(rest),
        None => true,
    }
}

/// Returns whether one of these lines joins the same IMPs as this one.
fn is_joined(lines: &[LineEnds], line: &LineEnds) -> bool
    ensures { result ≡ list_any (joins_same line.now) lines.now }
{
    lines.iter().any(|other| (other.a == line.a && other.b == line.b)
        || (other.a == line.b && other.b == line.a))
}

/// Returns whether no IMP has more than five lines.
fn has_ports(imps: &[ImpHosts], lines: &[LineEnds]) -> bool
    ensures { result ≡ has_ports imps.now lines.now }
{
    imps.iter()
        .all(|imp| line_count(lines, imp.imp) <= MOST_LINES)
}

/// Returns how many of these lines end at an IMP.
fn line_count(lines: &[LineEnds], number: u8) -> usize
    ensures { result ≡ line_count lines.now number }
{
    lines
        .iter()
        .filter(|line| line.a == number || line.b == number)
        .count()
}

/// Returns the IMPs by rising number.
fn by_number(alloc: Global, imps: &[ImpHosts]) -> Result<Vec<ImpHosts>, AllocError>
    ensures { IfOk result (λ sorted. sorted.items ≡ by_number imps.now) }
{
    let mut sorted = Vec::new(alloc);
    for number in 0..=MOST_IMPS as u8 {
        push_found(&mut sorted, imp_of_number(imps, number))?;
    }
    Ok(sorted)
}

/// Puts an IMP that was found at the end.
fn push_found(imps: &mut Vec<ImpHosts>, found: Option<ImpHosts>) -> Result<(), AllocError>
    ensures { OnOk result (imps.new.items ≡ imps.old.items ++ cons_option found []) }
{
    if let Some(imp) = found {
        imps.push(imp)?;
    }
    Ok(())
}

/// Returns the IMP with this number.
fn imp_of_number(imps: &[ImpHosts], number: u8) -> Option<ImpHosts>
    ensures { result ≡ imp_of_number imps.now number }
{
    imps.iter().copied().find(|imp| imp.imp == number)
}

/// Returns how many hosts the IMP with this number has, where there is one.
fn site_of(imps: &[ImpHosts], number: u8) -> Option<u8>
    ensures { result ≡ site_of imps.now number }
{
    imp_of_number(imps, number).map(|imp| imp.hosts)
}

/// Returns whether there is an IMP with this number that has a host with this number.
pub(crate) fn has_host(imps: &[ImpHosts], number: u8, host: u8) -> bool
    ensures { result ≡ has_host imps.now number host }
{
    imps.iter().any(|imp| imp.imp == number && host < imp.hosts)
}

/// Puts the host of a place at the end, where there is one. Each IMP has four places, from IMP 1 on.
///
/// Errors: `AllocError`, only where it is there.
fn push_host(hosts: &mut Vec<HostAddr>, imps: &[ImpHosts], place: u8) -> Result<(), AllocError>
    requires { place < most_imps * most_hosts }
    ensures pushed { OnOk result (hosts.new.items ≡ hosts.old.items ++ host_if (has_host imps.now (place / 4 + 1) (place % 4)) (record { imp = place / 4 + 1; host = place % 4 })) }
    ensures memory { IfErr result (λ _. has_host imps.now (place / 4 + 1) (place % 4) ≡ true) }
{
    let (imp, number) = (place / MOST_HOSTS + 1, place % MOST_HOSTS);
    if has_host(imps, imp, number) {
        if let Some(host) = HostAddr::new(number, imp) {
            hosts.push(host)?;
        }
    }
    Ok(())
}
