//! Which hosts of a network are strangers, by the key `foreign` of its IMPs.

ghost use Rattle.std.specs.Prelude.{◌≡◌, ◌≢◌, ◌<◌, ◌+◌, ◌*◌, ◌/◌, ◌%◌, ◌++◌, [], IfErr, IfOk, OnOk, codes, true};
ghost use Rattle.toml.specs.View.{view, items_view};
ghost use Rattle.toml.specs.Data.{as_array, get};
ghost use Rattle.interface.specs.Host.{most_imps};
ghost use Rattle.topology.specs.Topology.{all_foreign, are_foreign, are_rising, has_host, host_at, is_foreign, is_number};
ghost use Rattle.topology.specs.Topology.{items_at, items_in, most_hosts, named_at, named_in, names, names_host};

use crate::network::{ImpHosts, has_host, number_at, number_of};
use interface::{HostAddr, MOST_HOSTS, MOST_IMPS};
use std::alloc::{AllocError, Global};
use toml::Value;

/// Returns the items of the array that a table has at a key. There are none for anything else.
pub(crate) fn listed<'a>(table: &'a Value, key: &str) -> &'a [Value]
    ensures { items_view result.now ≡ items_at key.now (view table.now) }
{
    match table.get(key) {
        Some(value) => items_of(value),
        None => &[],
    }
}

/// Returns the items of an array. Any other value has none.
fn items_of(value: &Value) -> &[Value]
    ensures { items_view result.now ≡ items_in (as_array (view value.now)) }
{
    match value.as_array() {
        Some(items) => items,
        None => &[],
    }
}

/// Returns whether each IMP names strangers rightly, or none. In a raw network there are none.
pub(crate) fn all_foreign(raw: bool, imps: &[Value]) -> bool
    ensures { result ≡ all_foreign raw (items_view imps.now) }
{
    match imps.split_first() {
        Some((imp, rest)) => are_foreign(raw, imp) && all_foreign(raw, rest),
        None => true,
    }
}

/// Returns whether what an IMP has at its key `foreign` is numbers of its hosts, each once and rising, where it has the
/// key. In a raw network it is no numbers.
fn are_foreign(raw: bool, imp: &Value) -> bool
    ensures { result ≡ are_foreign raw (view imp.now) (get (codes "foreign") (view imp.now)) }
{
    let Some(value) = imp.get("foreign") else {
        return true;
    };
    match (number_at(imp, "hosts"), value.as_array()) {
        (Some(hosts), Some(numbers)) => are_rising(0, if raw { 0 } else { hosts }, numbers),
        _ => false,
    }
}

/// Returns whether values are numbers from the least to below the limit, each greater than the one before.
fn are_rising(least: u8, limit: u8, values: &[Value]) -> bool
    ensures { result ≡ are_rising least limit (items_view values.now) }
{
    let Some((value, rest)) = values.split_first() else {
        return true;
    };
    match number_of(value) {
        Some(number) => least <= number && number < limit && are_rising(number + 1, limit, rest),
        None => false,
    }
}

/// Returns whether an IMP names a host as a stranger.
fn is_foreign(imps: &[Value], host: HostAddr) -> bool
    ensures { result ≡ is_foreign (items_view imps.now) host }
{
    match imps.split_first() {
        Some((imp, rest)) => names_host(imp, host) || is_foreign(rest, host),
        None => false,
    }
}

/// Returns whether this IMP names a host as a stranger.
fn names_host(imp: &Value, host: HostAddr) -> bool
    ensures { result ≡ names_host (view imp.now) host }
{
    is_number(host.imp(), number_at(imp, "id")) && names(host.host(), listed(imp, "foreign"))
}

/// Returns whether an array has a number.
fn names(number: u8, values: &[Value]) -> bool
    ensures { result ≡ names number (items_view values.now) }
{
    match values.split_first() {
        Some((value, rest)) => is_number(number, number_of(value)) || names(number, rest),
        None => false,
    }
}

/// Returns whether this number was found.
fn is_number(number: u8, found: Option<u8>) -> bool
    ensures { result ≡ is_number number found }
{
    match found {
        Some(other) => other == number,
        None => false,
    }
}

/// Returns those of a network's hosts that its IMPs, as a document lists them, name as strangers.
///
/// Errors: `AllocError`, only where one is named.
pub(crate) fn strangers_of(
    alloc: Global,
    network: &[ImpHosts],
    imps: &[Value],
) -> Result<Vec<HostAddr>, AllocError>
    ensures all { IfOk result (λ strangers. strangers.items ≡ named_in (items_view imps.now) network.now) }
    ensures memory { IfErr result (λ _. named_in (items_view imps.now) network.now ≢ []) }
{
    let mut strangers = Vec::new(alloc);
    for place in 0..MOST_IMPS as u8 * MOST_HOSTS {
        push_stranger(&mut strangers, network, imps, place)?;
    }
    Ok(strangers)
}

/// Puts the host of a place at the end, where there is one and it is named as a stranger.
///
/// Errors: `AllocError`, only where it is so.
fn push_stranger(
    found: &mut Vec<HostAddr>,
    network: &[ImpHosts],
    imps: &[Value],
    place: u8,
) -> Result<(), AllocError>
    requires { place < most_imps * most_hosts }
    ensures pushed { OnOk result (found.new.items ≡ found.old.items ++ named_at (items_view imps.now) network.now place) }
    ensures there { IfErr result (λ _. has_host network.now (place / 4 + 1) (place % 4) ≡ true) }
    ensures named { IfErr result (λ _. is_foreign (items_view imps.now) (host_at place) ≡ true) }
{
    let (imp, number) = (place / MOST_HOSTS + 1, place % MOST_HOSTS);
    if has_host(network, imp, number) {
        if let Some(host) = HostAddr::new(number, imp) {
            if is_foreign(imps, host) {
                found.push(host)?;
            }
        }
    }
    Ok(())
}
