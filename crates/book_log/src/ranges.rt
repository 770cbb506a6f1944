//! That the values of crossings, lives and lists are in the ranges that a log describes. Their types have no other values, so nothing is
//! tested here: each function reads what it is given, and its contract is what the types say.

ghost use Rattle.std.specs.Prelude.{◌<◌, ◌^◌};
ghost use Rattle.script.specs.Spelling.{IsFlow, IsHost, IsMessage};
ghost use Rattle.book_log.specs.Log.{IsAmount, IsCrossing, IsHanded, IsLife};

use interface::{Crossing, Flow, HostAddr, HostMessage};
use net_sim::{Amount, BitLog, Life};

/// Proves that a crossing names hosts, links and texts that can exist.
pub(crate) fn has_crossing_ranges(crossing: &Crossing)
    ensures { IsCrossing crossing.now }
{
    match crossing {
        Crossing::Out(message) | Crossing::In(message) => has_message_ranges(message),
        Crossing::Answer(_, flow) => has_flow_ranges(*flow),
        Crossing::Down(host) | Crossing::Up(host) => has_host_range(*host),
    }
}

/// Proves that a host has a number from 0 to 3, at an IMP from 1 to 63.
fn has_host_range(host: HostAddr)
    ensures { IsHost host }
{
    let _ = host.imp();
    let _ = host.host();
}

/// Proves that both hosts are in their range, and that the link has 8 bits.
fn has_flow_ranges(flow: Flow)
    ensures { IsFlow flow }
{
    has_host_range(flow.source);
    has_host_range(flow.destination);
}

/// Proves that the flow is in its ranges, and that the text has at most 8063 bits.
fn has_message_ranges(message: &HostMessage)
    ensures { IsMessage message.now }
{
    has_flow_ranges(message.flow);
    let _ = message.text.bits();
}

/// Proves that a socket has 32 bits.
fn has_socket_range(socket: u32)
    ensures { socket < 2 ^ 32 }
{}

/// Proves that a place has 64 bits.
fn has_place_range(place: usize)
    ensures { place < 2 ^ 64 }
{}

/// Proves that a count has 128 bits.
fn has_count_range(count: u128)
    ensures { count < 2 ^ 128 }
{}

/// Proves that both counts have 128 bits.
fn has_amount_ranges(amount: Amount)
    ensures { IsAmount amount }
{
    has_count_range(amount.messages);
    has_count_range(amount.bits);
}

/// Proves that the list is counted by 64 bits.
pub(crate) fn has_list_range(bits: &BitLog)
    ensures { IsHanded bits.now }
{
    let _ = bits.len();
}

/// Proves that a life names hosts that can exist, sockets of 32 bits, places and a length of 64, and counts of 128.
pub(crate) fn has_life_ranges(life: &Life)
    ensures { IsLife life.now }
{
    has_host_range(life.host);
    has_host_range(life.peer);
    has_list_range(&life.bits);
    has_amount_ranges(life.granted);
    has_amount_ranges(life.returned);
    has_socket_range(life.socket);
    has_socket_range(life.foreign);
    has_place_range(life.own_stamp);
    has_place_range(life.partner_stamp);
    has_count_range(life.messages);
}
