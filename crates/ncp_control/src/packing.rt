//! Commands packed into one control message.

ghost use Rattle.std.specs.Prelude.{◌≡◌, IfOk, IfErr, IsTrue, not, take, length, ◌<◌, ◌≤◌};
ghost use Rattle.std.specs.List.{list_all};
ghost use Rattle.ncp_control.specs.Command.{is_alone};
ghost use Rattle.ncp_control.specs.Packing.{packed_count, spellings, AreRead};
ghost use Rattle.ncp_control.specs.declared.fault.ControlFault.TheVariants.{OutOfMemory};

use crate::{Command, ControlFault};
use std::alloc::Global;

/// The most octets of commands that one control message has (NIC 8246, the control link).
pub const MAX_CONTROL_OCTETS: usize = 120;

/// Returns how many commands, from the first on, have room in one control message.
#[tactic(auto, unfolding(crate::specs::Packing::packed_count))]
pub fn packed_count(commands: &[Command]) -> usize
    ensures count { result ≡ packed_count commands.now }
    ensures there { result ≤ length commands.now }
{
    let mut room = MAX_CONTROL_OCTETS;
    for (place, command) in commands.iter().enumerate() {
        let length = command.spelled_len();
        if length > room {
            return place;
        }
        room -= length;
    }
    commands.len()
}

/// Packs the longest prefix of whole commands that has room in one control message. Returns the octets,
/// and how many commands they spell.
///
/// RST and RRP are never packed: each is a message of its own.
///
/// Errors: `OutOfMemory`, and only if there is a command to pack.
pub fn pack(alloc: Global, commands: &[Command]) -> Result<(Vec<u8>, usize), ControlFault>
    requires { IsTrue (list_all (λ c. not (is_alone c)) commands.now) }
    ensures count { IfOk result (λ packed. packed.1 ≡ packed_count commands.now) }
    ensures spelled { IfOk result (λ packed. packed.0.items ≡ spellings (take packed.1 commands.now)) }

    // a reader finds these commands again, and nothing after them
    ensures again { IfOk result (λ packed. AreRead packed.0.items (take packed.1 commands.now)) }

    // no octets take no memory
    ensures memory { IfErr result (λ fault. (fault ≡ OutOfMemory) × (0 < packed_count commands.now)) }
{
    let count = packed_count(commands);
    let (front, _) = commands.split_at(count);
    let mut octets = Vec::new(alloc);
    for command in front {
        command.append_to(&mut octets)?;
    }
    Ok((octets, count))
}
