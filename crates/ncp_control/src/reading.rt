//! Octets read as a command.

ghost use Rattle.std.specs.Prelude.{◌≡◌, ℕ, ◌+◌, ◌≤◌, length, take, IfOk, Ok};
ghost use Rattle.std.specs.Int.{w16, w32};
ghost use Rattle.ncp_control.specs.Command.{spelling, IsCommand};
ghost use Rattle.ncp_control.specs.Reading.{read_of, length_of, command_of, rts_of, str_of, err_of, number_at, ReachesWithin};

use crate::{
    ByteSize, Command, ConnectionLink, ControlFault, MAX_QUOTED, ReceiveSocket, SendSocket,
};

/// How many octets a command of each code has, with its code octet (NIC 8246, the control commands).
const LENGTHS: [usize; 14] = [1, 10, 10, 9, 8, 4, 8, 2, 2, 2, 2, 12, 1, 1];

/// Reads the command that the octets begin with, and says how many octets it has. What follows the
/// command isn't looked at.
///
/// Errors: `IllegalCode` for a code above 13, `Short` where octets are missing, `Erroneous` for an RTS or
/// STR whose sockets have the wrong parity, an RTS whose link isn't 2 to 31, and an STR of size 0.
#[tactic(auto, unfolding(crate::specs::Reading::read_of))]
pub fn read_one(octets: &[u8]) -> Result<(Command, usize), ControlFault>
    ensures exact { result ≡ read_of octets.now }
    ensures within { ReachesWithin octets.now result }
    ensures spelled { IfOk result (λ read. take read.1 octets.now ≡ spelling read.0) }
    ensures command { IfOk result (λ read. IsCommand read.0) }
{
    let Some(code) = octets.first().copied() else {
        return Err(ControlFault::Short { quoted: 0 });
    };
    let quoted = octets.len().min(MAX_QUOTED);
    if code > 13 {
        return Err(ControlFault::IllegalCode { quoted });
    }
    let length = LENGTHS[code as usize];
    if octets.len() < length {
        return Err(ControlFault::Short { quoted });
    }
    match command_of(code, octets) {
        Some(command) => Ok((command, length)),
        None => Err(ControlFault::Erroneous { quoted: length }),
    }
}

#[tactic(auto, unfolding(crate::specs::Reading::command_of))]
/// Returns the command of this code with the fields that follow it; `None` where a field is outside its range.
fn command_of(code: u8, octets: &[u8]) -> Option<Command>
    requires legal { code ≤ 13 }
    requires whole { length_of code ≤ length octets.now }
    ensures { result ≡ command_of code octets.now }
{
    match code {
        0 => Some(Command::Nop),
        1 => rts_of(octets),
        2 => str_of(octets),
        3 => Some(Command::Cls {
            own: word_at(octets, 1),
            foreign: word_at(octets, 5),
        }),
        4 => Some(Command::All {
            link: octets[1],
            messages: double_at(octets, 2),
            bits: word_at(octets, 4),
        }),
        5 => Some(Command::Gvb {
            link: octets[1],
            messages: octets[2],
            bits: octets[3],
        }),
        6 => Some(Command::Ret {
            link: octets[1],
            messages: double_at(octets, 2),
            bits: word_at(octets, 4),
        }),
        7 => Some(Command::Inr { link: octets[1] }),
        8 => Some(Command::Ins { link: octets[1] }),
        9 => Some(Command::Eco { octet: octets[1] }),
        10 => Some(Command::Erp { octet: octets[1] }),
        11 => Some(err_of(octets)),
        12 => Some(Command::Rst),
        _ => Some(Command::Rrp),
    }
}

/// Returns the RTS in these octets; `None` where a parity or the link is wrong.
fn rts_of(octets: &[u8]) -> Option<Command>
    requires { 10 ≤ length octets.now }
    ensures { result ≡ rts_of octets.now }
{
    Some(Command::Rts {
        receive: ReceiveSocket::new(word_at(octets, 1))?,
        send: SendSocket::new(word_at(octets, 5))?,
        link: ConnectionLink::new(octets[9])?,
    })
}

/// Returns the STR in these octets; `None` where a parity is wrong or the size is 0.
fn str_of(octets: &[u8]) -> Option<Command>
    requires { 10 ≤ length octets.now }
    ensures { result ≡ str_of octets.now }
{
    Some(Command::Str {
        send: SendSocket::new(word_at(octets, 1))?,
        receive: ReceiveSocket::new(word_at(octets, 5))?,
        size: ByteSize::new(octets[9])?,
    })
}

/// Returns the ERR in these octets.
fn err_of(octets: &[u8]) -> Command
    requires { 12 ≤ length octets.now }
    ensures { result ≡ err_of octets.now }
{
    let (_, fields) = octets.split_at(2);
    let (quoted, _) = fields.split_at(MAX_QUOTED);
    let mut detail = [0; MAX_QUOTED];
    detail.copy_from_slice(quoted);
    Command::Err {
        code: octets[1],
        detail,
    }
}

/// Returns the number in the two octets from a place on.
fn double_at(octets: &[u8], place: usize) -> u16
    requires { place + 2 ≤ length octets.now }
    ensures { result ≡ number_at w16 octets.now place }
{
    let (_, rest) = octets.split_at(place);
    u16::from_be_bytes([rest[0], rest[1]])
}

/// Returns the number in the four octets from a place on.
fn word_at(octets: &[u8], place: usize) -> u32
    requires { place + 4 ≤ length octets.now }
    ensures { result ≡ number_at w32 octets.now place }
{
    let (_, rest) = octets.split_at(place);
    u32::from_be_bytes([rest[0], rest[1], rest[2], rest[3]])
}
