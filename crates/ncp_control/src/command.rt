//! The fourteen commands, and their octets.

ghost use Rattle.std.specs.Prelude.{◌≡◌, ◌++◌, OnOk, MatchResult, length, slice_index, List, ℕ, IfOk, Ok};
ghost use Rattle.ncp_control.specs.declared.fault.ControlFault.TheVariants.{OutOfMemory};

use crate::writing::{append_counts, append_error, append_request, append_sockets};
use crate::{ByteSize, ConnectionLink, ControlFault, ReceiveSocket, SendSocket};
use std::alloc::{AllocError, Global};

/// How many octets an ERR quotes.
pub const MAX_QUOTED: usize = 10;

/// A control command (NIC 8246, the control commands). "Own" and "foreign" are seen from the command's
/// sender. Its type keeps the ranges of the format, so what reading calls erroneous is no `Command`.
#[derive(Clone, Copy, Debug, PartialEq, Eq)]
pub enum Command {
    /// No operation: to be ignored.
    Nop,
    /// The receiving end asks for a connection, and names the link.
    Rts {
        receive: ReceiveSocket,
        send: SendSocket,
        link: ConnectionLink,
    },
    /// The sending end asks for a connection, and names the byte size.
    Str {
        send: SendSocket,
        receive: ReceiveSocket,
        size: ByteSize,
    },
    /// Either end closes a connection, or refuses one that was asked for.
    Cls {
        own: u32,
        foreign: u32,
    },
    /// The receiver grants this many messages and bits more.
    All {
        link: u8,
        messages: u16,
        bits: u32,
    },
    /// The receiver asks for parts of the allocation back, in 128ths.
    Gvb {
        link: u8,
        messages: u8,
        bits: u8,
    },
    /// The sender returns this many messages and bits.
    Ret {
        link: u8,
        messages: u16,
        bits: u32,
    },
    /// The receiver interrupts the sender.
    Inr {
        link: u8,
    },
    /// The sender interrupts the receiver.
    Ins {
        link: u8,
    },
    /// Asks the other host to send this octet back.
    Eco {
        octet: u8,
    },
    /// Sends the octet of an ECO back.
    Erp {
        octet: u8,
    },
    /// Reports an error in what the other host sent: the kind of the error, and the octets with it.
    Err {
        code: u8,
        detail: [u8; MAX_QUOTED],
    },
    /// Asks the other host to forget all connections of the two hosts.
    Rst,
    /// Answers an RST: the connections are forgotten.
    Rrp,
}

impl Command {
    ghost use Rattle.ncp_control.specs.Command.{spelling, IsCommand, is_alone, detail_of};
    ghost use Rattle.ncp_control.specs.Reading.{read_of};
    ghost use Rattle.ncp_control.specs.declared.command.Command.TheVariants as command;

    /// Returns whether the command is the only one in its message: RST and RRP.
    pub fn is_alone(&self) -> bool
        ensures { result ≡ is_alone self.now }
    {
        matches!(self, Command::Rst | Command::Rrp)
    }

    /// Returns the ERR that reports an error in these octets: the first ten, filled with zeros.
    pub fn error(code: u8, octets: &[u8]) -> Command
        ensures { result ≡ command.Err code (detail_of octets.now) }
    {
        let (quoted, _) = octets.split_at(octets.len().min(MAX_QUOTED));
        let mut detail = [0; MAX_QUOTED];
        detail[..quoted.len()].copy_from_slice(quoted);
        Command::Err { code, detail }
    }

    /// Returns the octets that spell it.
    #[tactic(auto, using(crate::proofs::Readings::again))]
    pub fn write(&self, alloc: Global) -> Result<Vec<u8>, ControlFault>
        ensures spelled { MatchResult result (λ octets. octets.items ≡ spelling self.now) (λ fault. fault ≡ OutOfMemory) }

        // what was written is read again, whatever follows it
        ensures again { IfOk result (λ octets. (rest : List ℕ) → read_of (octets.items ++ rest) ≡ Ok (self.now, length octets.items)) }
    {
        let mut octets = Vec::new(alloc);
        self.append_to(&mut octets)?;
        Ok(octets)
    }

    /// Returns how many octets it has.
    pub fn spelled_len(&self) -> usize
        ensures { result ≡ length (spelling self.now) }
    {
        match self {
            Command::Nop | Command::Rst | Command::Rrp => 1,
            Command::Inr { .. } | Command::Ins { .. } | Command::Eco { .. } | Command::Erp { .. } =>
                2,
            Command::Gvb { .. } => 4,
            Command::All { .. } | Command::Ret { .. } => 8,
            Command::Cls { .. } => 9,
            Command::Rts { .. } | Command::Str { .. } => 10,
            Command::Err { detail, .. } => {
                let detail: &[u8] = detail;
                2 + detail.len()
            }
        }
    }

    /// Puts its octets at the end.
    pub(crate) fn append_to(&self, octets: &mut Vec<u8>) -> Result<(), AllocError>
        ensures spelled { OnOk result (octets.new.items ≡ octets.old.items ++ spelling self.now) }
        ensures command { IsCommand self.now }
    {
        match self {
            Command::Nop => octets.extend_from_slice(&[0]),
            Command::Rts {
                receive,
                send,
                link,
            } => append_request(octets, 1, receive.number(), send.number(), link.number()),
            Command::Str {
                send,
                receive,
                size,
            } => append_request(octets, 2, send.number(), receive.number(), size.bits()),
            Command::Cls { own, foreign } => append_sockets(octets, 3, *own, *foreign),
            Command::All {
                link,
                messages,
                bits,
            } => append_counts(octets, 4, *link, *messages, *bits),
            Command::Gvb {
                link,
                messages,
                bits,
            } => octets.extend_from_slice(&[5, *link, *messages, *bits]),
            Command::Ret {
                link,
                messages,
                bits,
            } => append_counts(octets, 6, *link, *messages, *bits),
            Command::Inr { link } => octets.extend_from_slice(&[7, *link]),
            Command::Ins { link } => octets.extend_from_slice(&[8, *link]),
            Command::Eco { octet } => octets.extend_from_slice(&[9, *octet]),
            Command::Erp { octet } => octets.extend_from_slice(&[10, *octet]),
            Command::Err { code, detail } => append_error(octets, *code, detail),
            Command::Rst => octets.extend_from_slice(&[12]),
            Command::Rrp => octets.extend_from_slice(&[13]),
        }
    }
}
