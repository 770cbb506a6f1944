//! The leader: the first 32 bits of what crosses the interface (BBN Report 1822, message leaders).

ghost use Rattle.std.specs.Prelude.{◌≡◌, ℕ, List, ◌∷◌, [], ◌++◌, ◌<◌, ◌*◌, ◌+◌, Ok, Err};
ghost use Rattle.leader1822.specs.Leader.{read_from_host, read_from_imp, spelling, as_read, answer_type, regular_leader, answer_leader};

use interface::{Answer, HostAddr, Link};
use thiserror::Error;

/// How many octets a leader has.
pub const LEADER_OCTETS: usize = 4;

/// What a leader says.
#[derive(Clone, Copy, Debug, Drop, PartialEq, Eq)]
pub enum Leader {
    /// No operation: to be ignored.
    Nop,
    /// A message follows. From a host the address is the destination's, from an IMP the source's.
    Regular {
        /// The destination from a host, the source from an IMP.
        address: HostAddr,
        /// The message's link.
        link: Link,
    },
    /// What became of the host's message to this destination on this link.
    Answer {
        /// What became of it.
        kind: Answer,
        /// The message's destination.
        address: HostAddr,
        /// The message's link.
        link: Link,
    },
}

/// Why octets are no leader. Where several apply, the first one here is given.
#[derive(Clone, Copy, Debug, Drop, PartialEq, Eq, Error)]
pub enum LeaderFault {
    /// Fewer than four octets.
    #[error("short leader")]
    ShortLeader,
    /// A type of message that isn't in use in this direction.
    #[error("unknown type {0}")]
    UnknownType(u8),
    /// The IMP's number is 0.
    #[error("bad IMP number")]
    BadImp,
}

impl Leader {
    /// Returns the leader that a host wrote, in the first four octets. The flags and the last octet are ignored.
    ///
    /// Errors: `ShortLeader` below four octets; `UnknownType` for a type other than 0 (regular) and 4
    /// (NOP); `BadImp` for IMP 0, save in a NOP.
    pub fn read_from_host(octets: &[u8]) -> Result<Leader, LeaderFault>
        ensures { result ≡ read_from_host octets.now }
    {
        let [first, address, link, _, ..] = *octets else {
            return Err(LeaderFault::ShortLeader);
        };
        let kind = first % 16;
        match kind {
            0 => regular(address, link),
            4 => Ok(Leader::Nop),
            _ => Err(LeaderFault::UnknownType(kind)),
        }
    }

    /// Returns the leader that an IMP wrote, in the first four octets. The flags and the last octet are ignored.
    ///
    /// Errors: `ShortLeader` below four octets; `UnknownType` for a type other than 0 (regular), 4 (NOP),
    /// 5 (RFNM), 7 (destination dead) and 9 (incomplete transmission); `BadImp` for IMP 0, save in a NOP.
    pub fn read_from_imp(octets: &[u8]) -> Result<Leader, LeaderFault>
        ensures { result ≡ read_from_imp octets.now }
    {
        let [first, address, link, _, ..] = *octets else {
            return Err(LeaderFault::ShortLeader);
        };
        match first % 16 {
            0 => regular(address, link),
            4 => Ok(Leader::Nop),
            5 => answer(Answer::Rfnm, address, link),
            7 => answer(Answer::Dead, address, link),
            9 => answer(Answer::Incomplete, address, link),
            other => Err(LeaderFault::UnknownType(other)),
        }
    }

    /// Returns its four octets, flags and last octet zero. A NOP has all octets but the first zero. `NotTaken` has the
    /// type of `Incomplete`, and is read again as that.
    pub fn write(&self) -> [u8; 4]
        ensures spelled { result ≡ spelling self.now }
        ensures again { (rest : List ℕ) → read_from_imp (result ++ rest) ≡ Ok (as_read self.now) }
    {
        match *self {
            Leader::Nop => [4, 0, 0, 0],
            Leader::Regular { address, link } => [0, address.octet(), link.0, 0],
            Leader::Answer {
                kind,
                address,
                link,
            } => [type_of(kind), address.octet(), link.0, 0],
        }
    }
}

/// Returns the type of message that carries an answer.
fn type_of(kind: Answer) -> u8
    ensures { result ≡ answer_type kind }
{
    match kind {
        Answer::Rfnm => 5,
        Answer::Dead => 7,
        Answer::Incomplete | Answer::NotTaken => 9,
    }
}

/// Returns a regular leader with this address octet.
fn regular(address: u8, link: u8) -> Result<Leader, LeaderFault>
    ensures { result ≡ regular_leader address link }
{
    let address = HostAddr::from_octet(address).ok_or(LeaderFault::BadImp)?;
    Ok(Leader::Regular {
        address,
        link: Link(link),
    })
}

/// Returns the leader of an answer with this address octet.
fn answer(kind: Answer, address: u8, link: u8) -> Result<Leader, LeaderFault>
    ensures { result ≡ answer_leader kind address link }
{
    let address = HostAddr::from_octet(address).ok_or(LeaderFault::BadImp)?;
    Ok(Leader::Answer {
        kind,
        address,
        link: Link(link),
    })
}
