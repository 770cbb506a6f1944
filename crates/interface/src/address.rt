//! Who speaks to whom: IMP numbers, host addresses, links and flows.

ghost use Rattle.std.specs.Prelude.{◌≡◌, ℕ, ◌+◌, ◌*◌, ◌/◌, ◌%◌, ◌≤◌, ◌==◌, ◌&&◌, nat_le, Option, Some, None, if◌then◌else◌};
ghost use Rattle.interface.specs.Host.{Host, host_at, imp_at, host_of_octet, address_octet};

use std::fmt;
use std::marker::Model;

/// The number of an IMP: 1 to 63 (BBN Report 1822, the leader's six bits; 0 is no IMP).
#[derive(Clone, Copy, Debug, PartialEq, Eq, PartialOrd, Ord)]
pub struct ImpNumber {
    number: u8,
}

impl Model for ImpNumber {
    ghost Value = { ℕ };

    ghost view = { λ i. i.number };

    ghost invariant = { λ i. (1 ≤ i.number) × (i.number ≤ 63) };

    ghost inverse = { λ n. record { number = n } };
}

impl ImpNumber {
    /// Returns the IMP with this number; `None` outside 1 to 63.
    pub fn new(number: u8) -> Option<ImpNumber>
        ensures { result ≡ imp_at number }
    {
        if (1..=63).contains(&number) {
            Some(ImpNumber { number })
        } else {
            None
        }
    }

    /// Returns the number itself, 1 to 63.
    pub fn number(&self) -> u8
        ensures same { result ≡ self.now }
        ensures range { (1 ≤ result) × (result ≤ 63) }
    {
        self.number
    }
}

/// A host: its number at its IMP, 0 to 3, and the IMP's, 1 to 63. Ordered by IMP, then by host.
#[derive(Clone, Copy, Debug, PartialEq, Eq, PartialOrd, Ord)]
pub struct HostAddr {
    imp: u8,
    host: u8,
}

impl Model for HostAddr {
    ghost use Rattle.std.specs.Prelude.{◌≤◌};
    ghost use Rattle.interface.specs.Host.{Host};

    ghost Value = { Host };

    ghost view = { λ a. record { imp = a.imp; host = a.host } };

    ghost invariant = { λ a. (1 ≤ a.imp) × (a.imp ≤ 63) × (a.host ≤ 3) };

    ghost inverse = { λ h. record { imp = h.imp; host = h.host } };
}

impl HostAddr {
    /// Returns host `host` at IMP `imp`; `None` for a host outside 0 to 3 or an IMP outside 1 to 63.
    pub fn new(host: u8, imp: u8) -> Option<HostAddr>
        ensures { result ≡ host_at host imp }
    {
        if host <= 3 && (1..=63).contains(&imp) {
            Some(HostAddr { imp, host })
        } else {
            None
        }
    }

    /// Returns the first of all hosts in order: host 0 at IMP 1.
    pub fn first() -> HostAddr
        ensures { result ≡ record { imp = 1; host = 0 } }
    {
        HostAddr { imp: 1, host: 0 }
    }

    /// Returns the last of all hosts in order: host 3 at IMP 63.
    pub fn last() -> HostAddr
        ensures { result ≡ record { imp = 63; host = 3 } }
    {
        HostAddr { imp: 63, host: 3 }
    }

    /// Returns its number at its IMP, 0 to 3.
    pub fn host(&self) -> u8
        ensures same { result ≡ self.now.host }
        ensures range { result ≤ 3 }
    {
        self.host
    }

    /// Returns the number of its IMP, 1 to 63.
    pub fn imp(&self) -> u8
        ensures same { result ≡ self.now.imp }
        ensures range { (1 ≤ result) × (result ≤ 63) }
    {
        self.imp
    }

    /// Returns the address octet: the host in the upper two bits, the IMP in the lower six (BBN Report 1822, the
    /// leader).
    pub fn octet(&self) -> u8
        ensures value { result ≡ address_octet self.now }
        ensures again { host_of_octet result ≡ Some self.now }
    {
        let HostAddr { imp, host } = *self;
        64 * host + imp
    }

    /// Returns the host that an address octet names; `None` where its IMP is 0.
    pub fn from_octet(octet: u8) -> Option<HostAddr>
        ensures { result ≡ host_of_octet octet }
    {
        HostAddr::new(octet / 64, octet % 64)
    }
}

/// Prints `host/imp`.
impl fmt::Display for HostAddr {
    ghost use Rattle.interface.specs.Printed.{host_text};

    ghost output = { λ h. Some (host_text h) };

    fn fmt<W: fmt::Write>(&self, f: &mut fmt::Formatter<W>) -> fmt::Result {
        let HostAddr { imp, host } = *self;
        write!(f, "{host}/{imp}")
    }
}

/// A link number: it distinguishes the conversations between two hosts (BBN Report 1822).
#[derive(Clone, Copy, Debug, PartialEq, Eq, PartialOrd, Ord)]
pub struct Link(pub u8);

/// The greatest number of an IMP that a network has: its IMPs are numbered from 1 to this one, and it is the
/// greatest that an address can name.
pub const MOST_IMPS: usize = 63;

/// The most hosts that an IMP has, numbered from 0 (Heart et al. 1970: an IMP has up to four hosts).
pub const MOST_HOSTS: u8 = 4;

/// The number of a message among those of its flow, of which there are [`MESSAGE_NUMBERS`]. A flow's first
/// message has the number 0.
pub type Number = u16;

/// How many numbers the messages of a flow go by: they begin with 0, and 0 follows 65,535.
pub const MESSAGE_NUMBERS: u32 = 65_536;

/// The messages from one host to another on one link. At most one of them is outstanding.
#[derive(Clone, Copy, Debug, PartialEq, Eq, PartialOrd, Ord)]
pub struct Flow {
    /// The host that sends.
    pub source: HostAddr,
    /// The host that the messages are for.
    pub destination: HostAddr,
    /// The link.
    pub link: Link,
}

/// Prints `source destination link`, the two hosts as `host/imp`.
impl fmt::Display for Flow {
    ghost use Rattle.interface.specs.Printed.{flow_text};

    ghost output = { λ f. Some (flow_text f) };

    fn fmt<W: fmt::Write>(&self, f: &mut fmt::Formatter<W>) -> fmt::Result {
        let source = &self.source;
        let destination = &self.destination;
        let link = self.link.0;
        write!(f, "{source} {destination} {link}")
    }
}
