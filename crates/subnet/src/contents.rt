//! What is in a subnet, part by part. These calls change nothing and take no memory. After memory has run out, nothing
//! is known of what is in the subnet.

ghost use Rattle.std.specs.Prelude.{◌≡◌, if◌then◌else◌, length, option_copied, None, Some};
ghost use Rattle.imp_node.specs.Taking as taking;
ghost use Rattle.subnet.specs.Net.{imp_at};
ghost use Rattle.subnet.specs.Alive.{says};
ghost use Rattle.subnet.specs.Events as events;

use crate::Subnet;
use crate::parts::Parts;
use crate::wire::Wire;
use imp_node::Imp;
use interface::{HostAddr, ImpNumber};

impl Subnet {
    /// Returns how many numbers there are for IMPs, from 0 on. There needn't be an IMP of each.
    pub fn imp_places(&self) -> u8
        ensures { result ≡ length self.now.net.imps }
    {
        self.parts.imp_places()
    }

    /// Returns whether there is an IMP of this number, up or down.
    pub fn is_imp(&self, number: u8) -> bool
        ensures { result ≡ events.is_imp self.now.net number }
    {
        self.parts.is_imp(number)
    }

    /// Returns the number as that of an IMP, up or down; `None` if there is no such IMP.
    pub fn imp_number(&self, number: u8) -> Option<ImpNumber>
        ensures { result ≡ (if events.is_imp self.now.net number then Some number else None) }
    {
        if self.parts.is_imp(number) {
            ImpNumber::new(number)
        } else {
            None
        }
    }

    /// Returns the IMP of this number; `None` where it is down, or there is none.
    pub fn imp(&self, number: u8) -> Option<&Imp>
        ensures { option_copied result ≡ imp_at self.now.net.imps number }
    {
        self.parts.imp(number)
    }

    /// Returns all lines, in the order of their numbers, of which the first is 0.
    pub fn lines(&self) -> &[Wire]
        ensures { result.now ≡ self.now.net.lines }
    {
        self.parts.lines.all()
    }

    /// Returns how many lines there are.
    pub fn line_count(&self) -> u32
        ensures { result ≡ length self.now.net.lines }
    {
        self.parts.line_count()
    }

    /// Returns whether a host gets something when it takes: nothing refuses it, and an answer or a message waits.
    /// Whether running out of memory has stopped the subnet is not looked at.
    pub fn gives(&self, host: &HostAddr) -> bool
        ensures { result ≡ events.gives self.now.net host.now }
    {
        self.parts.gives(host)
    }
}

impl Parts {
    /// Returns whether a host gets something when it takes.
    fn gives(&self, host: &HostAddr) -> bool
        ensures { result ≡ events.gives self.now host.now }
    {
        self.is_there(host) && self.imp_gives(host.imp(), host.host())
    }

    /// Returns whether the IMP of this number is up, and a host of it gets something when it takes.
    fn imp_gives(&self, imp: u8, host: u8) -> bool
        ensures { result ≡ says (λ s. taking.gives s host) (imp_at self.now.imps imp) }
    {
        match self.imp(imp) {
            Some(imp) => imp.gives(host),
            None => false,
        }
    }
}
