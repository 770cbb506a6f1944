//! What is in an IMP, part by part. These calls change nothing and take no memory.

ghost use Rattle.std.specs.Prelude.{◌≡◌};

use crate::Imp;
use crate::host::Host;
use crate::port::Port;
use link_table::{DestFlows, SourceFlows};
use packetiser::{Packet, Reassembly};
use routing::RouteTable;

impl Imp {
    /// Returns its hosts, host 0 first, with what waits for each.
    pub fn hosts(&self) -> &[Host]
        ensures { result.now ≡ self.now.hosts }
    {
        &self.hosts
    }

    /// Returns its ends of lines, that of port 0 first.
    pub fn ports(&self) -> &[Port]
        ensures { result.now ≡ self.now.ports }
    {
        &self.ports
    }

    /// Returns its number, and the distances that its neighbours announced last.
    pub fn routes(&self) -> &RouteTable
        ensures { result.now ≡ self.now.routes }
    {
        &self.routes
    }

    /// Returns the packets that wait for a channel, the oldest first.
    pub fn store(&self) -> &[Packet]
        ensures { result.now ≡ self.now.store }
    {
        &self.store
    }

    /// Returns the messages in reassembly.
    pub fn slots(&self) -> &Reassembly
        ensures { result.now ≡ self.now.slots }
    {
        &self.slots
    }

    /// Returns the flows from its hosts of which a message was begun.
    pub fn sources(&self) -> &SourceFlows
        ensures { result.now ≡ self.now.sources }
    {
        &self.sources
    }

    /// Returns the flows to its hosts of which a number is kept.
    pub fn kept_flows(&self) -> &DestFlows
        ensures { result.now ≡ self.now.kept }
    {
        &self.kept
    }
}
