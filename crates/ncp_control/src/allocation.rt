//! The counters of a connection's allocation.

ghost use Rattle.std.specs.Prelude.{◌≡◌, ◌<◌, ◌≤◌};
ghost use Rattle.ncp_control.specs.Allocation.{nothing, granted, spent, share, may_send, given_back};

/// The most bits that a message carries: a text of 8063 bits without the 40 that precede the data.
pub const MAX_DATA_BITS: u32 = 8023;

/// The fraction of a GVB that asks for a whole counter, in 128ths.
pub const WHOLE: u8 = 128;

/// What a receiver has granted and a sender may still use: messages, and bits of data (NIC 8246, ALL,
/// GVB and RET). Both ends count in the same way.
#[derive(Clone, Copy, Debug, PartialEq, Eq)]
pub struct Allocation {
    /// Messages that may still be sent.
    pub messages: u16,
    /// Bits of data that may still be sent.
    pub bits: u32,
}

/// Nothing is granted yet, as in [`Allocation::new`].
impl Default for Allocation {
    ghost is_default = { λ a. a ≡ nothing };

    fn default() -> Allocation {
        Allocation::new()
    }
}

impl Allocation {
    /// Returns an allocation in which nothing is granted.
    pub fn new() -> Self
        ensures { result ≡ nothing }
    {
        Allocation {
            messages: 0,
            bits: 0,
        }
    }

    /// Adds what an ALL grants. A counter that would pass its greatest value stays there.
    pub fn grant(&mut self, messages: u16, bits: u32)
        ensures { self.new ≡ granted self.old messages bits }
    {
        self.messages = self.messages.saturating_add(messages);
        self.bits = self.bits.saturating_add(bits);
    }

    /// Returns how many of the queued bytes of this size one message may carry now: none without a message, else as
    /// many as the granted bits allow and as fit into [`MAX_DATA_BITS`].
    pub fn may_send(&self, size: u8, bytes: usize) -> u16
        requires { 0 < size }
        ensures { result ≡ may_send self.now size bytes }
    {
        if self.messages == 0 {
            return 0;
        }
        let size = size as u32;
        let room = (self.bits / size).min(MAX_DATA_BITS / size);
        bytes.min(room as usize) as u16
    }

    /// Takes one message and these bits of data.
    pub fn spend(&mut self, bits: u32)
        requires message { 0 < self.old.messages }
        requires bits { bits ≤ self.old.bits }
        ensures { self.new ≡ spent self.old bits }
    {
        self.messages -= 1;
        self.bits -= bits;
    }

    /// Takes back what a GVB asks for: from each counter its own fraction in 128ths, rounded down. A
    /// fraction above 128 counts as the whole. Returns the messages and the bits that the RET reports.
    pub fn give_back(&mut self, message_fraction: u8, bit_fraction: u8) -> (u16, u32)
        ensures messages { result.0 ≡ share self.old.messages message_fraction }
        ensures bits { result.1 ≡ share self.old.bits bit_fraction }
        ensures left { self.new ≡ given_back self.old message_fraction bit_fraction }
    {
        let returned = (
            share_of(self.messages as u32, message_fraction) as u16,
            share_of(self.bits, bit_fraction),
        );
        self.messages -= returned.0;
        self.bits -= returned.1;
        returned
    }
}

/// Returns this many 128ths of a counter, rounded down. A fraction above 128 counts as the whole.
fn share_of(counter: u32, fraction: u8) -> u32
    ensures value { result ≡ share counter fraction }
    ensures most { result ≤ counter }
{
    (counter as u64 * fraction.min(WHOLE) as u64 / WHOLE as u64) as u32
}
