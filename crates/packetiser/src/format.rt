//! The sizes of the packet format and of reassembly.

/// Where the octet of a packet's kind is.
pub const KIND_AT: usize = 0;

/// Where the address of its message's source is.
pub const SOURCE_AT: usize = 1;

/// Where the address of its message's destination is.
pub const DESTINATION_AT: usize = 2;

/// Where its message's link is.
pub const LINK_AT: usize = 3;

/// Where the two octets of its message's number begin.
pub const NUMBER_AT: usize = 4;

/// Where the place of its piece is, with the last flag.
pub const PLACE_AT: usize = 6;

/// Where the two octets that say how many bits it has begin.
pub const COUNT_AT: usize = 7;

/// How many octets precede a packet's bits.
pub const HEADER_OCTETS: usize = 9;

/// The most bits in a packet (Heart et al., SJCC 1970: a packet is about a thousand bits).
pub const PACKET_BITS: usize = 1008;

/// The most packets of a message.
pub const MAX_PACKETS: u8 = 8;

/// How many messages can be in reassembly at once.
pub const SLOTS: usize = 8;
