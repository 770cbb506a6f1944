//! What readers of other scripts need: the lines of a text, the words of a line, a message, and the reading of a script of any
//! kind.
//!
//! Each of these answers a value exactly if the octets that it is given are that value's one spelling.

pub use crate::events::{is_passed_over, read_message};
pub use crate::input::first_line;
pub use crate::network::read_net;
pub use crate::scripts::{ScriptEvent, read_events};
pub use crate::word::{cut, is_word, plain_number, read_bits, read_host, read_number};
