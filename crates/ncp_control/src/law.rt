//! The laws of commands and counters, stated over their definitions. The functions here do nothing: each
//! clause is a law.

ghost use Rattle.std.specs.Prelude.{◌≡◌, ℕ, ◌+◌, ◌*◌, ◌<◌, ◌≤◌, ◌^◌, Bool, List, ◌++◌, length, take, drop, All, Ok, Err, Some, min};
ghost use Rattle.ncp_control.specs.declared.command.Command.{Command};
ghost use Rattle.ncp_control.specs.declared.data_header.DataHeader.{DataHeader};
ghost use Rattle.ncp_control.specs.Allocation.{Act, IsRun, IsWithinGranted};
ghost use Rattle.ncp_control.specs.Command.{spelling, IsCommand};
ghost use Rattle.ncp_control.specs.DataHeader.{header_of, header_bits, data_bits, IsHeader};
ghost use Rattle.ncp_control.specs.Packing.{packed_count, spellings, AreRead, IsLongestFront};
ghost use Rattle.ncp_control.specs.declared.fault.ControlFault.TheVariants as fault;
ghost use Rattle.ncp_control.specs.Reading.{read_of};

/// Each command has one spelling and one reading.
pub fn commands()
    // what was written is read again, whatever follows it
    ensures again { (c : Command) (rest : List ℕ) → IsCommand c → read_of (spelling c ++ rest) ≡ Ok (c, length (spelling c)) }

    // a spelling is never empty, and has octets only
    ensures some { (c : Command) → 0 < length (spelling c) }
    ensures octets { (c : Command) → IsCommand c → All (λ n. n < 2 ^ 8) (spelling c) }

    // every shorter prefix of a spelling is too short
    ensures short { (c : Command) (front rest : List ℕ) → IsCommand c → spelling c ≡ front ++ rest → 0 < length rest → read_of front ≡ Err (fault.Short (min (length front) 10)) }

    // what was read is a command, and the octets used are its own
    ensures spelled { (octets : List ℕ) (c : Command) (used : ℕ) → All (λ n. n < 2 ^ 8) octets → read_of octets ≡ Ok (c, used) → take used octets ≡ spelling c }
    ensures command { (octets : List ℕ) (c : Command) (used : ℕ) → All (λ n. n < 2 ^ 8) octets → read_of octets ≡ Ok (c, used) → IsCommand c }
{}

/// A control message takes the longest prefix of whole commands.
pub fn packing()
    ensures front { (commands : List Command) → IsLongestFront commands (packed_count commands) }

    // what is packed is read again as these commands
    ensures again { (commands : List Command) → All IsCommand commands → AreRead (spellings commands) commands }

    // and there is no other such prefix
    ensures only { (commands : List Command) (count : ℕ) → IsLongestFront commands count → count ≡ packed_count commands }
{}

/// A header that is followed by the data which it announces is read as it was written.
pub fn headers()
    ensures again { (h : DataHeader) (behind : List Bool) → IsHeader h → data_bits h ≤ length behind → header_of (header_bits h ++ behind) ≡ Some h }

    // the fields are written with the bits that they were read from
    ensures spelled { (text : List Bool) (h : DataHeader) → header_of text ≡ Some h → take 24 (drop 8 (header_bits h)) ≡ take 24 (drop 8 text) }
{}

/// Take any run of grants, spends and give-backs that begins with nothing granted. What was spent, what
/// was given back and what is left are together at most what was granted.
pub fn allocation()
    ensures { (acts : List Act) → IsRun acts → IsWithinGranted acts }
{}
