//! A count that only memory bounds.

ghost use Rattle.std.specs.Prelude.{◌≡◌, ◌+◌, ◌<◌, ◌^◌, OnErr, OnOk};

use std::alloc::{AllocError, Global};
use std::marker::Model;

/// How often something happened.
///
/// Each time its 32 bits wrap around, a list in memory grows by an octet. So only a refused octet can keep it from counting on, and
/// no count that it bounds has to be checked.
#[derive(Drop)]
pub(crate) struct Tally {
    rounds: Vec<u8>,
    count: u32,
}

impl Model for Tally {
    ghost use Rattle.std.specs.Prelude.{ℕ, ◌+◌, ◌*◌, length};

    ghost Value = { ℕ };

    ghost view = { λ t. 4294967296 * length t.rounds.items + t.count };
}

impl Tally {
    /// Returns a count of zero.
    pub(crate) fn new(alloc: Global) -> Tally
        ensures { result ≡ 0 }
    {
        Tally {
            rounds: Vec::new(alloc),
            count: 0,
        }
    }

    /// Increments the count.
    pub(crate) fn add_one(&mut self) -> Result<(), AllocError>
        ensures done { OnOk result (self.new ≡ self.old + 1) }
        ensures small { OnOk result (self.new < 2 ^ 96) }
        ensures kept { OnErr result (self.new ≡ self.old) }
    {
        if let Some(count) = self.count.checked_add(1) {
            self.count = count;
            return Ok(());
        }
        self.rounds.push(0)?;
        self.count = 0;
        Ok(())
    }
}
