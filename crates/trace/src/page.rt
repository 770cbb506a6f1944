//! Octets that are put together in memory.

ghost use Rattle.std.specs.Prelude.{◌≡◌, ◌++◌, false};

use replay::{Output, WriteFailed};
use std::fmt;
use std::fmt::{Display, Write};

/// An output that keeps in memory what is printed. It does less for each piece than a `Printer` over a vector, which asks it in a
/// loop and makes an error of an input or output of each failure.
#[derive(Drop)]
pub(crate) struct Page {
    octets: Vec<u8>,
    failed: bool,
    flushed: bool,
}

impl Page {
    /// Returns a page that has these octets.
    pub fn over(octets: Vec<u8>) -> Page
        ensures octets { result.octets.items ≡ octets.items }
        ensures failed { result.failed ≡ false }
    {
        Page {
            octets,
            failed: false,
            flushed: false,
        }
    }

    /// Returns the octets.
    pub fn into_octets(self) -> Vec<u8>
        ensures { result.items ≡ self.octets.items }
    {
        self.octets
    }
}

impl fmt::Write for Page {
    ghost write_str_gives = { λ old text new. new.octets.items ≡ old.octets.items ++ text };

    fn write_str(&mut self, text: &str) -> fmt::Result {
        Ok(self.octets.extend_from_slice(text.as_bytes())?)
    }
}

impl Output for Page {
    ghost use Rattle.std.specs.Prelude.{Some};

    ghost contents = { λ page. Some page.octets.items };

    ghost failed = { λ page. page.failed };

    ghost flushed = { λ page. page.flushed };

    fn write_fmt<D: Display>(&mut self, text: D) -> Result<(), WriteFailed>
    where
        D: Drop,
    {
        match Write::write_fmt(self, text) {
            Ok(()) => {
                self.failed = false;
                self.flushed = false;
                Ok(())
            }
            Err(_) => {
                self.failed = true;
                self.flushed = false;
                Err(WriteFailed)
            }
        }
    }

    fn write_all(&mut self, octets: &[u8]) -> Result<(), WriteFailed> {
        self.flushed = false;
        let outcome = self.octets.extend_from_slice(octets);
        self.failed = outcome.is_err();
        outcome.map_err(|_| WriteFailed)
    }

    fn flush(&mut self) -> Result<(), WriteFailed> {
        self.flushed = true;
        Ok(())
    }
}
