//! All parts of a carrier, and which of them have changed.

ghost use Rattle.std.specs.Prelude.{◌≡◌, ◌++◌, IfOk, codes, length, nat_lt};
ghost use Rattle.trace.specs.Changes.{changed_parts};
ghost use Rattle.trace.specs.Joined.{mark};
ghost use Rattle.trace.specs.Texts.{object};

use crate::flow_lists::FlowLists;
use crate::json::mark;
use crate::members::Members;
use std::alloc::{AllocError, Global};

/// All parts of a carrier.
#[derive(Drop)]
pub struct AllParts {
    /// Those that are always there, each with its name, as the members of an object.
    pub fixed: Members,
    /// Those that come and go: what is known of flows.
    pub flows: FlowLists,
}

impl AllParts {
    /// Returns whether a part is other than before, or there no more.
    pub fn have_changed(&self, before: &AllParts) -> bool
        ensures { result ≡ nat_lt 0 (length (changed_parts before.now self.now)) }
    {
        self.fixed.have_changed(&before.fixed) || self.flows.have_changed(&before.flows)
    }

    /// Returns the object of the parts that are other than before, or there no more.
    ///
    /// Errors: `AllocError`.
    pub fn changed(&self, alloc: Global, before: &AllParts) -> Result<Vec<u8>, AllocError>
        ensures { IfOk result (λ text. text.items ≡ object (changed_parts before.now self.now)) }
    {
        let text = self.fixed.add_changed(&before.fixed, Vec::new(alloc))?;
        ended(self.flows.add_changed(&before.flows, text)?)
    }
}

/// Ends the text of an object of members that have changed.
///
/// Errors: `AllocError`.
pub fn ended(object: Vec<u8>) -> Result<Vec<u8>, AllocError>
    ensures { IfOk result (λ text. text.items ≡ object.items ++ mark (codes "{}") (codes "}") (length object.items)) }
{
    let before = object.len();
    let mut object = object;
    object.extend_from_slice(mark("{}", "}", before).as_bytes())?;
    Ok(object)
}
