//! What an audit says of the book of a world.

ghost use Rattle.std.specs.Prelude.{◌≡◌};
ghost use Rattle.net_sim.specs.declared.auditing.said.Audit.TheVariants as said;

use crate::book::book_of;
use interface::Carrier;
use net_sim::{Audit, World, audit};

/// Returns the audit of the book of a world. It is `Kept`, whatever the world's carrier is made of and whatever
/// happened.
pub fn audit_of<C: Carrier>(world: &World<C>) -> Audit
    ensures { result ≡ said.Kept }
{
    let book = book_of(world);
    audit(book.crossings(), book.lives(), world.handed())
}
