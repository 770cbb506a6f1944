//! Message numbers, which wrap around after the greatest.

ghost use Rattle.std.specs.Prelude.{◌≡◌};
ghost use Rattle.link_table.specs.Numbers.{next, oldest, is_new};

use interface::{MESSAGE_NUMBERS, Number};

/// How far ahead of the last number a number counts as new.
pub const WINDOW: u32 = 32_767;

/// Returns the number after this one.
#[tactic(auto, unfolding(crate::specs::Numbers::next, crate::specs::Numbers::modulus))]
pub fn next(number: Number) -> Number
    ensures { result ≡ next number }
{
    ((number as u32 + 1) % MESSAGE_NUMBERS) as Number
}

/// Returns the number that lies `WINDOW` steps before this one: the last one that the window reaches back to.
#[tactic(auto, unfolding(crate::specs::Numbers::oldest, crate::specs::Numbers::modulus, crate::specs::Numbers::window))]
pub fn oldest(number: Number) -> Number
    ensures { result ≡ oldest number }
{
    ((number as u32 + MESSAGE_NUMBERS - WINDOW) % MESSAGE_NUMBERS) as Number
}

/// Returns whether a destination that keeps this last number, or none, takes `number` as new: it does if it keeps none,
/// or if `number` lies 1 to `WINDOW` steps ahead of the kept one.
#[tactic(auto, unfolding(crate::specs::Numbers::is_new, crate::specs::Numbers::modulus, crate::specs::Numbers::window))]
pub fn is_new(kept: Option<Number>, number: Number) -> bool
    ensures { result ≡ is_new kept number }
{
    match kept {
        None => true,
        Some(last) => {
            let ahead = (number as u32 + MESSAGE_NUMBERS - last as u32) % MESSAGE_NUMBERS;
            1 <= ahead && ahead <= WINDOW
        }
    }
}
