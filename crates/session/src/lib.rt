//! A session: the lines of a script as they come, each answered at once by what its event shows and an empty line.
//!
//! [`answer_lines`] hears one line after the other and answers each before it asks for the next. A caller may rely on
//! three things. Each line is answered once, in the order of the script. The answers to the first lines are together
//! what the replay of these lines shows. And no line is asked for while an answer is held back: [`hear`] requires a
//! writer that has handed on all.
//!
//! What a line leads to is a [`Stage`]'s.
#![tactic(auto)]

mod answering;
mod head;
mod hearing;
pub mod law;
mod networks;
mod running;
mod stage;

pub use answering::answer_lines;
pub use hearing::{Heard, hear};
pub use networks::Bare;
pub use running::run_session;
pub use stage::Stage;
