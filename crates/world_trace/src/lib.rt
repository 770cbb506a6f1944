//! Traces of worlds: what happens in the programs and services of hosts, event by event.
//!
//! [`trace_world`] lets each event of a world's script happen as a replay does, and prints a JSON object for each: the
//! event, what it printed, and the state after it. That is all parts of the carrier, which is traced as a raw network
//! is (crate `trace`), the program of each host with its pairs, ends and counters, and its services. A calm has one
//! object for each of its events by which something is printed or changes: quiet rounds of the network, takings and
//! offers. The first line is the network with the state at the opening.
//!
//! [`trace_mixed_world`] does so in a world some of whose hosts are strangers, of which the first line also says who
//! they are.
//!
//! The texts are definitions (`specs/Texts.antt`), and each line is exactly that text of the state after its event.
#![tactic(auto)]

mod calm;
mod commands;
mod lasting;
pub mod law;
mod line;
mod mixed;
mod pairs;
mod services;
mod spelling;
mod texts;
mod traced;
mod values;
pub mod worked;
pub mod worked_lasting;
pub mod worked_networks;
pub mod worked_strangers;
mod worlds;

pub use lasting::{lasts, says_all};
pub use mixed::trace_mixed_world;
pub use traced::trace_world;
