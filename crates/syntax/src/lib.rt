// The words, names and faults of a scenario, and the order of its lines.
#![tactic(auto)]

mod fault;
mod name;
mod place;
mod word;

pub use fault::{Fault, Layer};
pub use name::read_choice;
pub use place::read_up_to;
pub use word::{Phase, Word, due};
