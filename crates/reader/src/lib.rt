// The reader of a scenario: what each line says, or why it is refused.
#![tactic(auto)]

mod command;
mod fields;
mod header;
mod kind;
mod line;
mod names;
mod volume_kind;
mod water_kind;

pub use command::Command;
pub use header::{KindName, read_mesh};
pub use kind::Kind;
pub use line::read_line;
pub use syntax::{Fault, Layer, Phase};
