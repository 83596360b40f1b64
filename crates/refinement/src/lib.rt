// Where a mesh is refined, and what the children of a refined cell hold.
#![tactic(auto)]

mod even_split;
mod first_child;
mod from_column;
mod has_volume;
mod shareable;
mod steep;

pub use even_split::{EvenSplit, even_examples};
pub use first_child::FirstChild;
pub use from_column::FromColumn;
pub use has_volume::HasVolume;
pub use shareable::Shareable;
pub use steep::Steep;
