// The geometry of a block-structured mesh: levels, cells and their sheets, patches, and what the marks must be.
#![tactic(auto)]

mod cells;
mod geometry;
mod layout;
mod level;
mod makes;
mod mark;
mod marks;
mod paint;
mod patch;
mod place;
mod side;
mod size;
mod table;

pub use layout::Layout;
pub use mark::Mark;
pub use patch::Patch;
pub use place::Place;
pub use side::Side;
pub use size::Size;
pub use table::PatchTable;
