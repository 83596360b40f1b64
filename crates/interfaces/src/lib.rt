// What a mesh is told: how much moves between cells, how a parent's content is split, which cells are flagged, and which patches
// cover the wanted cells. An answer is a fixed function of the implementation's value and of what is asked.
#![tactic(auto)]

mod between;
mod cells;
mod clustering;
mod flagging;
mod flux;
mod neighbours;
mod refusal;
mod split;

pub use between::Between;
pub use cells::CellMaps;
pub use clustering::{Clustering, TooMany};
pub use flagging::Flagging;
pub use flux::Flux;
pub use neighbours::Neighbours;
pub use refusal::RuleRefusal;
pub use split::Split;
