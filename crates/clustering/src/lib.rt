// Clusterings: patches that cover the wanted cells of a level.
#![tactic(auto)]

mod boxes;
mod row_runs;
mod rows;
mod single_cells;

pub use row_runs::RowRuns;
pub use single_cells::SingleCells;
