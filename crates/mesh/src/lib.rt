// A mesh and its calls: open, pour and audit, over five lent sheets.
#![tactic(auto)]

mod audit;
mod check;
mod mesh;
mod open;
mod pour;
mod total;

pub use audit::Audit;
pub use mesh::Mesh;
pub use sheets::{Refusal, Sheets};
