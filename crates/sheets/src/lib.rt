// What every call of a mesh is lent, five sheets, and why a call is turned away.
#![tactic(auto)]

mod lent;
mod marks;
mod refusal;
mod whole;

pub use lent::Sheets;
pub use marks::first_mark;
pub use refusal::Refusal;
