// Text as bytes: fields between commas, whole numbers, and numbers written back.
#![tactic(auto)]

mod fields;
mod numbers;
mod print;

pub use fields::{cut, field, field_count};
pub use numbers::{number, number_field, number_in};
pub use print::write_number;
