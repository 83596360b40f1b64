// A scenario, from its bytes to what is printed.
#![tactic(auto)]

mod cut_lines;
mod execute;
mod file;
mod lines;
mod print;
mod sheet;

pub use file::run;
