// Tests of the libraries through their public functions.
#![tactic(auto)]

#[cfg(test)]
mod amount_tests;
#[cfg(test)]
mod grid_tests;
#[cfg(test)]
mod mesh_tests;
#[cfg(test)]
mod rules_tests;
#[cfg(test)]
mod text_tests;
