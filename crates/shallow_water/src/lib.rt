// The flux rule of shallow water.
#![tactic(auto)]

mod along;
mod crossings;
mod examples;
mod face;
mod part;
mod seen;
mod shallow_water;
mod whole;

pub use examples::shallow_water_examples;
pub use shallow_water::ShallowWater;
