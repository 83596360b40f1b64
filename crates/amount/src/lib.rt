// Amounts: whole signed quantities that are added in any order and taken away again, and never lost.
#![tactic(auto)]

mod amount;
mod sums;
mod volume;
mod volume_amount;
mod water;
mod water_amount;

pub use amount::Amount;
pub use sums::sum;
pub use volume::Volume;
pub use volume_amount::greatest_plus_one;
pub use water::Water;
