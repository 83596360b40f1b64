// Flux rules for any reach: advection of volumes, and a feed over any rule.
#![tactic(auto)]

mod advection;
mod feed;
mod speed;

pub use advection::{Advection, advection_examples};
pub use feed::Feed;
pub use speed::Speed;
