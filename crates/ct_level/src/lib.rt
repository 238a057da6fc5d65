//! Partitions: aligned ranges of addresses in root slots 10 to 511, with their level in the type.
//!
//! The one model: a `Part<L>` is seen as its number among the ranges of level `L`, and an `AnyPart` as a base and a level.
#![tactic(auto)]

mod any;
mod level;
mod part;

pub use any::AnyPart;
pub use level::level_for;
pub use part::{Part, TOP, length_of};
