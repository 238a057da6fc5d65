//! What a check of an image notes as it goes: pages and inodes that it met, and words that are 0.
//!
//! The one model of the marks is a set of numbers.
#![tactic(auto)]

mod kept;
mod zero;

pub use kept::{Met, has_mark, meet, no_marks, set_mark};
pub use zero::are_zero;
