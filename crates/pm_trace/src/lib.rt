//! A device in memory that remembers every step, and gives any image that a crash may leave.
//!
//! Its model is its history: `history device` is the start words and the steps, and it tells exactly that. For tests it
//! fails at the calls that it is told to fail at.
#![tactic(auto)]

mod crash;
pub mod trace;

pub use trace::{MOST_STEPS, TracePm};
