//! A device of persistent memory: its words, its steps, and what a crash may leave of them.
//!
//! The one model is the history: the start words and the steps made since. A device that tells its history tells by it
//! which images a crash may leave, at each moment so far. A device that tells none has the words as they read alone, so a
//! function that says something of images says the same of these words in a clause of its own.
#![tactic(auto)]

pub mod device;
pub mod laws;
pub mod ram;
pub mod step;
pub mod writes;

pub use device::{Pm, PmFault};
pub use ram::RamPm;
pub use step::Step;
pub use writes::{commit, flush_lines, lay};
