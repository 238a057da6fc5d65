//! Mounting: the mount rules, and in the midst of them recovery.
//!
//! The one model is the state to which an image settles: the rules are judged on it, recovery leaves it as it is at each
//! moment, and what is mounted is at rest and stands for its tree.
#![tactic(auto)]

mod whole;

pub use whole::recover;
