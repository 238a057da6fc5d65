//! A mounted file system as a tree that can be dumped.
//!
//! The one model: the tree for which the words of a mount stand. There is one alone, so a mount that is ready has it as its
//! meaning; each look at it is one call of the file system, and none makes a step.
#![tactic(auto)]

mod live;

pub use live::{Live, dump_of};
