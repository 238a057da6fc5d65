//! Paths: the names that they hold, and the inodes to which these lead on a device.
//!
//! The one model: a path is the list of its names, and what they lead to is what they lead to in the tree for which the
//! image stands. No call takes memory: names are read in the caller's bytes, and directories on the device.
#![tactic(auto)]

mod fault;
mod text;
mod way;

pub use fault::{PathFault, refusal_of};
pub use text::{Names, parse};
pub use way::{parent_by, parent_of, resolve, resolve_by};
