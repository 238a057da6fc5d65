//! What moves in a tree: a node to another path, bytes into a file, ranges of two files that change places. Contracts see the
//! `Tree` of `ct_tree`.
#![tactic(auto)]

mod moves;
mod ranges;

pub use moves::rename;
pub use ranges::{TwoRanges, exchange, set_file};
