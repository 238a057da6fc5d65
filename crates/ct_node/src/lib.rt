//! A file or a directory with all that is below it. Contracts see it as the `Tree` of `ct_tree`.
#![tactic(auto)]

mod node;

pub use node::{Entry, Kind, Node, check_empty, check_vacant, names_in};
