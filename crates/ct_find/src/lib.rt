//! Who a call means: paths to objects, to entries, and to empty slots.
//!
//! The one model: words at rest stand for a tree, and what a path leads to in them is what it leads to in the tree, or the
//! tree's refusal says why it leads to nothing. No call makes a step or takes memory.
#![tactic(auto)]

mod entry;
mod file;
mod kind;
mod leaf;
mod node;
mod place;
mod spot;

pub use entry::{Entry, find_entry};
pub use file::{find_file, find_files};
pub use kind::Kind;
pub use leaf::{check_kind, find_leaf};
pub use node::{find_node, find_node_by};
pub use place::{Place, find_place};
pub use spot::{Spot, find_spot};
