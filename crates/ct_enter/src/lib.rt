//! The calls that make an object: `create` and `mkdir`.
//!
//! The one model: a directory has an empty slot, its first; room is made for it, and one record writes the slot, the
//! directory's size and the inode of the new object.
#![tactic(auto)]

mod create;
mod enter;
mod plan;

pub use create::make_in;
pub use enter::raise_size;
pub use plan::entry_plan;
