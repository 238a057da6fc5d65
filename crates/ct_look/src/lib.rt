//! The calls that only look at what is there.
//!
//! The one model: the words of a device at rest stand for a tree, and a look answers as the tree does. Nothing is stored.
#![tactic(auto)]

mod content;
mod entries;
mod holes;
mod known;
mod look;
mod peek;
mod seen;

pub use entries::entries_at;
pub use holes::data_at;
pub use known::byte_by;
pub use look::{answer_of, locate_at, next_at, read_at, stat_at};
pub use peek::byte_at;
pub use seen::{Listing, Stat};
