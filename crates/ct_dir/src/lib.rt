//! Directories: slots of 256 bytes, found by name, read, set and cleared.
//!
//! The one model is the directory as an object: a kind, a size and the bytes below the size, by offset and not by address.
//! A slot that is used holds the number of an inode and a name. No call takes memory.
#![tactic(auto)]

mod change;
mod count;
mod finder;
mod lookup;
mod names;
mod order;
mod slot;
mod slots;
mod sorted;

pub use change::{clear, set, set_changed};
pub use count::{entries, first_slot, free_slot};
pub use finder::{Finder, OnDevice};
pub use lookup::{Found, NameSlot, find, name_at, spot};
pub use order::next_after;
pub use sorted::{compare_at, sorted_offsets};
