//! The calls by which an object goes: `unlink` and `rmdir`.
//!
//! The one model: an entry is a slot of a directory, and one record empties the slot, frees the inode and gives the
//! partition up, whose pages change places with an empty staging slot that is then emptied.
#![tactic(auto)]

mod call;
mod draft;
mod plan;
mod record;
mod remove;

pub use call::remove_in;
pub use draft::{MOST_REMOVAL_PAIRS, draft_removal};
pub use plan::removal_plan;
