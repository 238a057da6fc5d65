//! Inodes: eight words each, read by their number and changed through a draft of the redo record.
//!
//! The one model is the inode that the bytes by address show: its number says where, and an inode whose page is not mapped
//! is free.
#![tactic(auto)]

mod draft;
mod free;
mod read;

pub use draft::put;
pub use free::{first_free, first_free_from};
pub use read::{get, place};
