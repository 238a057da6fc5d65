//! The file system: named calls over a device, each whole or absent after a crash.
//!
//! The one model: between calls the words of the device are sound, both gates are closed, staging is empty and nothing is
//! pending; they stand for one tree, and each call answers and changes it as the plain tree does, or is refused for space.
#![tactic(auto)]

mod calls;
mod change;
mod entries;
mod formatting;
mod laws;
mod look;
mod mounting;
mod remembered;
mod system;
mod updating;

pub use ct_call::{FsError, NoMount, Why};
pub use ct_look::{Listing, Stat};
pub use formatting::format;
pub use laws::what_is_remembered_is_so;
pub use mount_stops::Stop;
pub use mounting::{mount, mount_through};
pub use system::Fs;
