//! Growth of the root directory from level to level over a device that stops after each of its calls, and what recovery
//! makes of the images that are left.
//!
//! There is no model of its own: the device is one that remembers its steps, behind a fuse, and between two growths it is
//! at rest, as that of a mounted file system is.
#![tactic(auto)]

mod start;
mod volume;

pub use start::{Start, Stopping};
pub use volume::{Growth, Resting, made, with_file};
