//! Mounts that stop: a device fails in the midst of its recovery, a crash leaves what it may, and that is mounted.
//!
//! The one model is the state to which an image settles: no number of stops changes it.
#![tactic(auto)]

mod through;

pub use through::{Stop, mount_through};
