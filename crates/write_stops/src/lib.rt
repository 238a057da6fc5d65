//! A file that is written over any device: a holder of the device, which a test asks for one write after another, and what a
//! reader of the image finds then.
//!
//! There is no model of its own, and no test, so that it is proved once.
#![tactic(auto)]

mod holder;
mod written;

pub use holder::{FILE, Holder, Wrote};
pub use written::{byte_of, holds, put, size_of};
