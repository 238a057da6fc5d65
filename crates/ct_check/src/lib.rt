//! What an image has to meet before a tree stands on it: the mount rules.
//!
//! The one model is the image. Each function is exact: a rule is answered for where it fails, and only there.
#![tactic(auto)]

mod chain;
mod fault;
mod frames;
mod head;
pub mod laws;
mod level;
mod tables;
mod whole;

pub use chain::{check_files, check_headers, check_placing};
pub use fault::CheckFault;
pub use head::check_head;
pub use tables::check_tables;
pub use whole::check;
