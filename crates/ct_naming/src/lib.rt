//! Entries of directories and what they name: mount rules 17 to 20.
//!
//! The one model is the image. Each function is exact: a rule is answered for where it fails, and only there.
#![tactic(auto)]

mod entry;
mod named;
mod names;
mod reach;
mod slot;
mod spelled;

pub use entry::are_entries;
pub use named::are_named;
pub use names::are_names_apart;
pub use reach::are_reached;
pub use spelled::Spelled;
