//! The calls that change the bytes of a file: to write, to fill, to append, to set a length. Each is whole or absent after a
//! crash.
//!
//! The one model is one file among objects: its bytes become others, each other object is as it was, and the file is found,
//! planned and grown alike whatever is done to it.
#![tactic(auto)]

mod edit;
mod plan;
mod truncate;
mod whole;
mod write;

pub use edit::Edit;
pub use whole::edit_in;
