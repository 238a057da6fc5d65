//! What an image is, whether it is sound, and what is in it: the answers that `ctimg` writes.
//!
//! The one model is the image that is looked at. A look never changes it: its words are copied, and the copy is mounted. What is
//! told is the text of plain values, and each value has its clause.
#![tactic(auto)]

mod content;
mod copy;
mod entries;
mod held;
mod info;
mod look;
mod path;
mod rules;
mod status;
#[cfg(test)]
mod tests;
mod text;
mod top;
mod verdict;

pub use look::{Look, look_of};
pub use status::Status;
pub use top::tell;
