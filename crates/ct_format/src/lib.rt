//! The image of an empty tree.
//!
//! The one model: a word of the image has a value that its number gives, and the magic, by which an image is known, comes
//! last.
#![tactic(auto)]

mod formatting;
mod image;

pub use formatting::make_image;
