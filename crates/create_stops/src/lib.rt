//! What a reader finds in an image that a crash left, and the image at rest.
//!
//! The one model is a reader who knows nothing but the format: four index steps lead to a word, and words to the slots of a
//! directory and to the inodes that they name.
#![tactic(auto)]

pub mod reader;
pub mod rest;
