//! The free pages of a device: a bit for each page, and a hint below which no bit is set. Contracts see them as
//! `FreePages`, the number of pages and the list of those that are free.
#![tactic(auto)]

mod bits;
mod map;

pub use map::Frames;
