//! What a mount learns: where names and pages were found by the calls that change something, and what is forgotten when.
//!
//! The one model is what is known, as caches have it; a mount without caches knows nothing. What was learnt is so where it agrees
//! with the words of the device: then a look answers with it as the search and the walk would. No call takes memory.
#![tactic(auto)]

mod finding;
mod forgetting;
mod learnt;
mod names;
mod pages;
mod touched;

pub use learnt::Learnt;
pub use touched::Touched;
