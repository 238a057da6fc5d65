//! The allocator: subdivision headers, read and drafted word by word.
//!
//! The one model: the header bytes of root slot 1 stand for a list of partitions that do not meet.
#![tactic(auto)]

mod address;
mod change;
mod free;
mod path;
mod scan;
mod sum;

pub use address::{HeaderWords, MOST_WORDS, header_address, words};
pub use change::{release, take};
pub use free::pick;
pub use sum::summary_of;
