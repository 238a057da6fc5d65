//! Words by their virtual address: read on a device, and changed through a draft of the redo record.
//!
//! The one model is the word at an address, where the tables of the image lead. A word of an address that is not mapped
//! reads 0, and only words of mapped pages are changed.
#![tactic(auto)]

mod draft;
mod load;
mod run;

pub use draft::{store_at, value_at};
pub use load::{load_word, place_of};
pub use run::{put_changed, put_words};
