//! Laws that hold definitions in place, and need no code: what a crash may leave, by example; that pieces cover each offset
//! once; that zeros lie past a file's size; how many pages a call takes, by example; and how large a device a script needs.
//!
//! There is nothing to run: each function states a law in its contract, over the very definitions that the crates of code
//! promise by.
#![tactic(auto)]

pub mod cover;
pub mod enough;
mod limits;
pub mod lines;
pub mod plans;
pub mod runs;
pub mod tails;

pub use limits::CALL_PAGES;
