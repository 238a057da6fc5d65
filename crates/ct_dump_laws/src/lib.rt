//! Laws of the dump: the script that it writes makes the tree again, and every image has a tree that it can dump.
//!
//! There is nothing to run: each function states a law in its contract, over the definitions by which the dump, the script and
//! the calls promise.
#![tactic(auto)]

pub mod dumps;
pub mod images;
