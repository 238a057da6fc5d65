//! A tree as the script that makes it: a directory before its entries, the names of each in byte order.
//!
//! The one model is the text of a tree, `dumped`. What is dumped is seen through the trait `Seen`, one look at a time.
#![tactic(auto)]

mod fault;
mod file;
mod lines;
mod seen;
mod walk;

pub use fault::DumpFault;
pub use seen::Seen;
pub use walk::dump;
