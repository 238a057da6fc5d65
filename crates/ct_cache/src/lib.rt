//! Caches: where pages and names were found on a device.
//!
//! The one model is two maps, from virtual page numbers to pages, and from a directory and a name to an entry. What is known agrees
//! with the words of a device where the walk and the search would answer the same; each call keeps that. Only making the caches
//! takes memory: a table has a fixed number of cells, and what is learnt takes the cell of its key.
#![tactic(auto)]

mod caches;
mod cell;
mod clearing;
mod finding;
mod laws;
mod memory;
mod names;
mod new;
mod pages;

pub use caches::Caches;
pub use laws::caches_are_small;
pub use memory::Memory;
