//! The allocator on a device: pages are made for header words, and partitions are taken and released by records,
//! and pages are staged.
//!
//! All of it is compiled for tests alone, so it is proved once.
#![tactic(auto)]

#[cfg(test)]
mod looks;
#[cfg(test)]
mod staging;
#[cfg(test)]
mod tests;
#[cfg(test)]
mod volume;
#[cfg(test)]
mod wants;
