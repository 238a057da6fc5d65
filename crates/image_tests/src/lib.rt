//! Runs over images in memory: what one leaves for the next, why a device is none, what a dump says, and the summary of calls
//! that a number gives.
//!
//! There is no model of its own. All of it is tests, so that no crate below is proved twice.
#![tactic(auto)]

#[cfg(test)]
mod commands;
#[cfg(test)]
mod dumps;
#[cfg(test)]
mod images;
#[cfg(test)]
mod long_paths;
#[cfg(test)]
mod workloads;
