//! Calls beside what they are compared with: a plain tree, a plain list of bytes, and numbers that are worked out by hand.
//!
//! There is no model of its own. All of it is tests, so that no crate below is proved twice.
#![tactic(auto)]

#[cfg(test)]
mod cuts;
#[cfg(test)]
mod generated;
#[cfg(test)]
mod lists;
#[cfg(test)]
mod numbers;
#[cfg(test)]
mod plans;
#[cfg(test)]
mod renames;
#[cfg(test)]
mod writes;
