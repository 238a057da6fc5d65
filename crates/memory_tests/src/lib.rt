//! Calls that take memory, of which any allocation may be refused.
//!
//! There is no model of its own. All of it is tests, so that no crate below is proved twice.
#![tactic(auto)]

#[cfg(test)]
mod refusals;
