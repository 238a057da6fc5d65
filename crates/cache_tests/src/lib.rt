//! What a mount remembers: how many words its looks load, over a device that counts them.
//!
//! There is no model of its own. All of it is tests, so that no crate below is proved twice.
#![tactic(auto)]

#[cfg(test)]
mod loads;
