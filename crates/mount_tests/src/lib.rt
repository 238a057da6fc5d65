//! Mounts of images that are damaged, and of those that a crash left: at each few steps of calls, and at each step of a
//! recovery.
//!
//! There is no model of its own. All of it is tests, so that no crate below is proved twice.
#![tactic(auto)]

#[cfg(test)]
mod calls;
#[cfg(test)]
mod costs;
#[cfg(test)]
mod damage;
#[cfg(test)]
mod failing;
#[cfg(test)]
mod replaced;
#[cfg(test)]
mod script;
#[cfg(test)]
mod twice;
#[cfg(test)]
mod writes;
