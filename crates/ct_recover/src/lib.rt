//! Recovery: what a crash left is brought to rest.
//!
//! Its one model is `settled`: the words with their open record applied, its gates closed and the staging slots empty.
#![tactic(auto)]

mod settling;

pub use settling::settle;
