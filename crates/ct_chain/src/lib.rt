//! What was answered, one thing after another: of states, items, replies and moments of any kind.
//!
//! The one model: a state, and a list of items that are answered one after another, each with a reply, a state that it leaves and
//! a moment at which it was done; then the line of each reply is written, whole or in part.
#![tactic(auto)]
