//! A device of persistent memory whose writes are handed to somebody else.
//!
//! The one model is the words as they read, and the outbox: the lines and syncs that the medium has still to see, in order.
//! It makes no system call. Its history takes no bytes; what the holder of the medium does with the outbox is trusted.
#![tactic(auto)]

mod ask;
mod laws;
mod lines;
mod outbox;
mod past;

pub use ask::Ask;
pub use laws::{a_medium_holds_what_is_allowed, what_was_asked_stays};
pub use outbox::OutboxPm;
pub use past::Past;
