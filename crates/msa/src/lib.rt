//! Millsalder for C: one export for each call of a mounted file system whose medium C holds. `msa`, the prefix of the
//! functions, is short for Millsalder.
//!
//! The one model: a handle has nothing in it, or one seat, which is a mount and how much of what it asked of the medium C has
//! taken.
#![tactic(auto)]

mod calls;
mod codes;
mod handle;
mod laws;
mod looks;
mod names;
mod opening;
mod parts;
mod seat;
mod sending;
mod shipping;
mod space;
mod taking;
mod texts;

pub use handle::Handle;
pub use laws::{a_medium_lands_before_a_call_or_after_it, a_medium_that_saw_all_holds_the_words};
pub use parts::Parts;
pub use seat::{Seat, Space};
pub use sending::seat_may_be_sent;
