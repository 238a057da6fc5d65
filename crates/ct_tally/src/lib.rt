//! The workload of a number over a mounted file system: its calls one after another, and what they come to.
//!
//! The one model: the calls are items, each with a reply and a moment, as those of a script; a `Tally` tells how many replies
//! there were of each kind, and what the root of the tree holds that the calls left.
#![tactic(auto)]

mod calls;
mod counts;
mod entries;
mod line;
mod tally;

pub use counts::Counts;
pub use line::put_tally;
pub use tally::{Tally, work};
