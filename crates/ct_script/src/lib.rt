//! The text of a script: a line as a call, and a reply as a line.
#![tactic(auto)]

mod feed;
pub mod laws;
mod line;
mod number;
mod quote;
mod reply;
mod scratch;
mod verb;

pub use feed::{Feed, Next, ReadEnd, SCRIPT_BYTES};
pub use line::parse;
pub use number::number_of;
pub use quote::Quote;
pub use reply::{Shown, put_end, put_name, put_names, put_reply};
pub use scratch::Scratch;
