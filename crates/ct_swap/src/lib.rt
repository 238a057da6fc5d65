//! Two equally long ranges of virtual pages exchange their pages: two words a piece, drafted in the redo record.
//!
//! The one model is the draft of the record, seen as its pairs and the words under them.
#![tactic(auto)]

mod now;
mod swap;

pub use now::pswap_now;
pub use swap::pswap;
