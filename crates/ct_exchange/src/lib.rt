//! The exchange of two ranges of files: their pages change places, and no byte is copied.
//!
//! The one model is an image by its addresses: each byte of one range becomes that at the same place of the other, and no other
//! byte changes. What becomes of the files and of the tree follows from that.
#![tactic(auto)]

mod check;
mod exchange;
mod plan;

pub use exchange::exchange_in;
