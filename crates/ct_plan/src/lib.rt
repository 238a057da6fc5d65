//! What a call asks for: a short list of wants for the cells that the many pieces of its ranges ask for. A side takes three
//! wants, a write four, an exchange six.
//!
//! The one model is the set of cells that a list of wants names. `laws` says what the short lists are worth.
#![tactic(auto)]

mod height;
pub mod laws;
mod wants;

pub use height::{alike, edge};
pub use wants::{side_wants, write_wants};
