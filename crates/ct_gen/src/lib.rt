//! A workload from a number: sixteen files are made, and then calls are drawn that write, cut, read, exchange and rename them.
//!
//! The one model: a `Gen` is seen as the list of the calls that are still to come.
#![tactic(auto)]

mod calls;
mod gen_call;

pub use calls::{Gen, MOST_DRAWS, step};
pub use gen_call::GenCall;
