//! A script over a mounted file system: each line a call, each call a reply.
//!
//! The one model: a script is a list of items, each a call or a bad line, and these are served one after another, as their lines
//! come, over a mount whose device holds a tree.
#![tactic(auto)]

mod buffers;
mod call;
mod list;
mod read;
mod script;
mod sorted;

pub use buffers::ReplyBuffers;
pub use call::{ServeEnd, reply_to_change};
pub use read::reply_to_read;
pub use script::{StreamEnd, serve_lines};
