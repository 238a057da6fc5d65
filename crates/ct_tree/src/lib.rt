//! The calls of a file system: what each replies to a tree of files, and the tree that it leaves. The tables stand in `specs/Step`
//! and are the model that the file system is proved against; the code is what they say of paths, bytes and numbers.
#![tactic(auto)]

mod call;
pub mod checks;
pub mod content;
pub mod laws;
pub mod path;
mod stop;

pub use call::{Bytes, Call, NameList, Refusal, Reply};
pub use path::is_name;
pub use stop::Stop;
