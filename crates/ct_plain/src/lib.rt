//! The plain file tree: a small implementation of the table of calls, which judges the tests of the file system. Contracts see
//! the `Tree` of `ct_tree`.
#![tactic(auto)]

mod plain;

pub use plain::PlainTree;
