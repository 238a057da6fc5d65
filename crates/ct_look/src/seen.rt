// What a look tells.

use ct_base::Inode;

/// What is told of a file or a directory.
#[derive(Clone, Copy, Debug, PartialEq, Eq)]
pub enum Stat {
    /// The size in bytes.
    File { size: u64 },

    /// The number of entries.
    Dir { count: u64 },
}

/// A directory whose slots were put into a buffer, by their offsets and in the byte order of their names.
#[derive(Clone, Copy, Debug)]
pub struct Listing {
    pub dir: Inode,

    /// How many entries it has.
    pub count: usize,
}
