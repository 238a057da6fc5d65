// The cells of the tables, each with a key and what is known of it.
use ct_base::{NameBuf, Page};
use ct_dir::Found;

/// The translations that are known at most.
pub const PAGE_CELLS: usize = 1_024;

/// The names that are known at most.
pub const NAME_CELLS: usize = 256;

/// The page at which a virtual page was found.
#[derive(Clone, Copy, Debug)]
pub struct PageCell {
    pub number: u64,
    pub page: Page,
}

/// The entry at which a name was found in the directory of an inode.
#[derive(Drop)]
pub struct NameCell {
    pub directory: u64,
    pub name: NameBuf,
    pub found: Found,
}
