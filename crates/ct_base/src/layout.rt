// The sizes and places of an image: what a page, a table, an inode and an entry take, where the record and the root table lie,
// and how the addresses are divided. An image is a list of words of 8 bytes; word and page numbers count from 0.

/// The bytes of a page.
pub const PAGE_BYTES: u64 = 4096;

/// The words of a page.
pub const PAGE_WORDS: u64 = 512;

/// The entries of a page table, each a word; a table of level k leads to `TABLE_ENTRIES` to the power of k pages.
pub const TABLE_ENTRIES: u64 = 512;

/// Word 0 of an image: the bytes `RTCTFS01`, as a number whose lowest byte comes first.
pub const MAGIC: u64 = 0x3130_5346_5443_5452;

/// Word 1 of an image: the version of the format.
pub const VERSION: u64 = 1;

/// The fewest pages of a device that holds an image.
pub const LEAST_PAGES: u64 = 256;

/// The most pages of a device, 1 GiB.
pub const MOST_PAGES: u64 = 262_144;

/// The word that the long gate of the redo record fills: how many long pairs are to be stored, 0 where it is closed.
pub const LONG_GATE: u64 = 512;

/// The word of the first pair of a short record.
pub const SHORT_PAIRS: u64 = 520;

/// The word that the short gate fills.
pub const SHORT_GATE: u64 = 527;

/// The word of the first pair of a long record.
pub const LONG_PAIRS: u64 = 528;

/// The most pairs of a short record.
pub const MOST_SHORT_PAIRS: u64 = 3;

/// The most pairs of a long record.
pub const MOST_LONG_PAIRS: u64 = 8184;

/// The page of the root table.
pub const ROOT_PAGE: u64 = 33;

/// The first word of the root table.
pub const ROOT_WORD: u64 = 16_896;

/// The first page that may be handed out: those before it hold the superblock, the redo record and the root table.
pub const FIRST_PAGE: u64 = 34;

/// The addresses that an entry of the root table leads to, in bytes: a root slot.
pub const SLOT_SPAN: u64 = 549_755_813_888;

/// The pages that an entry of the root table leads to.
pub const SLOT_PAGES: u64 = 134_217_728;

/// The first of the root slots in which new pages are staged.
pub const STAGING_SLOT: u64 = 2;

/// How many root slots are for staging.
pub const STAGING_SLOTS: u64 = 8;

/// The first of the root slots in which partitions lie.
pub const PARTITION_SLOT: u64 = 10;

/// How many root slots are for partitions. Each live partition lies in one, and one of the highest level fills it.
pub const PARTITION_SLOTS: u64 = 502;

/// Where the addresses end, in bytes.
pub const ADDRESS_END: u64 = 281_474_976_710_656;

/// The highest level of a partition. One of level n has 8 to the power of n pages.
pub const TOP_LEVEL: u64 = 9;

/// The level that the inode of an object without a partition has.
pub const NO_PARTITION: u64 = 15;

/// The fewest inodes.
pub const LEAST_INODES: u64 = 2;

/// The most inodes.
pub const MOST_INODES: u64 = 1_048_576;

/// The bytes of an inode. That with number i lies at address i times as many.
pub const INODE_BYTES: u64 = 64;

/// The kind of an inode that is a file.
pub const FILE_KIND: u64 = 1;

/// The kind of an inode that is a directory.
pub const DIRECTORY_KIND: u64 = 2;

/// The bytes of a directory's slot, which holds one entry or none.
pub const ENTRY_BYTES: u64 = 256;

/// The words of a directory's slot.
pub const ENTRY_WORDS: u64 = 32;

/// The longest path, in bytes.
pub const PATH_BYTES: usize = 4096;
