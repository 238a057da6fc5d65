// What a reader of the image finds. It claims nothing, and takes any words: a wrong image must not lead it astray.
use ct_base::{
    DIRECTORY_KIND, ENTRY_BYTES, ENTRY_WORDS, INODE_BYTES, MOST_PAGES, PAGE_BYTES, PAGE_WORDS,
    ROOT_PAGE, SLOT_SPAN, TABLE_ENTRIES,
};
use ct_pm::Pm;

/// The addresses that an entry of a table of level 3 leads to, in bytes.
pub const THIRD_SPAN: u64 = SLOT_SPAN / TABLE_ENTRIES;

/// Those that an entry of a table of level 2 leads to.
pub const SECOND_SPAN: u64 = THIRD_SPAN / TABLE_ENTRIES;

/// An entry whose name has one byte, and what it leads to.
#[derive(Clone, Copy, Debug, PartialEq, Eq)]
pub struct Entry {
    pub name: u8,
    pub inode: u64,
    pub kind: u64,
    pub size: u64,
}

/// A word of the device, 0 past its end.
pub fn word<D: Pm>(dev: &D, at: u64) -> u64 {
    if at / PAGE_WORDS < dev.pages() {
        dev.load(at)
    } else {
        0
    }
}

// The page that an entry of a table names.
fn step<D: Pm>(dev: &D, table: u64, index: u64) -> Option<u64> {
    let entry = word(
        dev,
        table.saturating_mul(TABLE_ENTRIES).saturating_add(index),
    );
    if entry % PAGE_BYTES == 1 {
        Some(entry / PAGE_BYTES)
    } else {
        None
    }
}

// The page at an address, by four index steps.
fn page_at<D: Pm>(dev: &D, address: u64) -> Option<u64> {
    let third = step(dev, ROOT_PAGE, address / SLOT_SPAN % TABLE_ENTRIES)?;
    let second = step(dev, third, address / THIRD_SPAN % TABLE_ENTRIES)?;
    let first = step(dev, second, address / SECOND_SPAN % TABLE_ENTRIES)?;
    step(dev, first, address / PAGE_BYTES % TABLE_ENTRIES)
}

/// The number of the word of the device at an address, where a page is there.
pub fn place<D: Pm>(dev: &D, address: u64) -> Option<u64> {
    let page = page_at(dev, address)?;
    Some(
        page.saturating_mul(PAGE_WORDS)
            .saturating_add(address % PAGE_BYTES / 8),
    )
}

/// The word at an address, 0 where no page is there.
pub fn word_at<D: Pm>(dev: &D, address: u64) -> u64 {
    match place(dev, address) {
        Some(at) => word(dev, at),
        None => 0,
    }
}

/// A word of an inode: 0 is the kind, 1 the size, 2 the base and 3 the level.
pub fn inode_word<D: Pm>(dev: &D, inode: u64, at: u64) -> u64 {
    word_at(
        dev,
        inode
            .saturating_mul(INODE_BYTES)
            .saturating_add(at.saturating_mul(8)),
    )
}

/// Whether all words of an inode are 0.
pub fn is_free<D: Pm>(dev: &D, inode: u64) -> bool {
    for at in 0..8 {
        if inode_word(dev, inode, at) != 0 {
            return false;
        }
    }
    true
}

// Whether the slot at an address is that of an entry: its inode and the length of its name, the name, and then zeros.
fn has_entry<D: Pm>(dev: &D, slot: u64, entry: &Entry) -> bool {
    let head = entry.inode.saturating_add(1 << 32);
    if word_at(dev, slot) != head || word_at(dev, slot.saturating_add(8)) != entry.name as u64 {
        return false;
    }
    for k in 2..ENTRY_WORDS {
        if word_at(dev, slot.saturating_add(8 * k)) != 0 {
            return false;
        }
    }
    inode_word(dev, entry.inode, 0) == entry.kind && inode_word(dev, entry.inode, 1) == entry.size
}

/// Whether an inode is a directory with these entries in the order of its slots, and with no slot more.
pub fn holds<D: Pm>(dev: &D, dir: u64, entries: &[Entry]) -> bool {
    let mut offset: u64 = 0;
    let base = inode_word(dev, dir, 2);
    for entry in entries {
        if !has_entry(dev, base.saturating_add(offset), entry) {
            return false;
        }
        offset = offset.saturating_add(ENTRY_BYTES);
    }
    inode_word(dev, dir, 0) == DIRECTORY_KIND && inode_word(dev, dir, 1) == offset
}

/// Whether two devices read alike.
pub fn read_alike<D: Pm>(one: &D, other: &D) -> bool {
    if one.pages() != other.pages() || one.pages() > MOST_PAGES {
        return false;
    }
    for at in 0..PAGE_WORDS * one.pages() {
        if word(one, at) != word(other, at) {
            return false;
        }
    }
    true
}
