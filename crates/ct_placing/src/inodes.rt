// Mount rules 10 and 11: the words of the inodes, and where they lie.
ghost use Rattle.std.specs.Prelude.{◌≡◌, ◌↔◌, ℕ, ◌+◌, ◌*◌, ◌<◌, ◌≤◌, IsTrue};
ghost use Rattle.ct_base.specs.Inode.{inode, inode_word, part_bytes};
ghost use Rattle.ct_base.specs.Rules.{AreInodes, ArePlaced, HasNone, HasRoom, IsInode, IsPlaced};
ghost use Rattle.ct_base.specs.View.{inode_count, view};
ghost use Rattle.ct_base.specs.Walk.{AreTables};

use ct_base::{
    ADDRESS_END, DIRECTORY_KIND, ENTRY_BYTES, INODE_BYTES, Inode, MOST_INODES, NO_PARTITION,
    PAGE_BYTES, PARTITION_SLOT, SLOT_SPAN, TOP_LEVEL,
};
use ct_inode::get;
use ct_pm::Pm;
use ct_words::load_word;

// Whether a word of an inode is 0.
fn is_word_zero<D: Pm>(dev: &D, n: u64, k: u64) -> bool
    requires tables { AreTables (D.words dev.now) }
    requires few { n ≤ MOST_INODES }
    requires word { k < 8 }
    ensures { IsTrue result ↔ (inode_word (view (D.words dev.now)) n k ≡ 0) }
{
    load_word(dev, INODE_BYTES * n + 8 * k) == 0
}

// Whether the words of an inode from one on are 0.
fn are_words_zero<D: Pm>(dev: &D, n: u64, from: u64) -> bool
    requires tables { AreTables (D.words dev.now) }
    requires few { n ≤ MOST_INODES }
    ensures { IsTrue result ↔ ((k : ℕ) → from ≤ k → k < 8 → inode_word (view (D.words dev.now)) n k ≡ 0) }
{
    for k in from..8 {
        if !is_word_zero(dev, n, k) {
            return false;
        }
    }
    true
}

// Whether the kind of an inode and the words that are not used are as they may be.
fn is_inode<D: Pm>(dev: &D, n: u64) -> bool
    requires tables { AreTables (D.words dev.now) }
    requires from { 1 ≤ n }
    requires few { n ≤ MOST_INODES }
    ensures { IsTrue result ↔ IsInode (view (D.words dev.now)) n }
{
    let kind = get(dev, n).kind;
    if kind == 0 {
        return n != 1 && are_words_zero(dev, n, 1);
    }
    kind <= DIRECTORY_KIND && (n != 1 || kind == DIRECTORY_KIND) && are_words_zero(dev, n, 4)
}

/// Mount rule 10.
pub fn are_inodes<D: Pm>(dev: &D) -> bool
    requires tables { AreTables (D.words dev.now) }
    requires few { inode_count (D.words dev.now) ≤ MOST_INODES }
    ensures { IsTrue result ↔ AreInodes (view (D.words dev.now)) (inode_count (D.words dev.now)) }
{
    for n in 1..dev.load(3) + 1 {
        if !is_inode(dev, n) {
            return false;
        }
    }
    true
}

// Whether an inode has no partition and no bytes.
fn has_none(f: Inode) -> bool
    ensures { IsTrue result ↔ HasNone f }
{
    f.level == NO_PARTITION && f.base == 0 && f.size == 0
}

/// The length of a partition of a level.
pub fn bytes_of(level: u64) -> u64
    requires { level ≤ TOP_LEVEL }
    ensures bytes { result ≡ part_bytes level }
    ensures some { 0 < result }
{
    PAGE_BYTES * 8u64.pow(level as u32)
}

// Whether an inode has a partition that holds its bytes.
fn has_room(f: Inode) -> bool
    ensures { IsTrue result ↔ HasRoom f }
{
    if f.level > TOP_LEVEL {
        return false;
    }
    let bytes = bytes_of(f.level);
    f.base % bytes == 0
        && f.base >= PARTITION_SLOT * SLOT_SPAN
        && f.base < ADDRESS_END
        && f.size <= bytes
}

// Whether a live inode is placed as it may be.
fn is_placed(f: Inode) -> bool
    ensures { IsTrue result ↔ IsPlaced f }
{
    if f.kind == DIRECTORY_KIND && f.size % ENTRY_BYTES != 0 {
        return false;
    }
    has_none(f) || has_room(f)
}

/// Mount rule 11.
pub fn are_placed<D: Pm>(dev: &D) -> bool
    requires tables { AreTables (D.words dev.now) }
    requires few { inode_count (D.words dev.now) ≤ MOST_INODES }
    ensures { IsTrue result ↔ ArePlaced (view (D.words dev.now)) (inode_count (D.words dev.now)) }
{
    for n in 1..dev.load(3) + 1 {
        let f = get(dev, n);
        if f.kind != 0 && !is_placed(f) {
            return false;
        }
    }
    true
}
