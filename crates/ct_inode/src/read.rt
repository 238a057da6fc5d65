// Inodes by their number, read on a device.
ghost use Rattle.std.specs.Prelude.{◌≡◌, ℕ, ◌+◌, ◌*◌, ◌/◌, ◌%◌, ◌^◌, ◌<◌, ◌≤◌, IfSome, IfNone, length, slice_index};
ghost use Rattle.ct_base.specs.Inode.{inode};
ghost use Rattle.ct_base.specs.View.{view};
ghost use Rattle.ct_base.specs.Walk.{AreTables, page_at};
ghost use Rattle.ct_base.specs.Words.{word_at};

use ct_base::{INODE_BYTES, Inode, MOST_INODES, PAGE_BYTES, PAGE_WORDS, Vaddr};
use ct_pm::Pm;
use ct_walk::walk;

/// How many inodes share a page.
pub const IN_PAGE: u64 = PAGE_BYTES / INODE_BYTES;

/// An inode that is free, as each is whose page is not there.
const FREE: Inode = Inode {
    kind: 0,
    size: 0,
    base: 0,
    level: 0,
};

/// The address of inode `n`, where its eight words begin.
pub fn place(n: u64) -> Vaddr
    requires { n ≤ MOST_INODES }
    ensures { result ≡ INODE_BYTES * n }
{
    match Vaddr::new(INODE_BYTES * n) {
        Some(address) => address,
        None => unreachable!(),
    }
}

/// The device word at which inode `n` begins, `None` where its page is not there. The words of the inodes that share the
/// page follow it.
pub fn first_word<D: Pm>(dev: &D, n: u64) -> Option<u64>
    requires tables { AreTables (D.words dev.now) }
    requires to { n ≤ MOST_INODES }
    ensures shown { IfSome result (λ w. (k : ℕ) → n % IN_PAGE * 8 + k < PAGE_WORDS → slice_index (D.words dev.now) (w + k) ≡ word_at (D.words dev.now) (INODE_BYTES * n + 8 * k)) }
    ensures on_device { IfSome result (λ w. (k : ℕ) → n % IN_PAGE * 8 + k < PAGE_WORDS → w + k < length (D.words dev.now)) }
    ensures high { IfSome result (λ w. w < 2 ^ 62) }
    ensures none { IfNone result (page_at (D.words dev.now) 4 (n / IN_PAGE) ≡ 0) }
{
    let page = walk(dev, place(n))?;
    Some(page.number() * PAGE_WORDS + n % IN_PAGE * 8)
}

/// Inode `n`, from 1 to `MOST_INODES`: a walk and four loads.
pub fn get<D: Pm>(dev: &D, n: u64) -> Inode
    requires tables { AreTables (D.words dev.now) }
    requires from { 1 ≤ n }
    requires to { n ≤ MOST_INODES }
    ensures { result ≡ inode (view (D.words dev.now)) n }
{
    match first_word(dev, n) {
        Some(word) => Inode {
            kind: dev.load(word),
            size: dev.load(word + 1),
            base: dev.load(word + 2),
            level: dev.load(word + 3),
        },
        None => FREE,
    }
}
