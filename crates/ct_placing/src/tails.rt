// Mount rule 13: the bytes of a partition past the size of its inode.
ghost use Rattle.std.specs.Prelude.{◌≡◌, ◌≢◌, ◌↔◌, ℕ, ◌<◌, ◌≤◌, IsTrue};
ghost use Rattle.ct_base.specs.Inode.{inode};
ghost use Rattle.ct_base.specs.Rules.{ArePlaced, AreTailsZero, HasRoom, IsPlaced};
ghost use Rattle.ct_base.specs.View.{inode_count, view};
ghost use Rattle.ct_base.specs.Walk.{AreTables, byte};
ghost use Rattle.ct_placing.specs.Zeros.{IsTailZero};

use crate::inodes::bytes_of;
use crate::zeros::are_zero_between;
use ct_base::{ADDRESS_END, Inode, MOST_INODES, TOP_LEVEL, Vaddr};
use ct_inode::get;
use ct_pm::Pm;
use ct_walk::byte_at;

// Whether the bytes from an address to the one before another are 0.
fn are_bytes_zero<D: Pm>(dev: &D, from: u64, to: u64) -> bool
    requires tables { AreTables (D.words dev.now) }
    requires high { to ≤ ADDRESS_END }
    ensures { IsTrue result ↔ ((v : ℕ) → from ≤ v → v < to → byte (D.words dev.now) v ≡ 0) }
{
    for a in from..to {
        match Vaddr::new(a) {
            Some(v) => {
                if byte_at(dev, v) != 0 {
                    return false;
                }
            }
            None => unreachable!(),
        }
    }
    true
}

// Whether the bytes of an inode's partition past its size are 0.
fn is_tail_zero<D: Pm>(dev: &D, f: Inode) -> bool
    requires tables { AreTables (D.words dev.now) }
    requires room { HasRoom f }
    ensures { IsTrue result ↔ IsTailZero (view (D.words dev.now)) f }
{
    let from = f.base + f.size;
    let up = (from + 7) / 8 * 8;
    let end = f.base + bytes_of(f.level);
    are_bytes_zero(dev, from, up) && are_zero_between(dev, up, end)
}

// The same of an inode by its number, where it is live and has a partition.
fn has_tail_zero<D: Pm>(dev: &D, n: u64) -> bool
    requires tables { AreTables (D.words dev.now) }
    requires from { 1 ≤ n }
    requires few { n ≤ MOST_INODES }
    requires placed { (inode (view (D.words dev.now)) n).kind ≢ 0 → IsPlaced (inode (view (D.words dev.now)) n) }
    ensures { IsTrue result ↔ ((inode (view (D.words dev.now)) n).kind ≢ 0 → (inode (view (D.words dev.now)) n).level ≤ TOP_LEVEL
        → IsTailZero (view (D.words dev.now)) (inode (view (D.words dev.now)) n)) }
{
    let f = get(dev, n);
    if f.kind == 0 || f.level > TOP_LEVEL {
        return true;
    }
    is_tail_zero(dev, f)
}

/// Mount rule 13.
///
/// Its time grows with the inodes, and with the pages that are mapped in partitions.
pub fn are_tails_zero<D: Pm>(dev: &D) -> bool
    requires tables { AreTables (D.words dev.now) }
    requires few { inode_count (D.words dev.now) ≤ MOST_INODES }
    requires placed { ArePlaced (view (D.words dev.now)) (inode_count (D.words dev.now)) }
    ensures { IsTrue result ↔ AreTailsZero (view (D.words dev.now)) (inode_count (D.words dev.now)) }
{
    for n in 1..dev.load(3) + 1 {
        if !has_tail_zero(dev, n) {
            return false;
        }
    }
    true
}
