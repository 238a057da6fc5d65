// Mount rules 12 and 14: the partitions of the live inodes, and what is mapped beside them.
ghost use Rattle.std.specs.Prelude.{◌≡◌, ◌≢◌, ◌↔◌, ℕ, ◌+◌, ◌*◌, ◌^◌, ◌<◌, ◌≤◌, IfOk, OnOk, IsTrue};
ghost use Rattle.std.specs.List.Sorted.{IsNonDecreasingBy};
ghost use Rattle.ct_base.specs.Rules.{ArePartsApart, ArePlaced, IsMappedInParts};
ghost use Rattle.ct_base.specs.View.{inode_count, view};
ghost use Rattle.ct_base.specs.Walk.{AreTables, page_at};
ghost use Rattle.ct_placing.specs.Extents.{AreExtents, AreInOrder, Collects};

use crate::extent::Extent;
use crate::inodes::bytes_of;
use ct_base::{
    ADDRESS_END, MOST_INODES, NoMemory, PAGE_BYTES, PARTITION_SLOT, SLOT_PAGES, TABLE_ENTRIES,
    TOP_LEVEL,
};
use ct_inode::get;
use ct_pm::Pm;
use ct_walk::absent_from;
use std::alloc::Global;

/// The first virtual page of root slot 10.
const FIRST: u64 = PARTITION_SLOT * SLOT_PAGES;

/// The page past the last one.
const PAST: u64 = ADDRESS_END / PAGE_BYTES;

/// Adds the partition of an inode, where it is live and has one.
fn collect<D: Pm>(dev: &D, n: u64, extents: &mut Vec<Extent>) -> Result<(), NoMemory>
    requires tables { AreTables (D.words dev.now) }
    requires from { 1 ≤ n }
    requires to { n ≤ inode_count (D.words dev.now) }
    requires few { inode_count (D.words dev.now) ≤ MOST_INODES }
    requires placed { ArePlaced (view (D.words dev.now)) (inode_count (D.words dev.now)) }
    ensures { OnOk result (Collects (view (D.words dev.now)) (inode_count (D.words dev.now)) n extents.old.items
        → Collects (view (D.words dev.now)) (inode_count (D.words dev.now)) (n + 1) extents.new.items) }
{
    let f = get(dev, n);
    if f.kind == 0 || f.level > TOP_LEVEL {
        return Ok(());
    }
    let extent = Extent {
        base: f.base,
        end: f.base + bytes_of(f.level),
        inode: n,
    };
    match extents.push(extent) {
        Ok(()) => Ok(()),
        Err(_) => Err(NoMemory),
    }
}

/// The partitions of the live inodes, by rising number of these.
fn extents_of<D: Pm>(alloc: Global, dev: &D) -> Result<Vec<Extent>, NoMemory>
    requires tables { AreTables (D.words dev.now) }
    requires few { inode_count (D.words dev.now) ≤ MOST_INODES }
    requires placed { ArePlaced (view (D.words dev.now)) (inode_count (D.words dev.now)) }
    ensures { IfOk result (λ v. AreExtents (view (D.words dev.now)) (inode_count (D.words dev.now)) v.items) }
{
    let mut extents = Vec::new(alloc);
    for n in 1..dev.load(3) + 1 {
        collect(dev, n, &mut extents)?;
    }
    Ok(extents)
}

/// The partitions of the live inodes, by rising base.
pub fn sorted_extents<D: Pm>(alloc: Global, dev: &D) -> Result<Vec<Extent>, NoMemory>
    requires tables { AreTables (D.words dev.now) }
    requires few { inode_count (D.words dev.now) ≤ MOST_INODES }
    requires placed { ArePlaced (view (D.words dev.now)) (inode_count (D.words dev.now)) }
    ensures extents { IfOk result (λ v. AreExtents (view (D.words dev.now)) (inode_count (D.words dev.now)) v.items) }
    ensures sorted { IfOk result (λ v. IsNonDecreasingBy (λ e. e.base) v.items) }
{
    let mut extents = extents_of(alloc, dev)?;
    extents.sort_unstable_by_key(|e| e.base);
    Ok(extents)
}

/// Whether each of the extents ends where the next one begins, or before.
pub fn are_in_order(extents: &Vec<Extent>) -> bool
    ensures { IsTrue result ↔ AreInOrder extents.now.items }
{
    for k in 1..extents.len() {
        if extents[k - 1].end > extents[k].base {
            return false;
        }
    }
    true
}

/// Whether the virtual pages from one on are absent, up to the one before another.
fn are_absent<D: Pm>(dev: &D, from: u64, to: u64) -> bool
    requires tables { AreTables (D.words dev.now) }
    requires high { to ≤ TABLE_ENTRIES ^ 4 }
    ensures { IsTrue result ↔ ((p : ℕ) → from ≤ p → p < to → page_at (D.words dev.now) 4 p ≡ 0) }
{
    let mut page = from;
    while page < to {
        let absent = absent_from(dev, 4, page, to);
        if absent == 0 {
            return false;
        }
        page += absent;
    }
    true
}

/// Mount rule 14, by the partitions of the live inodes in their order.
pub fn are_mapped_in_parts<D: Pm>(dev: &D, extents: &Vec<Extent>) -> bool
    requires tables { AreTables (D.words dev.now) }
    requires placed { ArePlaced (view (D.words dev.now)) (inode_count (D.words dev.now)) }
    requires extents { AreExtents (view (D.words dev.now)) (inode_count (D.words dev.now)) extents.now.items }
    requires order { AreInOrder extents.now.items }
    ensures { IsTrue result ↔ IsMappedInParts (D.words dev.now) (view (D.words dev.now)) (inode_count (D.words dev.now)) }
{
    let mut page = FIRST;
    for extent in extents {
        if !are_absent(dev, page, extent.base / PAGE_BYTES) {
            return false;
        }
        page = extent.end / PAGE_BYTES;
    }
    are_absent(dev, page, PAST)
}
