// The short lists of wants, as the walk takes them.
ghost use Rattle.std.specs.Prelude.{◌≡◌, ℕ, ◌+◌, ◌*◌, ◌/◌, ◌%◌, ◌^◌, ◌<◌, ◌≤◌, List};
ghost use Rattle.ct_base.specs.Inode.{part_bytes};
ghost use Rattle.ct_base.specs.Plan.{counted as counted_want, stage as stage_of, table_want, touched as touched_of};
ghost use Rattle.ct_plan.specs.Few.{few_both_wants, few_wants, few_write_wants, stays_from as stays_from_of};

use crate::height::{alike, edge};
use ct_base::{
    ADDRESS_END, Inode, PAGE_BYTES, SLOT_SPAN, STAGING_SLOT, TABLE_ENTRIES, TOP_LEVEL, Vaddr,
};
use ct_walk::Want;

// A want of a height for some pages on end.
fn pages(height: u32, first: u64, count: u64) -> Want
    requires height { height ≤ 4 }
    requires some { 1 ≤ count }
    requires low { first + count ≤ TABLE_ENTRIES ^ 4 }
    ensures { result ≡ record { height = height; at = first * PAGE_BYTES; len = count * PAGE_BYTES } }
{
    match Vaddr::new(first * PAGE_BYTES) {
        Some(at) => Want {
            height,
            at,
            len: count * PAGE_BYTES,
        },
        None => unreachable!(),
    }
}

// The table of a level, or the page, at an address.
fn table(level: u32, at: u64) -> Want
    requires height { level ≤ 4 }
    requires low { at < ADDRESS_END }
    ensures { result ≡ table_want level at }
{
    match Vaddr::new(at) {
        Some(at) => Want {
            height: level,
            at,
            len: 1,
        },
        None => unreachable!(),
    }
}

/// What `n` pages from `a` on ask for that are exchanged with those from `b` on, on their own side.
pub fn side_wants(a: u64, b: u64, n: u64) -> [Want; 3]
    requires some { 1 ≤ n }
    requires first { a + n ≤ TABLE_ENTRIES ^ 4 }
    ensures { result ≡ few_wants a b n }
{
    let top = alike(3, a, b);
    let range = pages(top + 1, a, n);
    let first = table(edge(top, a), a * PAGE_BYTES);
    let last = table(edge(top, a + n), (a + n - 1) * PAGE_BYTES);
    [range, first, last]
}

// The lowest table that growth of an object leaves where it is.
fn stays_from(inode: Inode) -> u32
    ensures exact { result ≡ stays_from_of inode }
    ensures low { result ≤ 4 }
{
    if inode.level > TOP_LEVEL {
        return 0;
    }
    inode.level as u32 / 3 + 1
}

// The table of a level at an address in a new partition, or where growth brings it from.
fn counted(inode: Inode, base: u64, level: u32, at: u64) -> Want
    requires old { inode.level ≤ TOP_LEVEL → inode.base + part_bytes inode.level ≤ ADDRESS_END }
    requires new { base ≤ ADDRESS_END }
    requires height { level ≤ 4 }
    requires low { at < ADDRESS_END }
    ensures { (n : ℕ) → result ≡ counted_want inode (record { base = base; level = n }) (table_want level at) }
{
    if inode.level > TOP_LEVEL || level > inode.level as u32 / 3 {
        return table(level, at);
    }
    if at < base || at >= base + PAGE_BYTES * 8u64.pow(inode.level as u32) {
        return table(level, at);
    }
    table(level, at - base + inode.base)
}

/// What a write of `len` bytes at an offset asks for, in a partition that begins at an address.
pub fn write_wants(inode: Inode, off: u64, len: u64, base: u64) -> [Want; 4]
    requires some { 1 ≤ len }
    requires old { inode.level ≤ TOP_LEVEL → inode.base + part_bytes inode.level ≤ ADDRESS_END }
    requires new { base + off + len ≤ ADDRESS_END }
    requires fits { off + len ≤ SLOT_SPAN }
    requires aligned { base % PAGE_BYTES ≡ 0 }
    ensures { (level : ℕ) → result ≡ few_write_wants inode off len (record { base = base; level = level }) }
{
    let a = (base + off) / PAGE_BYTES;
    let n = (off + len - 1) / PAGE_BYTES - off / PAGE_BYTES + 1;
    let first = edge(3, a);
    let staged = (STAGING_SLOT * SLOT_SPAN + (base + off) % SLOT_SPAN) / PAGE_BYTES;
    let brought = counted(inode, base, first, a * PAGE_BYTES);
    let stays = table(stays_from(inode).max(first), a * PAGE_BYTES);
    let last = table(edge(3, a + n), (a + n - 1) * PAGE_BYTES);
    let page = pages(0, staged, n);
    [brought, stays, last, page]
}
