// What a new entry needs: its directory grows or stays, and a page for the slot and one for the inode are made.
ghost use Rattle.std.specs.Prelude.{◌≡◌, ◌+◌, ◌<◌, ◌≤◌, ◌++◌, length, MatchOption};
ghost use Rattle.ct_base.specs.Plan.{page_want};
ghost use Rattle.ct_base.specs.Rules.{IsPlaced};
ghost use Rattle.ct_enter.specs.Plans.{CanPlan, IsEntryPlan, entry_wants, slot_growth};
ghost use Rattle.ct_call.specs.Plans.{IsOpen, level_of};

use ct_base::{
    ADDRESS_END, ENTRY_BYTES, INODE_BYTES, Inode, MOST_INODES, NO_PARTITION, SLOT_SPAN, Vaddr,
};
use ct_call::{CallPlan, Growth};
use ct_grow::{Wants, growth_wants};
use ct_header::pick;
use ct_level::{length_of, level_for};
use ct_pm::Pm;
use ct_walk::Want;

// The level to which a directory grows for a slot at an offset, `None` where the slot lies in its partition.
fn growth_for(inode: &Inode, offset: u64) -> Option<u32>
    requires placed { IsPlaced inode.now }
    requires fits { offset + ENTRY_BYTES ≤ SLOT_SPAN }
    ensures { result ≡ slot_growth inode.now offset }
{
    let end = offset + ENTRY_BYTES;
    if end <= inode.size {
        return None;
    }
    if inode.level != NO_PARTITION && end <= length_of(inode.level as u32) {
        return None;
    }
    Some(level_for(end))
}

// The want of the page at an address.
fn page(at: u64) -> Want
    requires { at < ADDRESS_END }
    ensures { result ≡ page_want at }
{
    match Vaddr::new(at) {
        Some(at) => Want {
            height: 0,
            at,
            len: 1,
        },
        None => unreachable!(),
    }
}

// The plan of a slot at an address and of an inode, behind the wants of growth.
fn plan_in(growth: Growth, grown: Wants, slot: u64, number: u64) -> CallPlan
    requires few { length grown ≤ 12 }
    requires slot { slot < ADDRESS_END }
    requires number { number ≤ MOST_INODES }
    ensures growth { result.growth ≡ growth }
    ensures wants { result.wants ≡ grown ++ entry_wants slot number }
    ensures rest { result.rest ≡ entry_wants slot number }
{
    let mut wants = grown;
    wants.push(page(slot));
    wants.push(page(INODE_BYTES * number));
    let mut rest = Wants::new();
    rest.push(page(slot));
    rest.push(page(INODE_BYTES * number));
    CallPlan {
        growth,
        wants,
        rest,
    }
}

/// The plan of a new object with a number, whose entry goes to an offset of a directory.
pub fn entry_plan<D: Pm>(dev: &D, inode: Inode, offset: u64, number: u64) -> CallPlan
    requires can { CanPlan (D.words dev.now) inode offset }
    requires number { number ≤ MOST_INODES }
    ensures { IsEntryPlan (D.words dev.now) inode offset number result }
{
    let level = match growth_for(&inode, offset) {
        Some(level) => level,
        None => return plan_in(Growth::Stays, Wants::new(), inode.base + offset, number),
    };
    match pick(dev, level) {
        Some(part) => {
            let base = part.base();
            let grown = growth_wants(inode, level, base);
            plan_in(Growth::To(level), grown, base.get() + offset, number)
        }
        None => CallPlan {
            growth: Growth::Barred(level),
            wants: Wants::new(),
            rest: Wants::new(),
        },
    }
}
