// What a write needs.
ghost use Rattle.std.specs.Prelude.{◌≡◌, [], ℕ, ◌+◌, ◌%◌, ◌<◌, ◌≤◌, ◌++◌, length};
ghost use Rattle.ct_base.specs.Inode.{IsPart, part, part_bytes};
ghost use Rattle.ct_base.specs.Plan.{give_up_wants as wants_of_give_up, grown, grows_to, stage, table_want, truncate_plan as plan_of_truncate, write_plan as plan_of_write};
ghost use Rattle.ct_base.specs.Rules.{IsPlaced};
ghost use Rattle.ct_base.specs.View.{inode_count, view};
ghost use Rattle.ct_plan.specs.Few.{few_cut_wants, few_write_wants};
ghost use Rattle.ct_call.specs.Plans.{Plans};
ghost use Rattle.ct_edit.specs.Planned.{CanPlan};

use ct_base::{
    ADDRESS_END, Inode, NO_PARTITION, PAGE_BYTES, SLOT_SPAN, STAGING_SLOT, TOP_LEVEL, Vaddr,
};
use ct_call::{CallPlan, Growth};
use ct_grow::{Wants, growth_wants};
use ct_header::pick;
use ct_level::{length_of, level_for};
use ct_plan::{side_wants, write_wants};
use ct_pm::Pm;
use ct_tree::checks::FILE_BYTES;
use ct_walk::Want;

/// The level to which an object grows that has to hold so many bytes, `None` where its partition holds them.
pub(crate) fn growth_to(inode: &Inode, end: u64) -> Option<u32>
    requires placed { IsPlaced inode.now }
    requires some { 1 ≤ end }
    requires fits { end ≤ FILE_BYTES }
    ensures { result ≡ grows_to inode.now end }
{
    if inode.level != NO_PARTITION && end <= length_of(inode.level as u32) {
        return None;
    }
    Some(level_for(end))
}

// Puts wants behind others.
fn push_all(wants: &mut Wants, more: &[Want])
    requires { length wants.old + length more.now ≤ 16 }
    ensures { wants.new ≡ wants.old ++ more.now }
{
    for want in more {
        wants.push(*want);
    }
}

// A plan with these wants.
fn plan_with(growth: Growth, wants: Wants) -> CallPlan
    ensures growth { result.growth ≡ growth }
    ensures wants { result.wants ≡ wants }
{
    CallPlan {
        growth,
        wants,
        rest: Wants::new(),
    }
}

// The plan of a write in a partition that begins at an address, behind the wants of growth.
fn plan_in(growth: Growth, grown: Wants, inode: Inode, off: u64, len: u64, base: u64) -> CallPlan
    requires few { length grown ≤ 12 }
    requires some { 1 ≤ len }
    requires old { inode.level ≤ TOP_LEVEL → inode.base + part_bytes inode.level ≤ ADDRESS_END }
    requires new { base + off + len ≤ ADDRESS_END }
    requires fits { off + len ≤ FILE_BYTES }
    requires aligned { base % PAGE_BYTES ≡ 0 }
    ensures growth { result.growth ≡ growth }
    ensures wants { (level : ℕ) → result.wants ≡ grown ++ few_write_wants inode off len (record { base = base; level = level }) }
{
    let mut wants = grown;
    push_all(&mut wants, &write_wants(inode, off, len, base));
    plan_with(growth, wants)
}

/// The plan of a write of so many bytes at an offset of a file.
pub(crate) fn write_plan<D: Pm>(dev: &D, inode: Inode, off: u64, len: u64) -> CallPlan
    requires can { CanPlan (D.words dev.now) inode }
    requires fits { off + len ≤ FILE_BYTES }
    ensures { Plans (D.words dev.now) (plan_of_write (view (D.words dev.now)) (inode_count (D.words dev.now)) inode off len) result }
{
    if len == 0 {
        return plan_with(Growth::Stays, Wants::new());
    }
    let level = match growth_to(&inode, off + len) {
        Some(level) => level,
        None => return plan_in(Growth::Stays, Wants::new(), inode, off, len, inode.base),
    };
    match pick(dev, level) {
        Some(part) => {
            let base = part.base();
            let grown = growth_wants(inode, level, base);
            plan_in(Growth::To(level), grown, inode, off, len, base.get())
        }
        None => plan_with(Growth::Barred(level), Wants::new()),
    }
}

// The want of the table of a level, or of the page, at an address.
fn want_at(level: u32, at: u64) -> Want
    requires level { level ≤ 4 }
    requires low { at < ADDRESS_END }
    ensures { result ≡ table_want level at }
{
    match Vaddr::new(at) {
        Some(at) => Want {
            height: level,
            at,
            len: 1,
        },
        None => unreachable!(),
    }
}

// The plan of a file that has to hold more bytes, and asks for nothing else.
fn longer_plan<D: Pm>(dev: &D, inode: Inode, len: u64) -> CallPlan
    requires can { CanPlan (D.words dev.now) inode }
    requires some { 1 ≤ len }
    requires fits { len ≤ FILE_BYTES }
    ensures { Plans (D.words dev.now) (grown (view (D.words dev.now)) (inode_count (D.words dev.now)) inode (grows_to inode len) (λ new. [])) result }
{
    let level = match growth_to(&inode, len) {
        Some(level) => level,
        None => return plan_with(Growth::Stays, Wants::new()),
    };
    match pick(dev, level) {
        Some(part) => plan_with(Growth::To(level), growth_wants(inode, level, part.base())),
        None => plan_with(Growth::Barred(level), Wants::new()),
    }
}

// What it asks for to give a partition up.
fn give_up_wants(inode: Inode) -> Wants
    requires { IsPart (part inode) }
    ensures { result ≡ wants_of_give_up inode }
{
    let mut wants = Wants::new();
    if inode.level < TOP_LEVEL {
        let height = inode.level as u32 / 3 + 1;
        wants.push(want_at(height, inode.base));
        wants.push(want_at(height, staged(inode.base)));
    }
    wants
}

// What it asks for to cut a file to a length that is not 0.
fn cut_wants(inode: Inode, len: u64) -> Wants
    requires placed { IsPart (part inode) }
    requires less { len < part_bytes inode.level }
    ensures { result ≡ few_cut_wants inode len }
{
    let kept = len / PAGE_BYTES;
    let first = inode.base / PAGE_BYTES + kept;
    let second = staged(inode.base) / PAGE_BYTES + kept;
    let pages = 8u64.pow(inode.level as u32) - kept;
    let mut wants = Wants::new();
    push_all(&mut wants, &side_wants(first, second, pages));
    push_all(&mut wants, &side_wants(second, first, pages));
    if len % PAGE_BYTES != 0 {
        wants.push(want_at(0, second * PAGE_BYTES));
    }
    wants
}

// The address in the staging slot.
fn staged(at: u64) -> u64
    ensures { result ≡ stage at }
{
    STAGING_SLOT * SLOT_SPAN + at % SLOT_SPAN
}

/// The plan of a file that gets a length.
pub(crate) fn truncate_plan<D: Pm>(dev: &D, inode: Inode, len: u64) -> CallPlan
    requires can { CanPlan (D.words dev.now) inode }
    requires fits { len ≤ FILE_BYTES }
    ensures { Plans (D.words dev.now) (plan_of_truncate (view (D.words dev.now)) (inode_count (D.words dev.now)) inode len) result }
{
    if len > inode.size {
        return longer_plan(dev, inode, len);
    }
    if len == inode.size {
        return plan_with(Growth::Stays, Wants::new());
    }
    if len == 0 {
        return plan_with(Growth::Stays, give_up_wants(inode));
    }
    plan_with(Growth::Stays, cut_wants(inode, len))
}
