// The record of a call that makes an object, and what comes before it.
ghost use Rattle.std.specs.Prelude.{◌≡◌, ◌≢◌, ◌⊎◌, ℕ, ◌+◌, List, length, Some, Err, IsSomeAnd, IfOk, OnOk, max};
ghost use Rattle.ct_base.specs.Causes.{HasCause};
ghost use Rattle.ct_base.specs.Free.{HasFreePages};
ghost use Rattle.ct_base.specs.Inode.{inode as inode_at};
ghost use Rattle.ct_base.specs.Plan.{first_free_number};
ghost use Rattle.ct_base.specs.View.{inode_count, view};
ghost use Rattle.ct_base.specs.Wants.{missing};
ghost use Rattle.ct_pm.specs.Phase.{Phase};
ghost use Rattle.ct_record.specs.declared.idle.Broken.{Broken};
ghost use Rattle.ct_record.specs.Seen.{device_behind};
ghost use Rattle.ct_tree.specs.Lands.{files};
ghost use Rattle.ct_tree.specs.Tree.{Tree};
ghost use Rattle.ct_call.specs.Answers.{IsPrepared};
ghost use Rattle.ct_call.specs.Calls.{Does, StandsFor};
ghost use Rattle.ct_enter.specs.Landing.{EntersOrNot};
ghost use Rattle.ct_enter.specs.Makes.{HasNode, IsFreshName, make_op};
ghost use Rattle.ct_find.specs.Kinds.{kind_of};
ghost use Rattle.ct_commit.specs.Rest.{IsMounted};
ghost use Rattle.ct_call.specs.Placed.{HasSlot, IsMoved, Places, empty_inode};
ghost use Rattle.ct_call.specs.Plans.{Fits, level_of};
ghost use Rattle.ct_enter.specs.Plans.{IsEntryPlan};
ghost use Rattle.ct_call.specs.Seen.{ready_in};
ghost use Rattle.ct_find.specs.Spots.{IsNewName, IsNextSlot};
ghost use Rattle.ct_inode.specs.Live.{AreLiveBelow, KeepsLive};

use crate::enter::enter;
use crate::plan::entry_plan;
use ct_base::{DIRECTORY_KIND, ENTRY_BYTES, FILE_KIND, MOST_GROWTH_PAIRS};
use ct_call::{CallPlan, FsError, Mounted, State, check_space, ended, refused, room};
use ct_find::{Kind, Spot, find_spot};
use ct_frames::Frames;
use ct_inode::{first_free_from, get};
use ct_pm::Pm;
use ct_record::Broken;
use ct_tree::Refusal;

/// The word of a device that tells how many inodes there are.
const INODES: u64 = 3;

// Where a new object's entry goes, its number, which is searched for from `from` on, and what both take. Nothing is stored.
fn prepare<'p, D: Pm>(
    dev: &D,
    frames: &Frames,
    path: &'p [u8],
    from: u64,
) -> Result<(Spot<'p>, u64, CallPlan), Refusal>
    requires mounted { IsMounted (D.words dev.now) (D.told dev.now) frames.now }
    requires live { AreLiveBelow (D.words dev.now) from }
    ensures answer { (kind : Kind) (t : Tree) → StandsFor (D.words dev.now) t → IsPrepared (D.words dev.now) t (make_op kind path.now) result }
    ensures spot { IfOk result (λ found. IsNewName (D.words dev.now) path.now found.0.dir found.0.inode found.0.offset found.0.name.now) }
    ensures first { IfOk result (λ found. first_free_number (view (D.words dev.now)) (inode_count (D.words dev.now)) ≡ Some found.1) }
    ensures plan { IfOk result (λ found. IsEntryPlan (D.words dev.now) found.0.inode found.0.offset found.1 found.2) }
    ensures fits { IfOk result (λ found. Fits (D.words dev.now) frames.now found.2) }
    ensures counted { OnOk result ((count : ℕ) → HasFreePages (D.words dev.now) count → count ≡ length frames.now.free) }
{
    let spot = match find_spot(dev, path) {
        Ok(spot) => spot,
        Err(refusal) => return Err(refusal),
    };
    let number = match first_free_from(dev, from, dev.load(INODES)) {
        Some(number) => number,
        None => return Err(Refusal::NoInode),
    };
    let plan = entry_plan(dev, spot.inode, spot.offset, number);
    match check_space(dev, frames, &plan) {
        Ok(()) => Ok((spot, number, plan)),
        Err(refusal) => Err(refusal),
    }
}

// Makes an empty object: room for its entry, and then the entry as one record.
fn carry_out<D: Pm>(
    dev: D,
    frames: &mut Frames,
    spot: &Spot<'_>,
    number: u64,
    plan: &CallPlan,
    kind: u64,
) -> Result<D, Broken<D>>
    requires mounted { IsMounted (D.words dev) (D.told dev) frames.old }
    requires next { IsNextSlot (D.words dev) spot.now.dir spot.now.inode spot.now.offset }
    requires fresh { IsFreshName (D.words dev) spot.now.dir spot.now.name.now }
    requires first { first_free_number (view (D.words dev)) (inode_count (D.words dev)) ≡ Some number }
    requires plan { IsEntryPlan (D.words dev) spot.now.inode spot.now.offset number plan.now }
    requires fits { Fits (D.words dev) frames.old plan.now }
    requires sort { (kind ≡ FILE_KIND) ⊎ (kind ≡ DIRECTORY_KIND) }

    ensures slot { OnOk result (HasSlot (files (D.words (device_behind result)) spot.now.dir) spot.now.offset number spot.now.name.now) }
    ensures object { OnOk result (inode_at (view (D.words (device_behind result))) number ≡ empty_inode kind) }
    ensures size { OnOk result ((inode_at (view (D.words (device_behind result))) spot.now.dir).size ≡ max spot.now.inode.size (spot.now.offset + ENTRY_BYTES)) }
    ensures moved { OnOk result ((level : ℕ) → level_of plan.now.growth ≡ Some level → IsMoved (λ v. ⊥) (D.words dev) (D.words (device_behind result)) spot.now.dir level) }
    ensures taken { OnOk result (length frames.new.free + missing (D.words dev) plan.now.wants ≡ length frames.old.free) }
    ensures node { OnOk result (HasNode (D.words dev) (D.words (device_behind result)) spot.now.dir spot.now.name.now kind) }
    ensures counted { OnOk result (inode_count (D.words (device_behind result)) ≡ inode_count (D.words dev)) }
    ensures live { OnOk result (KeepsLive (D.words dev) (D.words (device_behind result))) }
    ensures mounted { OnOk result (IsMounted (D.words (device_behind result)) (D.told (device_behind result)) frames.new) }

    // A crash at any moment lands on the objects without the new one, or on those with it.
    ensures phase { Phase (EntersOrNot (files (D.words dev)) spot.now.dir spot.now.name.now kind) MOST_GROWTH_PAIRS (D.told dev) (D.told (device_behind result)) (D.words (device_behind result)) }
    ensures cause { HasCause (D.faults dev) (D.faults (device_behind result)) result }
{
    let dev = room(dev, frames, spot.dir, plan)?;
    let there = Spot {
        inode: get(&dev, spot.dir),
        ..*spot
    };
    match enter(dev, &there, number, kind) {
        Ok(dev) => Ok(dev),
        Err(broken) => Err(broken),
    }
}

/// Makes an empty object of a kind at a path.
///
/// Every inode below `free_from` is live, and stays so: a free one is searched for from there on, and once the object is made
/// `free_from` is its number.
pub fn make_in<D: Pm>(
    mounted: Mounted<D>,
    free_from: &mut u64,
    path: &[u8],
    kind: Kind,
) -> (State<D>, Result<(), FsError>)
    requires live { AreLiveBelow (D.words mounted.dev) free_from.old }
    ensures does { (t : Tree) → StandsFor (D.words mounted.dev) t → Does mounted t (make_op kind path.now) (Some result.0) result.1 }
    ensures places { OnOk result.1 (IsSomeAnd (ready_in (Some result.0)) (λ now. Places (D.words mounted.dev) (D.words now.dev) (make_op kind path.now))) }
    ensures alive { result.1 ≢ Err FsError.Dead }
    ensures below { AreLiveBelow (D.words mounted.dev) free_from.new }
    ensures raised { OnOk result.1 (first_free_number (view (D.words mounted.dev)) (inode_count (D.words mounted.dev)) ≡ Some free_from.new) }
    ensures live { OnOk result.1 (IsSomeAnd (ready_in (Some result.0)) (λ now. KeepsLive (D.words mounted.dev) (D.words now.dev))) }
{
    let Mounted { dev, mut frames } = mounted;
    let (spot, number, plan) = match prepare(&dev, &frames, path, *free_from) {
        Ok(found) => found,
        Err(refusal) => return refused(dev, frames, refusal),
    };
    *free_from = number;
    let carried = carry_out(dev, &mut frames, &spot, number, &plan, kind.number());
    ended(carried, frames)
}
