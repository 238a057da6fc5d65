// An entry moves as a whole: what it needs is made before its record, and a staging slot is emptied behind it.
ghost use Rattle.std.specs.Prelude.{◌≡◌, ◌≢◌, ℕ, ◌+◌, ◌/◌, ◌≤◌, Some, length, OnOk};
ghost use Rattle.ct_base.specs.Causes.{HasCause};
ghost use Rattle.ct_base.specs.Inode.{inode as inode_at};
ghost use Rattle.ct_base.specs.Plan.{give_up_wants};
ghost use Rattle.ct_base.specs.View.{inode_count, view};
ghost use Rattle.ct_base.specs.Walk.{page_at};
ghost use Rattle.ct_base.specs.Wants.{missing};
ghost use Rattle.ct_commit.specs.Rest.{IsAtRest, IsMounted, KeepsTables};
ghost use Rattle.ct_call.specs.Placed.{IsMoved};
ghost use Rattle.ct_call.specs.Plans.{Fits, level_of};
ghost use Rattle.ct_enter.specs.Entry.{KeepsPart};
ghost use Rattle.ct_enter.specs.Makes.{IsFreshName};
ghost use Rattle.ct_enter.specs.Plans.{IsEntryPlan};
ghost use Rattle.ct_find.specs.Spots.{IsNextSlot};
ghost use Rattle.ct_pm.specs.Device.{NothingPending};
ghost use Rattle.ct_pm.specs.Phase.{Phase};
ghost use Rattle.ct_record.specs.Seen.{device_behind};
ghost use Rattle.ct_find.specs.Entries.{IsLeaf};
ghost use Rattle.ct_tree.specs.Lands.{files};
ghost use Rattle.ct_rename.specs.Moves.{CanLeave, CanMove, HasTree, TurnedOrNot, moved, replaced};

use crate::draft::{MOST_MOVE_PAIRS, MOST_RENAME_PAIRS};
use crate::record::{move_now, replace_now};
use ct_base::{NO_PARTITION, PAGE_BYTES, STAGING_SLOT};
use ct_call::{CallPlan, room};
use ct_cut::prepare_whole;
use ct_find::{Entry, Spot};
use ct_frames::Frames;
use ct_inode::get;
use ct_pm::Pm;
use ct_record::Broken;
use ct_walk::unstage;

/// Moves an entry to a slot that is there and empty, or gives it another name in its own.
pub(crate) fn move_at<D: Pm>(
    dev: D,
    entry: Entry,
    dir: u64,
    offset: u64,
    name: &[u8],
) -> Result<D, Broken<D>>
    requires rest { IsAtRest (D.words dev) }
    requires settled { NothingPending (D.told dev) }
    requires can { CanMove (D.words dev) entry.dir entry.offset dir offset entry.number name.now }
    requires there { page_at (D.words dev) 4 (((inode_at (view (D.words dev)) dir).base + offset) / PAGE_BYTES) ≢ 0 }
    requires tree { HasTree (moved (files (D.words dev)) entry.dir entry.offset dir offset entry.number name.now) }

    ensures objects { OnOk result (files (D.words (device_behind result)) ≡ moved (files (D.words dev)) entry.dir entry.offset dir offset entry.number name.now) }
    ensures rest { OnOk result (IsAtRest (D.words (device_behind result))) }
    ensures keeps { OnOk result (KeepsTables (D.words dev) (D.words (device_behind result))) }
    ensures part { OnOk result (KeepsPart (D.words dev) (D.words (device_behind result)) dir) }
    ensures settled { OnOk result (NothingPending (D.told (device_behind result))) }
    ensures phase { Phase (TurnedOrNot (files (D.words dev)) (moved (files (D.words dev)) entry.dir entry.offset dir offset entry.number name.now)) MOST_MOVE_PAIRS
        (D.told dev) (D.told (device_behind result)) (D.words (device_behind result)) }
    ensures cause { HasCause (D.faults dev) (D.faults (device_behind result)) result }
{
    let spot = Spot {
        dir,
        inode: get(&dev, dir),
        offset,
        name,
    };
    move_now(dev, entry, &spot)
}

/// Moves an entry to the next slot of another directory: room is made for it, and then it moves as one record.
pub(crate) fn move_there<D: Pm>(
    dev: D,
    frames: &mut Frames,
    entry: Entry,
    spot: &Spot<'_>,
    plan: &CallPlan,
) -> Result<D, Broken<D>>
    requires mounted { IsMounted (D.words dev) (D.told dev) frames.old }
    requires can { CanLeave (D.words dev) entry.dir entry.offset entry.number }
    requires next { IsNextSlot (D.words dev) spot.now.dir spot.now.inode spot.now.offset }
    requires fresh { IsFreshName (D.words dev) spot.now.dir spot.now.name.now }
    requires plan { IsEntryPlan (D.words dev) spot.now.inode spot.now.offset entry.number plan.now }
    requires fits { Fits (D.words dev) frames.old plan.now }
    requires tree { HasTree (moved (files (D.words dev)) entry.dir entry.offset spot.now.dir spot.now.offset entry.number spot.now.name.now) }

    ensures objects { OnOk result (files (D.words (device_behind result)) ≡ moved (files (D.words dev)) entry.dir entry.offset spot.now.dir spot.now.offset entry.number spot.now.name.now) }
    ensures moved { OnOk result ((level : ℕ) → level_of plan.now.growth ≡ Some level → IsMoved (λ v. ⊥) (D.words dev) (D.words (device_behind result)) spot.now.dir level) }
    ensures taken { OnOk result (length frames.new.free + missing (D.words dev) plan.now.wants ≡ length frames.old.free) }
    ensures counted { OnOk result (inode_count (D.words (device_behind result)) ≡ inode_count (D.words dev)) }
    ensures mounted { OnOk result (IsMounted (D.words (device_behind result)) (D.told (device_behind result)) frames.new) }
    ensures phase { Phase (TurnedOrNot (files (D.words dev)) (moved (files (D.words dev)) entry.dir entry.offset spot.now.dir spot.now.offset entry.number spot.now.name.now)) MOST_RENAME_PAIRS
        (D.told dev) (D.told (device_behind result)) (D.words (device_behind result)) }
    ensures cause { HasCause (D.faults dev) (D.faults (device_behind result)) result }
{
    let dev = match room(dev, frames, spot.dir, plan) {
        Ok(dev) => dev,
        Err(broken) => return Err(broken),
    };
    match move_at(dev, entry, spot.dir, spot.offset, spot.name) {
        Ok(dev) => Ok(dev),
        Err(broken) => Err(broken),
    }
}

// Moves an entry to the slot of another with an object that has a partition: the tables are made between whose entries it
// goes, and the staging slot is emptied behind the record.
fn replace_whole<D: Pm>(
    dev: D,
    frames: &mut Frames,
    entry: Entry,
    gone: Entry,
    level: u64,
    name: &[u8],
) -> Result<D, Broken<D>>
    requires mounted { IsMounted (D.words dev) (D.told dev) frames.old }
    requires can { CanMove (D.words dev) entry.dir entry.offset gone.dir gone.offset entry.number name.now }
    requires leaf { IsLeaf (files (D.words dev)) gone.dir gone.offset gone.number }
    requires away { entry.dir ≡ gone.dir → entry.offset ≢ gone.offset }
    requires level { (inode_at (view (D.words dev)) gone.number).level ≡ level }
    requires has { level ≢ NO_PARTITION }
    requires space { missing (D.words dev) (give_up_wants (inode_at (view (D.words dev)) gone.number)) ≤ length frames.old.free }
    requires tree { HasTree (replaced (files (D.words dev)) entry.dir entry.offset gone.dir gone.offset entry.number gone.number name.now) }

    ensures objects { OnOk result (files (D.words (device_behind result)) ≡ replaced (files (D.words dev)) entry.dir entry.offset gone.dir gone.offset entry.number gone.number name.now) }
    ensures counted { OnOk result (inode_count (D.words (device_behind result)) ≡ inode_count (D.words dev)) }
    ensures mounted { OnOk result (IsMounted (D.words (device_behind result)) (D.told (device_behind result)) frames.new) }
    ensures phase { Phase (TurnedOrNot (files (D.words dev)) (replaced (files (D.words dev)) entry.dir entry.offset gone.dir gone.offset entry.number gone.number name.now)) MOST_RENAME_PAIRS
        (D.told dev) (D.told (device_behind result)) (D.words (device_behind result)) }
    ensures taken { OnOk result (length frames.old.free ≤ length frames.new.free + missing (D.words dev) (give_up_wants (inode_at (view (D.words dev)) gone.number))) }
    ensures cause { HasCause (D.faults dev) (D.faults (device_behind result)) result }
{
    let mut dev = dev;
    match prepare_whole(&mut dev, frames, gone.number) {
        Ok(()) => {}
        Err(_) => return Err(Broken { dev }),
    }
    let mut dev = replace_now(dev, entry, gone, level, name)?;
    match unstage(&mut dev, frames, STAGING_SLOT) {
        Ok(()) => Ok(dev),
        Err(_) => Err(Broken { dev }),
    }
}

/// Moves an entry to the slot of another, whose object has no slots and goes.
pub(crate) fn replace<D: Pm>(
    dev: D,
    frames: &mut Frames,
    entry: Entry,
    gone: Entry,
    level: u64,
    name: &[u8],
) -> Result<D, Broken<D>>
    requires mounted { IsMounted (D.words dev) (D.told dev) frames.old }
    requires can { CanMove (D.words dev) entry.dir entry.offset gone.dir gone.offset entry.number name.now }
    requires leaf { IsLeaf (files (D.words dev)) gone.dir gone.offset gone.number }
    requires away { entry.dir ≡ gone.dir → entry.offset ≢ gone.offset }
    requires level { (inode_at (view (D.words dev)) gone.number).level ≡ level }
    requires space { missing (D.words dev) (give_up_wants (inode_at (view (D.words dev)) gone.number)) ≤ length frames.old.free }
    requires tree { HasTree (replaced (files (D.words dev)) entry.dir entry.offset gone.dir gone.offset entry.number gone.number name.now) }

    ensures objects { OnOk result (files (D.words (device_behind result)) ≡ replaced (files (D.words dev)) entry.dir entry.offset gone.dir gone.offset entry.number gone.number name.now) }
    ensures counted { OnOk result (inode_count (D.words (device_behind result)) ≡ inode_count (D.words dev)) }
    ensures mounted { OnOk result (IsMounted (D.words (device_behind result)) (D.told (device_behind result)) frames.new) }
    ensures phase { Phase (TurnedOrNot (files (D.words dev)) (replaced (files (D.words dev)) entry.dir entry.offset gone.dir gone.offset entry.number gone.number name.now)) MOST_RENAME_PAIRS
        (D.told dev) (D.told (device_behind result)) (D.words (device_behind result)) }
    ensures taken { OnOk result (length frames.old.free ≤ length frames.new.free + missing (D.words dev) (give_up_wants (inode_at (view (D.words dev)) gone.number))) }
    ensures cause { HasCause (D.faults dev) (D.faults (device_behind result)) result }
{
    if level == NO_PARTITION {
        return replace_now(dev, entry, gone, NO_PARTITION, name);
    }
    replace_whole(dev, frames, entry, gone, level, name)
}
