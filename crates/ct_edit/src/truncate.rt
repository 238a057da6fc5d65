// To set the length of a file.
ghost use Rattle.std.specs.Prelude.{◌≡◌, ◌≢◌, ℕ, ◌+◌, ◌<◌, ◌≤◌, length, Some, OnOk};
ghost use Rattle.ct_base.specs.Causes.{HasCause};
ghost use Rattle.ct_base.specs.Inode.{IsLive, inode as inode_at};
ghost use Rattle.ct_base.specs.Plan.{truncate_plan as plan_of_truncate};
ghost use Rattle.ct_base.specs.View.{inode_count, view};
ghost use Rattle.ct_base.specs.Wants.{missing};
ghost use Rattle.ct_pm.specs.Phase.{Phase};
ghost use Rattle.ct_record.specs.Seen.{device_behind};
ghost use Rattle.ct_tree.specs.Content.{resized};
ghost use Rattle.ct_tree.specs.Lands.{files};
ghost use Rattle.ct_commit.specs.Rest.{IsMounted};
ghost use Rattle.ct_call.specs.Placed.{IsMoved};
ghost use Rattle.ct_call.specs.Plans.{Fits, Plans, level_of};
ghost use Rattle.ct_edit.specs.Changed.{Changes, ChangesOrNot};

use ct_base::{FILE_KIND, MOST_CALL_PAIRS};
use ct_call::{CallPlan, grow};
use ct_cut::cut;
use ct_frames::Frames;
use ct_inode::get;
use ct_pm::Pm;
use ct_record::Broken;
use ct_tree::checks::FILE_BYTES;
use ct_write::lengthen;

// Makes a file longer, by the plan of its length: it grows where it has to, and then its size is one record.
fn make_longer<D: Pm>(
    dev: D,
    frames: &mut Frames,
    file: u64,
    plan: &CallPlan,
    len: u64,
) -> Result<D, Broken<D>>
    requires mounted { IsMounted (D.words dev) (D.told dev) frames.old }
    requires live { IsLive (view (D.words dev)) (inode_count (D.words dev)) file }
    requires kind { (inode_at (view (D.words dev)) file).kind ≡ FILE_KIND }
    requires more { (inode_at (view (D.words dev)) file).size < len }
    requires within { len ≤ FILE_BYTES }
    requires plan { Plans (D.words dev) (plan_of_truncate (view (D.words dev)) (inode_count (D.words dev)) (inode_at (view (D.words dev)) file) len) plan.now }
    requires fits { Fits (D.words dev) frames.old plan.now }

    ensures changes { OnOk result (Changes (files (D.words dev)) (files (D.words (device_behind result))) file (resized len)) }
    ensures moved { OnOk result ((level : ℕ) → level_of plan.now.growth ≡ Some level → IsMoved (λ v. ⊥) (D.words dev) (D.words (device_behind result)) file level) }
    ensures taken { OnOk result (length frames.old.free ≤ length frames.new.free + missing (D.words dev) plan.now.wants) }
    ensures counted { OnOk result (inode_count (D.words (device_behind result)) ≡ inode_count (D.words dev)) }
    ensures mounted { OnOk result (IsMounted (D.words (device_behind result)) (D.told (device_behind result)) frames.new) }

    // A crash at any moment lands on the objects as they were, or with the length.
    ensures phase { Phase (ChangesOrNot (files (D.words dev)) file (resized len)) MOST_CALL_PAIRS (D.told dev) (D.told (device_behind result)) (D.words (device_behind result)) }
    ensures cause { HasCause (D.faults dev) (D.faults (device_behind result)) result }
{
    let dev = match grow(dev, frames, file, plan.growth.level()) {
        Ok(dev) => dev,
        Err(broken) => return Err(broken),
    };
    match lengthen(dev, file, len) {
        Ok(dev) => Ok(dev),
        Err(broken) => Err(broken),
    }
}

// Makes a file shorter: what it has past the length is given up by one record, and no object grows.
fn make_shorter<D: Pm>(
    dev: D,
    frames: &mut Frames,
    file: u64,
    plan: &CallPlan,
    len: u64,
) -> Result<D, Broken<D>>
    requires mounted { IsMounted (D.words dev) (D.told dev) frames.old }
    requires live { IsLive (view (D.words dev)) (inode_count (D.words dev)) file }
    requires kind { (inode_at (view (D.words dev)) file).kind ≡ FILE_KIND }
    requires less { len < (inode_at (view (D.words dev)) file).size }
    requires plan { Plans (D.words dev) (plan_of_truncate (view (D.words dev)) (inode_count (D.words dev)) (inode_at (view (D.words dev)) file) len) plan.now }
    requires fits { Fits (D.words dev) frames.old plan.now }

    ensures changes { OnOk result (Changes (files (D.words dev)) (files (D.words (device_behind result))) file (resized len)) }
    ensures moved { OnOk result ((level : ℕ) → level_of plan.now.growth ≡ Some level → IsMoved (λ v. ⊥) (D.words dev) (D.words (device_behind result)) file level) }
    ensures taken { OnOk result (length frames.old.free ≤ length frames.new.free + missing (D.words dev) plan.now.wants) }
    ensures counted { OnOk result (inode_count (D.words (device_behind result)) ≡ inode_count (D.words dev)) }
    ensures mounted { OnOk result (IsMounted (D.words (device_behind result)) (D.told (device_behind result)) frames.new) }

    // A crash at any moment lands on the objects as they were, or with the length.
    ensures phase { Phase (ChangesOrNot (files (D.words dev)) file (resized len)) MOST_CALL_PAIRS (D.told dev) (D.told (device_behind result)) (D.words (device_behind result)) }
    ensures cause { HasCause (D.faults dev) (D.faults (device_behind result)) result }
{
    match cut(dev, frames, file, len) {
        Ok(dev) => Ok(dev),
        Err(broken) => Err(broken),
    }
}

// Gives a file a length, by its plan. The length that it has changes nothing.
pub(crate) fn resize_file<D: Pm>(
    dev: D,
    frames: &mut Frames,
    file: u64,
    plan: &CallPlan,
    len: u64,
) -> Result<D, Broken<D>>
    requires mounted { IsMounted (D.words dev) (D.told dev) frames.old }
    requires live { IsLive (view (D.words dev)) (inode_count (D.words dev)) file }
    requires kind { (inode_at (view (D.words dev)) file).kind ≡ FILE_KIND }
    requires within { len ≤ FILE_BYTES }
    requires plan { Plans (D.words dev) (plan_of_truncate (view (D.words dev)) (inode_count (D.words dev)) (inode_at (view (D.words dev)) file) len) plan.now }
    requires fits { Fits (D.words dev) frames.old plan.now }

    ensures changes { OnOk result (Changes (files (D.words dev)) (files (D.words (device_behind result))) file (resized len)) }
    ensures moved { OnOk result ((level : ℕ) → level_of plan.now.growth ≡ Some level → IsMoved (λ v. ⊥) (D.words dev) (D.words (device_behind result)) file level) }
    ensures taken { OnOk result (length frames.old.free ≤ length frames.new.free + missing (D.words dev) plan.now.wants) }
    ensures counted { OnOk result (inode_count (D.words (device_behind result)) ≡ inode_count (D.words dev)) }
    ensures mounted { OnOk result (IsMounted (D.words (device_behind result)) (D.told (device_behind result)) frames.new) }

    // A crash at any moment lands on the objects as they were, or with the length.
    ensures phase { Phase (ChangesOrNot (files (D.words dev)) file (resized len)) MOST_CALL_PAIRS (D.told dev) (D.told (device_behind result)) (D.words (device_behind result)) }
    ensures cause { HasCause (D.faults dev) (D.faults (device_behind result)) result }
{
    let size = get(&dev, file).size;
    if len == size {
        return Ok(dev);
    }
    if len > size {
        return make_longer(dev, frames, file, plan, len);
    }
    make_shorter(dev, frames, file, plan, len)
}
