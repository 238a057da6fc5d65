// To write to a file.
ghost use Rattle.std.specs.Prelude.{◌≡◌, ℕ, ◌+◌, ◌≤◌, length, Some, OnOk};
ghost use Rattle.ct_base.specs.Causes.{HasCause};
ghost use Rattle.ct_base.specs.Inode.{IsLive, inode as inode_at};
ghost use Rattle.ct_base.specs.Plan.{write_plan as plan_of_write};
ghost use Rattle.ct_base.specs.View.{inode_count, view};
ghost use Rattle.ct_base.specs.Wants.{missing};
ghost use Rattle.ct_pm.specs.Phase.{Phase};
ghost use Rattle.ct_record.specs.Seen.{device_behind};
ghost use Rattle.ct_tree.specs.Lands.{files};
ghost use Rattle.ct_write.specs.Written.{data_len};
ghost use Rattle.ct_commit.specs.Rest.{IsMounted};
ghost use Rattle.ct_call.specs.Placed.{IsMoved, IsTouched};
ghost use Rattle.ct_call.specs.Plans.{Fits, Plans, level_of};
ghost use Rattle.ct_edit.specs.Changed.{Changes, ChangesOrNot};
ghost use Rattle.ct_edit.specs.Edits.{written_from};

use ct_base::{FILE_KIND, MOST_CALL_PAIRS};
use ct_call::{CallPlan, grow};
use ct_frames::Frames;
use ct_pm::Pm;
use ct_record::Broken;
use ct_tree::checks::FILE_BYTES;
use ct_write::{Data, commit_write, len_of};

// Writes data to a file from an offset on, by the plan of the write: the file grows where it has to, and then the write is one
// record. No data changes nothing.
pub(crate) fn write_file<D: Pm>(
    dev: D,
    frames: &mut Frames,
    file: u64,
    plan: &CallPlan,
    off: u64,
    what: Data<'_>,
) -> Result<D, Broken<D>>
    requires mounted { IsMounted (D.words dev) (D.told dev) frames.old }
    requires live { IsLive (view (D.words dev)) (inode_count (D.words dev)) file }
    requires kind { (inode_at (view (D.words dev)) file).kind ≡ FILE_KIND }
    requires within { off + data_len what ≤ FILE_BYTES }
    requires plan { Plans (D.words dev) (plan_of_write (view (D.words dev)) (inode_count (D.words dev)) (inode_at (view (D.words dev)) file) off (data_len what)) plan.now }
    requires fits { Fits (D.words dev) frames.old plan.now }

    ensures changes { OnOk result (Changes (files (D.words dev)) (files (D.words (device_behind result))) file (written_from off what.entry)) }
    ensures moved { OnOk result ((level : ℕ) → level_of plan.now.growth ≡ Some level
        → IsMoved (IsTouched off (data_len what.entry)) (D.words dev) (D.words (device_behind result)) file level) }
    ensures taken { OnOk result (length frames.old.free ≤ length frames.new.free + missing (D.words dev) plan.now.wants) }
    ensures counted { OnOk result (inode_count (D.words (device_behind result)) ≡ inode_count (D.words dev)) }
    ensures mounted { OnOk result (IsMounted (D.words (device_behind result)) (D.told (device_behind result)) frames.new) }

    // A crash at any moment lands on the objects as they were, or with the write.
    ensures phase { Phase (ChangesOrNot (files (D.words dev)) file (written_from off what.entry)) MOST_CALL_PAIRS (D.told dev) (D.told (device_behind result)) (D.words (device_behind result)) }
    ensures cause { HasCause (D.faults dev) (D.faults (device_behind result)) result }
{
    if len_of(what) == 0 {
        return Ok(dev);
    }
    let dev = match grow(dev, frames, file, plan.growth.level()) {
        Ok(dev) => dev,
        Err(broken) => return Err(broken),
    };
    match commit_write(dev, frames, file, off, what) {
        Ok(dev) => Ok(dev),
        Err(broken) => Err(broken),
    }
}
