// An object grows where a call needs room in it.
ghost use Rattle.std.specs.Prelude.{◌≡◌, ℕ, ◌≤◌, Some, length, OnOk};
ghost use Rattle.ct_base.specs.Causes.{HasCause};
ghost use Rattle.ct_base.specs.Inode.{inode as inode_at};
ghost use Rattle.ct_base.specs.Plan.{growth_need};
ghost use Rattle.ct_base.specs.View.{view};
ghost use Rattle.ct_grow.specs.Grown.{CanGrow};
ghost use Rattle.ct_pm.specs.Phase.{Phase};
ghost use Rattle.ct_record.specs.Seen.{device_behind};
ghost use Rattle.ct_tree.specs.Lands.{files};
ghost use Rattle.ct_commit.specs.Landing.{LandsAs};
ghost use Rattle.ct_commit.specs.Rest.{IsMounted};
ghost use Rattle.ct_call.specs.Rooms.{Gives};

use ct_base::MOST_GROWTH_PAIRS;
use ct_frames::Frames;
use ct_grow::promote;
use ct_pm::Pm;
use ct_record::Broken;

/// Lets an object grow to a level, or stay. Every object is as it was.
///
/// # Errors
///
/// `Broken` where the device failed.
pub fn grow<D: Pm>(
    dev: D,
    frames: &mut Frames,
    object: u64,
    growth: Option<u32>,
) -> Result<D, Broken<D>>
    requires mounted { IsMounted (D.words dev) (D.told dev) frames.old }
    requires can { (level : ℕ) → growth ≡ Some level → CanGrow (D.words dev) object level
        × (growth_need (D.words dev) (inode_at (view (D.words dev)) object) level ≤ length frames.old.free) }

    ensures gives { OnOk result (Gives (D.words dev) (D.words (device_behind result)) frames.old frames.new object growth) }
    ensures mounted { OnOk result (IsMounted (D.words (device_behind result)) (D.told (device_behind result)) frames.new) }
    ensures files { OnOk result (files (D.words (device_behind result)) ≡ files (D.words dev)) }

    // A crash at any moment lands on the objects that there are.
    ensures phase { Phase (LandsAs (files (D.words dev))) MOST_GROWTH_PAIRS (D.told dev) (D.told (device_behind result)) (D.words (device_behind result)) }
    ensures cause { HasCause (D.faults dev) (D.faults (device_behind result)) result }
{
    match growth {
        Some(level) => match promote(dev, frames, object, level) {
            Ok(dev) => Ok(dev),
            Err(broken) => Err(broken),
        },
        None => Ok(dev),
    }
}
