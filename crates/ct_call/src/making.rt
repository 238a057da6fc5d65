// Room for what a call does: an object grows where it has to, and then all is made that the call asks for.
ghost use Rattle.std.specs.Prelude.{◌≡◌, ◌+◌, length, OnOk};
ghost use Rattle.ct_base.specs.Causes.{HasCause};
ghost use Rattle.ct_base.specs.Inode.{inode as inode_at};
ghost use Rattle.ct_base.specs.View.{view};
ghost use Rattle.ct_base.specs.Wants.{missing};
ghost use Rattle.ct_pm.specs.Phase.{Phase};
ghost use Rattle.ct_record.specs.Seen.{device_behind};
ghost use Rattle.ct_tree.specs.Lands.{files};
ghost use Rattle.ct_commit.specs.Landing.{LandsAs};
ghost use Rattle.ct_commit.specs.Rest.{IsMounted};
ghost use Rattle.ct_call.specs.Plans.{Asks, Fits, level_of};
ghost use Rattle.ct_call.specs.Rooms.{MakesRoom};

use crate::growing::grow;
use crate::pages::make_pages;
use crate::plan::CallPlan;
use ct_base::MOST_GROWTH_PAIRS;
use ct_frames::Frames;
use ct_pm::Pm;
use ct_record::Broken;

/// Makes room by a plan: its object grows or stays, and then all that is left of the wants is made. Every object is as it was.
///
/// # Errors
///
/// `Broken` where the device failed.
pub fn room<D: Pm>(
    dev: D,
    frames: &mut Frames,
    object: u64,
    plan: &CallPlan,
) -> Result<D, Broken<D>>
    requires mounted { IsMounted (D.words dev) (D.told dev) frames.old }
    requires fits { Fits (D.words dev) frames.old plan.now }
    requires asks { Asks (D.words dev) object (inode_at (view (D.words dev)) object) (level_of plan.now.growth) plan.now.wants plan.now.rest }

    ensures room { OnOk result (MakesRoom (D.words dev) (D.words (device_behind result)) object (level_of plan.now.growth) plan.now.rest) }
    // Exactly the pages were taken that the plan counts.
    ensures taken { OnOk result (length frames.new.free + missing (D.words dev) plan.now.wants ≡ length frames.old.free) }
    ensures mounted { OnOk result (IsMounted (D.words (device_behind result)) (D.told (device_behind result)) frames.new) }

    // A crash at any moment lands on the objects that there are.
    ensures phase { Phase (LandsAs (files (D.words dev))) MOST_GROWTH_PAIRS (D.told dev) (D.told (device_behind result)) (D.words (device_behind result)) }
    ensures cause { HasCause (D.faults dev) (D.faults (device_behind result)) result }
{
    let level = plan.growth.level();
    let mut dev = match grow(dev, frames, object, level) {
        Ok(dev) => dev,
        Err(broken) => return Err(broken),
    };
    match make_pages(&mut dev, frames, plan.rest.as_slice()) {
        Ok(()) => Ok(dev),
        Err(_) => Err(Broken { dev }),
    }
}
