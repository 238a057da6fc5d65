// The tables and pages that a call asks for are made before its record.
ghost use Rattle.std.specs.Prelude.{◌≡◌, ℕ, ◌+◌, ◌≤◌, false, length, OnOk};
ghost use Rattle.ct_base.specs.Causes.{HasCause};
ghost use Rattle.ct_base.specs.Walk.{page_at};
ghost use Rattle.ct_base.specs.Wants.{is_wanted, missing};
ghost use Rattle.ct_pm.specs.Phase.{Phase};
ghost use Rattle.ct_state.specs.Alike.{Alike};
ghost use Rattle.ct_tree.specs.Lands.{files};
ghost use Rattle.ct_walk.specs.Has.{HasAll};
ghost use Rattle.ct_commit.specs.Landing.{LandsAs};
ghost use Rattle.ct_call.specs.Mounted.{AreOwned, OffFiles};
ghost use Rattle.ct_commit.specs.Rest.{IsAtRest, IsMounted};

use ct_frames::Frames;
use ct_pm::{Pm, PmFault};
use ct_walk::{Want, ensure_all};

/// Makes what is missing of wants that lie in live partitions and off the pages of files. What the words stand for stays at every
/// moment.
pub fn make_pages<D: Pm>(dev: &mut D, frames: &mut Frames, wants: &[Want]) -> Result<(), PmFault>
    requires mounted { IsMounted (D.words dev.old) (D.told dev.old) frames.old }
    requires owned { AreOwned (D.words dev.old) wants.now }
    requires off { OffFiles (D.words dev.old) wants.now }
    requires room { missing (D.words dev.old) wants.now ≤ length frames.old.free }
    ensures there { OnOk result (HasAll (D.words dev.new) wants.now) }
    ensures cells { (d x : ℕ) → d ≤ 4 → is_wanted wants.now d x ≡ false → page_at (D.words dev.new) d x ≡ page_at (D.words dev.old) d x }
    ensures taken { OnOk result (length frames.new.free + missing (D.words dev.old) wants.now ≡ length frames.old.free) }
    ensures rest { IsAtRest (D.words dev.new) }
    ensures alike { Alike (D.words dev.old) (D.words dev.new) }
    ensures mounted { OnOk result (IsMounted (D.words dev.new) (D.told dev.new) frames.new) }
    ensures phase { Phase (LandsAs (files (D.words dev.old))) 0 (D.told dev.old) (D.told dev.new) (D.words dev.new) }
    ensures cause { HasCause (D.faults dev.old) (D.faults dev.new) result }
{
    ensure_all(dev, frames, wants)
}
