// A file is lengthened within its partition.
ghost use Rattle.std.specs.Prelude.{◌≡◌, ℕ, ◌+◌, ◌<◌, ◌≤◌, List, OnOk};
ghost use Rattle.ct_base.specs.Causes.{HasCause};
ghost use Rattle.ct_base.specs.Rules.{Sound};
ghost use Rattle.ct_frames.specs.Agrees.{Agrees};
ghost use Rattle.ct_frames.specs.Free.{FreePages};
ghost use Rattle.ct_grow.specs.Grown.{IsReady};
ghost use Rattle.ct_pm.specs.Device.{NothingPending};
ghost use Rattle.ct_pm.specs.Phase.{Phase};
ghost use Rattle.ct_record.specs.Seen.{device_behind};
ghost use Rattle.ct_tree.specs.Content.{resized};
ghost use Rattle.ct_tree.specs.Lands.{files};
ghost use Rattle.ct_tree.specs.Stands.{IsFile};
ghost use Rattle.ct_write.specs.Lengthened.{CanLengthen, IsLengthened, IsLengthenedOrNot};

use crate::record::put_size;
use ct_base::MOST_CALL_PAIRS;
use ct_inode::get;
use ct_pm::Pm;
use ct_record::{Broken, Draft, Idle, conclude};

/// Lengthens a live file with zeros, where its partition holds the length: one short record sets the size. The bytes past
/// the old size are zeros already. No page is taken.
///
/// # Errors
///
/// `Broken` where the device failed. The file is then to be found longer or as it was, once the device settles.
pub fn lengthen<D: Pm>(dev: D, inode: u64, len: u64) -> Result<D, Broken<D>>
    requires can { CanLengthen (D.words dev) inode len }
    requires settled { NothingPending (D.told dev) }

    // The file has the length, and all else is as it was. What was required holds again, and the same pages are free.
    ensures lengthened { OnOk result (IsLengthened (D.words dev) (D.words (device_behind result)) inode len) }
    ensures file { OnOk result ((was : List ℕ) → IsFile (files (D.words dev) inode) was → IsFile (files (D.words (device_behind result)) inode) (resized len was)) }
    ensures sound { OnOk result (Sound (D.words dev) → Sound (D.words (device_behind result))) }
    ensures ready { OnOk result (IsReady (D.words (device_behind result))) }
    ensures agrees { OnOk result ((frames : FreePages) → Agrees (D.words dev) frames → Agrees (D.words (device_behind result)) frames) }
    ensures settled { OnOk result (NothingPending (D.told (device_behind result))) }

    // A crash at any moment leaves the state before or after, and so do the words as they read.
    ensures phase { Phase (IsLengthenedOrNot (D.words dev) inode len) MOST_CALL_PAIRS (D.told dev) (D.told (device_behind result)) (D.words (device_behind result)) }
    ensures cause { HasCause (D.faults dev) (D.faults (device_behind result)) result }
{
    let was = get(&dev, inode).size;
    let mut draft = Draft::begin(Idle::of(dev));
    let drafted = put_size(&mut draft, inode, was, len);
    conclude(draft, drafted)
}
