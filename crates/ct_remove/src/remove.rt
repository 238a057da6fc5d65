// An entry goes with its object.
ghost use Rattle.std.specs.Prelude.{◌≡◌, ◌≢◌, ◌+◌, ◌≤◌, length, OnOk};
ghost use Rattle.ct_base.specs.Causes.{HasCause};
ghost use Rattle.ct_base.specs.Inode.{inode as inode_at};
ghost use Rattle.ct_base.specs.Plan.{give_up_wants};
ghost use Rattle.ct_base.specs.View.{inode_count, view};
ghost use Rattle.ct_base.specs.Wants.{missing};
ghost use Rattle.ct_commit.specs.Rest.{IsMounted};
ghost use Rattle.ct_pm.specs.Phase.{Phase};
ghost use Rattle.ct_record.specs.Seen.{device_behind};
ghost use Rattle.ct_tree.specs.Lands.{files};
ghost use Rattle.ct_find.specs.Entries.{IsLeaf};
ghost use Rattle.ct_remove.specs.Removed.{RemovedOrNot, removed};

use crate::draft::MOST_REMOVAL_PAIRS;
use crate::record::remove_now;
use ct_base::{Inode, NO_PARTITION, STAGING_SLOT};
use ct_cut::prepare_whole;
use ct_find::Entry;
use ct_frames::Frames;
use ct_pm::Pm;
use ct_record::Broken;
use ct_walk::unstage;

// Removes an entry with an object that has a partition: the tables are made between whose entries it goes, and the staging
// slot is emptied behind the record.
fn remove_whole<D: Pm>(
    dev: D,
    frames: &mut Frames,
    entry: Entry,
    level: u64,
) -> Result<D, Broken<D>>
    requires mounted { IsMounted (D.words dev) (D.told dev) frames.old }
    requires leaf { IsLeaf (files (D.words dev)) entry.dir entry.offset entry.number }
    requires level { (inode_at (view (D.words dev)) entry.number).level ≡ level }
    requires has { level ≢ NO_PARTITION }
    requires space { missing (D.words dev) (give_up_wants (inode_at (view (D.words dev)) entry.number)) ≤ length frames.old.free }

    ensures objects { OnOk result (files (D.words (device_behind result)) ≡ removed (files (D.words dev)) entry.dir entry.offset entry.number) }
    ensures counted { OnOk result (inode_count (D.words (device_behind result)) ≡ inode_count (D.words dev)) }
    ensures mounted { OnOk result (IsMounted (D.words (device_behind result)) (D.told (device_behind result)) frames.new) }
    ensures phase { Phase (RemovedOrNot (files (D.words dev)) entry.dir entry.offset entry.number) MOST_REMOVAL_PAIRS (D.told dev) (D.told (device_behind result)) (D.words (device_behind result)) }
    ensures taken { OnOk result (length frames.old.free ≤ length frames.new.free + missing (D.words dev) (give_up_wants (inode_at (view (D.words dev)) entry.number))) }
    ensures cause { HasCause (D.faults dev) (D.faults (device_behind result)) result }
{
    let mut dev = dev;
    match prepare_whole(&mut dev, frames, entry.number) {
        Ok(()) => {}
        Err(_) => return Err(Broken { dev }),
    }
    let mut dev = match remove_now(dev, entry, level) {
        Ok(dev) => dev,
        Err(broken) => return Err(broken),
    };
    match unstage(&mut dev, frames, STAGING_SLOT) {
        Ok(()) => Ok(dev),
        Err(_) => Err(Broken { dev }),
    }
}

/// Removes an entry with its object, which has no slots: one record empties the entry's slot, frees the inode and gives the
/// partition up, where the object has one.
///
/// # Errors
///
/// `Broken` where the device failed. The object is then to be found whole or not at all once the device settles.
pub(crate) fn remove<D: Pm>(
    dev: D,
    frames: &mut Frames,
    entry: Entry,
    inode: Inode,
) -> Result<D, Broken<D>>
    requires mounted { IsMounted (D.words dev) (D.told dev) frames.old }
    requires leaf { IsLeaf (files (D.words dev)) entry.dir entry.offset entry.number }
    requires inode { inode ≡ inode_at (view (D.words dev)) entry.number }
    requires space { missing (D.words dev) (give_up_wants inode) ≤ length frames.old.free }

    ensures objects { OnOk result (files (D.words (device_behind result)) ≡ removed (files (D.words dev)) entry.dir entry.offset entry.number) }
    ensures counted { OnOk result (inode_count (D.words (device_behind result)) ≡ inode_count (D.words dev)) }
    ensures mounted { OnOk result (IsMounted (D.words (device_behind result)) (D.told (device_behind result)) frames.new) }

    // A crash at any moment lands on the objects with this one, or on those without it.
    ensures phase { Phase (RemovedOrNot (files (D.words dev)) entry.dir entry.offset entry.number) MOST_REMOVAL_PAIRS (D.told dev) (D.told (device_behind result)) (D.words (device_behind result)) }

    // No more pages are taken than were missing.
    ensures taken { OnOk result (length frames.old.free ≤ length frames.new.free + missing (D.words dev) (give_up_wants inode)) }
    ensures cause { HasCause (D.faults dev) (D.faults (device_behind result)) result }
{
    if inode.level == NO_PARTITION {
        return remove_now(dev, entry, NO_PARTITION);
    }
    remove_whole(dev, frames, entry, inode.level)
}
