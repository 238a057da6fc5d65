// The record of a removal, from its begin to its end.
ghost use Rattle.std.specs.Prelude.{◌≡◌, ◌≢◌, OnOk};
ghost use Rattle.ct_base.specs.Causes.{HasCause};
ghost use Rattle.ct_base.specs.Inode.{inode as inode_at};
ghost use Rattle.ct_base.specs.Settled.{IsShut};
ghost use Rattle.ct_base.specs.View.{view};
ghost use Rattle.ct_cut.specs.GivenUp.{CanGiveUp};
ghost use Rattle.ct_pm.specs.Device.{NothingPending};
ghost use Rattle.ct_pm.specs.Phase.{Phase};
ghost use Rattle.ct_record.specs.Seen.{device_behind};
ghost use Rattle.ct_tree.specs.Lands.{files};
ghost use Rattle.ct_remove.specs.Asked.{IsAsked};
ghost use Rattle.ct_remove.specs.Erased.{Removes};
ghost use Rattle.ct_remove.specs.Removed.{RemovedOrNot};

use crate::draft::{MOST_REMOVAL_PAIRS, draft_removal};
use ct_base::NO_PARTITION;
use ct_find::Entry;
use ct_inode::get;
use ct_pm::Pm;
use ct_record::{Broken, Draft, Idle, conclude};

/// Removes an entry with its object, whose partition has a level or is none, as one record.
pub(crate) fn remove_now<D: Pm>(dev: D, entry: Entry, level: u64) -> Result<D, Broken<D>>
    requires asked { IsAsked (D.words dev) entry.dir entry.offset entry.number }
    requires level { (inode_at (view (D.words dev)) entry.number).level ≡ level }
    requires can { level ≢ NO_PARTITION → CanGiveUp (D.words dev) (inode_at (view (D.words dev)) entry.number) }
    requires settled { NothingPending (D.told dev) }

    ensures removes { OnOk result (Removes (D.words dev) (D.words (device_behind result)) entry.dir entry.offset entry.number) }
    ensures shut { OnOk result (IsShut (D.words (device_behind result))) }
    ensures settled { OnOk result (NothingPending (D.told (device_behind result))) }

    // A crash at any moment lands on the objects with this one, or on those without it.
    ensures phase { Phase (RemovedOrNot (files (D.words dev)) entry.dir entry.offset entry.number) MOST_REMOVAL_PAIRS (D.told dev) (D.told (device_behind result)) (D.words (device_behind result)) }
    ensures cause { HasCause (D.faults dev) (D.faults (device_behind result)) result }
{
    let dir = get(&dev, entry.dir);
    let mut draft = Draft::begin(Idle::of(dev));
    let drafted = draft_removal(&mut draft, dir, entry, level);
    conclude(draft, drafted)
}
