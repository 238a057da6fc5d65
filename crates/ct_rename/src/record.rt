// The record of a rename, from its begin to its end.
ghost use Rattle.std.specs.Prelude.{◌≡◌, ◌≢◌, ℕ, ◌+◌, ◌/◌, ◌<◌, OnOk, slice_index};
ghost use Rattle.ct_base.specs.Causes.{HasCause};
ghost use Rattle.ct_base.specs.Inode.{inode as inode_at};
ghost use Rattle.ct_base.specs.Settled.{IsShut};
ghost use Rattle.ct_base.specs.View.{view};
ghost use Rattle.ct_base.specs.Walk.{page_at};
ghost use Rattle.ct_cut.specs.GivenUp.{CanGiveUp};
ghost use Rattle.ct_pm.specs.Device.{NothingPending};
ghost use Rattle.ct_pm.specs.Phase.{Phase};
ghost use Rattle.ct_record.specs.Seen.{device_behind};
ghost use Rattle.ct_remove.specs.Asked.{IsAsked};
ghost use Rattle.ct_tree.specs.Lands.{files};
ghost use Rattle.ct_rename.specs.Moves.{CanMove, HasTree, Moved, Replaces, TurnedOrNot, moved, replaced};

use crate::draft::{MOST_MOVE_PAIRS, MOST_RENAME_PAIRS, draft_move, draft_replace};
use ct_base::{NO_PARTITION, PAGE_BYTES};
use ct_find::{Entry, Spot};
use ct_inode::get;
use ct_pm::Pm;
use ct_record::{Broken, Draft, Idle, conclude};

/// Moves an entry to an empty slot, or gives it another name in its own, as one record.
pub(crate) fn move_now<D: Pm>(dev: D, entry: Entry, spot: &Spot<'_>) -> Result<D, Broken<D>>
    requires settled { NothingPending (D.told dev) }
    requires can { CanMove (D.words dev) entry.dir entry.offset spot.now.dir spot.now.offset entry.number spot.now.name.now }
    requires to { inode_at (view (D.words dev)) spot.now.dir ≡ spot.now.inode }
    requires there { page_at (D.words dev) 4 ((spot.now.inode.base + spot.now.offset) / PAGE_BYTES) ≢ 0 }
    requires tree { HasTree (moved (files (D.words dev)) entry.dir entry.offset spot.now.dir spot.now.offset entry.number spot.now.name.now) }

    ensures moves { OnOk result (Moved (D.words dev) (D.words (device_behind result)) entry.dir entry.offset spot.now.dir spot.now.offset entry.number spot.now.name.now) }
    ensures shut { OnOk result (IsShut (D.words (device_behind result))) }
    ensures settled { OnOk result (NothingPending (D.told (device_behind result))) }

    // A crash at any moment lands on the objects with the entry in its old place, or in its new one.
    ensures phase { Phase (TurnedOrNot (files (D.words dev)) (moved (files (D.words dev)) entry.dir entry.offset spot.now.dir spot.now.offset entry.number spot.now.name.now)) MOST_MOVE_PAIRS
        (D.told dev) (D.told (device_behind result)) (D.words (device_behind result)) }
    ensures cause { HasCause (D.faults dev) (D.faults (device_behind result)) result }
{
    let from = get(&dev, entry.dir);
    let mut draft = Draft::begin(Idle::of(dev));
    let written = draft_move(&mut draft, from, entry, spot);
    conclude(draft, written)
}

/// Moves an entry to the slot of another, whose object goes, as one record.
pub(crate) fn replace_now<D: Pm>(
    dev: D,
    entry: Entry,
    gone: Entry,
    level: u64,
    name: &[u8],
) -> Result<D, Broken<D>>
    requires settled { NothingPending (D.told dev) }
    requires can { CanMove (D.words dev) entry.dir entry.offset gone.dir gone.offset entry.number name.now }
    requires asked { IsAsked (D.words dev) gone.dir gone.offset gone.number }
    requires away { entry.dir ≡ gone.dir → entry.offset ≢ gone.offset }
    requires level { (inode_at (view (D.words dev)) gone.number).level ≡ level }
    requires give { level ≢ NO_PARTITION → CanGiveUp (D.words dev) (inode_at (view (D.words dev)) gone.number) }
    requires tree { HasTree (replaced (files (D.words dev)) entry.dir entry.offset gone.dir gone.offset entry.number gone.number name.now) }

    ensures replaces { OnOk result (Replaces (D.words dev) (D.words (device_behind result)) entry.dir entry.offset gone.dir gone.offset entry.number gone.number name.now) }
    ensures bytes { OnOk result ((k : ℕ) → slice_index name.now k < 256) }
    ensures shut { OnOk result (IsShut (D.words (device_behind result))) }
    ensures settled { OnOk result (NothingPending (D.told (device_behind result))) }

    // A crash at any moment lands on the objects as they were, or on those with the entry in the place of the other.
    ensures phase { Phase (TurnedOrNot (files (D.words dev)) (replaced (files (D.words dev)) entry.dir entry.offset gone.dir gone.offset entry.number gone.number name.now)) MOST_RENAME_PAIRS
        (D.told dev) (D.told (device_behind result)) (D.words (device_behind result)) }
    ensures cause { HasCause (D.faults dev) (D.faults (device_behind result)) result }
{
    let from = get(&dev, entry.dir);
    let to = get(&dev, gone.dir);
    let mut draft = Draft::begin(Idle::of(dev));
    let written = draft_replace(&mut draft, from, entry, to, gone, level, name);
    conclude(draft, written)
}
