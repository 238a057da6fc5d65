// A device that was stopped comes to rest.
ghost use Rattle.std.specs.Prelude.{◌≡◌, ◌<◌, ◌≤◌, ◌+◌, IfSome, IsTrue, length, slice_index};
ghost use Rattle.ct_base.specs.Settled.{HasPages, IsRecord, settled as settled_words};
ghost use Rattle.ct_pm.specs.Device.{NothingPending, SameOff};
ghost use Rattle.ct_record.specs.Record.{InRecord};
ghost use Rattle.ct_tree.specs.Lands.{Lands};
ghost use Rattle.ct_tree.specs.Tree.{Tree};

use ct_base::{LEAST_PAGES, TOP_LEVEL};
use ct_header::pick;
use ct_pm::Pm;
use record_stops::{has_record, settled};

/// The page count of the device.
pub const PAGES: u64 = LEAST_PAGES;

/// The base of the lowest free partition of a level on a device that lands on a tree, or none where there is none, or where
/// the device cannot be settled.
pub fn lowest_free<D: Pm + Drop>(dev: D, level: u32) -> Option<u64>
    requires pending { NothingPending (D.told dev) }
    requires lands { (t : Tree) × Lands (D.words dev) t }
    requires level { level ≤ TOP_LEVEL }
{
    let rested = settled(dev)?;
    if !has_record(&rested) {
        return None;
    }
    let part = pick(&rested, level)?;
    Some(part.base().get())
}
