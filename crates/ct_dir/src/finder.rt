// Who finds entries: a search on the device, or one who knows some of them.
ghost use Rattle.std.specs.Prelude.{◌≡◌, ℕ, List, IfSome, IfNone};
ghost use Rattle.ct_base.specs.Named.{Named};
ghost use Rattle.ct_base.specs.Objects.{objects};
ghost use Rattle.ct_base.specs.View.{inode_count, view};
ghost use Rattle.ct_dir.specs.Directory.{IsFirst, IsReadable, dir_of};

use crate::lookup::{Found, find};
use ct_base::Inode;
use ct_pm::Pm;

/// Who finds the entries of directories.
pub trait Finder {
    // What it knows of a device's words is so.
    ghost agrees: { Self → List ℕ → Type 0 };

    /// The first entry with a name in the directory of an inode, given by its number too; `None` where there is none.
    fn find<D: Pm>(&self, dev: &D, number: u64, dir: Inode, name: &[u8]) -> Option<Found>
        requires known { agrees self.now (D.words dev.now) }
        requires number { dir_of (D.words dev.now) dir ≡ objects (view (D.words dev.now)) (inode_count (D.words dev.now)) number }
        requires readable { IsReadable (D.words dev.now) dir }
        ensures found { IfSome result (IsFirst (dir_of (D.words dev.now) dir) name.now) }
        ensures none { IfNone result (Named (dir_of (D.words dev.now) dir) name.now → ⊥) };
}

/// A finder that knows no entry: each is searched for on the device.
#[derive(Clone, Copy, Debug)]
pub struct OnDevice;

impl Finder for OnDevice {
    ghost agrees = { λ finder words. Unit {0} };

    fn find<D: Pm>(&self, dev: &D, _number: u64, dir: Inode, name: &[u8]) -> Option<Found> {
        find(dev, dir, name)
    }
}
