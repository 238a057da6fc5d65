// The entries of a directory, all at once: their slots in the byte order of the names, and then name by name.
ghost use Rattle.std.specs.Prelude.{◌≡◌, ◌≢◌, ◌≤◌, ◌↔◌, Some, Err, IsNone, IsOkAnd, IfOk, IfSome, OnErr, length};
ghost use Rattle.ct_base.specs.Slots.{IsSlot, slot_name};
ghost use Rattle.ct_call.specs.Calls.{StandsFor};
ghost use Rattle.ct_call.specs.Mounted.{Volume};
ghost use Rattle.ct_dir.specs.Directory.{IsReadable, dir_of};
ghost use Rattle.ct_fs.specs.Mounts.{mounts};
ghost use Rattle.ct_look.specs.Looks.{AreSlots, IsListed, IsLook};
ghost use Rattle.ct_tree.specs.Checks.{at};
ghost use Rattle.ct_tree.specs.Step.{list as list_call, listed_in, refusal};
ghost use Rattle.ct_tree.specs.Tree.{Tree};

use crate::system::Fs;
use ct_base::{Inode, NameBuf};
use ct_call::FsError;
use ct_dir::name_at;
use ct_look::{Listing, answer_of, entries_at};
use ct_pm::Pm;

impl<D: Pm> Fs<D> {
    /// Puts the offsets of the slots of a directory at the front of a buffer, in the byte order of their names; `None` where they
    /// are more than fit. `name_of` answers each name, until the next call that changes the tree.
    ///
    /// # Errors
    ///
    /// `Dead` after a fault, and else `Refused` where the path leads to no directory. Then the buffer is as it was.
    pub fn entries(&self, path: &[u8], offsets: &mut [u64]) -> Result<Option<Listing>, FsError>
        ensures dead { IsNone (mounts self.now) ↔ (result ≡ Err FsError.Dead) }
        ensures faultless { result ≢ Err FsError.Fault }
        ensures answer { (was : Volume D) → mounts self.now ≡ Some was → (t : Tree) → StandsFor (D.words was.dev) t
            → IsLook (refusal t (list_call path.now)) (IsListed (D.words was.dev) (listed_in (at t path.now)) offsets.old offsets.new) result }
        ensures slots { (was : Volume D) → mounts self.now ≡ Some was
            → IfOk result (λ found. IfSome found (AreSlots (D.words was.dev) offsets.new)) }
        ensures room { IfOk result (λ found. IfSome found (λ listing. listing.count ≤ length offsets.new)) }
        ensures kept { OnErr result (offsets.new ≡ offsets.old) }
    {
        match self.ready() {
            Some(mounted) => answer_of(entries_at(
                &mounted.dev,
                &self.remembered.learnt,
                path,
                offsets,
            )),
            None => Err(FsError::Dead),
        }
    }

    /// The name in a slot of a directory, by its offset as `entries` gives it.
    ///
    /// # Errors
    ///
    /// `Dead` after a fault.
    pub fn name_of(&self, dir: Inode, offset: u64) -> Result<NameBuf, FsError>
        requires readable { (was : Volume D) → mounts self.now ≡ Some was → IsReadable (D.words was.dev) dir }
        requires slot { (was : Volume D) → mounts self.now ≡ Some was → IsSlot (dir_of (D.words was.dev) dir) offset }
        ensures dead { IsNone (mounts self.now) ↔ (result ≡ Err FsError.Dead) }
        ensures name { (was : Volume D) → mounts self.now ≡ Some was
            → IsOkAnd result (λ name. name.items ≡ slot_name (dir_of (D.words was.dev) dir) offset) }
    {
        match self.ready() {
            Some(mounted) => Ok(name_at(&mounted.dev, dir, offset)),
            None => Err(FsError::Dead),
        }
    }
}
