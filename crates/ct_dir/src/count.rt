// How many slots are used, and which are the first that is and the first that is not.
ghost use Rattle.std.specs.Prelude.{◌≡◌, ℕ, length, IfSome, IfNone};
ghost use Rattle.ct_base.specs.Slots.{IsSlot, entries as entries_of, free_slot as free_slot_of};
ghost use Rattle.ct_dir.specs.Directory.{AreEmpty, IsReadable, dir_of};

use crate::slots::Slots;
use ct_base::{ENTRY_BYTES, Inode};
use ct_pm::Pm;

/// The offset of the first slot of a directory that is used; `None` exactly where the directory is empty.
///
/// It goes no further than that slot.
pub fn first_slot<D: Pm>(dev: &D, dir: Inode) -> Option<u64>
    requires { IsReadable (D.words dev.now) dir }
    ensures used { IfSome result (IsSlot (dir_of (D.words dev.now) dir)) }
    ensures first { IfSome result (AreEmpty (dir_of (D.words dev.now) dir) 0) }
    ensures none { IfNone result ((o : ℕ) → IsSlot (dir_of (D.words dev.now) dir) o → ⊥) }
{
    let mut slots = Slots::of(dir);
    match slots.next(dev) {
        Some(slot) => Some(slot.offset),
        None => None,
    }
}

/// The offset of the first empty slot of a directory, and its size where none is empty.
pub fn free_slot<D: Pm>(dev: &D, dir: Inode) -> u64
    requires { IsReadable (D.words dev.now) dir }
    ensures { result ≡ free_slot_of (dir_of (D.words dev.now) dir) }
{
    let mut slots = Slots::of(dir);
    let mut free = 0;
    while let Some(slot) = slots.next(dev) {
        if slot.offset != free {
            return free;
        }
        free += ENTRY_BYTES;
    }
    free
}

/// The number of entries of a directory: its slots that are used.
pub fn entries<D: Pm>(dev: &D, dir: Inode) -> u64
    requires { IsReadable (D.words dev.now) dir }
    ensures { result ≡ length (entries_of (dir_of (D.words dev.now) dir)) }
{
    let mut slots = Slots::of(dir);
    let mut count = 0;
    while let Some(_slot) = slots.next(dev) {
        count += 1;
    }
    count
}
