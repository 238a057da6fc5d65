// Entries by their names, and the names of slots.
ghost use Rattle.std.specs.Prelude.{◌≡◌, ◌≢◌, ◌+◌, ◌^◌, ◌<◌, IfSome, IfNone};
ghost use Rattle.ct_base.specs.Named.{Named};
ghost use Rattle.ct_base.specs.Slots.{IsSlot, slot_name};
ghost use Rattle.ct_dir.specs.Directory.{IsFirst, IsReadable, IsSpot, dir_of};

use crate::count::free_slot;
use crate::names::Key;
use crate::slot::Slot;
use crate::slots::{Slots, page_of};
use ct_base::{ENTRY_BYTES, Inode, NAME_BYTES, NameBuf};
use ct_pm::Pm;

/// An entry that was found in a directory.
#[derive(Clone, Copy, Debug, PartialEq, Eq)]
pub struct Found {
    /// The offset of its slot in the directory, in bytes: a multiple of 256.
    pub offset: u64,

    /// The number of the inode that it names.
    pub inode: u64,
}

/// The slot of a name in a directory.
#[derive(Clone, Copy, Debug, PartialEq, Eq)]
pub enum NameSlot {
    /// The first entry that has the name.
    Taken(Found),

    /// No entry has it, and this is the offset of the first empty slot: the directory's size where none is empty.
    Free(u64),
}

/// The first entry of a directory with a name, `None` where there is none.
///
/// It walks once for each page and loads one word for each slot; words of a name are loaded where the length is the same.
pub fn find<D: Pm>(dev: &D, dir: Inode, name: &[u8]) -> Option<Found>
    requires { IsReadable (D.words dev.now) dir }
    ensures found { IfSome result (IsFirst (dir_of (D.words dev.now) dir) name.now) }
    ensures none { IfNone result (Named (dir_of (D.words dev.now) dir) name.now → ⊥) }
{
    if name.len() > NAME_BYTES {
        return None;
    }
    let key = Key::of(name);
    let mut slots = Slots::of(dir);
    while let Some(slot) = slots.next(dev) {
        if slot.has_name(dev, &key) {
            return Some(slot.found());
        }
    }
    None
}

// The first slot that is not known to be used, once a used one was met.
fn past(free: u64, used: u64) -> u64
    requires { used + ENTRY_BYTES < 2 ^ 64 }
    ensures met { used ≡ free → result ≡ free + ENTRY_BYTES }
    ensures other { used ≢ free → result ≡ free }
{
    if used == free {
        return free + ENTRY_BYTES;
    }
    free
}

/// Where a name is in a directory, or where it would go: `find` and `free_slot` in one pass over the slots.
pub fn spot<D: Pm>(dev: &D, dir: Inode, name: &[u8]) -> NameSlot
    requires { IsReadable (D.words dev.now) dir }
    ensures { IsSpot (dir_of (D.words dev.now) dir) name.now result }
{
    if name.len() > NAME_BYTES {
        return NameSlot::Free(free_slot(dev, dir));
    }
    let key = Key::of(name);
    let mut slots = Slots::of(dir);
    let mut free = 0;
    while let Some(slot) = slots.next(dev) {
        if slot.has_name(dev, &key) {
            return NameSlot::Taken(slot.found());
        }
        free = past(free, slot.offset);
    }
    NameSlot::Free(free)
}

/// The name in a slot that is used, by its offset in bytes.
pub fn name_at<D: Pm>(dev: &D, dir: Inode, offset: u64) -> NameBuf
    requires readable { IsReadable (D.words dev.now) dir }
    requires used { IsSlot (dir_of (D.words dev.now) dir) offset }
    ensures { result.items ≡ slot_name (dir_of (D.words dev.now) dir) offset }
{
    match page_of(dev, dir.base + offset) {
        Some(page) => Slot::read(dev, page, offset).name(dev),
        None => unreachable!(),
    }
}
