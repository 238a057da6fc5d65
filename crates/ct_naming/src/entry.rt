// Mount rule 17: each slot that is used names a live inode, by a name.
ghost use Rattle.std.specs.Prelude.{◌≡◌, ◌≢◌, ◌↔◌, ℕ, ◌+◌, ◌<◌, ◌≤◌, length as length_of, IsTrue};
ghost use Rattle.ct_base.specs.Inode.{IsNumber};
ghost use Rattle.ct_base.specs.Objects.{objects};
ghost use Rattle.ct_base.specs.Rules.{AreEntries, ArePlaced, IsEntry, IsPlaced};
ghost use Rattle.ct_base.specs.Slots.{IsSlot, bytes_from};
ghost use Rattle.ct_base.specs.View.{inode_count, view};
ghost use Rattle.ct_base.specs.Walk.{AreTables, page_count};
ghost use Rattle.ct_dir.specs.Directory.{dir_of};
ghost use Rattle.ct_naming.specs.Slots.{Stands, byte_at};

use crate::slot::{Slot, byte_in, next_slot};
use ct_base::{DIRECTORY_KIND, ENTRY_BYTES, ENTRY_WORDS, Inode, MOST_INODES, MOST_PAGES, NameBuf};
use ct_inode::get;
use ct_pm::Pm;
use ct_tree::is_name;

/// The longest name.
const NAME_BYTES: u64 = ENTRY_BYTES - 8;

/// Whether an inode with a number is live.
fn is_live<D: Pm>(dev: &D, n: u64) -> bool
    requires tables { AreTables (D.words dev.now) }
    requires few { inode_count (D.words dev.now) ≤ MOST_INODES }
    ensures { IsTrue result ↔ ((objects (view (D.words dev.now)) (inode_count (D.words dev.now)) n).kind ≢ 0) }
{
    if n == 0 {
        return false;
    }
    if n > dev.load(3) {
        return false;
    }
    get(dev, n).kind != 0
}

/// The name in a slot, by its length.
fn name_in<D: Pm>(dev: &D, slot: Slot, length: u64) -> NameBuf
    requires inside { slot.place + ENTRY_WORDS ≤ length_of (D.words dev.now) }
    requires short { length ≤ NAME_BYTES }
    ensures { result.items ≡ bytes_from (byte_at (D.words dev.now) slot.place) 8 length }
{
    let mut name = NameBuf::new();
    for k in 0..length {
        name.push(byte_in(dev, slot, 8 + k));
    }
    name
}

/// Whether the bytes of a slot past a name of a length are 0.
fn is_padded<D: Pm>(dev: &D, slot: Slot, length: u64) -> bool
    requires inside { slot.place + ENTRY_WORDS ≤ length_of (D.words dev.now) }
    requires short { length ≤ NAME_BYTES }
    ensures { IsTrue result ↔ ((k : ℕ) → 8 + length ≤ k → k < ENTRY_BYTES → byte_at (D.words dev.now) slot.place k ≡ 0) }
{
    for k in 8 + length..ENTRY_BYTES {
        if byte_in(dev, slot, k) != 0 {
            return false;
        }
    }
    true
}

/// Whether a slot names a live inode, by a name.
fn is_entry<D: Pm>(dev: &D, dir: Inode, slot: Slot) -> bool
    requires tables { AreTables (D.words dev.now) }
    requires few { inode_count (D.words dev.now) ≤ MOST_INODES }
    requires stands { Stands (D.words dev.now) (dir_of (D.words dev.now) dir) slot.offset slot.place }
    ensures { IsTrue result ↔ IsEntry (objects (view (D.words dev.now)) (inode_count (D.words dev.now))) (dir_of (D.words dev.now) dir) slot.offset }
{
    let head = dev.load(slot.place);
    let length = head / (1 << 32);
    if length > NAME_BYTES {
        return false;
    }
    if !is_live(dev, head % (1 << 32)) {
        return false;
    }
    let name = name_in(dev, slot, length);
    if !is_name(&name) {
        return false;
    }
    is_padded(dev, slot, length)
}

/// Whether each slot of a directory that is used names a live inode, by a name.
fn has_entries<D: Pm>(dev: &D, dir: Inode) -> bool
    requires tables { AreTables (D.words dev.now) }
    requires pages { page_count (D.words dev.now) ≤ MOST_PAGES }
    requires few { inode_count (D.words dev.now) ≤ MOST_INODES }
    requires kind { dir.kind ≡ DIRECTORY_KIND }
    requires placed { IsPlaced dir }
    ensures { IsTrue result ↔ ((o : ℕ) → IsSlot (dir_of (D.words dev.now) dir) o
        → IsEntry (objects (view (D.words dev.now)) (inode_count (D.words dev.now))) (dir_of (D.words dev.now) dir) o) }
{
    let mut at = 0;
    while let Some(slot) = next_slot(dev, dir, at) {
        if !is_entry(dev, dir, slot) {
            return false;
        }
        at = slot.offset + ENTRY_BYTES;
    }
    true
}

/// The same of any inode, which has no slots where it is no directory.
fn are_slots_entries<D: Pm>(dev: &D, n: u64) -> bool
    requires tables { AreTables (D.words dev.now) }
    requires pages { page_count (D.words dev.now) ≤ MOST_PAGES }
    requires few { inode_count (D.words dev.now) ≤ MOST_INODES }
    requires number { IsNumber (inode_count (D.words dev.now)) n }
    requires placed { ArePlaced (view (D.words dev.now)) (inode_count (D.words dev.now)) }
    ensures { IsTrue result ↔ ((o : ℕ) → IsSlot (objects (view (D.words dev.now)) (inode_count (D.words dev.now)) n) o
        → IsEntry (objects (view (D.words dev.now)) (inode_count (D.words dev.now))) (objects (view (D.words dev.now)) (inode_count (D.words dev.now)) n) o) }
{
    let dir = get(dev, n);
    if dir.kind != DIRECTORY_KIND {
        return true;
    }
    has_entries(dev, dir)
}

/// Mount rule 17.
pub fn are_entries<D: Pm>(dev: &D) -> bool
    requires tables { AreTables (D.words dev.now) }
    requires pages { page_count (D.words dev.now) ≤ MOST_PAGES }
    requires few { inode_count (D.words dev.now) ≤ MOST_INODES }
    requires placed { ArePlaced (view (D.words dev.now)) (inode_count (D.words dev.now)) }
    ensures { IsTrue result ↔ AreEntries (objects (view (D.words dev.now)) (inode_count (D.words dev.now))) }
{
    for n in 1..dev.load(3) + 1 {
        if !are_slots_entries(dev, n) {
            return false;
        }
    }
    true
}
