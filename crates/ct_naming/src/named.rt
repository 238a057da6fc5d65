// Mount rule 19: no slot names inode 1, and each other live inode is named by one slot.
ghost use Rattle.std.specs.Prelude.{◌≡◌, ◌≢◌, ◌↔◌, ◌⊎◌, ℕ, ◌+◌, ◌%◌, ◌<◌, ◌≤◌, true, false, length, IfOk, IsTrue};
ghost use Rattle.ct_base.specs.Inode.{inode, IsNumber};
ghost use Rattle.ct_base.specs.Objects.{objects};
ghost use Rattle.ct_base.specs.Rules.{AreEntries, ArePlaced, AreNamed};
ghost use Rattle.ct_base.specs.View.{inode_count, view};
ghost use Rattle.ct_base.specs.Walk.{AreTables, page_count, word};
ghost use Rattle.ct_marks.specs.Marks.{Marked, is_marked};
ghost use Rattle.ct_naming.specs.Naming.{Counts};
ghost use Rattle.ct_naming.specs.Slots.{Meets};

use crate::slot::{Slot, next_slot};
use ct_base::{DIRECTORY_KIND, ENTRY_BYTES, ENTRY_WORDS, Inode, MOST_INODES, MOST_PAGES, NoMemory};
use ct_inode::get;
use ct_marks::{has_mark, no_marks, set_mark};
use ct_pm::Pm;
use std::alloc::Global;

/// The inode that a slot names.
pub fn child_of<D: Pm>(dev: &D, slot: Slot) -> u64
    requires inside { slot.place + ENTRY_WORDS ≤ length (D.words dev.now) }
    ensures { result ≡ word (D.words dev.now) slot.place % 4294967296 }
{
    dev.load(slot.place) % (1 << 32)
}

/// Marks the inode that a slot of directory `n` names, unless it is inode 1 or has a mark.
fn mark_child<D: Pm>(dev: &D, n: u64, dir: Inode, slot: Slot, marks: &mut Vec<u8>) -> bool
    requires few { inode_count (D.words dev.now) ≤ MOST_INODES }
    requires number { IsNumber (inode_count (D.words dev.now)) n }
    requires dir { dir ≡ inode (view (D.words dev.now)) n }
    requires entries { AreEntries (objects (view (D.words dev.now)) (inode_count (D.words dev.now))) }
    requires slot { (from : ℕ) × Meets (D.words dev.now) dir from slot }
    requires length { length marks.old.items ≡ inode_count (D.words dev.now) + 1 }
    ensures length { length marks.new.items ≡ inode_count (D.words dev.now) + 1 }
    ensures counts { IsTrue result → (at : ℕ) → Meets (D.words dev.now) dir at slot → Counts (objects (view (D.words dev.now)) (inode_count (D.words dev.now))) n at marks.old.items
        → Counts (objects (view (D.words dev.now)) (inode_count (D.words dev.now))) n (slot.offset + ENTRY_BYTES) marks.new.items }
    ensures fails { result ≡ false → (at : ℕ) → Meets (D.words dev.now) dir at slot → Counts (objects (view (D.words dev.now)) (inode_count (D.words dev.now))) n at marks.old.items
        → AreNamed (objects (view (D.words dev.now)) (inode_count (D.words dev.now))) → ⊥ }
{
    let child = child_of(dev, slot);
    if child == 1 {
        return false;
    }
    if has_mark(marks, child) {
        return false;
    }
    set_mark(marks, child);
    true
}

/// Marks the inodes that the slots of directory `n` name, as long as each is named for the first time.
fn mark_children<D: Pm>(dev: &D, n: u64, dir: Inode, marks: &mut Vec<u8>) -> bool
    requires tables { AreTables (D.words dev.now) }
    requires pages { page_count (D.words dev.now) ≤ MOST_PAGES }
    requires few { inode_count (D.words dev.now) ≤ MOST_INODES }
    requires number { IsNumber (inode_count (D.words dev.now)) n }
    requires dir { dir ≡ inode (view (D.words dev.now)) n }
    requires kind { dir.kind ≡ DIRECTORY_KIND }
    requires placed { ArePlaced (view (D.words dev.now)) (inode_count (D.words dev.now)) }
    requires entries { AreEntries (objects (view (D.words dev.now)) (inode_count (D.words dev.now))) }
    requires length { length marks.old.items ≡ inode_count (D.words dev.now) + 1 }
    ensures length { length marks.new.items ≡ inode_count (D.words dev.now) + 1 }
    ensures counts { IsTrue result → Counts (objects (view (D.words dev.now)) (inode_count (D.words dev.now))) n 0 marks.old.items
        → Counts (objects (view (D.words dev.now)) (inode_count (D.words dev.now))) (n + 1) 0 marks.new.items }
    ensures fails { result ≡ false → Counts (objects (view (D.words dev.now)) (inode_count (D.words dev.now))) n 0 marks.old.items
        → AreNamed (objects (view (D.words dev.now)) (inode_count (D.words dev.now))) → ⊥ }
{
    let mut at = 0;
    while let Some(slot) = next_slot(dev, dir, at) {
        if !mark_child(dev, n, dir, slot, marks) {
            return false;
        }
        at = slot.offset + ENTRY_BYTES;
    }
    true
}

/// The same of any inode, which has no slots where it is no directory.
fn mark_named<D: Pm>(dev: &D, n: u64, marks: &mut Vec<u8>) -> bool
    requires tables { AreTables (D.words dev.now) }
    requires pages { page_count (D.words dev.now) ≤ MOST_PAGES }
    requires few { inode_count (D.words dev.now) ≤ MOST_INODES }
    requires number { IsNumber (inode_count (D.words dev.now)) n }
    requires placed { ArePlaced (view (D.words dev.now)) (inode_count (D.words dev.now)) }
    requires entries { AreEntries (objects (view (D.words dev.now)) (inode_count (D.words dev.now))) }
    requires length { length marks.old.items ≡ inode_count (D.words dev.now) + 1 }
    ensures length { length marks.new.items ≡ inode_count (D.words dev.now) + 1 }
    ensures counts { IsTrue result → Counts (objects (view (D.words dev.now)) (inode_count (D.words dev.now))) n 0 marks.old.items
        → Counts (objects (view (D.words dev.now)) (inode_count (D.words dev.now))) (n + 1) 0 marks.new.items }
    ensures fails { result ≡ false → Counts (objects (view (D.words dev.now)) (inode_count (D.words dev.now))) n 0 marks.old.items
        → AreNamed (objects (view (D.words dev.now)) (inode_count (D.words dev.now))) → ⊥ }
{
    let dir = get(dev, n);
    if dir.kind != DIRECTORY_KIND {
        return true;
    }
    mark_children(dev, n, dir, marks)
}

/// Marks the inodes that the slots of all directories name, as long as each is named for the first time.
fn mark_all<D: Pm>(dev: &D, marks: &mut Vec<u8>) -> bool
    requires tables { AreTables (D.words dev.now) }
    requires pages { page_count (D.words dev.now) ≤ MOST_PAGES }
    requires few { inode_count (D.words dev.now) ≤ MOST_INODES }
    requires placed { ArePlaced (view (D.words dev.now)) (inode_count (D.words dev.now)) }
    requires entries { AreEntries (objects (view (D.words dev.now)) (inode_count (D.words dev.now))) }
    requires length { length marks.old.items ≡ inode_count (D.words dev.now) + 1 }
    requires start { Counts (objects (view (D.words dev.now)) (inode_count (D.words dev.now))) 1 0 marks.old.items }
    ensures length { length marks.new.items ≡ inode_count (D.words dev.now) + 1 }
    ensures counts { IsTrue result → Counts (objects (view (D.words dev.now)) (inode_count (D.words dev.now))) (inode_count (D.words dev.now) + 1) 0 marks.new.items }
    ensures fails { result ≡ false → AreNamed (objects (view (D.words dev.now)) (inode_count (D.words dev.now))) → ⊥ }
{
    for n in 1..dev.load(3) + 1 {
        if !mark_named(dev, n, marks) {
            return false;
        }
    }
    true
}

/// Whether each live inode from a number on has a mark.
pub fn are_marked<D: Pm>(dev: &D, from: u64, marks: &Vec<u8>) -> bool
    requires tables { AreTables (D.words dev.now) }
    requires few { inode_count (D.words dev.now) ≤ MOST_INODES }
    requires from { 1 ≤ from }
    requires length { length marks.now.items ≡ inode_count (D.words dev.now) + 1 }
    ensures { IsTrue result ↔ ((c : ℕ) → from ≤ c → c ≤ inode_count (D.words dev.now) → (inode (view (D.words dev.now)) c).kind ≢ 0 → is_marked marks.now.items c ≡ true) }
{
    for n in from..dev.load(3) + 1 {
        if get(dev, n).kind != 0 && !has_mark(marks, n) {
            return false;
        }
    }
    true
}

/// Mount rule 19.
pub fn are_named<D: Pm>(alloc: Global, dev: &D) -> Result<bool, NoMemory>
    requires tables { AreTables (D.words dev.now) }
    requires pages { page_count (D.words dev.now) ≤ MOST_PAGES }
    requires few { inode_count (D.words dev.now) ≤ MOST_INODES }
    requires placed { ArePlaced (view (D.words dev.now)) (inode_count (D.words dev.now)) }
    requires entries { AreEntries (objects (view (D.words dev.now)) (inode_count (D.words dev.now))) }
    ensures { IfOk result (λ ok. IsTrue ok ↔ AreNamed (objects (view (D.words dev.now)) (inode_count (D.words dev.now)))) }
{
    let mut marks = no_marks(alloc, dev.load(3) + 1)?;
    if !mark_all(dev, &mut marks) {
        return Ok(false);
    }
    Ok(are_marked(dev, 2, &marks))
}
