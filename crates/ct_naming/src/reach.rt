// Mount rule 20: each live inode is reached from inode 1.
ghost use Rattle.std.specs.Prelude.{◌≡◌, ◌≢◌, ◌↔◌, ℕ, ◌+◌, ◌*◌, ◌<◌, ◌≤◌, length, IfOk, OnOk, IsTrue, []};
ghost use Rattle.ct_base.specs.Inode.{inode, IsNumber};
ghost use Rattle.ct_base.specs.Objects.{objects};
ghost use Rattle.ct_base.specs.Rules.{AreEntries, ArePlaced, AreReached};
ghost use Rattle.ct_base.specs.View.{inode_count, view};
ghost use Rattle.ct_base.specs.Walk.{AreTables, page_count};
ghost use Rattle.ct_naming.specs.Slots.{Meets};
ghost use Rattle.ct_naming.specs.Visits.{Visits, unmarked};

use crate::named::{are_marked, child_of};
use crate::slot::{Slot, next_slot};
use ct_base::{DIRECTORY_KIND, ENTRY_BYTES, Inode, MOST_INODES, MOST_PAGES, NoMemory};
use ct_inode::get;
use ct_marks::{has_mark, no_marks, set_mark};
use ct_pm::Pm;
use std::alloc::Global;

/// The number of the root directory.
const ROOT: u64 = 1;

/// Marks the inode that a slot of directory `n` names, and lists it where it had no mark.
fn reach_child<D: Pm>(
    dev: &D,
    n: u64,
    dir: Inode,
    slot: Slot,
    marks: &mut Vec<u8>,
    visit: &mut Vec<u64>,
) -> Result<(), NoMemory>
    requires few { inode_count (D.words dev.now) ≤ MOST_INODES }
    requires number { IsNumber (inode_count (D.words dev.now)) n }
    requires dir { dir ≡ inode (view (D.words dev.now)) n }
    requires entries { AreEntries (objects (view (D.words dev.now)) (inode_count (D.words dev.now))) }
    requires slot { (from : ℕ) × Meets (D.words dev.now) dir from slot }
    requires length { length marks.old.items ≡ inode_count (D.words dev.now) + 1 }
    ensures length { length marks.new.items ≡ inode_count (D.words dev.now) + 1 }
    ensures visits { OnOk result ((at : ℕ) → Meets (D.words dev.now) dir at slot
        → Visits (objects (view (D.words dev.now)) (inode_count (D.words dev.now))) n at marks.old.items visit.old.items
        → Visits (objects (view (D.words dev.now)) (inode_count (D.words dev.now))) n (slot.offset + ENTRY_BYTES) marks.new.items visit.new.items) }
    ensures less { OnOk result (2 * unmarked marks.new.items (inode_count (D.words dev.now) + 1) + length visit.new.items
        ≤ 2 * unmarked marks.old.items (inode_count (D.words dev.now) + 1) + length visit.old.items) }
{
    let child = child_of(dev, slot);
    if has_mark(marks, child) {
        return Ok(());
    }
    set_mark(marks, child);
    match visit.push(child) {
        Ok(()) => Ok(()),
        Err(_) => Err(NoMemory),
    }
}

/// Marks the inodes that directory `n` names, and lists those that had no mark.
fn reach_children<D: Pm>(
    dev: &D,
    n: u64,
    dir: Inode,
    marks: &mut Vec<u8>,
    visit: &mut Vec<u64>,
) -> Result<(), NoMemory>
    requires tables { AreTables (D.words dev.now) }
    requires pages { page_count (D.words dev.now) ≤ MOST_PAGES }
    requires few { inode_count (D.words dev.now) ≤ MOST_INODES }
    requires number { IsNumber (inode_count (D.words dev.now)) n }
    requires dir { dir ≡ inode (view (D.words dev.now)) n }
    requires kind { dir.kind ≡ DIRECTORY_KIND }
    requires placed { ArePlaced (view (D.words dev.now)) (inode_count (D.words dev.now)) }
    requires entries { AreEntries (objects (view (D.words dev.now)) (inode_count (D.words dev.now))) }
    requires length { length marks.old.items ≡ inode_count (D.words dev.now) + 1 }
    ensures length { length marks.new.items ≡ inode_count (D.words dev.now) + 1 }
    ensures visits { OnOk result (Visits (objects (view (D.words dev.now)) (inode_count (D.words dev.now))) n 0 marks.old.items visit.old.items
        → Visits (objects (view (D.words dev.now)) (inode_count (D.words dev.now))) 0 0 marks.new.items visit.new.items) }
    ensures less { OnOk result (2 * unmarked marks.new.items (inode_count (D.words dev.now) + 1) + length visit.new.items
        ≤ 2 * unmarked marks.old.items (inode_count (D.words dev.now) + 1) + length visit.old.items) }
{
    let mut at = 0;
    while let Some(slot) = next_slot(dev, dir, at) {
        reach_child(dev, n, dir, slot, marks, visit)?;
        at = slot.offset + ENTRY_BYTES;
    }
    Ok(())
}

/// The same of any inode, which has no slots where it is no directory.
fn visit_one<D: Pm>(
    dev: &D,
    n: u64,
    marks: &mut Vec<u8>,
    visit: &mut Vec<u64>,
) -> Result<(), NoMemory>
    requires tables { AreTables (D.words dev.now) }
    requires pages { page_count (D.words dev.now) ≤ MOST_PAGES }
    requires few { inode_count (D.words dev.now) ≤ MOST_INODES }
    requires number { IsNumber (inode_count (D.words dev.now)) n }
    requires placed { ArePlaced (view (D.words dev.now)) (inode_count (D.words dev.now)) }
    requires entries { AreEntries (objects (view (D.words dev.now)) (inode_count (D.words dev.now))) }
    requires length { length marks.old.items ≡ inode_count (D.words dev.now) + 1 }
    ensures length { length marks.new.items ≡ inode_count (D.words dev.now) + 1 }
    ensures visits { OnOk result (Visits (objects (view (D.words dev.now)) (inode_count (D.words dev.now))) n 0 marks.old.items visit.old.items
        → Visits (objects (view (D.words dev.now)) (inode_count (D.words dev.now))) 0 0 marks.new.items visit.new.items) }
    ensures less { OnOk result (2 * unmarked marks.new.items (inode_count (D.words dev.now) + 1) + length visit.new.items
        ≤ 2 * unmarked marks.old.items (inode_count (D.words dev.now) + 1) + length visit.old.items) }
{
    let dir = get(dev, n);
    if dir.kind != DIRECTORY_KIND {
        return Ok(());
    }
    reach_children(dev, n, dir, marks, visit)
}

/// Visits the inodes that are listed, and all that are reached from them.
fn reach_all<D: Pm>(dev: &D, marks: &mut Vec<u8>, visit: &mut Vec<u64>) -> Result<(), NoMemory>
    requires tables { AreTables (D.words dev.now) }
    requires pages { page_count (D.words dev.now) ≤ MOST_PAGES }
    requires least { 1 ≤ inode_count (D.words dev.now) }
    requires few { inode_count (D.words dev.now) ≤ MOST_INODES }
    requires placed { ArePlaced (view (D.words dev.now)) (inode_count (D.words dev.now)) }
    requires entries { AreEntries (objects (view (D.words dev.now)) (inode_count (D.words dev.now))) }
    requires length { length marks.old.items ≡ inode_count (D.words dev.now) + 1 }
    requires start { Visits (objects (view (D.words dev.now)) (inode_count (D.words dev.now))) 0 0 marks.old.items visit.old.items }
    ensures length { length marks.new.items ≡ inode_count (D.words dev.now) + 1 }
    ensures visits { OnOk result (Visits (objects (view (D.words dev.now)) (inode_count (D.words dev.now))) 0 0 marks.new.items []) }
{
    while let Some(n) = visit.pop() {
        visit_one(dev, n, marks, visit)?;
    }
    Ok(())
}

/// Mount rule 20.
pub fn are_reached<D: Pm>(alloc: Global, dev: &D) -> Result<bool, NoMemory>
    requires tables { AreTables (D.words dev.now) }
    requires pages { page_count (D.words dev.now) ≤ MOST_PAGES }
    requires least { 1 ≤ inode_count (D.words dev.now) }
    requires few { inode_count (D.words dev.now) ≤ MOST_INODES }
    requires placed { ArePlaced (view (D.words dev.now)) (inode_count (D.words dev.now)) }
    requires entries { AreEntries (objects (view (D.words dev.now)) (inode_count (D.words dev.now))) }
    ensures { IfOk result (λ ok. IsTrue ok ↔ AreReached (objects (view (D.words dev.now)) (inode_count (D.words dev.now)))) }
{
    let mut marks = no_marks(alloc, dev.load(3) + 1)?;
    let mut visit = Vec::new(alloc);
    set_mark(&mut marks, ROOT);
    match visit.push(ROOT) {
        Ok(()) => {}
        Err(_) => return Err(NoMemory),
    }
    reach_all(dev, &mut marks, &mut visit)?;
    Ok(are_marked(dev, ROOT, &marks))
}
