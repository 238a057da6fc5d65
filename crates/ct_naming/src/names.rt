// Mount rule 18: two slots of one directory have different names.
ghost use Rattle.std.specs.Prelude.{◌≡◌, ◌↔◌, ℕ, ◌+◌, ◌<◌, ◌≤◌, IfOk, IsTrue};
ghost use Rattle.std.specs.Cmp.Lexicographic.{slice_cmp};
ghost use Rattle.std.specs.List.Sorted.{IsSortedByKey};
ghost use Rattle.std.specs.Ordering.{nat_cmp};
ghost use Rattle.ct_base.specs.Inode.{inode, IsNumber};
ghost use Rattle.ct_base.specs.Objects.{objects};
ghost use Rattle.ct_base.specs.Rules.{AreEntries, AreNamesApart, ArePlaced, IsPlaced};
ghost use Rattle.ct_base.specs.Slots.{IsSlot, slot_name};
ghost use Rattle.ct_base.specs.View.{inode_count, view};
ghost use Rattle.ct_base.specs.Walk.{AreTables, page_count};
ghost use Rattle.ct_dir.specs.Directory.{dir_of};
ghost use Rattle.ct_naming.specs.Slots.{Stands};
ghost use Rattle.ct_naming.specs.Spelling.{AreNeighboursApart, AreSpelled, AreSlotsApart, IsSpelled, key};

use crate::slot::{Slot, next_slot};
use crate::spelled::Spelled;
use ct_base::{DIRECTORY_KIND, ENTRY_BYTES, Inode, MOST_INODES, MOST_PAGES, NoMemory};
use ct_dir::compare_at;
use ct_inode::get;
use ct_pm::Pm;
use std::alloc::Global;
use std::cmp::Ordering;

/// The order of two names of a directory: the words that are kept decide, and where these are the same, all do.
fn compare<D: Pm>(dev: &D, dir: Inode, a: &Spelled, b: &Spelled) -> Ordering
    requires tables { AreTables (D.words dev.now) }
    ensures { result ≡ slice_cmp nat_cmp (key (D.words dev.now) dir a.now) (key (D.words dev.now) dir b.now) }
{
    match a.first.cmp(&b.first) {
        Ordering::Equal => compare_at(dev, dir, a.offset, b.offset),
        order => order,
    }
}

/// Whether two names of a directory have the same words.
fn are_alike<D: Pm>(dev: &D, dir: Inode, a: &Spelled, b: &Spelled) -> bool
    requires tables { AreTables (D.words dev.now) }
    ensures { IsTrue result ↔ key (D.words dev.now) dir a.now ≡ key (D.words dev.now) dir b.now }
{
    compare(dev, dir, a, b).is_eq()
}

/// The name in a slot.
fn spelled<D: Pm>(dev: &D, dir: Inode, slot: Slot) -> Spelled
    requires tables { AreTables (D.words dev.now) }
    requires placed { IsPlaced dir }
    requires stands { Stands (D.words dev.now) (dir_of (D.words dev.now) dir) slot.offset slot.place }
    ensures offset { result.offset ≡ slot.offset }
    ensures spelled { IsSpelled (D.words dev.now) dir result }
{
    Spelled {
        first: dev.load(slot.place + 1).swap_bytes(),
        offset: slot.offset,
    }
}

/// The names in a directory, by rising offset of their slots.
fn names_of<D: Pm>(alloc: Global, dev: &D, dir: Inode) -> Result<Vec<Spelled>, NoMemory>
    requires tables { AreTables (D.words dev.now) }
    requires pages { page_count (D.words dev.now) ≤ MOST_PAGES }
    requires kind { dir.kind ≡ DIRECTORY_KIND }
    requires placed { IsPlaced dir }
    ensures { IfOk result (λ names. AreSpelled (D.words dev.now) dir names.items) }
{
    let mut names = Vec::new(alloc);
    let mut at = 0;
    while let Some(slot) = next_slot(dev, dir, at) {
        match names.push(spelled(dev, dir, slot)) {
            Ok(()) => {}
            Err(_) => return Err(NoMemory),
        }
        at = slot.offset + ENTRY_BYTES;
    }
    Ok(names)
}

/// The names in a directory in the order of their words.
///
/// Its time grows with the names times the logarithm of their number, whatever the names are.
fn sorted_names<D: Pm>(alloc: Global, dev: &D, dir: Inode) -> Result<Vec<Spelled>, NoMemory>
    requires tables { AreTables (D.words dev.now) }
    requires pages { page_count (D.words dev.now) ≤ MOST_PAGES }
    requires kind { dir.kind ≡ DIRECTORY_KIND }
    requires placed { IsPlaced dir }
    ensures names { IfOk result (λ names. AreSpelled (D.words dev.now) dir names.items) }
    ensures sorted { IfOk result (λ names. IsSortedByKey (key (D.words dev.now) dir) (slice_cmp nat_cmp) names.items) }
{
    let mut names = names_of(alloc, dev, dir)?;
    let order = |a: &Spelled, b: &Spelled| -> Ordering
        requires { AreTables (D.words dev.now) }
        ensures { result ≡ slice_cmp nat_cmp (key (D.words dev.entry.now) dir a.now) (key (D.words dev.entry.now) dir b.now) }
    { compare(dev, dir, a, b) };
    names.sort_unstable_by(order);
    Ok(names)
}

/// Whether no two neighbours have the same words.
fn are_neighbours_apart<D: Pm>(dev: &D, dir: Inode, names: &Vec<Spelled>) -> bool
    requires tables { AreTables (D.words dev.now) }
    ensures { IsTrue result ↔ AreNeighboursApart (D.words dev.now) dir names.now.items }
{
    for k in 1..names.len() {
        if are_alike(dev, dir, &names[k - 1], &names[k]) {
            return false;
        }
    }
    true
}

/// Whether the slots of inode `n` have different names.
fn are_slots_apart<D: Pm>(alloc: Global, dev: &D, n: u64) -> Result<bool, NoMemory>
    requires tables { AreTables (D.words dev.now) }
    requires pages { page_count (D.words dev.now) ≤ MOST_PAGES }
    requires few { inode_count (D.words dev.now) ≤ MOST_INODES }
    requires number { IsNumber (inode_count (D.words dev.now)) n }
    requires placed { ArePlaced (view (D.words dev.now)) (inode_count (D.words dev.now)) }
    requires entries { AreEntries (objects (view (D.words dev.now)) (inode_count (D.words dev.now))) }
    ensures { IfOk result (λ ok. IsTrue ok ↔ AreSlotsApart (objects (view (D.words dev.now)) (inode_count (D.words dev.now)) n)) }
{
    let dir = get(dev, n);
    if dir.kind != DIRECTORY_KIND {
        return Ok(true);
    }
    let names = sorted_names(alloc, dev, dir)?;
    Ok(are_neighbours_apart(dev, dir, &names))
}

/// Mount rule 18.
pub fn are_names_apart<D: Pm>(alloc: Global, dev: &D) -> Result<bool, NoMemory>
    requires tables { AreTables (D.words dev.now) }
    requires pages { page_count (D.words dev.now) ≤ MOST_PAGES }
    requires few { inode_count (D.words dev.now) ≤ MOST_INODES }
    requires placed { ArePlaced (view (D.words dev.now)) (inode_count (D.words dev.now)) }
    requires entries { AreEntries (objects (view (D.words dev.now)) (inode_count (D.words dev.now))) }
    ensures { IfOk result (λ ok. IsTrue ok ↔ AreNamesApart (objects (view (D.words dev.now)) (inode_count (D.words dev.now)))) }
{
    for n in 1..dev.load(3) + 1 {
        if !are_slots_apart(alloc, dev, n)? {
            return Ok(false);
        }
    }
    Ok(true)
}
