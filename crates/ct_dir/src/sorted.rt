// The slots of a directory in the byte order of their names, by their offsets. No name is copied: words are compared where
// they stand.
ghost use Rattle.std.specs.Prelude.{◌≡◌, ◌+◌, ◌<◌, ◌≤◌, length, take, IfSome, IfNone};
ghost use Rattle.std.specs.Cmp.Lexicographic.{slice_cmp};
ghost use Rattle.std.specs.List.Sorted.{IsPermutation, IsSortedByKey};
ghost use Rattle.std.specs.Ordering.{nat_cmp};
ghost use Rattle.ct_base.specs.Path.{name_cmp};
ghost use Rattle.ct_base.specs.Slots.{IsSlot, entries as entries_of, slot_name};
ghost use Rattle.ct_base.specs.Walk.{AreTables};
ghost use Rattle.ct_dir.specs.Directory.{IsReadable, dir_of};
ghost use Rattle.ct_dir.specs.Sorting.{AreOffsets, AreSorted, name_key, name_word, slot_place};

use crate::slots::Slots;
use ct_base::{ENTRY_BYTES, ENTRY_WORDS, Inode, PAGE_BYTES, PAGE_WORDS, Vaddr};
use ct_pm::Pm;
use ct_walk::walk;
use std::cmp::Ordering;

/// The device word of the slot at an offset of a directory; `None` exactly where its page is absent.
fn place_of_slot<D: Pm>(dev: &D, dir: Inode, offset: u64) -> Option<u64>
    requires tables { AreTables (D.words dev.now) }
    ensures exact { result ≡ slot_place (D.words dev.now) dir offset }
    ensures inside { IfSome result (λ place. place + ENTRY_WORDS ≤ length (D.words dev.now)) }
{
    let v = match Vaddr::new(dir.base.saturating_add(offset)) {
        Some(v) => v,
        None => return None,
    };
    let page = match walk(dev, v) {
        Some(page) => page.number(),
        None => return None,
    };
    Some(page * PAGE_WORDS + offset % PAGE_BYTES / ENTRY_BYTES * ENTRY_WORDS)
}

/// A word by which the name in a slot is ordered: one of those that hold it, its first byte highest, and last its length.
fn word_of_name<D: Pm>(dev: &D, slot: Option<u64>, k: u64) -> u64
    requires inside { IfSome slot (λ place. place + ENTRY_WORDS ≤ length (D.words dev.now)) }
    requires word { k < ENTRY_WORDS }
    ensures { result ≡ name_word (D.words dev.now) slot k }
{
    match slot {
        None => 0,
        Some(place) => {
            if k == ENTRY_WORDS - 1 {
                return dev.load(place) / (1 << 32);
            }
            dev.load(place + 1 + k).swap_bytes()
        }
    }
}

/// The order of the names in the slots at two offsets of a directory. It takes no memory, and copies no name.
///
/// It is an order of any two offsets, so that a sort may call it; of slots that are used it is the byte order of their names.
pub fn compare_at<D: Pm>(dev: &D, dir: Inode, a: u64, b: u64) -> Ordering
    requires tables { AreTables (D.words dev.now) }
    ensures keys { result ≡ slice_cmp nat_cmp (name_key (D.words dev.now) dir a) (name_key (D.words dev.now) dir b) }
    ensures names { IsReadable (D.words dev.now) dir → IsSlot (dir_of (D.words dev.now) dir) a → IsSlot (dir_of (D.words dev.now) dir) b
        → result ≡ name_cmp (slot_name (dir_of (D.words dev.now) dir) a) (slot_name (dir_of (D.words dev.now) dir) b) }
{
    let x = place_of_slot(dev, dir, a);
    let y = place_of_slot(dev, dir, b);
    for k in 0..ENTRY_WORDS {
        match word_of_name(dev, x, k).cmp(&word_of_name(dev, y, k)) {
            Ordering::Equal => {}
            order => return order,
        }
    }
    Ordering::Equal
}

/// Puts the offsets of the slots that are used at the front of a buffer, by rising offset, and answers how many there are;
/// `None` where they are more than fit.
fn put_offsets<D: Pm>(dev: &D, dir: Inode, offsets: &mut [u64]) -> Option<usize>
    requires { IsReadable (D.words dev.now) dir }
    ensures size { length offsets.new ≡ length offsets.old }
    ensures offsets { IfSome result (λ count. AreOffsets (dir_of (D.words dev.now) dir) (take count offsets.new)) }
    ensures count { IfSome result (λ count. count ≡ length (entries_of (dir_of (D.words dev.now) dir))) }
    ensures room { IfSome result (λ count. count ≤ length offsets.new) }
    ensures more { IfNone result (length offsets.old < length (entries_of (dir_of (D.words dev.now) dir))) }
{
    let mut slots = Slots::of(dir);
    let mut count: usize = 0;
    while let Some(slot) = slots.next(dev) {
        if count == offsets.len() {
            return None;
        }
        offsets[count] = slot.offset;
        count += 1;
    }
    Some(count)
}

/// Puts offsets in the order of the names in their slots.
fn sort_offsets<D: Pm>(dev: &D, dir: Inode, offsets: &mut [u64])
    requires { AreTables (D.words dev.now) }
    ensures moved { IsPermutation offsets.old offsets.new }
    ensures sorted { IsSortedByKey (name_key (D.words dev.now) dir) (slice_cmp nat_cmp) offsets.new }
{
    let order = |a: &u64, b: &u64| -> Ordering
        requires { AreTables (D.words dev.now) }
        ensures { result ≡ slice_cmp nat_cmp (name_key (D.words dev.entry.now) dir a.now) (name_key (D.words dev.entry.now) dir b.now) }
    { compare_at(dev, dir, *a, *b) };
    offsets.sort_unstable_by(order);
}

/// Puts the offsets of the slots that are used at the front of a buffer, in the byte order of their names, and answers how many
/// there are; `None` where they are more than fit.
///
/// It meets each slot once. Its time grows with the names times the logarithm of their number.
pub fn sorted_offsets<D: Pm>(dev: &D, dir: Inode, offsets: &mut [u64]) -> Option<usize>
    requires { IsReadable (D.words dev.now) dir }
    ensures sorted { IfSome result (λ count. AreSorted (dir_of (D.words dev.now) dir) (take count offsets.new)) }
    ensures count { IfSome result (λ count. count ≡ length (entries_of (dir_of (D.words dev.now) dir))) }
    ensures room { IfSome result (λ count. count ≤ length offsets.new) }
    ensures more { IfNone result (length offsets.old < length (entries_of (dir_of (D.words dev.now) dir))) }
{
    let count = match put_offsets(dev, dir, offsets) {
        Some(count) => count,
        None => return None,
    };
    sort_offsets(dev, dir, &mut offsets[..count]);
    Some(count)
}
