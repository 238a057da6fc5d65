// The slots of a directory that are used, by rising offset. One look at the tables passes what is absent.
ghost use Rattle.std.specs.Prelude.{◌≡◌, ◌+◌, ◌/◌, ◌%◌, ◌<◌, ◌≤◌, length, IfSome, IfNone};
ghost use Rattle.ct_base.specs.Rules.{HasRoom, IsPlaced};
ghost use Rattle.ct_base.specs.Walk.{AreTables, page_count, word};
ghost use Rattle.ct_dir.specs.Directory.{AreEmpty, dir_of};
ghost use Rattle.ct_dir.specs.Keys.{byte_of};
ghost use Rattle.ct_naming.specs.Slots.{Finds, Meets};

use ct_base::{DIRECTORY_KIND, ENTRY_BYTES, ENTRY_WORDS, Inode, MOST_PAGES, PAGE_BYTES};
use ct_marks::are_zero;
use ct_pm::Pm;
use ct_walk::absent_from;
use ct_words::place_of;

/// A slot that is used.
#[derive(Clone, Copy, Debug)]
pub struct Slot {
    /// Its offset in the directory.
    pub offset: u64,

    /// The device word of its first word.
    pub place: u64,
}

/// What stands at an offset of a directory.
#[derive(Clone, Copy, Debug)]
pub enum Look {
    // A slot that is used, with the device word of its first word.
    Used(u64),

    // None that is used, up to an offset.
    Empty(u64),
}

fn look_at<D: Pm>(dev: &D, dir: Inode, at: u64) -> Look
    requires tables { AreTables (D.words dev.now) }
    requires pages { page_count (D.words dev.now) ≤ MOST_PAGES }
    requires kind { dir.kind ≡ DIRECTORY_KIND }
    requires placed { IsPlaced dir }
    requires aligned { at % ENTRY_BYTES ≡ 0 }
    requires below { at < dir.size }
    ensures { Finds (D.words dev.now) dir at result }
{
    let address = dir.base + at;
    let page = address / PAGE_BYTES;
    let absent = absent_from(
        dev,
        4,
        page,
        (dir.base + dir.size + (PAGE_BYTES - 1)) / PAGE_BYTES,
    );
    if absent > 0 {
        return Look::Empty((page + absent) * PAGE_BYTES - dir.base);
    }
    let place = place_of(dev, address);
    if are_zero(dev, place, place + ENTRY_WORDS) {
        return Look::Empty(at + ENTRY_BYTES);
    }
    Look::Used(place)
}

/// The first slot from an offset on that is used.
pub fn next_slot<D: Pm>(dev: &D, dir: Inode, from: u64) -> Option<Slot>
    requires tables { AreTables (D.words dev.now) }
    requires pages { page_count (D.words dev.now) ≤ MOST_PAGES }
    requires kind { dir.kind ≡ DIRECTORY_KIND }
    requires placed { IsPlaced dir }
    requires aligned { from % ENTRY_BYTES ≡ 0 }
    ensures some { IfSome result (λ slot. Meets (D.words dev.now) dir from slot) }
    ensures none { IfNone result (AreEmpty (dir_of (D.words dev.now) dir) from dir.size) }
{
    let mut at = from;
    while at < dir.size {
        match look_at(dev, dir, at) {
            Look::Used(place) => return Some(Slot { offset: at, place }),
            Look::Empty(next) => at = next,
        }
    }
    None
}

/// A byte of a slot.
pub fn byte_in<D: Pm>(dev: &D, slot: Slot, k: u64) -> u8
    requires inside { slot.place + ENTRY_WORDS ≤ length (D.words dev.now) }
    requires low { k < ENTRY_BYTES }
    ensures { result ≡ byte_of (word (D.words dev.now) (slot.place + k / 8)) (k % 8) }
{
    dev.load(slot.place + k / 8).to_le_bytes()[(k % 8) as usize]
}
