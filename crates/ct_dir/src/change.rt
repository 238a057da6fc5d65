// Slots that are changed through a draft.
ghost use Rattle.std.specs.Prelude.{◌≡◌, ◌≢◌, ℕ, ◌+◌, ◌/◌, ◌%◌, ◌<◌, ◌≤◌, ◌++◌, true, OnOk};
ghost use Rattle.ct_base.specs.Causes.{HasCause};
ghost use Rattle.ct_base.specs.Inode.{part_bytes};
ghost use Rattle.ct_base.specs.Path.{is_name};
ghost use Rattle.ct_base.specs.Rules.{HasRoom, IsPlaced};
ghost use Rattle.ct_base.specs.Slots.{IsSlot};
ghost use Rattle.ct_base.specs.Walk.{AreTables, page_at};
ghost use Rattle.ct_base.specs.Words.{Rewrites, pairs_to, place_at};
ghost use Rattle.ct_dir.specs.Directory.{dir_of};
ghost use Rattle.ct_dir.specs.Packed.{empty_words, slot_words};
ghost use Rattle.ct_record.specs.Seen.{Drafts, count_of, drafted, faults_under, pairs_of, words_under};
ghost use Rattle.ct_words.specs.Drafted.{MapsAlike, PutFirst};

use crate::names::{SLOT_WORDS, slot_words};
use ct_base::{
    ENTRY_BYTES, ENTRY_WORDS, Inode, MOST_INODES, MOST_LONG_PAIRS, PAGE_BYTES, SLOT_SPAN,
};
use ct_pm::{Pm, PmFault};
use ct_record::Draft;
use ct_words::{put_changed, put_words};

/// Drafts the slot of a name and the inode that it names: a pair for each of its 32 words. Its page is there.
///
/// After an error the draft has some of the pairs, and is to be abandoned.
///
/// # Errors
///
/// `PmFault` where the device failed.
pub fn set<D: Pm>(
    draft: &mut Draft<D>,
    dir: Inode,
    offset: u64,
    inode: u64,
    name: &[u8],
) -> Result<(), PmFault>
    requires tables { AreTables (words_under draft.old) }
    requires placed { HasRoom dir }
    requires aligned { offset % ENTRY_BYTES ≡ 0 }
    requires inside { offset + ENTRY_BYTES ≤ part_bytes dir.level }
    requires inode { inode ≤ MOST_INODES }
    requires name { is_name name.now ≡ true }
    requires there { page_at (words_under draft.old) 4 ((dir.base + offset) / PAGE_BYTES) ≢ 0 }
    requires room { count_of draft.old + ENTRY_WORDS ≤ MOST_LONG_PAIRS }

    ensures added { OnOk result (pairs_of draft.new
        ≡ pairs_to (place_at (words_under draft.old) (dir.base + offset)) (slot_words inode name.now) ENTRY_WORDS ++ pairs_of draft.old) }
    ensures count { OnOk result (count_of draft.new ≡ count_of draft.old + ENTRY_WORDS) }

    // Where the pairs so far left the tables and the pages of the root slot, the slot is the new one, and all other words stay.
    ensures rewrites { OnOk result (MapsAlike (dir.base / SLOT_SPAN) (words_under draft.old) (drafted draft.old)
        → Rewrites (drafted draft.old) (drafted draft.new) (dir.base + offset) (slot_words inode name.now)) }
    ensures maps { OnOk result (MapsAlike (dir.base / SLOT_SPAN) (words_under draft.old) (drafted draft.old)
        → (slot : ℕ) → MapsAlike slot (words_under draft.old) (drafted draft.old)
        → MapsAlike slot (words_under draft.new) (drafted draft.new)) }

    ensures drafts { Drafts draft.old draft.new }
    ensures cause { HasCause (faults_under draft.old) (faults_under draft.new) result }
{
    let words = slot_words(inode, name);
    put_words(draft, dir.base + offset, &words)?;
    Ok(())
}

/// As [`set`], with a pair for the first word of the slot and one for each other word that changes. The slot is used or not.
///
/// After an error the draft has some of the pairs, and is to be abandoned.
///
/// # Errors
///
/// `PmFault` where the device failed.
pub fn set_changed<D: Pm>(
    draft: &mut Draft<D>,
    dir: Inode,
    offset: u64,
    inode: u64,
    name: &[u8],
) -> Result<(), PmFault>
    requires tables { AreTables (words_under draft.old) }
    requires placed { HasRoom dir }
    requires aligned { offset % ENTRY_BYTES ≡ 0 }
    requires inside { offset + ENTRY_BYTES ≤ part_bytes dir.level }
    requires inode { inode ≤ MOST_INODES }
    requires name { is_name name.now ≡ true }
    requires there { page_at (words_under draft.old) 4 ((dir.base + offset) / PAGE_BYTES) ≢ 0 }
    requires room { count_of draft.old + ENTRY_WORDS ≤ MOST_LONG_PAIRS }

    ensures puts { OnOk result (PutFirst (place_at (words_under draft.old) (dir.base + offset)) (slot_words inode name.now) ENTRY_WORDS
        (words_under draft.old) (pairs_of draft.old) (pairs_of draft.new)) }
    ensures some { OnOk result (count_of draft.old < count_of draft.new) }
    ensures few { OnOk result (count_of draft.new ≤ count_of draft.old + ENTRY_WORDS) }

    // Where the pairs so far left the tables and the pages of the root slot, the slot is the new one, and all other words stay.
    ensures rewrites { OnOk result (MapsAlike (dir.base / SLOT_SPAN) (words_under draft.old) (drafted draft.old)
        → Rewrites (drafted draft.old) (drafted draft.new) (dir.base + offset) (slot_words inode name.now)) }
    ensures maps { OnOk result (MapsAlike (dir.base / SLOT_SPAN) (words_under draft.old) (drafted draft.old)
        → (slot : ℕ) → MapsAlike slot (words_under draft.old) (drafted draft.old)
        → MapsAlike slot (words_under draft.new) (drafted draft.new)) }

    ensures drafts { Drafts draft.old draft.new }
    ensures cause { HasCause (faults_under draft.old) (faults_under draft.new) result }
{
    let words = slot_words(inode, name);
    put_changed(draft, dir.base + offset, &words)?;
    Ok(())
}

/// Drafts that a slot that is used becomes empty: a pair for each of its 32 words.
///
/// After an error the draft has some of the pairs, and is to be abandoned.
///
/// # Errors
///
/// `PmFault` where the device failed.
pub fn clear<D: Pm>(draft: &mut Draft<D>, dir: Inode, offset: u64) -> Result<(), PmFault>
    requires tables { AreTables (words_under draft.old) }
    requires placed { IsPlaced dir }
    requires used { IsSlot (dir_of (words_under draft.old) dir) offset }
    requires room { count_of draft.old + ENTRY_WORDS ≤ MOST_LONG_PAIRS }

    ensures added { OnOk result (pairs_of draft.new
        ≡ pairs_to (place_at (words_under draft.old) (dir.base + offset)) empty_words ENTRY_WORDS ++ pairs_of draft.old) }
    ensures count { OnOk result (count_of draft.new ≡ count_of draft.old + ENTRY_WORDS) }

    // Where the pairs so far left the tables and the pages of the root slot, the slot is empty, and all other words stay.
    ensures rewrites { OnOk result (MapsAlike (dir.base / SLOT_SPAN) (words_under draft.old) (drafted draft.old)
        → Rewrites (drafted draft.old) (drafted draft.new) (dir.base + offset) empty_words) }
    ensures maps { OnOk result (MapsAlike (dir.base / SLOT_SPAN) (words_under draft.old) (drafted draft.old)
        → (slot : ℕ) → MapsAlike slot (words_under draft.old) (drafted draft.old)
        → MapsAlike slot (words_under draft.new) (drafted draft.new)) }

    ensures drafts { Drafts draft.old draft.new }
    ensures cause { HasCause (faults_under draft.old) (faults_under draft.new) result }
{
    let words = [0; SLOT_WORDS];
    put_words(draft, dir.base + offset, &words)?;
    Ok(())
}
