// The record of a new entry.
ghost use Rattle.std.specs.Prelude.{◌≡◌, ◌≢◌, ◌⊎◌, ℕ, ◌+◌, ◌*◌, ◌/◌, ◌<◌, ◌≤◌, [], OnOk, max, slice_index};
ghost use Rattle.ct_base.specs.Causes.{HasCause};
ghost use Rattle.ct_base.specs.Inode.{inode as inode_at};
ghost use Rattle.ct_base.specs.Settled.{Named};
ghost use Rattle.ct_base.specs.View.{view};
ghost use Rattle.ct_base.specs.Walk.{page_at, AreTables};
ghost use Rattle.ct_pm.specs.Device.{MakesOnly, NothingPending};
ghost use Rattle.ct_pm.specs.Phase.{Phase};
ghost use Rattle.ct_record.specs.Record.{InRecord};
ghost use Rattle.ct_record.specs.Seen.{Drafts, count_of, device_behind, drafted, faults_under, pairs_of, words_under};
ghost use Rattle.ct_words.specs.Drafted.{MapsAlike};
ghost use Rattle.ct_tree.specs.Lands.{files};
ghost use Rattle.ct_enter.specs.Landing.{EntersOrNot};
ghost use Rattle.ct_commit.specs.Rest.{IsAtRest};
ghost use Rattle.ct_enter.specs.Entry.{HasEntry, KeepsPart, IsEntryWord, IsFreeInode, IsSizeWord, IsSpot, RaisesSize, WritesEntry};
ghost use Rattle.ct_call.specs.Placed.{HasSlot, empty_inode};
ghost use Rattle.ct_inode.specs.Live.{KeepsLive};

use ct_base::{
    DIRECTORY_KIND, ENTRY_BYTES, FILE_KIND, INODE_BYTES, Inode, MOST_INODES, MOST_LONG_PAIRS,
    NO_PARTITION, PAGE_BYTES,
};
use ct_dir::set;
use ct_find::Spot;
use ct_inode::put;
use ct_pm::{Pm, PmFault};
use ct_record::{Broken, Draft, Idle, conclude};
use ct_words::put_words;

/// The most pairs of an entry: the words of a slot and of an inode, and the size of the directory.
const MOST_ENTRY_PAIRS: u64 = 41;

/// Drafts another size of a directory, where it is greater than the one it has.
pub fn raise_size<D: Pm>(draft: &mut Draft<D>, dir: u64, from: u64, to: u64) -> Result<(), PmFault>
    requires tables { AreTables (words_under draft.old) }
    requires counted { dir ≤ MOST_INODES }
    requires there { page_at (words_under draft.old) 4 (INODE_BYTES * dir / PAGE_BYTES) ≢ 0 }
    requires room { count_of draft.old < MOST_LONG_PAIRS }

    ensures raises { OnOk result (MapsAlike 0 (words_under draft.old) (drafted draft.old)
        → RaisesSize (drafted draft.old) (drafted draft.new) dir from to) }
    ensures maps { OnOk result (MapsAlike 0 (words_under draft.old) (drafted draft.old)
        → (slot : ℕ) → MapsAlike slot (words_under draft.old) (drafted draft.old)
        → MapsAlike slot (words_under draft.new) (drafted draft.new)) }

    ensures named { OnOk result ((word : ℕ) → Named (pairs_of draft.new) word
        → IsSizeWord (words_under draft.old) dir word ⊎ Named (pairs_of draft.old) word) }
    ensures count { OnOk result (count_of draft.new ≤ count_of draft.old + 1) }
    ensures on { OnOk result (count_of draft.old ≤ count_of draft.new) }
    ensures drafts { Drafts draft.old draft.new }
    ensures cause { HasCause (faults_under draft.old) (faults_under draft.new) result }
{
    if to <= from {
        return Ok(());
    }
    put_words(draft, INODE_BYTES * dir + 8, &[to])?;
    Ok(())
}

// Drafts the words of a new entry: its slot, the directory's size, and the inode of an empty object.
fn draft_entry<D: Pm>(
    draft: &mut Draft<D>,
    dir: u64,
    inode: Inode,
    offset: u64,
    name: &[u8],
    number: u64,
    kind: u64,
) -> Result<(), PmFault>
    requires rest { IsAtRest (words_under draft.old) }
    requires spot { IsSpot (words_under draft.old) dir inode offset name.now }
    requires unused { IsFreeInode (words_under draft.old) number }
    requires sort { (kind ≡ FILE_KIND) ⊎ (kind ≡ DIRECTORY_KIND) }
    requires begun { pairs_of draft.old ≡ [] }
    requires none { count_of draft.old ≡ 0 }

    ensures writes { OnOk result (WritesEntry (words_under draft.old) (drafted draft.new)
        dir inode offset name.now number kind) }
    ensures named { OnOk result ((word : ℕ) → Named (pairs_of draft.new) word
        → IsEntryWord (words_under draft.old) dir inode offset number word) }
    ensures bytes { OnOk result ((k : ℕ) → slice_index name.now k < 256) }
    ensures some { OnOk result (0 < count_of draft.new) }
    ensures few { OnOk result (count_of draft.new ≤ MOST_ENTRY_PAIRS) }
    ensures drafts { Drafts draft.old draft.new }
    ensures cause { HasCause (faults_under draft.old) (faults_under draft.new) result }
{
    set(draft, inode, offset, number, name)?;
    raise_size(draft, dir, inode.size, offset + ENTRY_BYTES)?;
    let empty = Inode {
        kind,
        size: 0,
        base: 0,
        level: NO_PARTITION,
    };
    put(draft, number, empty)?;
    Ok(())
}

/// Enters a new object under a name, as one record: its slot, its inode, and the directory's size where it rises.
///
/// The object is an empty file where `kind` is `FILE_KIND`, and an empty directory where it is `DIRECTORY_KIND`. Its inode,
/// `number`, is free and mapped, and so is the slot.
///
/// # Errors
///
/// `Broken` where the device failed. The entry is then to be found whole or not at all once the device settles.
pub(crate) fn enter<D: Pm>(dev: D, spot: &Spot<'_>, number: u64, kind: u64) -> Result<D, Broken<D>>
    requires rest { IsAtRest (D.words dev) }
    requires settled { NothingPending (D.told dev) }
    requires spot { IsSpot (D.words dev) spot.now.dir spot.now.inode spot.now.offset spot.now.name.now }
    requires unused { IsFreeInode (D.words dev) number }
    requires sort { (kind ≡ FILE_KIND) ⊎ (kind ≡ DIRECTORY_KIND) }

    // After Ok the words stand for the tree with the object, and no table changed.
    ensures entry { OnOk result (HasEntry (D.words dev) (D.words (device_behind result)) spot.now.dir spot.now.name.now kind) }
    ensures slot { OnOk result (HasSlot (files (D.words (device_behind result)) spot.now.dir) spot.now.offset number spot.now.name.now) }
    ensures object { OnOk result (inode_at (view (D.words (device_behind result))) number ≡ empty_inode kind) }
    ensures size { OnOk result ((inode_at (view (D.words (device_behind result))) spot.now.dir).size ≡ max spot.now.inode.size (spot.now.offset + ENTRY_BYTES)) }
    ensures part { OnOk result (KeepsPart (D.words dev) (D.words (device_behind result)) spot.now.dir) }
    ensures live { OnOk result (KeepsLive (D.words dev) (D.words (device_behind result))) }
    ensures settled { OnOk result (NothingPending (D.told (device_behind result))) }

    // A crash at any moment lands on the objects without the new one, or on those with it.
    ensures phase { Phase (EntersOrNot (files (D.words dev)) spot.now.dir spot.now.name.now kind) MOST_ENTRY_PAIRS (D.told dev) (D.told (device_behind result)) (D.words (device_behind result)) }

    // Off pages 1 to 32 only words of the slot, of the inode and of the directory's size are stored to.
    ensures made { MakesOnly (λ word value. InRecord word ⊎ IsEntryWord (D.words dev) spot.now.dir spot.now.inode spot.now.offset number word)
        (D.told dev) (D.told (device_behind result)) }
    ensures cause { HasCause (D.faults dev) (D.faults (device_behind result)) result }
{
    let mut draft = Draft::begin(Idle::of(dev));
    let written = draft_entry(
        &mut draft,
        spot.dir,
        spot.inode,
        spot.offset,
        spot.name,
        number,
        kind,
    );
    conclude(draft, written)
}
