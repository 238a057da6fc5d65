// The pairs of a rename.
ghost use Rattle.std.specs.Prelude.{◌≡◌, ◌≢◌, ◌⊎◌, ℕ, ◌+◌, ◌*◌, ◌/◌, ◌%◌, ◌<◌, ◌≤◌, [], true, OnOk, slice_index};
ghost use Rattle.ct_base.specs.Causes.{HasCause};
ghost use Rattle.ct_base.specs.Inode.{inode as inode_at, part_bytes};
ghost use Rattle.ct_base.specs.Path.{is_name};
ghost use Rattle.ct_base.specs.Rules.{HasRoom, IsPlaced};
ghost use Rattle.ct_base.specs.Settled.{Named};
ghost use Rattle.ct_base.specs.Slots.{IsSlot};
ghost use Rattle.ct_base.specs.View.{view};
ghost use Rattle.ct_base.specs.Walk.{AreTables, page_at};
ghost use Rattle.ct_cut.specs.GivenUp.{CanGiveUp};
ghost use Rattle.ct_dir.specs.Directory.{dir_of};
ghost use Rattle.ct_remove.specs.Asked.{IsAsked};
ghost use Rattle.ct_record.specs.Seen.{Drafts, count_of, drafted, faults_under, pairs_of, words_under};
ghost use Rattle.ct_rename.specs.Moves.{CanMove, IsLinkWord, IsMoveWord, IsReplaceWord, MovesEntry, Relinks, Replaces};

use ct_base::{
    ENTRY_BYTES, ENTRY_WORDS, Inode, MOST_INODES, MOST_LONG_PAIRS, NO_PARTITION, PAGE_BYTES,
};
use ct_dir::{clear, set, set_changed};
use ct_enter::raise_size;
use ct_find::{Entry, Spot};
use ct_pm::{Pm, PmFault};
use ct_record::Draft;
use ct_remove::draft_removal;

/// The most pairs of a move: the words of two slots, and the size of the directory.
pub const MOST_MOVE_PAIRS: u64 = 65;

/// The most pairs where an object is replaced: the words of two slots, and what the removal of an object takes.
pub const MOST_RENAME_PAIRS: u64 = 242;

// Drafts that a slot becomes empty, and that another then has an entry. Where both are one, the words that change are
// drafted and no others.
fn relink<D: Pm>(
    draft: &mut Draft<D>,
    from: Inode,
    offset: u64,
    to: Inode,
    at: u64,
    number: u64,
    name: &[u8],
) -> Result<(), PmFault>
    requires tables { AreTables (words_under draft.old) }
    requires after { AreTables (drafted draft.old) }
    requires placed { IsPlaced from }
    requires used { IsSlot (dir_of (words_under draft.old) from) offset }
    requires to_room { HasRoom to }
    requires aligned { at % ENTRY_BYTES ≡ 0 }
    requires inside { at + ENTRY_BYTES ≤ part_bytes to.level }
    requires number { number ≤ MOST_INODES }
    requires name { is_name name.now ≡ true }
    requires there { page_at (words_under draft.old) 4 ((to.base + at) / PAGE_BYTES) ≢ 0 }
    requires few { count_of draft.old + 2 * ENTRY_WORDS ≤ MOST_LONG_PAIRS }
    // The pages of both are where they were before the pairs so far.
    requires from_page { page_at (drafted draft.old) 4 ((from.base + offset) / PAGE_BYTES) ≡ page_at (words_under draft.old) 4 ((from.base + offset) / PAGE_BYTES) }
    requires to_page { page_at (drafted draft.old) 4 ((to.base + at) / PAGE_BYTES) ≡ page_at (words_under draft.old) 4 ((to.base + at) / PAGE_BYTES) }

    ensures links { OnOk result (Relinks (drafted draft.old) (drafted draft.new) (from.base + offset) (to.base + at) number name.now) }
    ensures named { OnOk result ((word : ℕ) → Named (pairs_of draft.new) word
        → IsLinkWord (words_under draft.old) (from.base + offset) (to.base + at) word ⊎ Named (pairs_of draft.old) word) }
    ensures bytes { OnOk result ((k : ℕ) → slice_index name.now k < 256) }
    ensures some { OnOk result (count_of draft.old < count_of draft.new) }
    ensures few { OnOk result (count_of draft.new ≤ count_of draft.old + 2 * ENTRY_WORDS) }
    ensures drafts { Drafts draft.old draft.new }
    ensures cause { HasCause (faults_under draft.old) (faults_under draft.new) result }
{
    if from.base + offset == to.base + at {
        return set_changed(draft, to, at, number, name);
    }
    clear(draft, from, offset)?;
    set(draft, to, at, number, name)?;
    Ok(())
}

/// Drafts that an entry leaves its slot for an empty one, or gets another name in it.
pub(crate) fn draft_move<D: Pm>(
    draft: &mut Draft<D>,
    from: Inode,
    entry: Entry,
    spot: &Spot<'_>,
) -> Result<(), PmFault>
    requires can { CanMove (words_under draft.old) entry.dir entry.offset spot.now.dir spot.now.offset entry.number spot.now.name.now }
    requires from { inode_at (view (words_under draft.old)) entry.dir ≡ from }
    requires to { inode_at (view (words_under draft.old)) spot.now.dir ≡ spot.now.inode }
    requires there { page_at (words_under draft.old) 4 ((spot.now.inode.base + spot.now.offset) / PAGE_BYTES) ≢ 0 }
    requires begun { pairs_of draft.old ≡ [] }
    requires none { count_of draft.old ≡ 0 }

    ensures moves { OnOk result (MovesEntry (words_under draft.old) (drafted draft.new) entry.dir entry.offset spot.now.dir spot.now.offset entry.number spot.now.name.now) }
    ensures named { OnOk result ((word : ℕ) → Named (pairs_of draft.new) word
        → IsMoveWord (words_under draft.old) (from.base + entry.offset) (spot.now.inode.base + spot.now.offset) spot.now.dir word) }
    ensures bytes { OnOk result ((k : ℕ) → slice_index spot.now.name.now k < 256) }
    ensures some { OnOk result (0 < count_of draft.new) }
    ensures few { OnOk result (count_of draft.new ≤ MOST_MOVE_PAIRS) }
    ensures drafts { Drafts draft.old draft.new }
    ensures cause { HasCause (faults_under draft.old) (faults_under draft.new) result }
{
    relink(
        draft,
        from,
        entry.offset,
        spot.inode,
        spot.offset,
        entry.number,
        spot.name,
    )?;
    raise_size(draft, spot.dir, spot.inode.size, spot.offset + ENTRY_BYTES)
}

/// Drafts that an entry goes with its object, and that another takes its slot.
pub(crate) fn draft_replace<D: Pm>(
    draft: &mut Draft<D>,
    from: Inode,
    entry: Entry,
    to: Inode,
    gone: Entry,
    level: u64,
    name: &[u8],
) -> Result<(), PmFault>
    requires can { CanMove (words_under draft.old) entry.dir entry.offset gone.dir gone.offset entry.number name.now }
    requires asked { IsAsked (words_under draft.old) gone.dir gone.offset gone.number }
    requires from { inode_at (view (words_under draft.old)) entry.dir ≡ from }
    requires to { inode_at (view (words_under draft.old)) gone.dir ≡ to }
    requires level { (inode_at (view (words_under draft.old)) gone.number).level ≡ level }
    requires give { level ≢ NO_PARTITION → CanGiveUp (words_under draft.old) (inode_at (view (words_under draft.old)) gone.number) }
    requires begun { pairs_of draft.old ≡ [] }
    requires none { count_of draft.old ≡ 0 }

    ensures replaces { OnOk result (Replaces (words_under draft.old) (drafted draft.new) entry.dir entry.offset gone.dir gone.offset entry.number gone.number name.now) }
    ensures named { OnOk result ((word : ℕ) → Named (pairs_of draft.new) word
        → IsReplaceWord (words_under draft.old) (from.base + entry.offset) to.base gone.offset gone.number word) }
    ensures bytes { OnOk result ((k : ℕ) → slice_index name.now k < 256) }
    ensures some { OnOk result (0 < count_of draft.new) }
    ensures few { OnOk result (count_of draft.new ≤ MOST_RENAME_PAIRS) }
    ensures drafts { Drafts draft.old draft.new }
    ensures cause { HasCause (faults_under draft.old) (faults_under draft.new) result }
{
    draft_removal(draft, to, gone, level)?;
    relink(
        draft,
        from,
        entry.offset,
        to,
        gone.offset,
        entry.number,
        name,
    )
}
