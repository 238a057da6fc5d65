// The pairs of a removal.
ghost use Rattle.std.specs.Prelude.{◌≡◌, ◌≢◌, ℕ, ◌+◌, ◌*◌, ◌/◌, ◌<◌, ◌≤◌, [], OnOk};
ghost use Rattle.ct_base.specs.Causes.{HasCause};
ghost use Rattle.ct_base.specs.Inode.{inode as inode_at};
ghost use Rattle.ct_base.specs.Rules.{IsPlaced};
ghost use Rattle.ct_base.specs.Settled.{Named};
ghost use Rattle.ct_base.specs.Slots.{IsSlot};
ghost use Rattle.ct_base.specs.View.{view};
ghost use Rattle.ct_base.specs.Walk.{page_at, AreTables};
ghost use Rattle.ct_cut.specs.GivenUp.{CanGiveUp};
ghost use Rattle.ct_dir.specs.Directory.{dir_of};
ghost use Rattle.ct_record.specs.Seen.{Drafts, count_of, drafted, faults_under, pairs_of, words_under};
ghost use Rattle.ct_words.specs.Drafted.{MapsAlike};
ghost use Rattle.ct_remove.specs.Asked.{IsAsked};
ghost use Rattle.ct_remove.specs.Erased.{Erases, IsErased, IsGone, Removes};

use ct_base::{ENTRY_WORDS, INODE_BYTES, Inode, MOST_INODES, NO_PARTITION, PAGE_BYTES};
use ct_cut::give_up;
use ct_dir::clear;
use ct_find::Entry;
use ct_inode::put;
use ct_pm::{Pm, PmFault};
use ct_record::Draft;

/// The most pairs of a removal: the words of a slot and of an inode, ten of the headers, and two for each of at most 64 pieces.
pub const MOST_REMOVAL_PAIRS: u64 = 178;

/// The inode of no object.
const FREE: Inode = Inode {
    kind: 0,
    size: 0,
    base: 0,
    level: 0,
};

// Drafts that a slot of a directory becomes empty, and an inode free.
fn erase<D: Pm>(draft: &mut Draft<D>, dir: Inode, offset: u64, number: u64) -> Result<(), PmFault>
    requires tables { AreTables (words_under draft.old) }
    requires placed { IsPlaced dir }
    requires used { IsSlot (dir_of (words_under draft.old) dir) offset }
    requires from { 1 ≤ number }
    requires to { number ≤ MOST_INODES }
    requires there { page_at (words_under draft.old) 4 (INODE_BYTES * number / PAGE_BYTES) ≢ 0 }
    requires begun { pairs_of draft.old ≡ [] }
    requires none { count_of draft.old ≡ 0 }

    ensures erases { OnOk result (Erases (words_under draft.old) (drafted draft.new) dir.base offset number) }
    ensures maps { OnOk result ((slot : ℕ) → MapsAlike slot (words_under draft.new) (drafted draft.new)) }
    ensures named { OnOk result ((word : ℕ) → Named (pairs_of draft.new) word
        → IsErased (words_under draft.old) dir.base offset number word) }
    ensures count { OnOk result (count_of draft.new ≡ ENTRY_WORDS + 8) }
    ensures drafts { Drafts draft.old draft.new }
    ensures cause { HasCause (faults_under draft.old) (faults_under draft.new) result }
{
    clear(draft, dir, offset)?;
    put(draft, number, FREE)?;
    Ok(())
}

/// Drafts that an entry goes with its object: the slot is emptied, the inode is freed, and the partition is given up where
/// the object has one.
pub fn draft_removal<D: Pm>(
    draft: &mut Draft<D>,
    dir: Inode,
    entry: Entry,
    level: u64,
) -> Result<(), PmFault>
    requires asked { IsAsked (words_under draft.old) entry.dir entry.offset entry.number }
    requires dir { inode_at (view (words_under draft.old)) entry.dir ≡ dir }
    requires level { (inode_at (view (words_under draft.old)) entry.number).level ≡ level }
    requires can { level ≢ NO_PARTITION → CanGiveUp (words_under draft.old) (inode_at (view (words_under draft.old)) entry.number) }
    requires begun { pairs_of draft.old ≡ [] }
    requires none { count_of draft.old ≡ 0 }

    ensures removes { OnOk result (Removes (words_under draft.old) (drafted draft.new) entry.dir entry.offset entry.number) }
    ensures named { OnOk result ((word : ℕ) → Named (pairs_of draft.new) word
        → IsGone (words_under draft.old) dir.base entry.offset entry.number word) }
    ensures some { OnOk result (0 < count_of draft.new) }
    ensures few { OnOk result (count_of draft.new ≤ MOST_REMOVAL_PAIRS) }
    ensures drafts { Drafts draft.old draft.new }
    ensures cause { HasCause (faults_under draft.old) (faults_under draft.new) result }
{
    erase(draft, dir, entry.offset, entry.number)?;
    if level == NO_PARTITION {
        return Ok(());
    }
    give_up(draft, entry.number)
}
