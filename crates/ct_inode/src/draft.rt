// Inodes that are changed through a draft.
ghost use Rattle.std.specs.Prelude.{◌≡◌, ◌≢◌, ◌⊎◌, ℕ, ◌+◌, ◌*◌, ◌/◌, ◌<◌, ◌≤◌, ◌++◌, OnOk};
ghost use Rattle.ct_base.specs.Causes.{HasCause};
ghost use Rattle.ct_base.specs.Inode.{inode as inode_at};
ghost use Rattle.ct_base.specs.View.{view};
ghost use Rattle.ct_base.specs.Walk.{AreTables, page_at};
ghost use Rattle.ct_base.specs.Words.{Rewrites, pairs_to, place_at};
ghost use Rattle.ct_inode.specs.Drafted.{inode_words};
ghost use Rattle.ct_record.specs.Seen.{Drafts, count_of, drafted, faults_under, pairs_of, words_under};
ghost use Rattle.ct_words.specs.Drafted.{MapsAlike};

use crate::read::place;
use ct_base::{INODE_BYTES, Inode, MOST_INODES, MOST_LONG_PAIRS, PAGE_BYTES};
use ct_pm::{Pm, PmFault};
use ct_record::Draft;
use ct_words::put_words;

/// Drafts inode `n`: a pair for each of its eight words. Its page is there.
///
/// After an error the draft has some of the pairs, and is to be abandoned.
///
/// # Errors
///
/// `PmFault` where the device failed.
pub fn put<D: Pm>(draft: &mut Draft<D>, n: u64, inode: Inode) -> Result<(), PmFault>
    requires tables { AreTables (words_under draft.old) }
    requires from { 1 ≤ n }
    requires to { n ≤ MOST_INODES }
    requires there { page_at (words_under draft.old) 4 (INODE_BYTES * n / PAGE_BYTES) ≢ 0 }
    requires room { count_of draft.old + 8 ≤ MOST_LONG_PAIRS }

    ensures added { OnOk result (pairs_of draft.new ≡ pairs_to (place_at (words_under draft.old) (INODE_BYTES * n)) (inode_words inode) 8 ++ pairs_of draft.old) }
    ensures count { OnOk result (count_of draft.new ≡ count_of draft.old + 8) }

    // Where the pairs so far left the tables and the pages of root slot 0, the inode is the new one, and all other bytes stay.
    ensures rewrites { OnOk result (MapsAlike 0 (words_under draft.old) (drafted draft.old)
        → Rewrites (drafted draft.old) (drafted draft.new) (INODE_BYTES * n) (inode_words inode)) }
    ensures is { OnOk result (MapsAlike 0 (words_under draft.old) (drafted draft.old) → inode_at (view (drafted draft.new)) n ≡ inode) }
    ensures others { OnOk result (MapsAlike 0 (words_under draft.old) (drafted draft.old)
        → (v : ℕ) → (v < INODE_BYTES * n) ⊎ (INODE_BYTES * n + INODE_BYTES ≤ v) → view (drafted draft.new) v ≡ view (drafted draft.old) v) }
    ensures maps { OnOk result (MapsAlike 0 (words_under draft.old) (drafted draft.old)
        → (slot : ℕ) → MapsAlike slot (words_under draft.old) (drafted draft.old)
        → MapsAlike slot (words_under draft.new) (drafted draft.new)) }

    ensures drafts { Drafts draft.old draft.new }
    ensures cause { HasCause (faults_under draft.old) (faults_under draft.new) result }
{
    let words = [inode.kind, inode.size, inode.base, inode.level, 0, 0, 0, 0];
    put_words(draft, place(n).get(), &words)?;
    Ok(())
}
