// The record of a cut to nothing.
ghost use Rattle.std.specs.Prelude.{◌≡◌, ◌≢◌, ℕ, ◌*◌, ◌/◌, ◌<◌, ◌≤◌, [], OnOk};
ghost use Rattle.ct_base.specs.Causes.{HasCause};
ghost use Rattle.ct_base.specs.Inode.{inode as inode_at};
ghost use Rattle.ct_base.specs.Settled.{IsShut, Named};
ghost use Rattle.ct_base.specs.View.{view};
ghost use Rattle.ct_base.specs.Walk.{page_at, AreTables};
ghost use Rattle.ct_cut.specs.Emptied.{Emptied};
ghost use Rattle.ct_cut.specs.GivenUp.{CanGiveUp};
ghost use Rattle.ct_commit.specs.Closed.{IsStateOr};
ghost use Rattle.ct_commit.specs.Made.{Spares};
ghost use Rattle.ct_pm.specs.Device.{NothingPending};
ghost use Rattle.ct_pm.specs.Phase.{Phase};
ghost use Rattle.ct_record.specs.Seen.{Drafts, count_of, device_behind, drafted, faults_under, pairs_of, words_under};
ghost use Rattle.ct_write.specs.Recorded.{IsBare};

use crate::draft::give_up;
use ct_base::{INODE_BYTES, MOST_CALL_PAIRS, MOST_INODES, NO_PARTITION, PAGE_BYTES};
use ct_inode::place;
use ct_pm::{Pm, PmFault};
use ct_record::{Broken, Draft, Idle, conclude};
use ct_words::put_words;

// Drafts that a file has no bytes and no partition.
fn draft_empty<D: Pm>(draft: &mut Draft<D>, inode: u64) -> Result<(), PmFault>
    requires tables { AreTables (words_under draft.old) }
    requires from { 1 ≤ inode }
    requires to { inode ≤ MOST_INODES }
    requires there { page_at (words_under draft.old) 4 (INODE_BYTES * inode / PAGE_BYTES) ≢ 0 }
    requires can { CanGiveUp (words_under draft.old) (inode_at (view (words_under draft.old)) inode) }
    requires none { pairs_of draft.old ≡ [] }
    requires count { count_of draft.old ≡ 0 }
    ensures emptied { OnOk result (Emptied (words_under draft.old) (drafted draft.new) inode) }
    ensures bare { OnOk result ((w : ℕ) → Named (pairs_of draft.new) w → IsBare (words_under draft.old) w) }
    ensures some { OnOk result (0 < count_of draft.new) }
    ensures few { OnOk result (count_of draft.new ≤ MOST_CALL_PAIRS) }
    ensures drafts { Drafts draft.old draft.new }
    ensures cause { HasCause (faults_under draft.old) (faults_under draft.new) result }
{
    let words = [0, 0, NO_PARTITION];
    put_words(draft, place(inode).get() + 8, &words)?;
    give_up(draft, inode)?;
    Ok(())
}

// The record by itself.
pub fn empty_now<D: Pm>(dev: D, inode: u64) -> Result<D, Broken<D>>
    requires tables { AreTables (D.words dev) }
    requires shut { IsShut (D.words dev) }
    requires settled { NothingPending (D.told dev) }
    requires from { 1 ≤ inode }
    requires to { inode ≤ MOST_INODES }
    requires there { page_at (D.words dev) 4 (INODE_BYTES * inode / PAGE_BYTES) ≢ 0 }
    requires can { CanGiveUp (D.words dev) (inode_at (view (D.words dev)) inode) }
    requires spares { Spares (D.words dev) (λ new. Emptied (D.words dev) new inode) (IsBare (D.words dev)) }
    ensures emptied { OnOk result (Emptied (D.words dev) (D.words (device_behind result)) inode) }
    ensures shut { OnOk result (IsShut (D.words (device_behind result))) }
    ensures settled { OnOk result (NothingPending (D.told (device_behind result))) }

    // A crash at any moment settles to the state before the record or after it.
    ensures phase { Phase (IsStateOr (D.words dev) (λ new. Emptied (D.words dev) new inode)) MOST_CALL_PAIRS (D.told dev) (D.told (device_behind result)) (D.words (device_behind result)) }
    ensures cause { HasCause (D.faults dev) (D.faults (device_behind result)) result }
{
    let mut draft = Draft::begin(Idle::of(dev));
    let drafted = draft_empty(&mut draft, inode);
    conclude(draft, drafted)
}
