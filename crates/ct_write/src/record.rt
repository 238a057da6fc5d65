// The record of a write.
ghost use Rattle.std.specs.Prelude.{◌≡◌, ◌≢◌, ◌⊎◌, ℕ, ◌+◌, ◌-◌, ◌*◌, ◌/◌, ◌<◌, ◌≤◌, [], OnOk};
ghost use Rattle.ct_base.specs.Causes.{HasCause};
ghost use Rattle.ct_base.specs.Settled.{IsShut, Named};
ghost use Rattle.ct_base.specs.Walk.{page_at, AreTables};
ghost use Rattle.ct_words.specs.Shown.{shown_word};
ghost use Rattle.ct_commit.specs.Closed.{IsStateOr};
ghost use Rattle.ct_commit.specs.Made.{Spares};
ghost use Rattle.ct_pm.specs.Device.{NothingPending};
ghost use Rattle.ct_pm.specs.Phase.{Phase};
ghost use Rattle.ct_record.specs.Seen.{Drafts, count_of, device_behind, drafted, faults_under, pairs_of, words_under};
ghost use Rattle.ct_words.specs.Drafted.{MapsAlike};
ghost use Rattle.ct_write.specs.Recorded.{CanRecord, IsBare, Recorded, Sized};

use ct_base::{INODE_BYTES, MOST_CALL_PAIRS, MOST_INODES, MOST_LONG_PAIRS, PAGE_BYTES};
use ct_inode::place;
use ct_pm::{Pm, PmFault};
use ct_record::{Broken, Draft, Idle, conclude};
use ct_swap::pswap;
use ct_words::put_words;

// Drafts the size of an inode, where it becomes another.
pub fn put_size<D: Pm>(draft: &mut Draft<D>, inode: u64, was: u64, size: u64) -> Result<(), PmFault>
    requires tables { AreTables (words_under draft.old) }
    requires maps { MapsAlike 0 (words_under draft.old) (drafted draft.old) }
    requires to { inode ≤ MOST_INODES }
    requires there { page_at (words_under draft.old) 4 (INODE_BYTES * inode / PAGE_BYTES) ≢ 0 }
    requires was { shown_word (drafted draft.old) (INODE_BYTES * inode + 8) ≡ was }
    requires room { count_of draft.old ≤ MOST_LONG_PAIRS - 1 }
    ensures sized { OnOk result (Sized (drafted draft.old) (drafted draft.new) inode size) }
    ensures bare { OnOk result ((w : ℕ) → Named (pairs_of draft.new) w → Named (pairs_of draft.old) w ⊎ IsBare (words_under draft.old) w) }
    ensures more { OnOk result (count_of draft.old ≤ count_of draft.new) }
    ensures some { OnOk result (size ≢ was → 0 < count_of draft.new) }
    ensures count { OnOk result (count_of draft.new ≤ count_of draft.old + 1) }
    ensures drafts { Drafts draft.old draft.new }
    ensures cause { HasCause (faults_under draft.old) (faults_under draft.new) result }
{
    if size == was {
        return Ok(());
    }
    let words = [size];
    put_words(draft, place(inode).get() + 8, &words)?;
    Ok(())
}

// Drafts the whole record.
fn draft_write<D: Pm>(
    draft: &mut Draft<D>,
    inode: u64,
    a: u64,
    b: u64,
    n: u64,
    was: u64,
    size: u64,
) -> Result<(), PmFault>
    requires tables { AreTables (words_under draft.old) }
    requires can { CanRecord (words_under draft.old) inode a b n was }
    requires none { pairs_of draft.old ≡ [] }
    requires count { count_of draft.old ≡ 0 }
    ensures recorded { OnOk result (Recorded (words_under draft.old) (drafted draft.new) inode a b n size) }
    ensures bare { OnOk result ((w : ℕ) → Named (pairs_of draft.new) w → IsBare (words_under draft.old) w) }
    ensures some { OnOk result (0 < count_of draft.new) }
    ensures few { OnOk result (count_of draft.new ≤ MOST_CALL_PAIRS) }
    ensures drafts { Drafts draft.old draft.new }
    ensures cause { HasCause (faults_under draft.old) (faults_under draft.new) result }
{
    pswap(draft, a, b, n)?;
    put_size(draft, inode, was, size)?;
    Ok(())
}

// The record by itself: the pages change places, and the size of the inode becomes another.
pub fn write_now<D: Pm>(
    dev: D,
    inode: u64,
    a: u64,
    b: u64,
    n: u64,
    was: u64,
    size: u64,
) -> Result<D, Broken<D>>
    requires tables { AreTables (D.words dev) }
    requires shut { IsShut (D.words dev) }
    requires settled { NothingPending (D.told dev) }
    requires can { CanRecord (D.words dev) inode a b n was }
    requires spares { Spares (D.words dev) (λ new. Recorded (D.words dev) new inode a b n size) (IsBare (D.words dev)) }
    ensures recorded { OnOk result (Recorded (D.words dev) (D.words (device_behind result)) inode a b n size) }
    ensures shut { OnOk result (IsShut (D.words (device_behind result))) }
    ensures settled { OnOk result (NothingPending (D.told (device_behind result))) }

    // A crash at any moment settles to the state before the record or after it.
    ensures phase { Phase (IsStateOr (D.words dev) (λ new. Recorded (D.words dev) new inode a b n size)) MOST_CALL_PAIRS (D.told dev) (D.told (device_behind result)) (D.words (device_behind result)) }
    ensures cause { HasCause (D.faults dev) (D.faults (device_behind result)) result }
{
    let mut draft = Draft::begin(Idle::of(dev));
    let drafted = draft_write(&mut draft, inode, a, b, n, was, size);
    conclude(draft, drafted)
}
