// What is there before the record of a cut: the tables of both sides, and the page on the edge.
ghost use Rattle.std.specs.Prelude.{◌≡◌, ◌≢◌, ℕ, ◌+◌, ◌*◌, ◌/◌, ◌%◌, ◌<◌, ◌≤◌, length, Contains, OnOk};
ghost use Rattle.ct_base.specs.Causes.{HasCause};
ghost use Rattle.ct_base.specs.Inode.{inode as inode_at};
ghost use Rattle.ct_base.specs.Plan.{give_up_wants};
ghost use Rattle.ct_base.specs.Rules.{ArePlaced, Owns};
ghost use Rattle.ct_base.specs.State.{SameState};
ghost use Rattle.ct_base.specs.View.{view, inode_count};
ghost use Rattle.ct_base.specs.Wants.{missing};
ghost use Rattle.ct_base.specs.Walk.{page_at};
ghost use Rattle.ct_cut.specs.Readied.{Readied};
ghost use Rattle.ct_cut.specs.Sides.{cut_asks, zeros};
ghost use Rattle.ct_stage.specs.Staged.{IsResting};
ghost use Rattle.ct_write.specs.Prepared.{Prepared};
ghost use Rattle.ct_frames.specs.Agrees.{Agrees};
ghost use Rattle.ct_grow.specs.Grown.{IsReady};
ghost use Rattle.ct_pm.specs.Device.{NothingPending};
ghost use Rattle.ct_pm.specs.Phase.{Phase};

use crate::side::stage_side;
use ct_base::{ADDRESS_END, PAGE_BYTES, PARTITION_SLOT, SLOT_PAGES, STAGING_SLOT};
use ct_frames::Frames;
use ct_inode::get;
use ct_plan::side_wants;
use ct_pm::{Pm, PmFault};
use ct_walk::ensure_all;
use ct_write::{page_of, staged_page};

// Makes the tables of pages a and on, n of them, and of pages b and on, with which they change places, and stages the page on
// the edge of the zeros that are left from an address on.
pub fn prepare_range<D: Pm>(
    dev: &mut D,
    frames: &mut Frames,
    a: u64,
    b: u64,
    n: u64,
    from: u64,
    to: u64,
) -> Result<(), PmFault>
    requires rest { IsResting (D.words dev.old) }
    requires placed { ArePlaced (view (D.words dev.old)) (inode_count (D.words dev.old)) }
    requires agrees { Agrees (D.words dev.old) frames.old }
    requires settled { NothingPending (D.told dev.old) }
    requires some { 1 ≤ n }
    requires first_from { PARTITION_SLOT * SLOT_PAGES ≤ a }
    requires first_to { a + n ≤ ADDRESS_END / PAGE_BYTES }
    requires second_from { STAGING_SLOT * SLOT_PAGES ≤ b }
    requires second_to { b + n ≤ (STAGING_SLOT + 1) * SLOT_PAGES }
    requires alike { a % SLOT_PAGES ≡ b % SLOT_PAGES }
    requires begins { from ≤ (a + 1) * PAGE_BYTES }
    requires ends { (a + n) * PAGE_BYTES ≤ to }
    requires room { missing (D.words dev.old) (cut_asks a b n from) ≤ length frames.old.free }
    ensures prepared { OnOk result (Prepared (D.words dev.old) (D.words dev.new) a b n (zeros from to)) }
    ensures unmapped { OnOk result ((q : ℕ) → q / SLOT_PAGES ≡ STAGING_SLOT → (a * PAGE_BYTES < from → q ≢ b) → page_at (D.words dev.new) 4 q ≡ 0) }
    ensures agrees { OnOk result (Agrees (D.words dev.new) frames.new) }
    ensures taken { OnOk result (length frames.new.free + missing (D.words dev.old) (cut_asks a b n from) ≡ length frames.old.free) }
    ensures settled { OnOk result (NothingPending (D.told dev.new)) }

    // A crash at any moment leaves the state at entry, and so do the words as they read.
    ensures phase { Phase (SameState (D.words dev.old)) 0 (D.told dev.old) (D.told dev.new) (D.words dev.new) }
    ensures cause { HasCause (D.faults dev.old) (D.faults dev.new) result }
{
    let wants = side_wants(a, b, n);
    ensure_all(dev, frames, &wants)?;
    stage_side(dev, frames, a, b, n, from, to)?;
    Ok(())
}

/// Makes the tables between whose entries the whole partition of an object changes places with its staging range: those of
/// the object's side, and then those of the staging slot, under one fence. No page is mapped.
///
/// # Errors
///
/// `PmFault` where the device failed. Then some of the tables may be there.
pub fn prepare_whole<D: Pm>(dev: &mut D, frames: &mut Frames, inode: u64) -> Result<(), PmFault>
    requires ready { IsReady (D.words dev.old) }
    requires owns { Owns (view (D.words dev.old)) (inode_count (D.words dev.old)) inode }
    requires agrees { Agrees (D.words dev.old) frames.old }
    requires settled { NothingPending (D.told dev.old) }
    requires room { missing (D.words dev.old) (give_up_wants (inode_at (view (D.words dev.old)) inode)) ≤ length frames.old.free }
    ensures readied { OnOk result (Readied (D.words dev.old) (D.words dev.new) (inode_at (view (D.words dev.old)) inode)) }
    ensures agrees { OnOk result (Agrees (D.words dev.new) frames.new) }
    ensures taken { OnOk result (length frames.old.free ≤ length frames.new.free + missing (D.words dev.old) (give_up_wants (inode_at (view (D.words dev.old)) inode))) }
    ensures settled { OnOk result (NothingPending (D.told dev.new)) }

    // A crash at any moment leaves the state at entry, and so do the words as they read.
    ensures phase { Phase (SameState (D.words dev.old)) 0 (D.told dev.old) (D.told dev.new) (D.words dev.new) }
    ensures cause { HasCause (D.faults dev.old) (D.faults dev.new) result }
{
    let file = get(dev, inode);
    let pages = 8u64.pow(file.level as u32);
    let end = file.base + PAGE_BYTES * pages;
    prepare_range(
        dev,
        frames,
        page_of(file.base),
        staged_page(file.base),
        pages,
        file.base,
        end,
    )
}
