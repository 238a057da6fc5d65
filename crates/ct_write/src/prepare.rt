// Tables of the file's side are made, and the pages are staged.
ghost use Rattle.std.specs.Prelude.{◌≡◌, ℕ, ◌+◌, ◌*◌, ◌/◌, ◌<◌, ◌≤◌, length, Contains, OnOk};
ghost use Rattle.ct_base.specs.Causes.{HasCause};
ghost use Rattle.ct_base.specs.Rules.{ArePlaced};
ghost use Rattle.ct_base.specs.View.{view, inode_count};
ghost use Rattle.ct_base.specs.Wants.{missing};
ghost use Rattle.ct_frames.specs.Agrees.{Agrees};
ghost use Rattle.ct_base.specs.State.{SameState};
ghost use Rattle.ct_pm.specs.Device.{NothingPending};
ghost use Rattle.ct_pm.specs.Phase.{Phase};
ghost use Rattle.ct_stage.specs.Edited.{AreThere};
ghost use Rattle.ct_stage.specs.Staged.{IsResting};
ghost use Rattle.ct_write.specs.Prepared.{Prepared, range_wants};

use ct_base::{ADDRESS_END, PAGE_BYTES, PARTITION_SLOT, SLOT_PAGES, STAGING_SLOT};
use ct_frames::Frames;
use ct_plan::side_wants;
use ct_pm::{Pm, PmFault};
use ct_stage::{Edit, stage};
use ct_walk::ensure_all;

// Stages pages a and on, n of them, as pages b and on, with the edit.
pub fn prepare<D: Pm>(
    dev: &mut D,
    frames: &mut Frames,
    a: u64,
    b: u64,
    n: u64,
    edit: &Edit,
) -> Result<(), PmFault>
    requires rest { IsResting (D.words dev.old) }
    requires placed { ArePlaced (view (D.words dev.old)) (inode_count (D.words dev.old)) }
    requires agrees { Agrees (D.words dev.old) frames.old }
    requires settled { NothingPending (D.told dev.old) }
    requires some { 1 ≤ n }
    requires first_from { PARTITION_SLOT * SLOT_PAGES ≤ a }
    requires first_to { a + n ≤ ADDRESS_END / PAGE_BYTES }
    requires second_from { STAGING_SLOT * SLOT_PAGES ≤ b }
    requires second_to { b + n ≤ (STAGING_SLOT + 1) * SLOT_PAGES }
    requires given { AreThere edit.now }
    requires room { missing (D.words dev.old) (range_wants a b n) ≤ length frames.old.free }
    ensures prepared { OnOk result (Prepared (D.words dev.old) (D.words dev.new) a b n edit.now) }
    ensures agrees { OnOk result (Agrees (D.words dev.new) frames.new) }
    ensures taken { OnOk result (length frames.new.free + missing (D.words dev.old) (range_wants a b n) ≡ length frames.old.free) }
    ensures settled { OnOk result (NothingPending (D.told dev.new)) }

    // A crash at any moment leaves the state at entry, and so do the words as they read.
    ensures phase { Phase (SameState (D.words dev.old)) 0 (D.told dev.old) (D.told dev.new) (D.words dev.new) }
    ensures cause { HasCause (D.faults dev.old) (D.faults dev.new) result }
{
    let wants = side_wants(a, b, n);
    ensure_all(dev, frames, &wants)?;
    stage(dev, frames, b, n, a, edit)?;
    Ok(())
}
