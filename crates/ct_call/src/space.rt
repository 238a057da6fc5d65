// Whether there is space for a plan.
ghost use Rattle.std.specs.Prelude.{◌≡◌, ℕ, ◌<◌, ◌≤◌, length, IfErr, OnOk};
ghost use Rattle.ct_base.specs.Free.{HasFreePages};
ghost use Rattle.ct_base.specs.Plan.{Plan};
ghost use Rattle.ct_base.specs.Wants.{missing as missing_of};
ghost use Rattle.ct_tree.specs.Step.{Op};
ghost use Rattle.ct_tree.specs.declared.call.Refusal.TheVariants.{NoPages};
ghost use Rattle.ct_call.specs.Answers.{HasOnlyPlan, LacksInode, SpaceAnswers};
ghost use Rattle.ct_commit.specs.Rest.{IsMounted};
ghost use Rattle.ct_call.specs.Plans.{Fits, IsGrowth, Plans};

use crate::plan::CallPlan;
use ct_frames::Frames;
use ct_pm::Pm;
use ct_tree::Refusal;
use ct_walk::{Want, missing};

/// Whether there are a partition and pages for a plan. Nothing is stored.
///
/// # Errors
///
/// `NoPartition` where the plan grows an object and no partition of the level is free, then `NoPages` where fewer pages are free
/// than the plan needs.
pub fn check_space<D: Pm>(dev: &D, frames: &Frames, plan: &CallPlan) -> Result<(), Refusal>
    requires mounted { IsMounted (D.words dev.now) (D.told dev.now) frames.now }
    requires part { IsGrowth (D.words dev.now) plan.now.growth }
    ensures answer { (op : Op) (p : Plan) → HasOnlyPlan (D.words dev.now) op p → Plans (D.words dev.now) p plan.now → ¬ LacksInode (D.words dev.now) op
        → SpaceAnswers (D.words dev.now) op result }
    ensures fits { OnOk result (Fits (D.words dev.now) frames.now plan.now) }
    ensures counted { OnOk result ((count : ℕ) → HasFreePages (D.words dev.now) count → count ≡ length frames.now.free) }
{
    match plan.growth.barred() {
        Some(level) => return Err(Refusal::NoPartition { level }),
        None => {}
    }
    check_pages(dev, frames, plan.wants.as_slice())
}

// Whether as many pages are free as are missing.
fn check_pages<D: Pm>(dev: &D, frames: &Frames, wants: &[Want]) -> Result<(), Refusal>
    requires mounted { IsMounted (D.words dev.now) (D.told dev.now) frames.now }
    ensures enough { OnOk result (missing_of (D.words dev.now) wants.now ≤ length frames.now.free) }
    ensures lacks { IfErr result (λ r. (free : ℕ) × HasFreePages (D.words dev.now) free × (r ≡ NoPages free (missing_of (D.words dev.now) wants.now))
        × (free < missing_of (D.words dev.now) wants.now)) }
    ensures counted { (count : ℕ) → HasFreePages (D.words dev.now) count → count ≡ length frames.now.free }
{
    let need = missing(dev, wants);
    let free = frames.free();
    if free < need {
        return Err(Refusal::NoPages { free, need });
    }
    Ok(())
}
