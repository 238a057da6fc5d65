// The call `rename`.
ghost use Rattle.std.specs.Prelude.{◌≡◌, ◌≢◌, ℕ, ◌+◌, ◌≤◌, length, Some, Err, IfOk, IsSomeAnd, OnOk};
ghost use Rattle.ct_base.specs.Causes.{HasCause};
ghost use Rattle.ct_base.specs.Free.{HasFreePages};
ghost use Rattle.ct_base.specs.View.{inode_count};
ghost use Rattle.ct_base.specs.Wants.{missing};
ghost use Rattle.ct_call.specs.Answers.{IsPrepared};
ghost use Rattle.ct_call.specs.Calls.{Does, StandsFor};
ghost use Rattle.ct_commit.specs.Rest.{IsAtRest, IsMounted};
ghost use Rattle.ct_call.specs.Placed.{IsMoved, Places};
ghost use Rattle.ct_call.specs.Plans.{Fits, level_of};
ghost use Rattle.ct_call.specs.Seen.{ready_in};
ghost use Rattle.ct_pm.specs.Phase.{Phase};
ghost use Rattle.ct_record.specs.Seen.{device_behind};
ghost use Rattle.ct_tree.specs.Lands.{files};
ghost use Rattle.ct_tree.specs.Step.{rename};
ghost use Rattle.ct_tree.specs.Tree.{Tree};
ghost use Rattle.ct_rename.specs.Forms.{IsForm};
ghost use Rattle.ct_rename.specs.Moves.{HasTree, TurnedOrNot};
ghost use Rattle.ct_rename.specs.Renamed.{CanRename, IsIdle, IsPlanFor, renamed, room_dir};

use crate::carry::{move_at, move_there, replace};
use crate::draft::MOST_RENAME_PAIRS;
use crate::find::{Form, find_form};
use ct_call::{CallPlan, FsError, Growth, Mounted, State, check_space, ended, refused};
use ct_dir::name_at;
use ct_enter::entry_plan;
use ct_frames::Frames;
use ct_grow::Wants;
use ct_inode::get;
use ct_pm::Pm;
use ct_record::Broken;
use ct_remove::removal_plan;
use ct_tree::Refusal;

// The plan of a call that needs nothing.
fn idle() -> CallPlan
    ensures { IsIdle result }
{
    CallPlan {
        growth: Growth::Stays,
        wants: Wants::new(),
        rest: Wants::new(),
    }
}

// The plan of a form: room for an entry in another directory, or what it takes to give a partition up.
fn plan_for<D: Pm>(dev: &D, form: &Form<'_>) -> CallPlan
    requires rest { IsAtRest (D.words dev.now) }
    requires can { CanRename (D.words dev.now) form.now }
    ensures { IsPlanFor (D.words dev.now) form.now result }
{
    match form {
        Form::Same => idle(),
        Form::New(entry, spot) => {
            if entry.dir == spot.dir {
                return idle();
            }
            entry_plan(dev, spot.inode, spot.offset, entry.number)
        }
        Form::Over(_, _, gone) => removal_plan(*gone),
    }
}

// Which form of a rename two paths ask for, and what it takes, where there is space for that. Nothing is stored.
fn prepare<'p, D: Pm>(
    dev: &D,
    frames: &Frames,
    path: &[u8],
    to: &'p [u8],
) -> Result<(Form<'p>, CallPlan), Refusal>
    requires mounted { IsMounted (D.words dev.now) (D.told dev.now) frames.now }
    ensures answer { (t : Tree) → StandsFor (D.words dev.now) t → IsPrepared (D.words dev.now) t (rename path.now to.now) result }
    ensures form { IfOk result (λ found. IsForm (D.words dev.now) path.now to.now found.0) }
    ensures can { IfOk result (λ found. CanRename (D.words dev.now) found.0) }
    ensures plan { IfOk result (λ found. IsPlanFor (D.words dev.now) found.0 found.1) }
    ensures fits { IfOk result (λ found. Fits (D.words dev.now) frames.now found.1) }
    ensures counted { OnOk result ((count : ℕ) → HasFreePages (D.words dev.now) count → count ≡ length frames.now.free) }
{
    let form = match find_form(dev, path, to) {
        Ok(form) => form,
        Err(refusal) => return Err(refusal),
    };
    let plan = plan_for(dev, &form);
    match check_space(dev, frames, &plan) {
        Ok(()) => Ok((form, plan)),
        Err(refusal) => Err(refusal),
    }
}

// Carries a form out.
fn carry_out<D: Pm>(
    dev: D,
    frames: &mut Frames,
    form: &Form<'_>,
    plan: &CallPlan,
) -> Result<D, Broken<D>>
    requires mounted { IsMounted (D.words dev) (D.told dev) frames.old }
    requires can { CanRename (D.words dev) form.now }
    requires plan { IsPlanFor (D.words dev) form.now plan.now }
    requires fits { Fits (D.words dev) frames.old plan.now }
    requires tree { HasTree (renamed (files (D.words dev)) form.now) }

    ensures objects { OnOk result (files (D.words (device_behind result)) ≡ renamed (files (D.words dev)) form.now) }
    ensures moved { OnOk result ((level : ℕ) → level_of plan.now.growth ≡ Some level → IsMoved (λ v. ⊥) (D.words dev) (D.words (device_behind result)) (room_dir form.now) level) }
    ensures taken { OnOk result (length frames.old.free ≤ length frames.new.free + missing (D.words dev) plan.now.wants) }
    ensures counted { OnOk result (inode_count (D.words (device_behind result)) ≡ inode_count (D.words dev)) }
    ensures mounted { OnOk result (IsMounted (D.words (device_behind result)) (D.told (device_behind result)) frames.new) }
    ensures phase { Phase (TurnedOrNot (files (D.words dev)) (renamed (files (D.words dev)) form.now)) MOST_RENAME_PAIRS (D.told dev) (D.told (device_behind result)) (D.words (device_behind result)) }
    ensures cause { HasCause (D.faults dev) (D.faults (device_behind result)) result }
{
    match form {
        Form::Same => Ok(dev),
        Form::New(entry, spot) => {
            if entry.dir == spot.dir {
                return move_at(dev, *entry, spot.dir, entry.offset, spot.name);
            }
            move_there(dev, frames, *entry, spot, plan)
        }
        Form::Over(entry, there, gone) => {
            let name = name_at(&dev, get(&dev, there.dir), there.offset);
            replace(dev, frames, *entry, *there, gone.level, name.as_slice())
        }
    }
}

/// Gives an object another name.
pub fn rename_in<D: Pm>(
    mounted: Mounted<D>,
    path: &[u8],
    to: &[u8],
) -> (State<D>, Result<(), FsError>)
    ensures does { (t : Tree) → StandsFor (D.words mounted.dev) t → Does mounted t (rename path.now to.now) (Some result.0) result.1 }
    ensures places { OnOk result.1 (IsSomeAnd (ready_in (Some result.0)) (λ now. Places (D.words mounted.dev) (D.words now.dev) (rename path.now to.now))) }
    ensures alive { result.1 ≢ Err FsError.Dead }
{
    let Mounted { dev, mut frames } = mounted;
    let (form, plan) = match prepare(&dev, &frames, path, to) {
        Ok(found) => found,
        Err(refusal) => return refused(dev, frames, refusal),
    };
    let carried = carry_out(dev, &mut frames, &form, &plan);
    ended(carried, frames)
}
