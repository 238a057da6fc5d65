// A call on a file: it is found, planned and refused without a step, and then carried out.
ghost use Rattle.std.specs.Prelude.{◌≡◌, ◌≢◌, ◌↔◌, ℕ, ◌+◌, ◌≤◌, length, Some, Err, IfOk, IsSomeAnd, IsTrue, OnOk};
ghost use Rattle.ct_base.specs.Causes.{HasCause};
ghost use Rattle.ct_base.specs.Free.{HasFreePages};
ghost use Rattle.ct_base.specs.Inode.{IsLive, inode as inode_at};
ghost use Rattle.ct_base.specs.View.{inode_count, view};
ghost use Rattle.ct_base.specs.Wants.{missing};
ghost use Rattle.ct_pm.specs.Phase.{Phase};
ghost use Rattle.ct_record.specs.Seen.{device_behind};
ghost use Rattle.ct_tree.specs.Lands.{files};
ghost use Rattle.ct_tree.specs.Tree.{Tree};
ghost use Rattle.ct_call.specs.Answers.{IsPrepared};
ghost use Rattle.ct_call.specs.Calls.{Does, StandsFor};
ghost use Rattle.ct_commit.specs.Rest.{IsMounted};
ghost use Rattle.ct_call.specs.Placed.{IsMoved, Places};
ghost use Rattle.ct_call.specs.Plans.{Fits, Plans, level_of};
ghost use Rattle.ct_call.specs.Seen.{ready_in};
ghost use Rattle.ct_edit.specs.Changed.{Changes, ChangesOrNot};
ghost use Rattle.ct_edit.specs.Edits.{IsReplaced, edit_op, task_change, task_end, task_of as task_by, task_plan as plan_of_task};
ghost use Rattle.ct_find.specs.Directories.{KeepsDirectories};
ghost use Rattle.ct_find.specs.Files.{IsFileAt};
ghost use Rattle.ct_edit.specs.Planned.{CanPlan};
ghost use Rattle.ct_inode.specs.Live.{KeepsLive};

use crate::edit::{Edit, Task, task_of};
use crate::plan::{truncate_plan, write_plan};
use crate::truncate::resize_file;
use crate::write::write_file;
use ct_base::{FILE_KIND, Inode, MOST_CALL_PAIRS};
use ct_call::{CallPlan, FsError, Mounted, State, check_space, ended, refused};
use ct_dir::Finder;
use ct_find::find_file;
use ct_frames::Frames;
use ct_pm::Pm;
use ct_record::Broken;
use ct_tree::Refusal;
use ct_tree::checks::FILE_BYTES;
use ct_write::len_of;

// Whether a file may end there.
fn is_within(task: Task<'_>) -> bool
    ensures { IsTrue result ↔ (task_end task.entry ≤ FILE_BYTES) }
{
    match task {
        Task::Write { off, what } => off <= FILE_BYTES && len_of(what) <= FILE_BYTES - off,
        Task::Resize { len } => len <= FILE_BYTES,
    }
}

// The plan for a file.
fn task_plan<D: Pm>(dev: &D, inode: Inode, task: Task<'_>) -> CallPlan
    requires can { CanPlan (D.words dev.now) inode }
    requires within { task_end task ≤ FILE_BYTES }
    ensures { Plans (D.words dev.now) (plan_of_task (view (D.words dev.now)) (inode_count (D.words dev.now)) inode task.entry) result }
{
    match task {
        Task::Write { off, what } => write_plan(dev, inode, off, len_of(what)),
        Task::Resize { len } => truncate_plan(dev, inode, len),
    }
}

// The file of a call by its number, what is done to it, and what that needs. Nothing is stored.
fn prepare<'e, D: Pm, F: Finder>(
    dev: &D,
    finder: &F,
    frames: &Frames,
    path: &[u8],
    edit: Edit<'e>,
) -> Result<(u64, Task<'e>, CallPlan), Refusal>
    requires known { F.agrees finder.now (D.words dev.now) }
    requires mounted { IsMounted (D.words dev.now) (D.told dev.now) frames.now }
    ensures answer { (t : Tree) → StandsFor (D.words dev.now) t → IsPrepared (D.words dev.now) t (edit_op path.now edit.entry) result }
    ensures file { IfOk result (λ found. IsFileAt (D.words dev.now) path.now found.0 (inode_at (view (D.words dev.now)) found.0)) }
    ensures task { IfOk result (λ found. found.1 ≡ task_by edit.entry (inode_at (view (D.words dev.now)) found.0).size) }
    ensures within { IfOk result (λ found. task_end found.1 ≤ FILE_BYTES) }
    ensures plan { IfOk result (λ found. Plans (D.words dev.now)
        (plan_of_task (view (D.words dev.now)) (inode_count (D.words dev.now)) (inode_at (view (D.words dev.now)) found.0) found.1) found.2) }
    ensures fits { IfOk result (λ found. Fits (D.words dev.now) frames.now found.2) }
    ensures counted { OnOk result ((count : ℕ) → HasFreePages (D.words dev.now) count → count ≡ length frames.now.free) }
{
    let (number, inode) = match find_file(dev, finder, path) {
        Ok(file) => file,
        Err(refusal) => return Err(refusal),
    };
    let task = task_of(edit, inode.size);
    if !is_within(task) {
        return Err(Refusal::TooBig);
    }
    let plan = task_plan(dev, inode, task);
    match check_space(dev, frames, &plan) {
        Ok(()) => Ok((number, task, plan)),
        Err(refusal) => Err(refusal),
    }
}

// Does it to the file by its plan: the file grows where it has to, and then the change is one record.
fn carry_out<D: Pm>(
    dev: D,
    frames: &mut Frames,
    file: u64,
    plan: &CallPlan,
    task: Task<'_>,
) -> Result<D, Broken<D>>
    requires mounted { IsMounted (D.words dev) (D.told dev) frames.old }
    requires live { IsLive (view (D.words dev)) (inode_count (D.words dev)) file }
    requires kind { (inode_at (view (D.words dev)) file).kind ≡ FILE_KIND }
    requires within { task_end task ≤ FILE_BYTES }
    requires plan { Plans (D.words dev) (plan_of_task (view (D.words dev)) (inode_count (D.words dev)) (inode_at (view (D.words dev)) file) task) plan.now }
    requires fits { Fits (D.words dev) frames.old plan.now }

    ensures changes { OnOk result (Changes (files (D.words dev)) (files (D.words (device_behind result))) file (task_change task.entry)) }
    ensures moved { OnOk result ((level : ℕ) → level_of plan.now.growth ≡ Some level → IsMoved (IsReplaced task.entry) (D.words dev) (D.words (device_behind result)) file level) }
    ensures taken { OnOk result (length frames.old.free ≤ length frames.new.free + missing (D.words dev) plan.now.wants) }
    ensures counted { OnOk result (inode_count (D.words (device_behind result)) ≡ inode_count (D.words dev)) }
    ensures mounted { OnOk result (IsMounted (D.words (device_behind result)) (D.told (device_behind result)) frames.new) }

    // A crash at any moment lands on the objects as they were, or with the change.
    ensures phase { Phase (ChangesOrNot (files (D.words dev)) file (task_change task.entry)) MOST_CALL_PAIRS (D.told dev) (D.told (device_behind result)) (D.words (device_behind result)) }
    ensures cause { HasCause (D.faults dev) (D.faults (device_behind result)) result }
{
    match task {
        Task::Write { off, what } => write_file(dev, frames, file, plan, off, what),
        Task::Resize { len } => resize_file(dev, frames, file, plan, len),
    }
}

/// Changes the bytes of the file at a path: it writes, fills, appends or sets the length. To write no bytes changes nothing,
/// wherever they begin.
pub fn edit_in<D: Pm, F: Finder>(
    mounted: Mounted<D>,
    finder: &F,
    path: &[u8],
    edit: Edit<'_>,
) -> (State<D>, Result<(), FsError>)
    requires { F.agrees finder.now (D.words mounted.dev) }
    ensures does { (t : Tree) → StandsFor (D.words mounted.dev) t → Does mounted t (edit_op path.now edit.entry) (Some result.0) result.1 }
    ensures places { OnOk result.1 (IsSomeAnd (ready_in (Some result.0)) (λ now. Places (D.words mounted.dev) (D.words now.dev) (edit_op path.now edit.entry))) }
    ensures alive { result.1 ≢ Err FsError.Dead }
    // After Ok each inode that was live is live.
    ensures live { OnOk result.1 (IsSomeAnd (ready_in (Some result.0)) (λ now. KeepsLive (D.words mounted.dev) (D.words now.dev))) }
    // After Ok each directory is as it was.
    ensures directories { OnOk result.1 (IsSomeAnd (ready_in (Some result.0)) (λ now. KeepsDirectories (D.words mounted.dev) (D.words now.dev))) }
{
    let Mounted { dev, mut frames } = mounted;
    let (file, task, plan) = match prepare(&dev, finder, &frames, path, edit) {
        Ok(found) => found,
        Err(refusal) => return refused(dev, frames, refusal),
    };
    let carried = carry_out(dev, &mut frames, file, &plan, task);
    ended(carried, frames)
}
