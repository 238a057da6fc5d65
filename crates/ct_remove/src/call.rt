// The calls `unlink` and `rmdir`.
ghost use Rattle.std.specs.Prelude.{◌≡◌, ◌≢◌, ℕ, ◌≤◌, length, Some, Err, IfOk, IsSomeAnd, OnOk};
ghost use Rattle.ct_base.specs.Free.{HasFreePages};
ghost use Rattle.ct_base.specs.Inode.{inode as inode_at};
ghost use Rattle.ct_base.specs.Plan.{give_up_wants};
ghost use Rattle.ct_base.specs.View.{view};
ghost use Rattle.ct_base.specs.Wants.{missing};
ghost use Rattle.ct_call.specs.Answers.{IsPrepared};
ghost use Rattle.ct_call.specs.Calls.{Does, StandsFor};
ghost use Rattle.ct_commit.specs.Rest.{IsMounted};
ghost use Rattle.ct_call.specs.Placed.{Places};
ghost use Rattle.ct_call.specs.Seen.{ready_in};
ghost use Rattle.ct_tree.specs.Lands.{files};
ghost use Rattle.ct_tree.specs.Tree.{Tree};
ghost use Rattle.ct_find.specs.Entries.{IsEntryAt, IsLeaf};
ghost use Rattle.ct_find.specs.Kinds.{leave_op};

use crate::plan::removal_plan;
use crate::remove::remove;
use ct_base::Inode;
use ct_call::{FsError, Mounted, State, check_space, ended, refused};
use ct_find::{Entry, Kind, find_leaf};
use ct_frames::Frames;
use ct_pm::Pm;
use ct_tree::Refusal;

// The entry that goes, and its object, where there is space for that. Nothing is stored.
fn prepare<D: Pm>(
    dev: &D,
    frames: &Frames,
    path: &[u8],
    kind: Kind,
) -> Result<(Entry, Inode), Refusal>
    requires mounted { IsMounted (D.words dev.now) (D.told dev.now) frames.now }
    ensures answer { (t : Tree) → StandsFor (D.words dev.now) t → IsPrepared (D.words dev.now) t (leave_op kind path.now) result }
    ensures entry { IfOk result (λ found. IsEntryAt (D.words dev.now) path.now found.0) }
    ensures leaf { IfOk result (λ found. IsLeaf (files (D.words dev.now)) found.0.dir found.0.offset found.0.number) }
    ensures inode { IfOk result (λ found. found.1 ≡ inode_at (view (D.words dev.now)) found.0.number) }
    ensures space { IfOk result (λ found. missing (D.words dev.now) (give_up_wants found.1) ≤ length frames.now.free) }
    ensures counted { OnOk result ((count : ℕ) → HasFreePages (D.words dev.now) count → count ≡ length frames.now.free) }
{
    let (entry, inode) = match find_leaf(dev, path, kind) {
        Ok(found) => found,
        Err(refusal) => return Err(refusal),
    };
    let plan = removal_plan(inode);
    match check_space(dev, frames, &plan) {
        Ok(()) => Ok((entry, inode)),
        Err(refusal) => Err(refusal),
    }
}

/// Removes the file at a path, or the empty directory.
pub fn remove_in<D: Pm>(
    mounted: Mounted<D>,
    path: &[u8],
    kind: Kind,
) -> (State<D>, Result<(), FsError>)
    ensures does { (t : Tree) → StandsFor (D.words mounted.dev) t → Does mounted t (leave_op kind path.now) (Some result.0) result.1 }
    ensures places { OnOk result.1 (IsSomeAnd (ready_in (Some result.0)) (λ now. Places (D.words mounted.dev) (D.words now.dev) (leave_op kind path.now))) }
    ensures alive { result.1 ≢ Err FsError.Dead }
{
    let Mounted { dev, mut frames } = mounted;
    let (entry, inode) = match prepare(&dev, &frames, path, kind) {
        Ok(found) => found,
        Err(refusal) => return refused(dev, frames, refusal),
    };
    let carried = remove(dev, &mut frames, entry, inode);
    ended(carried, frames)
}
