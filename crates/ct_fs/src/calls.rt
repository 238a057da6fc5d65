// The calls on a mount, each with what is remembered after it.
ghost use Rattle.std.specs.Prelude.{◌≡◌, ◌≢◌, Some, Err, IfSome, IsSomeAnd, OnOk};
ghost use Rattle.ct_call.specs.Calls.{Does, StandsFor};
ghost use Rattle.ct_call.specs.Placed.{Places};
ghost use Rattle.ct_call.specs.Seen.{ready_in};
ghost use Rattle.ct_edit.specs.Edits.{edit_op};
ghost use Rattle.ct_enter.specs.Makes.{make_op};
ghost use Rattle.ct_exchange.specs.Swapped.{SwapsWalks};
ghost use Rattle.ct_find.specs.Kinds.{leave_op};
ghost use Rattle.ct_fs.specs.Remembering.{IsRemembered};
ghost use Rattle.ct_tree.specs.Step.{exchange as exchange_call, rename as rename_call};
ghost use Rattle.ct_tree.specs.Tree.{Tree};

use crate::remembered::Remembered;
use crate::updating::{after_call, after_edit};
use ct_call::{FsError, Mounted, State};
use ct_edit::{Edit, edit_in};
use ct_enter::make_in;
use ct_exchange::exchange_in;
use ct_find::Kind;
use ct_learn::Touched;
use ct_pm::Pm;
use ct_remove::remove_in;
use ct_rename::rename_in;

// What an edit touches of its file, for as far as it is learnt.
fn touched_by(edit: Edit<'_>) -> Option<Touched> {
    match edit {
        Edit::Write { off, bytes } => Some(Touched::From {
            off,
            len: bytes.len() as u64,
        }),
        Edit::Fill { off, len, .. } => Some(Touched::From { off, len }),
        Edit::Append { bytes } => Some(Touched::Last {
            len: bytes.len() as u64,
        }),
        Edit::Truncate { .. } => None,
    }
}

/// Edits a file on a mount.
pub fn edit_by<D: Pm>(
    mounted: Mounted<D>,
    remembered: &mut Remembered,
    path: &[u8],
    edit: Edit<'_>,
) -> (State<D>, Result<(), FsError>)
    requires { IsRemembered (D.words mounted.dev) remembered.old }
    ensures does { (t : Tree) → StandsFor (D.words mounted.dev) t → Does mounted t (edit_op path.now edit.entry) (Some result.0) result.1 }
    ensures places { OnOk result.1 (IsSomeAnd (ready_in (Some result.0)) (λ now. Places (D.words mounted.dev) (D.words now.dev) (edit_op path.now edit.entry))) }
    ensures alive { result.1 ≢ Err FsError.Dead }
    ensures so { IfSome (ready_in (Some result.0)) (λ now. IsRemembered (D.words now.dev) remembered.new) }
{
    // Nothing is read: this tells that the words of the mount are at rest.
    let _ = &mounted.dev;
    let touched = touched_by(edit);
    let (state, result) = edit_in(mounted, &remembered.learnt, path, edit);
    after_edit(&mut remembered.learnt, &state, &result, path, touched);
    (state, result)
}

/// Exchanges ranges of files on a mount.
pub fn exchange_by<D: Pm>(
    mounted: Mounted<D>,
    remembered: &mut Remembered,
    path: &[u8],
    off: u64,
    other: &[u8],
    other_off: u64,
    len: u64,
) -> (State<D>, Result<(), FsError>)
    requires { IsRemembered (D.words mounted.dev) remembered.old }
    ensures does { (t : Tree) → StandsFor (D.words mounted.dev) t → Does mounted t (exchange_call path.now off other.now other_off len) (Some result.0) result.1 }
    ensures places { OnOk result.1 (IsSomeAnd (ready_in (Some result.0)) (λ now. Places (D.words mounted.dev) (D.words now.dev) (exchange_call path.now off other.now other_off len))) }
    ensures walks { OnOk result.1 (IsSomeAnd (ready_in (Some result.0)) (λ now. SwapsWalks (D.words mounted.dev) (D.words now.dev) path.now off other.now other_off len)) }
    ensures alive { result.1 ≢ Err FsError.Dead }
    ensures so { IfSome (ready_in (Some result.0)) (λ now. IsRemembered (D.words now.dev) remembered.new) }
{
    // Nothing is read: this tells that the words of the mount are at rest.
    let _ = &mounted.dev;
    let (state, result) = exchange_in(
        mounted,
        &remembered.learnt,
        path,
        off,
        other,
        other_off,
        len,
    );
    after_edit(&mut remembered.learnt, &state, &result, path, None);
    (state, result)
}

/// Makes an object on a mount, which raises where the search for a free inode begins.
pub fn make_by<D: Pm>(
    mounted: Mounted<D>,
    remembered: &mut Remembered,
    path: &[u8],
    kind: Kind,
) -> (State<D>, Result<(), FsError>)
    requires { IsRemembered (D.words mounted.dev) remembered.old }
    ensures does { (t : Tree) → StandsFor (D.words mounted.dev) t → Does mounted t (make_op kind path.now) (Some result.0) result.1 }
    ensures places { OnOk result.1 (IsSomeAnd (ready_in (Some result.0)) (λ now. Places (D.words mounted.dev) (D.words now.dev) (make_op kind path.now))) }
    ensures alive { result.1 ≢ Err FsError.Dead }
    ensures so { IfSome (ready_in (Some result.0)) (λ now. IsRemembered (D.words now.dev) remembered.new) }
{
    // Nothing is read: this tells that the words of the mount are at rest.
    let _ = &mounted.dev;
    let (state, result) = make_in(mounted, &mut remembered.free_from, path, kind);
    after_call(&mut remembered.learnt, &state, &result);
    (state, result)
}

/// Removes an object on a mount: its inode is free then, and so may each be.
pub fn remove_by<D: Pm>(
    mounted: Mounted<D>,
    remembered: &mut Remembered,
    path: &[u8],
    kind: Kind,
) -> (State<D>, Result<(), FsError>)
    requires { IsRemembered (D.words mounted.dev) remembered.old }
    ensures does { (t : Tree) → StandsFor (D.words mounted.dev) t → Does mounted t (leave_op kind path.now) (Some result.0) result.1 }
    ensures places { OnOk result.1 (IsSomeAnd (ready_in (Some result.0)) (λ now. Places (D.words mounted.dev) (D.words now.dev) (leave_op kind path.now))) }
    ensures alive { result.1 ≢ Err FsError.Dead }
    ensures so { IfSome (ready_in (Some result.0)) (λ now. IsRemembered (D.words now.dev) remembered.new) }
{
    // Nothing is read: this tells that the words of the mount are at rest.
    let _ = &mounted.dev;
    remembered.free_from = 1;
    let (state, result) = remove_in(mounted, path, kind);
    after_call(&mut remembered.learnt, &state, &result);
    (state, result)
}

/// Gives an object on a mount another name: what it replaces leaves its inode free.
pub fn rename_by<D: Pm>(
    mounted: Mounted<D>,
    remembered: &mut Remembered,
    path: &[u8],
    to: &[u8],
) -> (State<D>, Result<(), FsError>)
    requires { IsRemembered (D.words mounted.dev) remembered.old }
    ensures does { (t : Tree) → StandsFor (D.words mounted.dev) t → Does mounted t (rename_call path.now to.now) (Some result.0) result.1 }
    ensures places { OnOk result.1 (IsSomeAnd (ready_in (Some result.0)) (λ now. Places (D.words mounted.dev) (D.words now.dev) (rename_call path.now to.now))) }
    ensures alive { result.1 ≢ Err FsError.Dead }
    ensures so { IfSome (ready_in (Some result.0)) (λ now. IsRemembered (D.words now.dev) remembered.new) }
{
    // Nothing is read: this tells that the words of the mount are at rest.
    let _ = &mounted.dev;
    remembered.free_from = 1;
    let (state, result) = rename_in(mounted, path, to);
    after_call(&mut remembered.learnt, &state, &result);
    (state, result)
}
