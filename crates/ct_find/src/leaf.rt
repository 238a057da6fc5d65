// The entry whose object may go.
ghost use Rattle.std.specs.Prelude.{◌≡◌, ℕ, [], ◌∷◌, Some, IfOk};
ghost use Rattle.ct_base.specs.Inode.{inode as inode_at};
ghost use Rattle.ct_base.specs.View.{view};
ghost use Rattle.ct_dir.specs.Directory.{IsReadable, dir_of};
ghost use Rattle.ct_tree.specs.Checks.{Passes};
ghost use Rattle.ct_tree.specs.Lands.{files};
ghost use Rattle.ct_tree.specs.Resolve.{IsDir};
ghost use Rattle.ct_tree.specs.Step.{refusal};
ghost use Rattle.ct_tree.specs.Tree.{Tree};
ghost use Rattle.ct_commit.specs.Rest.{IsAtRest, StandsFor};
ghost use Rattle.ct_find.specs.Entries.{IsEntryAt, IsFit, IsLeaf};
ghost use Rattle.ct_find.specs.Kinds.{leave_op};

use crate::entry::{Entry, find_entry};
use crate::kind::Kind;
use ct_base::{DIRECTORY_KIND, Inode};
use ct_dir::first_slot;
use ct_inode::get;
use ct_pm::Pm;
use ct_tree::Refusal;

/// Whether an object may go by a call for a kind.
pub fn check_kind<D: Pm>(dev: &D, inode: Inode, kind: Kind) -> Result<(), Refusal>
    requires { inode.kind ≡ DIRECTORY_KIND → IsReadable (D.words dev.now) inode }
    ensures { IsFit (dir_of (D.words dev.now) inode) kind result }
{
    match kind {
        Kind::File => {
            if inode.kind == DIRECTORY_KIND {
                return Err(Refusal::IsDir);
            }
            Ok(())
        }
        Kind::Directory => {
            if inode.kind != DIRECTORY_KIND {
                return Err(Refusal::NotDir);
            }
            match first_slot(dev, inode) {
                Some(_) => Err(Refusal::NotEmpty),
                None => Ok(()),
            }
        }
    }
}

// The refusal of the root.
fn root_refusal(kind: Kind) -> Refusal
    ensures { (t : Tree) → IsDir t → refusal t (leave_op kind (47 ∷ [])) ≡ Some result }
{
    match kind {
        Kind::File => Refusal::IsDir,
        Kind::Directory => Refusal::IsRoot,
    }
}

/// The entry at a path, and its object, which a call for a kind may remove; or why there is none.
pub fn find_leaf<D: Pm>(dev: &D, path: &[u8], kind: Kind) -> Result<(Entry, Inode), Refusal>
    requires { IsAtRest (D.words dev.now) }
    ensures answer { (t : Tree) → StandsFor (D.words dev.now) t → Passes result (refusal t (leave_op kind path.now)) }
    ensures entry { IfOk result (λ found. IsEntryAt (D.words dev.now) path.now found.0) }
    ensures leaf { IfOk result (λ found. IsLeaf (files (D.words dev.now)) found.0.dir found.0.offset found.0.number) }
    ensures inode { IfOk result (λ found. found.1 ≡ inode_at (view (D.words dev.now)) found.0.number) }
{
    if path == b"/".as_slice() {
        return Err(root_refusal(kind));
    }
    let entry = match find_entry(dev, path) {
        Ok(entry) => entry,
        Err(refusal) => return Err(refusal),
    };
    let inode = get(dev, entry.number);
    match check_kind(dev, inode, kind) {
        Ok(()) => Ok((entry, inode)),
        Err(refusal) => Err(refusal),
    }
}
