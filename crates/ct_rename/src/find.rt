// Which form of a rename two paths ask for, and why there is none.
ghost use Rattle.std.specs.Prelude.{ℕ, ◌≤◌, [], ◌∷◌, IfOk};
ghost use Rattle.ct_tree.specs.Checks.{Passes, bad_path, first_of, is_root};
ghost use Rattle.ct_tree.specs.Step.{refusal, rename};
ghost use Rattle.ct_tree.specs.Tree.{Tree};
ghost use Rattle.ct_tree.specs.declared.call.Refusal.TheVariants.{IsRoot as is_root_refused};
ghost use Rattle.ct_base.specs.Inode.{inode};
ghost use Rattle.ct_base.specs.View.{view};
ghost use Rattle.ct_base.specs.Walk.{AreTables};
ghost use Rattle.ct_call.specs.Calls.{StandsFor};
ghost use Rattle.ct_commit.specs.Rest.{IsAtRest};
ghost use Rattle.ct_rename.specs.Forms.{AreBelow, IsForm, IsKindOf};

use crate::below::lies_below;
use ct_base::{DIRECTORY_KIND, Inode, MOST_INODES};
use ct_find::{Entry, Kind, Place, Spot, check_kind, find_entry, find_place};
use ct_inode::get;
use ct_path::{Names, parse};
use ct_pm::Pm;
use ct_tree::Refusal;

/// A form of a rename.
#[derive(Drop)]
pub enum Form<'p> {
    /// The name stays, and so does all else.
    Same,

    /// An entry gets a name that is not there.
    New(Entry, Spot<'p>),

    /// An entry takes the place of another, whose object goes: its inode is the third.
    Over(Entry, Entry, Inode),
}

// The kind that another object must have, to give way to this one.
fn kind_at<D: Pm>(dev: &D, number: u64) -> Kind
    requires tables { AreTables (D.words dev.now) }
    requires from { 1 ≤ number }
    requires to { number ≤ MOST_INODES }
    ensures { IsKindOf (inode (view (D.words dev.now)) number) result }
{
    if get(dev, number).kind == DIRECTORY_KIND {
        return Kind::Directory;
    }
    Kind::File
}

// The names of two paths, neither of which is `/`.
fn check_paths<'p>(path: &'p [u8], to: &'p [u8]) -> Result<(Names<'p>, Names<'p>), Refusal>
    ensures answer { Passes result (first_of (bad_path path.now ∷ bad_path to.now ∷ is_root path.now is_root_refused ∷ is_root to.now is_root_refused ∷ [])) }
    ensures below { IfOk result (λ found. AreBelow path.now to.now found.0 found.1) }
{
    let names = match parse(path) {
        Some(names) => names,
        None => return Err(Refusal::BadPath),
    };
    let others = match parse(to) {
        Some(names) => names,
        None => return Err(Refusal::BadPath),
    };
    if path == b"/".as_slice() {
        return Err(Refusal::IsRoot);
    }
    if to == b"/".as_slice() {
        return Err(Refusal::IsRoot);
    }
    Ok((names, others))
}

/// Which form of a rename two paths ask for, or why there is none.
pub fn find_form<'p, D: Pm>(dev: &D, path: &[u8], to: &'p [u8]) -> Result<Form<'p>, Refusal>
    requires { IsAtRest (D.words dev.now) }
    ensures answer { (t : Tree) → StandsFor (D.words dev.now) t → Passes result (refusal t (rename path.now to.now)) }
    ensures form { IfOk result (λ form. IsForm (D.words dev.now) path.now to.now form) }
{
    let (names, others) = match check_paths(path, to) {
        Ok(found) => found,
        Err(refusal) => return Err(refusal),
    };
    let from = match find_entry(dev, path) {
        Ok(entry) => entry,
        Err(refusal) => return Err(refusal),
    };
    let place = match find_place(dev, to) {
        Ok(place) => place,
        Err(refusal) => return Err(refusal),
    };
    if lies_below(names, others) {
        return Err(Refusal::IntoSelf);
    }
    if *path == *to {
        return Ok(Form::Same);
    }
    match place {
        Place::Free(spot) => Ok(Form::New(from, spot)),
        Place::Taken(there) => {
            let gone = get(dev, there.number);
            match check_kind(dev, gone, kind_at(dev, from.number)) {
                Ok(()) => Ok(Form::Over(from, there, gone)),
                Err(refusal) => Err(refusal),
            }
        }
    }
}
