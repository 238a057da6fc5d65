// What a path names in its directory.
ghost use Rattle.std.specs.Prelude.{◌≢◌, [], ◌∷◌, IfOk};
ghost use Rattle.ct_tree.specs.Checks.{Passes};
ghost use Rattle.ct_tree.specs.Tree.{Tree};
ghost use Rattle.ct_commit.specs.Rest.{IsAtRest, StandsFor};
ghost use Rattle.ct_find.specs.Places.{IsPlaceOf, ShowsPlace, place_refusal};

use crate::entry::Entry;
use crate::spot::Spot;
use ct_dir::{NameSlot, spot};
use ct_inode::get;
use ct_path::{parent_of, refusal_of};
use ct_pm::Pm;
use ct_tree::Refusal;

/// What a path other than `/` names.
#[derive(Drop)]
pub enum Place<'p> {
    /// An entry has the name.
    Taken(Entry),

    /// No entry has it, and this is where one goes.
    Free(Spot<'p>),
}

/// The entry that a path other than `/` names, or where a new one goes: one walk along the path, and one pass over its directory.
pub fn find_place<'p, D: Pm>(dev: &D, path: &'p [u8]) -> Result<Place<'p>, Refusal>
    requires rest { IsAtRest (D.words dev.now) }
    requires below { path.now ≢ 47 ∷ [] }
    ensures answer { (t : Tree) → StandsFor (D.words dev.now) t → Passes result (place_refusal t path.now) }
    ensures place { IfOk result (IsPlaceOf (D.words dev.now) path.now) }
    ensures node { (t : Tree) → StandsFor (D.words dev.now) t → IfOk result (ShowsPlace (D.words dev.now) path.now t) }
{
    let (dir, name) = match parent_of(dev, path) {
        Ok(found) => found,
        Err(fault) => return Err(refusal_of(fault)),
    };
    let inode = get(dev, dir);
    match spot(dev, inode, name) {
        NameSlot::Taken(found) => Ok(Place::Taken(Entry {
            dir,
            offset: found.offset,
            number: found.inode,
        })),
        NameSlot::Free(offset) => Ok(Place::Free(Spot {
            dir,
            inode,
            offset,
            name,
        })),
    }
}
