// Where a new entry goes.
ghost use Rattle.std.specs.Prelude.{IfOk};
ghost use Rattle.ct_tree.specs.Tree.{Tree};
ghost use Rattle.ct_commit.specs.Rest.{StandsFor};
ghost use Rattle.ct_commit.specs.Rest.{IsAtRest};
ghost use Rattle.ct_find.specs.Spots.{IsNewName, SpotAnswers};

use crate::place::{Place, find_place};
use ct_base::Inode;
use ct_pm::Pm;
use ct_tree::Refusal;

/// A place for a new entry: a directory by its number and its inode, the offset of a slot that is empty, and a name that no
/// entry has.
#[derive(Drop)]
pub struct Spot<'p> {
    pub dir: u64,
    pub inode: Inode,
    pub offset: u64,
    pub name: &'p [u8],
}

/// Where a new entry goes that a path names, or why there can be none.
pub fn find_spot<'p, D: Pm>(dev: &D, path: &'p [u8]) -> Result<Spot<'p>, Refusal>
    requires { IsAtRest (D.words dev.now) }
    ensures answer { (t : Tree) → StandsFor (D.words dev.now) t → SpotAnswers t path.now result }
    ensures spot { IfOk result (λ spot. IsNewName (D.words dev.now) path.now spot.dir spot.inode spot.offset spot.name.now) }
{
    if path == b"/".as_slice() {
        return Err(Refusal::Exists);
    }
    let place = match find_place(dev, path) {
        Ok(place) => place,
        Err(refusal) => return Err(refusal),
    };
    match place {
        Place::Taken(_) => Err(Refusal::Exists),
        Place::Free(spot) => Ok(spot),
    }
}
