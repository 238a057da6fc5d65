// The entry to which a path leads.
ghost use Rattle.std.specs.Prelude.{◌≢◌, [], ◌∷◌, IfOk};
ghost use Rattle.ct_tree.specs.Tree.{Tree};
ghost use Rattle.ct_commit.specs.Rest.{IsAtRest, StandsFor};
ghost use Rattle.ct_find.specs.Entries.{EntryAnswers, IsEntryAt};

use crate::place::{Place, find_place};
use ct_pm::Pm;
use ct_tree::Refusal;

/// An entry: the directory in which it is, the offset of its slot there, and the inode to which it leads.
#[derive(Clone, Copy, Debug, PartialEq, Eq)]
pub struct Entry {
    pub dir: u64,
    pub offset: u64,
    pub number: u64,
}

/// The entry to which a path other than `/` leads, or why it leads to none.
pub fn find_entry<D: Pm>(dev: &D, path: &[u8]) -> Result<Entry, Refusal>
    requires rest { IsAtRest (D.words dev.now) }
    requires below { path.now ≢ 47 ∷ [] }
    ensures answer { (t : Tree) → StandsFor (D.words dev.now) t → EntryAnswers (D.words dev.now) path.now t result }
    ensures entry { IfOk result (λ e. IsEntryAt (D.words dev.now) path.now e) }
{
    let place = match find_place(dev, path) {
        Ok(place) => place,
        Err(refusal) => return Err(refusal),
    };
    match place {
        Place::Taken(entry) => Ok(entry),
        Place::Free(_) => Err(Refusal::NotFound),
    }
}
