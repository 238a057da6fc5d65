// The files that a call means.
ghost use Rattle.std.specs.Prelude.{◌≡◌, List, Some, MatchResult};
ghost use Rattle.std.specs.declared.option.Option.{Option as Maybe};
ghost use Rattle.ct_base.specs.Inode.{inode};
ghost use Rattle.ct_base.specs.View.{view};
ghost use Rattle.ct_tree.specs.Tree.{Tree};
ghost use Rattle.ct_tree.specs.declared.call.Refusal.{Refusal as Refused};
ghost use Rattle.ct_commit.specs.Rest.{IsAtRest, StandsFor};
ghost use Rattle.ct_find.specs.Files.{FindsFile, IsFileAt, path_checks};

use crate::node::find_node_by;
use ct_base::{DIRECTORY_KIND, Inode};
use ct_dir::Finder;
use ct_path::parse;
use ct_pm::Pm;
use ct_tree::Refusal;

/// The file to which a path leads, by its number and its inode, or why the path leads to none.
pub fn find_file<D: Pm, F: Finder>(
    dev: &D,
    finder: &F,
    path: &[u8],
) -> Result<(u64, Inode), Refusal>
    requires known { F.agrees finder.now (D.words dev.now) }
    requires rest { IsAtRest (D.words dev.now) }
    ensures { FindsFile (D.words dev.now) path.now result }
{
    let (number, inode) = match find_node_by(dev, finder, path) {
        Ok(node) => node,
        Err(refusal) => return Err(refusal),
    };
    if inode.kind == DIRECTORY_KIND {
        return Err(Refusal::IsDir);
    }
    Ok((number, inode))
}

/// The two files to which paths lead, by their numbers, or why one of them leads to none: a path that is none is told before one
/// that leads nowhere, and that before one that leads to a directory.
pub fn find_files<D: Pm, F: Finder>(
    dev: &D,
    finder: &F,
    path: &[u8],
    other: &[u8],
) -> Result<(u64, u64), Refusal>
    requires known { F.agrees finder.now (D.words dev.now) }
    requires rest { IsAtRest (D.words dev.now) }
    ensures { MatchResult result
        (λ found. IsFileAt (D.words dev.now) path.now found.0 (inode (view (D.words dev.now)) found.0)
        × IsFileAt (D.words dev.now) other.now found.1 (inode (view (D.words dev.now)) found.1))
        (λ r. (t : Tree) → StandsFor (D.words dev.now) t → (more : List (Maybe Refused)) → path_checks t path.now other.now more ≡ Some r) }
{
    let (first, one) = match find_node_by(dev, finder, path) {
        Ok(node) => node,
        Err(refusal) => match parse(other) {
            Some(_) => return Err(refusal),
            None => return Err(Refusal::BadPath),
        },
    };
    let (second, two) = match find_node_by(dev, finder, other) {
        Ok(node) => node,
        Err(refusal) => return Err(refusal),
    };
    if one.kind == DIRECTORY_KIND {
        return Err(Refusal::IsDir);
    }
    if two.kind == DIRECTORY_KIND {
        return Err(Refusal::IsDir);
    }
    Ok((first, second))
}
