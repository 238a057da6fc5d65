// Where the names of a path lead, directory by directory from inode 1.
ghost use Rattle.std.specs.Prelude.{◌≡◌, ◌≢◌, ◌≤◌, ℕ, [], ◌∷◌, List, IfOk, Err};
ghost use Rattle.ct_base.specs.Walk.{AreTables};
ghost use Rattle.ct_base.specs.View.{view, inode_count};
ghost use Rattle.ct_base.specs.Inode.{IsLive};
ghost use Rattle.ct_base.specs.Rules.{Sound};
ghost use Rattle.ct_tree.specs.Lands.{files};
ghost use Rattle.ct_path.specs.Left.{AreNames};
ghost use Rattle.ct_path.specs.Meets.{Meets};
ghost use Rattle.ct_path.specs.Resolves.{Follows, FindsParent, Resolves, Splits};

use crate::{Names, PathFault, parse};
use ct_base::{DIRECTORY_KIND, LEAST_INODES, MOST_INODES};
use ct_dir::{Finder, OnDevice};
use ct_inode::get;
use ct_pm::Pm;

/// The inode of the root directory.
const ROOT: u64 = 1;

// The inode that a name leads to from an inode.
fn step<D: Pm, F: Finder>(dev: &D, finder: &F, number: u64, name: &[u8]) -> Result<u64, PathFault>
    requires known { F.agrees finder.now (D.words dev.now) }
    requires tables { AreTables (D.words dev.now) }
    requires sound { Sound (D.words dev.now) }
    requires most { inode_count (D.words dev.now) ≤ MOST_INODES }
    requires live { (files (D.words dev.now) number).kind ≢ 0 }
    ensures meets { Meets (files (D.words dev.now)) number name.now result }
    ensures live { IfOk result (λ next. (files (D.words dev.now) next).kind ≢ 0) }
{
    let dir = get(dev, number);
    if dir.kind != DIRECTORY_KIND {
        return Err(PathFault::NotDir);
    }
    match finder.find(dev, number, dir, name) {
        None => Err(PathFault::NotFound),
        Some(found) => Ok(found.inode),
    }
}

// The inode that the names lead to from the root.
fn follow<D: Pm, F: Finder>(dev: &D, finder: &F, names: Names<'_>) -> Result<u64, PathFault>
    requires known { F.agrees finder.now (D.words dev.now) }
    requires tables { AreTables (D.words dev.now) }
    requires sound { Sound (D.words dev.now) }
    requires least { LEAST_INODES ≤ inode_count (D.words dev.now) }
    requires most { inode_count (D.words dev.now) ≤ MOST_INODES }
    ensures follows { Follows (files (D.words dev.now)) names.entry result }
    ensures text { result ≢ Err PathFault.BadPath }
    ensures live { IfOk result (λ i. (files (D.words dev.now) i).kind ≢ 0) }
{
    let mut number = ROOT;
    for name in names {
        number = step(dev, finder, number, name)?;
    }
    Ok(number)
}

/// The inode that a path leads to, where one finds the entries of its names.
///
/// # Errors
///
/// `BadPath` where the bytes are no path; else what the first name that leads nowhere meets: `NotFound` where its directory
/// has no such name, `NotDir` where a file stands before it.
pub fn resolve_by<D: Pm, F: Finder>(dev: &D, finder: &F, path: &[u8]) -> Result<u64, PathFault>
    requires known { F.agrees finder.now (D.words dev.now) }
    requires tables { AreTables (D.words dev.now) }
    requires sound { Sound (D.words dev.now) }
    requires least { LEAST_INODES ≤ inode_count (D.words dev.now) }
    requires most { inode_count (D.words dev.now) ≤ MOST_INODES }
    ensures resolves { Resolves (files (D.words dev.now)) path.now result }
    ensures live { IfOk result (λ i. IsLive (view (D.words dev.now)) (inode_count (D.words dev.now)) i) }
{
    match parse(path) {
        None => Err(PathFault::BadPath),
        Some(names) => follow(dev, finder, names),
    }
}

/// The inode that a path leads to.
///
/// # Errors
///
/// As [`resolve_by`].
pub fn resolve<D: Pm>(dev: &D, path: &[u8]) -> Result<u64, PathFault>
    requires tables { AreTables (D.words dev.now) }
    requires sound { Sound (D.words dev.now) }
    requires least { LEAST_INODES ≤ inode_count (D.words dev.now) }
    requires most { inode_count (D.words dev.now) ≤ MOST_INODES }
    ensures resolves { Resolves (files (D.words dev.now)) path.now result }
    ensures live { IfOk result (λ i. IsLive (view (D.words dev.now)) (inode_count (D.words dev.now)) i) }
{
    resolve_by(dev, &OnDevice, path)
}

// The inode that all names but the last lead to, which is a directory, and the last of them.
fn split<'p, D: Pm, F: Finder>(
    dev: &D,
    finder: &F,
    first: &'p [u8],
    rest: Names<'p>,
) -> Result<(u64, &'p [u8]), PathFault>
    requires known { F.agrees finder.now (D.words dev.now) }
    requires tables { AreTables (D.words dev.now) }
    requires sound { Sound (D.words dev.now) }
    requires least { LEAST_INODES ≤ inode_count (D.words dev.now) }
    requires most { inode_count (D.words dev.now) ≤ MOST_INODES }
    requires valid { AreNames (first.now ∷ rest) }
    ensures finds { FindsParent (files (D.words dev.now)) (first.now ∷ rest.entry) result }
    ensures text { result ≢ Err PathFault.BadPath }
    ensures live { IfOk result (λ split. (files (D.words dev.now) split.0).kind ≢ 0) }
{
    let mut number = ROOT;
    let mut last = first;
    for name in rest {
        number = step(dev, finder, number, last)?;
        last = name;
    }
    let dir = get(dev, number);
    if dir.kind == DIRECTORY_KIND {
        return Ok((number, last));
    }
    Err(PathFault::NotDir)
}

/// The inode of the directory in which a path other than `/` lies, and the last name of the path, where one finds the entries of
/// its names.
///
/// # Errors
///
/// As [`resolve_by`] has them for the path without its last name, and `NotDir` where that leads to a file.
pub fn parent_by<'p, D: Pm, F: Finder>(
    dev: &D,
    finder: &F,
    path: &'p [u8],
) -> Result<(u64, &'p [u8]), PathFault>
    requires known { F.agrees finder.now (D.words dev.now) }
    requires tables { AreTables (D.words dev.now) }
    requires sound { Sound (D.words dev.now) }
    requires least { LEAST_INODES ≤ inode_count (D.words dev.now) }
    requires most { inode_count (D.words dev.now) ≤ MOST_INODES }
    requires below { path.now ≢ 47 ∷ [] }
    ensures splits { Splits (files (D.words dev.now)) path.now result }
    ensures live { IfOk result (λ split. IsLive (view (D.words dev.now)) (inode_count (D.words dev.now)) split.0) }
{
    let mut names = match parse(path) {
        None => return Err(PathFault::BadPath),
        Some(names) => names,
    };
    match names.next() {
        None => unreachable!(),
        Some(first) => split(dev, finder, first, names),
    }
}

/// The inode of the directory in which a path other than `/` lies, and the last name of the path.
///
/// # Errors
///
/// As [`parent_by`].
pub fn parent_of<'p, D: Pm>(dev: &D, path: &'p [u8]) -> Result<(u64, &'p [u8]), PathFault>
    requires tables { AreTables (D.words dev.now) }
    requires sound { Sound (D.words dev.now) }
    requires least { LEAST_INODES ≤ inode_count (D.words dev.now) }
    requires most { inode_count (D.words dev.now) ≤ MOST_INODES }
    requires below { path.now ≢ 47 ∷ [] }
    ensures splits { Splits (files (D.words dev.now)) path.now result }
    ensures live { IfOk result (λ split. IsLive (view (D.words dev.now)) (inode_count (D.words dev.now)) split.0) }
{
    parent_by(dev, &OnDevice, path)
}
