// The object to which a path leads.
ghost use Rattle.ct_commit.specs.Rest.{IsAtRest};
ghost use Rattle.ct_find.specs.Nodes.{FindsNode};

use ct_base::Inode;
use ct_dir::{Finder, OnDevice};
use ct_inode::get;
use ct_path::{refusal_of, resolve_by};
use ct_pm::Pm;
use ct_tree::Refusal;

/// The object to which a path leads, by its number and its inode, or why the path leads nowhere, where one finds the entries of
/// its names.
pub fn find_node_by<D: Pm, F: Finder>(
    dev: &D,
    finder: &F,
    path: &[u8],
) -> Result<(u64, Inode), Refusal>
    requires known { F.agrees finder.now (D.words dev.now) }
    requires rest { IsAtRest (D.words dev.now) }
    ensures { FindsNode (D.words dev.now) path.now result }
{
    match resolve_by(dev, finder, path) {
        Ok(number) => Ok((number, get(dev, number))),
        Err(fault) => Err(refusal_of(fault)),
    }
}

/// The object to which a path leads, by its number and its inode, or why the path leads nowhere.
pub fn find_node<D: Pm>(dev: &D, path: &[u8]) -> Result<(u64, Inode), Refusal>
    requires { IsAtRest (D.words dev.now) }
    ensures { FindsNode (D.words dev.now) path.now result }
{
    find_node_by(dev, &OnDevice, path)
}
