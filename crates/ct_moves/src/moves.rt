// A rename: what it looks at, and what it moves.
ghost use Rattle.std.specs.Prelude.{◌≡◌, ◌∷◌, [], None, OnOk};
ghost use Rattle.ct_base.specs.Path.{texts};
ghost use Rattle.ct_moves.specs.Does.{Does};
ghost use Rattle.ct_tree.specs.Checks.{Passes, first_of, has_none, no_dir, no_node, refuse_if, unlike};
ghost use Rattle.ct_tree.specs.Named.{AreNames};
ghost use Rattle.ct_tree.specs.Ordered.{IsTree};
ghost use Rattle.ct_tree.specs.Resolve.{HasParent, IsDir, lies_below, parent, resolve};
ghost use Rattle.ct_tree.specs.Step.{rename};
ghost use Rattle.ct_tree.specs.declared.call.Refusal.TheVariants.{IntoSelf as into_self, IsRoot as is_root};

use ct_node::Node;
use ct_tree::checks::{check_not_below, check_not_root};
use ct_tree::path::parent;
use ct_tree::{Refusal, Reply, Stop};
use std::alloc::Global;

/// Renames `path` to `to`, which have these names. Where the table of calls refuses it, or memory runs out, the tree is as before.
pub fn rename(
    alloc: Global,
    root: &mut Node,
    path: &[u8],
    names: &[&[u8]],
    to: &[u8],
    target: &[&[u8]],
) -> Result<Reply, Stop>
    requires tree { IsTree root.old }
    requires dir { IsDir root.old }
    requires names { AreNames path.now (texts names.now) }
    requires target { AreNames to.now (texts target.now) }
    ensures does { Does root.old (rename path.now to.now) result root.new }
    ensures tree { IsTree root.new }
    ensures dir { IsDir root.new }
{
    check_move(root, names, target)?;
    if path == to {
        return Ok(Reply::Done);
    }
    check_replaced(root, names, target)?;
    let moved = root.moved(alloc, names, target)?;
    *root = moved;
    Ok(Reply::Done)
}

/// Something is there that may move, and a directory to which.
fn check_move(root: &Node, names: &[&[u8]], to: &[&[u8]]) -> Result<(), Refusal>
    ensures below { OnOk result (refuse_if (has_none (texts to.now)) is_root ≡ None) }
    ensures parent { OnOk result (HasParent root.now (texts to.now)) }
    ensures passes { Passes result (first_of (refuse_if (has_none (texts names.now)) is_root ∷ refuse_if (has_none (texts to.now)) is_root
        ∷ no_node (resolve root.now (texts names.now)) ∷ no_dir (resolve root.now (parent (texts to.now)))
        ∷ refuse_if (lies_below (texts names.now) (texts to.now)) into_self ∷ [])) }
{
    check_not_root(names, Refusal::IsRoot)?;
    check_not_root(to, Refusal::IsRoot)?;
    root.find(names)?;
    root.dir_at(parent(to))?;
    check_not_below(names, to)
}

/// What moves may take the place of what is there.
fn check_replaced(root: &Node, names: &[&[u8]], to: &[&[u8]]) -> Result<(), Refusal>
    ensures { Passes result (unlike (resolve root.now (texts names.now)) (resolve root.now (texts to.now))) }
{
    match root.find(names) {
        Ok(node) => node.check_like(root, to),
        Err(_) => Ok(()),
    }
}
