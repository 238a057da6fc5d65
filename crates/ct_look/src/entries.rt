// The entries of a directory in the byte order of their names, all at once.
ghost use Rattle.std.specs.Prelude.{◌≡◌, ◌≤◌, IfOk, IfSome, OnErr, length};
ghost use Rattle.ct_call.specs.Calls.{StandsFor};
ghost use Rattle.ct_commit.specs.Rest.{IsAtRest};
ghost use Rattle.ct_look.specs.Looks.{AreSlots, IsListed, IsLook, answer_of};
ghost use Rattle.ct_tree.specs.Checks.{at};
ghost use Rattle.ct_tree.specs.Step.{list as list_call, listed_in, refusal};
ghost use Rattle.ct_tree.specs.Tree.{Tree};

use crate::seen::Listing;
use ct_base::DIRECTORY_KIND;
use ct_cache::Memory;
use ct_dir::sorted_offsets;
use ct_find::find_node_by;
use ct_pm::Pm;
use ct_tree::Refusal;

/// Puts the offsets of the slots of the directory at a path at the front of a buffer, in the byte order of their names; `None`
/// where they are more than fit. The names are then read by `ct_dir::name_at`.
pub fn entries_at<D: Pm, M: Memory>(
    dev: &D,
    memory: &M,
    path: &[u8],
    offsets: &mut [u64],
) -> Result<Option<Listing>, Refusal>
    requires known { M.agrees memory.now (D.words dev.now) }
    requires rest { IsAtRest (D.words dev.now) }
    ensures answer { (t : Tree) → StandsFor (D.words dev.now) t
        → IsLook (refusal t (list_call path.now)) (IsListed (D.words dev.now) (listed_in (at t path.now)) offsets.old offsets.new) (answer_of result) }
    ensures slots { IfOk result (λ found. IfSome found (AreSlots (D.words dev.now) offsets.new)) }
    ensures room { IfOk result (λ found. IfSome found (λ listing. listing.count ≤ length offsets.new)) }
    ensures kept { OnErr result (offsets.new ≡ offsets.old) }
{
    let (_, dir) = find_node_by(dev, memory, path)?;
    if dir.kind != DIRECTORY_KIND {
        return Err(Refusal::NotDir);
    }
    match sorted_offsets(dev, dir, offsets) {
        Some(count) => Ok(Some(Listing { dir, count })),
        None => Ok(None),
    }
}
