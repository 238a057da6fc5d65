// The next data of a file, over its holes.
ghost use Rattle.std.specs.Prelude.{◌≡◌, ◌≢◌, ◌<◌, ◌≤◌, IfOk, IfSome, MatchOption};
ghost use Rattle.ct_base.specs.Settled.{HasPages};
ghost use Rattle.ct_base.specs.Walk.{walk};
ghost use Rattle.ct_call.specs.Calls.{StandsFor};
ghost use Rattle.ct_commit.specs.Rest.{IsAtRest};
ghost use Rattle.ct_look.specs.Holes.{AreUnmapped, IsHole, IsMappedAt, IsNextData, IsNextMapped};
ghost use Rattle.ct_look.specs.Looks.{IsLook, answer_of};
ghost use Rattle.ct_tree.specs.Checks.{at};
ghost use Rattle.ct_tree.specs.Content.{bytes_in};
ghost use Rattle.ct_tree.specs.Step.{locate as locate_call, refusal};
ghost use Rattle.ct_tree.specs.Tree.{Tree};

use crate::peek::{SECOND_SPAN, THIRD_SPAN, step};
use ct_base::{ADDRESS_END, DIRECTORY_KIND, PAGE_BYTES, ROOT_PAGE, SLOT_SPAN, TABLE_ENTRIES};
use ct_cache::Memory;
use ct_find::find_node_by;
use ct_pm::Pm;
use ct_tree::Refusal;

// Where the hole around an address ends, at the earliest: an entry on its walk that names no page leads none of its addresses
// to one. `None` where the address has a page.
fn hole_end<D: Pm>(dev: &D, address: u64) -> Option<u64>
    requires pages { HasPages (D.words dev.now) }
    requires high { address < ADDRESS_END }
    ensures { MatchOption result (walk (D.words dev.now) address ≢ 0) (λ end. IsHole (D.words dev.now) address end) }
{
    let Some(third) = step(dev, ROOT_PAGE, address / SLOT_SPAN % TABLE_ENTRIES) else {
        return Some((address / SLOT_SPAN + 1) * SLOT_SPAN);
    };
    let Some(second) = step(dev, third, address / THIRD_SPAN % TABLE_ENTRIES) else {
        return Some((address / THIRD_SPAN + 1) * THIRD_SPAN);
    };
    let Some(first) = step(dev, second, address / SECOND_SPAN % TABLE_ENTRIES) else {
        return Some((address / SECOND_SPAN + 1) * SECOND_SPAN);
    };
    match step(dev, first, address / PAGE_BYTES % TABLE_ENTRIES) {
        Some(_) => None,
        None => Some((address / PAGE_BYTES + 1) * PAGE_BYTES),
    }
}

// The first address from one on, and before another, that has a page. What an absent table would lead to is stepped over at
// once.
fn next_mapped<D: Pm>(dev: &D, from: u64, end: u64) -> Option<u64>
    requires pages { HasPages (D.words dev.now) }
    requires high { end ≤ ADDRESS_END }
    ensures { MatchOption result (AreUnmapped (D.words dev.now) from end) (λ v. IsNextMapped (D.words dev.now) from end v) }
{
    let mut here = from;
    'holes: while here < end {
        match hole_end(dev, here) {
            Some(past) => here = past,
            None => return Some(here),
        }
    }
    None
}

/// Where the data of the file at a path come next, from an offset on, both in bytes: at the offset itself where its page is
/// there, and else where the next page that is there begins. `None` where none comes before the file's end.
pub fn data_at<D: Pm, M: Memory>(
    dev: &D,
    memory: &M,
    path: &[u8],
    off: u64,
) -> Result<Option<u64>, Refusal>
    requires known { M.agrees memory.now (D.words dev.now) }
    requires rest { IsAtRest (D.words dev.now) }
    ensures answer { (t : Tree) → StandsFor (D.words dev.now) t
        → IsLook (refusal t (locate_call path.now)) (λ found. IsNextData (bytes_in (at t path.now)) off found) (answer_of result) }
    ensures mapped { IfOk result (λ found. IfSome found (λ next. IsMappedAt (D.words dev.now) path.now next)) }
{
    let (_, inode) = find_node_by(dev, memory, path)?;
    if inode.kind == DIRECTORY_KIND {
        return Err(Refusal::IsDir);
    }
    if off >= inode.size {
        return Ok(None);
    }
    match next_mapped(dev, inode.base + off, inode.base + inode.size) {
        Some(address) => Ok(Some(address - inode.base)),
        None => Ok(None),
    }
}
