// The calls that only look at what is there.
ghost use Rattle.std.specs.Prelude.{◌≡◌, ◌≢◌, ◌≤◌, ◌↔◌, Option, Some, Err, IsNone, MatchOption, IfOk, OnErr, length};
ghost use Rattle.std.specs.Option.{option_map};
ghost use Rattle.ct_dir.specs.Directory.{name_in};
ghost use Rattle.ct_tree.specs.Checks.{at};
ghost use Rattle.ct_tree.specs.Content.{bytes_in, range};
ghost use Rattle.ct_tree.specs.Runs.{MayLieAt};
ghost use Rattle.ct_tree.specs.Step.{list as list_call, listed_in, locate as locate_call, read as read_call, read_limit, refusal, size_at, stat as stat_call, step};
ghost use Rattle.ct_tree.specs.Tree.{Tree};
ghost use Rattle.ct_call.specs.Calls.{StandsFor};
ghost use Rattle.ct_look.specs.Content.{IsRead};
ghost use Rattle.ct_look.specs.Looks.{IsLook, IsPlaceAt, answer_of, next_name, stat_answer};
ghost use Rattle.ct_call.specs.Mounted.{Volume};
ghost use Rattle.ct_commit.specs.Rest.{IsAtRest};

use crate::content::put_content;
use crate::seen::Stat;
use ct_base::{DIRECTORY_KIND, NameBuf};
use ct_cache::Memory;
use ct_call::FsError;
use ct_dir::{entries, name_at, next_after};
use ct_find::find_node_by;
use ct_pm::Pm;
use ct_tree::Refusal;
use ct_tree::checks::READ_BYTES;

/// The answer of a mount that is ready.
pub fn answer_of<T>(seen: Result<T, Refusal>) -> Result<T, FsError>
    ensures { result ≡ answer_of seen }
{
    match seen {
        Ok(value) => Ok(value),
        Err(refusal) => Err(FsError::Refused(refusal)),
    }
}

/// What is told of the object at a path.
pub fn stat_at<D: Pm, M: Memory>(dev: &D, memory: &M, path: &[u8]) -> Result<Stat, Refusal>
    requires known { M.agrees memory.now (D.words dev.now) }
    requires rest { IsAtRest (D.words dev.now) }
    ensures { (t : Tree) → StandsFor (D.words dev.now) t → answer_of result ≡ stat_answer (step t (stat_call path.now)).0 }
{
    let (_, inode) = find_node_by(dev, memory, path)?;
    if inode.kind == DIRECTORY_KIND {
        return Ok(Stat::Dir {
            count: entries(dev, inode),
        });
    }
    Ok(Stat::File { size: inode.size })
}

/// The first name in the directory at a path that is later than another, or of all.
pub fn next_at<D: Pm, M: Memory>(
    dev: &D,
    memory: &M,
    path: &[u8],
    after: Option<&[u8]>,
) -> Result<Option<NameBuf>, Refusal>
    requires known { M.agrees memory.now (D.words dev.now) }
    requires rest { IsAtRest (D.words dev.now) }
    ensures { (t : Tree) → StandsFor (D.words dev.now) t
        → IsLook (refusal t (list_call path.now))
        (λ found. option_map (λ name. name.items) found ≡ next_name (name_in after.entry) (listed_in (at t path.now)))
        (answer_of result) }
{
    let (_, inode) = find_node_by(dev, memory, path)?;
    if inode.kind != DIRECTORY_KIND {
        return Err(Refusal::NotDir);
    }
    match next_after(dev, inode, after) {
        Some(found) => Ok(Some(name_at(dev, inode, found.offset))),
        None => Ok(None),
    }
}

/// The address and the level of the partition of the file at a path.
pub fn locate_at<D: Pm, M: Memory>(dev: &D, memory: &M, path: &[u8]) -> Result<(u64, u32), Refusal>
    requires known { M.agrees memory.now (D.words dev.now) }
    requires rest { IsAtRest (D.words dev.now) }
    ensures { (t : Tree) → StandsFor (D.words dev.now) t
        → IsLook (refusal t (locate_call path.now))
        (λ place. IsPlaceAt (D.words dev.now) path.now place × MayLieAt (size_at t path.now) place.0 place.1)
        (answer_of result) }
{
    let (_, inode) = find_node_by(dev, memory, path)?;
    if inode.kind == DIRECTORY_KIND {
        return Err(Refusal::IsDir);
    }
    Ok((inode.base, inode.level as u32))
}

/// Puts the bytes of the file at a path, from an offset on and at most so many, at the front of a buffer; answers their number.
pub fn read_at<D: Pm, M: Memory>(
    dev: &D,
    memory: &M,
    path: &[u8],
    off: u64,
    len: u64,
    buf: &mut [u8],
) -> Result<u64, Refusal>
    requires known { M.agrees memory.now (D.words dev.now) }
    requires rest { IsAtRest (D.words dev.now) }
    requires room { len ≤ read_limit → len ≤ length buf.old }
    ensures answer { (t : Tree) → StandsFor (D.words dev.now) t
        → IsLook (refusal t (read_call path.now off len)) (IsRead (range (bytes_in (at t path.now)) off len) buf.old buf.new) (answer_of result) }
    ensures bound { IfOk result (λ count. count ≤ length buf.old) }
    ensures kept { OnErr result (buf.new ≡ buf.old) }
{
    let (_, inode) = find_node_by(dev, memory, path)?;
    if inode.kind == DIRECTORY_KIND {
        return Err(Refusal::IsDir);
    }
    if len > READ_BYTES {
        return Err(Refusal::TooLong);
    }
    if off >= inode.size {
        return Ok(0);
    }
    let count = len.min(inode.size - off);
    put_content(dev, memory, inode.base + off, buf, count as usize);
    Ok(count)
}
