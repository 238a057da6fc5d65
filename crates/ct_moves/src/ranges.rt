// An exchange: what it looks at, and what becomes of its files.
ghost use Rattle.std.specs.Prelude.{◌≡◌, ◌≤◌, ◌+◌, ◌∷◌, [], Ok, Some, true, IfOk, MatchResult, if◌then◌else◌, length, not};
ghost use Rattle.std.specs.Str.{bytes_eq};
ghost use Rattle.std.specs.List.{list_all};
ghost use Rattle.ct_base.specs.Path.{is_name, texts};
ghost use Rattle.ct_moves.specs.Does.{Does};
ghost use Rattle.ct_tree.specs.Checks.{Passes, above, are_ranges, first_of, is_dir, no_node, overlap, refuse_if};
ghost use Rattle.ct_tree.specs.Content.{range, written};
ghost use Rattle.ct_tree.specs.Named.{AreNames};
ghost use Rattle.ct_tree.specs.Ordered.{IsTree};
ghost use Rattle.ct_tree.specs.Resolve.{IsBelowRoot, IsDir, put, resolve};
ghost use Rattle.ct_tree.specs.Step.{exchange, exchange_limit, file_limit};
ghost use Rattle.ct_tree.specs.Tree.{File};
ghost use Rattle.ct_tree.specs.declared.call.Refusal.TheVariants.{BadRange as bad_range, TooLong as too_long};

use ct_base::NoMemory;
use ct_node::Node;
use ct_tree::checks::{EXCHANGE_BYTES, check_apart, check_limit, check_ranges};
use ct_tree::content::with_range;
use ct_tree::{Refusal, Reply, Stop};
use std::alloc::Global;

/// Two paths, with the ranges of their files that change places. Offsets and length are in bytes.
#[derive(Drop)]
pub struct TwoRanges<'a> {
    pub path: &'a [u8],
    pub off: u64,
    pub other: &'a [u8],
    pub other_off: u64,
    pub len: u64,
}

/// Exchanges two ranges of the files that these names lead to. Where the table of calls refuses it, or memory runs out, the tree
/// is as before.
pub fn exchange(
    alloc: Global,
    root: &mut Node,
    asked: &TwoRanges<'_>,
    names: &[&[u8]],
    others: &[&[u8]],
) -> Result<Reply, Stop>
    requires tree { IsTree root.old }
    requires dir { IsDir root.old }
    requires names { AreNames asked.now.path.now (texts names.now) }
    requires others { AreNames asked.now.other.now (texts others.now) }
    ensures does { Does root.old (exchange asked.now.path.now asked.now.off asked.now.other.now asked.now.other_off asked.now.len) result root.new }
    ensures tree { IsTree root.new }
    ensures dir { IsDir root.new }
{
    let (one, two) = two_files(root, names, others)?;
    check_exchange(asked, one, two)?;
    let (first, second) = exchanged(alloc, asked, one, two)?;
    set_file(root, names, first);
    set_file(root, others, second);
    Ok(Reply::Done)
}

/// Puts a file of these bytes, at most `FILE_BYTES` of them, in the place of what the names lead to.
pub fn set_file(root: &mut Node, names: &[&[u8]], bytes: Vec<u8>)
    requires tree { IsTree root.old }
    requires dir { IsDir root.old }
    requires there { IsBelowRoot root.old (texts names.now) }
    requires names { list_all is_name (texts names.now) ≡ true }
    requires short { length bytes.items ≤ file_limit }
    ensures file { root.new ≡ put root.old (texts names.now) (File bytes.items) }
    ensures tree { IsTree root.new }
    ensures dir { IsDir root.new }
{
    root.replace(names, Node::file(bytes));
}

/// The bytes of the files that two paths lead to.
fn two_files<'a>(
    root: &'a Node,
    names: &[&[u8]],
    others: &[&[u8]],
) -> Result<(&'a [u8], &'a [u8]), Refusal>
    ensures { MatchResult result
        (λ files. (resolve root.now (texts names.now) ≡ Ok (File files.0.now)) × (resolve root.now (texts others.now) ≡ Ok (File files.1.now)))
        (λ e. first_of (no_node (resolve root.now (texts names.now)) ∷ no_node (resolve root.now (texts others.now))
        ∷ is_dir (resolve root.now (texts names.now)) ∷ is_dir (resolve root.now (texts others.now)) ∷ []) ≡ Some e) }
{
    let one = root.find(names)?;
    let two = root.find(others)?;
    let one = one.as_file()?;
    let two = two.as_file()?;
    Ok((one, two))
}

/// The ranges may change places.
fn check_exchange(asked: &TwoRanges<'_>, one: &[u8], two: &[u8]) -> Result<(), Refusal>
    ensures { Passes result (first_of (refuse_if (not (are_ranges one.now asked.now.off two.now asked.now.other_off asked.now.len)) bad_range
        ∷ overlap asked.now.path.now asked.now.off asked.now.other.now asked.now.other_off asked.now.len ∷ above asked.now.len exchange_limit too_long ∷ [])) }
{
    check_ranges(one, asked.off, two, asked.other_off, asked.len)?;
    check_apart(
        asked.path,
        asked.off,
        asked.other,
        asked.other_off,
        asked.len,
    )?;
    check_limit(asked.len, EXCHANGE_BYTES, Refusal::TooLong)
}

/// The bytes of two files, or twice those of one, in which two ranges have changed places.
fn exchanged(
    alloc: Global,
    asked: &TwoRanges<'_>,
    one: &[u8],
    two: &[u8],
) -> Result<(Vec<u8>, Vec<u8>), NoMemory>
    requires within { asked.now.off + asked.now.len ≤ length one.now }
    requires within_too { asked.now.other_off + asked.now.len ≤ length two.now }
    requires short { length one.now ≤ file_limit }
    requires short_too { length two.now ≤ file_limit }
    requires same { bytes_eq asked.now.path.now asked.now.other.now ≡ true → one.now ≡ two.now }
    ensures first { IfOk result (λ made. made.0.items ≡ written one.now asked.now.off (range two.now asked.now.other_off asked.now.len)) }
    ensures second { IfOk result (λ made. made.1.items ≡ written (if bytes_eq asked.now.path.now asked.now.other.now then made.0.items else two.now) asked.now.other_off (range one.now asked.now.off asked.now.len)) }
    ensures length { IfOk result (λ made. length made.0.items ≡ length one.now) }
    ensures length_too { IfOk result (λ made. length made.1.items ≡ length two.now) }
{
    let first = with_range(alloc, one, asked.off, two, asked.other_off, asked.len)?;
    if asked.path == asked.other {
        let both = with_range(alloc, &first, asked.other_off, one, asked.off, asked.len)?;
        return Ok((first, both));
    }
    let second = with_range(alloc, two, asked.other_off, one, asked.off, asked.len)?;
    Ok((first, second))
}
