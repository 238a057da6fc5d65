// The checks of numbers and names, each of which is a refusal where it fails.
ghost use Rattle.std.specs.Prelude.{◌≡◌, nat_le, ◌+◌, ◌&&◌, nat_lt, not, length};
ghost use Rattle.std.specs.Str.{bytes_eq};
ghost use Rattle.ct_base.specs.Path.{texts};
ghost use Rattle.ct_tree.specs.Checks.{Passes, above, refuse_if, has_none, overlap, are_ranges};
ghost use Rattle.ct_tree.specs.Resolve.{lies_below};
ghost use Rattle.ct_tree.specs.Step.{file_limit};
ghost use Rattle.ct_tree.specs.declared.call.Refusal.TheVariants.{TooBig as too_big, IntoSelf as into_self, BadRange as bad_range};

use crate::call::Refusal;
use ct_base::{PAGE_BYTES, SLOT_SPAN};

/// The longest file, in bytes: a partition of the highest level fills one root slot.
pub const FILE_BYTES: u64 = SLOT_SPAN;

/// The longest read, in bytes.
pub const READ_BYTES: u64 = 1_048_576;

/// The longest exchange, in bytes: 4,000 pages, since a record has room for 8,184 pairs and each page takes two.
pub const EXCHANGE_BYTES: u64 = 16_384_000;

/// A number is at most its limit.
pub fn check_limit(n: u64, limit: u64, refusal: Refusal) -> Result<(), Refusal>
    ensures { Passes result (above n limit refusal) }
{
    if n <= limit { Ok(()) } else { Err(refusal) }
}

/// A file may be so long: `len` bytes from `off` on.
pub fn check_end(off: u64, len: u64) -> Result<(), Refusal>
    ensures { Passes result (above (off + len) file_limit too_big) }
{
    if off > FILE_BYTES {
        return Err(Refusal::TooBig);
    }
    check_limit(len, FILE_BYTES - off, Refusal::TooBig)
}

/// The names do not lead to the root.
pub fn check_not_root(names: &[&[u8]], refusal: Refusal) -> Result<(), Refusal>
    ensures { Passes result (refuse_if (has_none (texts names.now)) refusal) }
{
    match names {
        [] => Err(refusal),
        [_, ..] => Ok(()),
    }
}

/// The second names do not lead below where the first lead.
pub fn check_not_below(names: &[&[u8]], to: &[&[u8]]) -> Result<(), Refusal>
    ensures { Passes result (refuse_if (lies_below (texts names.now) (texts to.now)) into_self) }
{
    if lies_below(names, to) {
        Err(Refusal::IntoSelf)
    } else {
        Ok(())
    }
}

/// Whether the second names begin with the first, and go on.
fn lies_below(names: &[&[u8]], to: &[&[u8]]) -> bool
    ensures { result ≡ lies_below (texts names.now) (texts to.now) }
{
    if to.len() <= names.len() {
        return false;
    }
    for (i, name) in names.iter().enumerate() {
        if *name != to[i] {
            return false;
        }
    }
    true
}

/// The numbers are multiples of a page, and both ranges end within their files.
pub fn check_ranges(
    bytes: &[u8],
    off: u64,
    other: &[u8],
    other_off: u64,
    len: u64,
) -> Result<(), Refusal>
    ensures { Passes result (refuse_if (not (are_ranges bytes.now off other.now other_off len)) bad_range) }
{
    if off % PAGE_BYTES != 0 || other_off % PAGE_BYTES != 0 || len % PAGE_BYTES != 0 {
        return Err(Refusal::BadRange);
    }
    if ends_within(bytes, off, len) && ends_within(other, other_off, len) {
        Ok(())
    } else {
        Err(Refusal::BadRange)
    }
}

/// Whether `len` bytes from `off` on are bytes of the file.
fn ends_within(bytes: &[u8], off: u64, len: u64) -> bool
    ensures { result ≡ nat_le (off + len) (length bytes.now) }
{
    let size = bytes.len() as u64;
    off <= size && len <= size - off
}

/// Two ranges of one file share no byte.
pub fn check_apart(
    path: &[u8],
    off: u64,
    other: &[u8],
    other_off: u64,
    len: u64,
) -> Result<(), Refusal>
    ensures { Passes result (overlap path.now off other.now other_off len) }
{
    if path == other && off.abs_diff(other_off) < len {
        Err(Refusal::Overlap)
    } else {
        Ok(())
    }
}
