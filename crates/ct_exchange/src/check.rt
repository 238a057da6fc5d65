// The checks of an exchange's numbers.
ghost use Rattle.std.specs.Prelude.{◌≡◌, ◌+◌, nat_le};
ghost use Rattle.ct_tree.specs.Checks.{Passes, first_of};
ghost use Rattle.ct_exchange.specs.Numbers.{number_checks};

use ct_base::PAGE_BYTES;
use ct_tree::Refusal;
use ct_tree::checks::EXCHANGE_BYTES;

// Whether `len` bytes from `off` on lie within a size.
fn ends_within(size: u64, off: u64, len: u64) -> bool
    ensures { result ≡ nat_le (off + len) size }
{
    off <= size && len <= size - off
}

/// The numbers of an exchange: whole pages within both sizes, of one file two that do not meet, and not too many.
pub(crate) fn check_numbers(
    path: &[u8],
    size: u64,
    off: u64,
    other: &[u8],
    other_size: u64,
    other_off: u64,
    len: u64,
) -> Result<(), Refusal>
    ensures { Passes result (first_of (number_checks path.now size off other.now other_size other_off len)) }
{
    if off % PAGE_BYTES != 0 || other_off % PAGE_BYTES != 0 || len % PAGE_BYTES != 0 {
        return Err(Refusal::BadRange);
    }
    if !ends_within(size, off, len) || !ends_within(other_size, other_off, len) {
        return Err(Refusal::BadRange);
    }
    if path == other && off.abs_diff(other_off) < len {
        return Err(Refusal::Overlap);
    }
    if len > EXCHANGE_BYTES {
        return Err(Refusal::TooLong);
    }
    Ok(())
}
