// Where a write lies, by pages.
ghost use Rattle.std.specs.Prelude.{◌≡◌, ℕ, ◌+◌, ◌/◌, ◌<◌, ◌≤◌};
ghost use Rattle.ct_base.specs.Plan.{stage as stage_of, touched as touched_of};

use ct_base::{PAGE_BYTES, SLOT_SPAN, STAGING_SLOT};

// The virtual page of an address.
pub fn page_of(at: u64) -> u64
    ensures { result ≡ at / PAGE_BYTES }
{
    at / PAGE_BYTES
}

// The page for it in the staging slot.
pub fn staged_page(at: u64) -> u64
    ensures { result ≡ stage_of at / PAGE_BYTES }
{
    (STAGING_SLOT * SLOT_SPAN + at % SLOT_SPAN) / PAGE_BYTES
}

// How many pages a range of bytes touches.
pub fn touched(off: u64, len: u64) -> u64
    requires some { 1 ≤ len }
    requires fits { off + len ≤ SLOT_SPAN }
    ensures { result ≡ touched_of off len }
{
    (off + len - 1) / PAGE_BYTES - off / PAGE_BYTES + 1
}
