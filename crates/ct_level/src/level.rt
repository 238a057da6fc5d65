ghost use Rattle.std.specs.Prelude.{◌≡◌, ℕ, ◌<◌, ◌≤◌};
ghost use Rattle.ct_base.specs.Inode.{part_bytes};
ghost use Rattle.ct_base.specs.Plan.{level_for as least_level};

use crate::part::{TOP, length_of};
use ct_base::{SLOT_SPAN, TOP_LEVEL};

/// The least level whose length is at least `end` bytes, for an `end` of at most `SLOT_SPAN`.
pub fn level_for(end: u64) -> u32
    requires { end ≤ SLOT_SPAN }
    ensures exact { result ≡ least_level end }
    ensures level { result ≤ TOP_LEVEL }
    ensures holds { end ≤ part_bytes result }
    ensures least { (k : ℕ) → k < result → part_bytes k < end }
{
    for level in 0..TOP {
        if end <= length_of(level) {
            return level;
        }
    }
    TOP
}
