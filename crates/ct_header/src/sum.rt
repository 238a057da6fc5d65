ghost use Rattle.std.specs.Prelude.{◌≡◌, ℕ, ◌+◌, ◌-◌, ◌<◌, ◌≤◌, length, take, true};
ghost use Rattle.ct_base.specs.Ranges.{best, summary, rank, are_zero};

use ct_base::TOP_LEVEL;

/// 1 and the greatest level of a free range among the children of a level, by their bytes.
#[tactic(auto, using(ct_parts::proofs::Bytes::best_more))]
fn best_of(bytes: &[u8], level: u32) -> u8
    requires { level ≤ TOP_LEVEL }
    ensures value { result ≡ best level bytes.now }
    ensures most { result ≤ 223 }
{
    let mut most = 0;
    for byte in bytes {
        let rank = if *byte == 0 {
            level as u8 + 1
        } else {
            byte.saturating_sub(32)
        };
        most = most.max(rank);
    }
    most
}

/// Whether the bytes are 0.
fn are_all_zero(bytes: &[u8]) -> bool
    ensures { result ≡ are_zero bytes.now }
{
    for byte in bytes {
        if *byte != 0 {
            return false;
        }
    }
    true
}

/// The byte of a range that is not live, by the bytes of its children, which are of a level.
#[tactic(auto, unfolding(ct_base::specs::Ranges::summary))]
pub fn summary_of(bytes: &[u8], level: u32) -> u8
    requires { level ≤ TOP_LEVEL }
    ensures { result ≡ summary level bytes.now }
{
    if are_all_zero(bytes) {
        return 0;
    }
    32 + best_of(bytes, level)
}
