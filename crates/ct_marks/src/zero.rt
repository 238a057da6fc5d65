// Words that are 0.
ghost use Rattle.std.specs.Prelude.{◌≡◌, ◌↔◌, ℕ, ◌<◌, ◌≤◌, length, IsTrue};
ghost use Rattle.ct_base.specs.Walk.{word};

use ct_pm::Pm;

/// Whether the words from one on are 0, up to the one before another.
pub fn are_zero<D: Pm>(dev: &D, from: u64, to: u64) -> bool
    requires { to ≤ length (D.words dev.now) }
    ensures { IsTrue result ↔ ((w : ℕ) → from ≤ w → w < to → word (D.words dev.now) w ≡ 0) }
{
    for w in from..to {
        if dev.load(w) != 0 {
            return false;
        }
    }
    true
}
