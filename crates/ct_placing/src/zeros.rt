// Stretches of words that are 0, by their virtual addresses.
ghost use Rattle.std.specs.Prelude.{◌≡◌, ◌↔◌, ◌⊎◌, ℕ, ◌+◌, ◌*◌, ◌%◌, ◌<◌, ◌≤◌, IsTrue, IfSome, IfNone};
ghost use Rattle.ct_base.specs.Rules.{IsRestZero};
ghost use Rattle.ct_base.specs.View.{inode_count, view};
ghost use Rattle.ct_base.specs.Walk.{AreTables};
ghost use Rattle.ct_placing.specs.Zeros.{AreZero};
ghost use Rattle.ct_words.specs.Shown.{shown_word};

use ct_base::{ADDRESS_END, INODE_BYTES, MOST_INODES, PAGE_BYTES, SLOT_SPAN};
use ct_marks::are_zero;
use ct_pm::Pm;
use ct_walk::absent_from;
use ct_words::place_of;

/// An address up to which all words from one on are 0, as far as one look at the tables tells; `None` where one is not.
///
/// It loads each word of a page that is there once.
pub fn zero_up_to<D: Pm>(dev: &D, a: u64, to: u64) -> Option<u64>
    requires tables { AreTables (D.words dev.now) }
    requires aligned { a % 8 ≡ 0 }
    requires end { to % 8 ≡ 0 }
    requires some { a < to }
    requires high { to ≤ ADDRESS_END }
    ensures next { IfSome result (λ e. (a < e) × (e ≤ to) × (e % 8 ≡ 0)) }
    ensures zero { IfSome result (λ e. AreZero (D.words dev.now) a e) }
    ensures none { IfNone result (AreZero (D.words dev.now) a to → ⊥) }
{
    let page = a / PAGE_BYTES;
    let absent = absent_from(dev, 4, page, (to + (PAGE_BYTES - 1)) / PAGE_BYTES);
    if absent > 0 {
        return Some(to.min((page + absent) * PAGE_BYTES));
    }
    let end = to.min((page + 1) * PAGE_BYTES);
    let word = place_of(dev, a);
    if are_zero(dev, word, word + (end - a) / 8) {
        Some(end)
    } else {
        None
    }
}

/// Whether the words from an address to the one before another are 0.
///
/// Its time grows with the pages that are mapped there.
pub fn are_zero_between<D: Pm>(dev: &D, from: u64, to: u64) -> bool
    requires tables { AreTables (D.words dev.now) }
    requires aligned { from % 8 ≡ 0 }
    requires end { to % 8 ≡ 0 }
    requires high { to ≤ ADDRESS_END }
    ensures { IsTrue result ↔ AreZero (D.words dev.now) from to }
{
    let mut a = from;
    while a < to {
        match zero_up_to(dev, a, to) {
            Some(next) => a = next,
            None => return false,
        }
    }
    true
}

/// Mount rule 16.
pub fn is_rest_zero<D: Pm>(dev: &D) -> bool
    requires tables { AreTables (D.words dev.now) }
    requires few { inode_count (D.words dev.now) ≤ MOST_INODES }
    ensures { IsTrue result ↔ IsRestZero (view (D.words dev.now)) (inode_count (D.words dev.now)) }
{
    let count = dev.load(3);
    are_zero_between(dev, 0, INODE_BYTES)
        && are_zero_between(dev, INODE_BYTES * (count + 1), SLOT_SPAN)
}
