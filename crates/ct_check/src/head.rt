// Mount rules 0 to 7, on an image as it is: the superblock and the redo record.
ghost use Rattle.std.specs.Prelude.{◌≡◌, ◌↔◌, ℕ, ◌+◌, ◌*◌, ◌<◌, ◌≤◌, length, slice_index, IfOk, IfErr, IsTrue};
ghost use Rattle.ct_base.specs.Head.{HasHead, HeadHolds, size, count, inodes, gates, targets};
ghost use Rattle.ct_base.specs.Settled.{HaveTargets};
ghost use Rattle.ct_base.specs.Walk.{word, page_count};
ghost use Rattle.ct_check.specs.Heads.{HeadTells};

use ct_base::{
    LEAST_INODES, LEAST_PAGES, LONG_GATE, LONG_PAIRS, MOST_INODES, MOST_LONG_PAIRS, MOST_PAGES,
    MOST_SHORT_PAIRS, PAGE_WORDS, ROOT_WORD, SHORT_GATE, SHORT_PAIRS,
};
use ct_marks::are_zero;
use ct_pm::Pm;

/// Word 0 of an image, by which it is known: the bytes `RTCTFS01`.
const MAGIC: u64 = 0x3130_5346_5443_5452;

// Whether each of so many pairs from a word on names one that it may name.
fn have_targets<D: Pm>(dev: &D, from: u64, pairs: u64) -> bool
    requires there { from + 2 * pairs ≤ length (D.words dev.now) }
    requires least { LEAST_PAGES ≤ page_count (D.words dev.now) }
    requires most { page_count (D.words dev.now) ≤ MOST_PAGES }
    requires room { 3 ≤ length (D.words dev.now) }
    ensures { IsTrue result ↔ HaveTargets from pairs (D.words dev.now) }
{
    let end = PAGE_WORDS * dev.load(2);
    for k in 0..pairs {
        let target = dev.load(from + 2 * k);
        if target < ROOT_WORD || target >= end {
            return false;
        }
    }
    true
}

// Rule 0.
fn is_sized<D: Pm>(dev: &D) -> bool
    ensures { IsTrue result ↔ HeadHolds (D.words dev.now) size }
{
    let pages = dev.pages();
    LEAST_PAGES <= pages && pages <= MOST_PAGES
}

// Rule 3.
fn is_counted<D: Pm>(dev: &D) -> bool
    requires { HeadHolds (D.words dev.now) size }
    ensures { IsTrue result ↔ HeadHolds (D.words dev.now) count }
{
    let pages = dev.load(2);
    LEAST_PAGES <= pages && pages <= dev.pages()
}

// Rule 4.
fn has_inodes<D: Pm>(dev: &D) -> bool
    requires { HeadHolds (D.words dev.now) size }
    ensures { IsTrue result ↔ HeadHolds (D.words dev.now) inodes }
{
    let numbers = dev.load(3);
    LEAST_INODES <= numbers && numbers <= MOST_INODES
}

// Rule 6.
fn has_gates<D: Pm>(dev: &D) -> bool
    requires { HeadHolds (D.words dev.now) size }
    ensures { IsTrue result ↔ HeadHolds (D.words dev.now) gates }
{
    let long = dev.load(LONG_GATE);
    let short = dev.load(SHORT_GATE);
    long <= MOST_LONG_PAIRS && short <= MOST_SHORT_PAIRS && (long == 0 || short == 0)
}

// Rule 7.
fn are_targets<D: Pm>(dev: &D) -> bool
    requires size { HeadHolds (D.words dev.now) size }
    requires count { HeadHolds (D.words dev.now) count }
    requires gates { HeadHolds (D.words dev.now) gates }
    ensures { IsTrue result ↔ HeadHolds (D.words dev.now) targets }
{
    have_targets(dev, LONG_PAIRS, dev.load(LONG_GATE))
        && have_targets(dev, SHORT_PAIRS, dev.load(SHORT_GATE))
}

/// Mount rules 0 to 7, on the device as it is.
///
/// # Errors
///
/// The number of the first rule that fails.
pub fn check_head<D: Pm>(dev: &D) -> Result<(), u32>
    ensures head { IfOk result (λ _. HasHead (D.words dev.now)) }
    ensures damage { IfErr result (HeadTells (D.words dev.now)) }
{
    if !is_sized(dev) {
        return Err(0);
    }
    if dev.load(0) != MAGIC {
        return Err(1);
    }
    if dev.load(1) != 1 {
        return Err(2);
    }
    if !is_counted(dev) {
        return Err(3);
    }
    if !has_inodes(dev) {
        return Err(4);
    }
    if !are_zero(dev, 4, PAGE_WORDS) {
        return Err(5);
    }
    if !has_gates(dev) {
        return Err(6);
    }
    if !are_targets(dev) {
        return Err(7);
    }
    Ok(())
}
