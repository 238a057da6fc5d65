//! Records of one to five pairs that stop after each call of their device, and what recovery makes of the images that are
//! left.
//!
//! There is no model of its own: the device is one that remembers its steps, behind a fuse.
#![tactic(auto)]

ghost use Rattle.std.specs.Prelude.{◌≡◌, ◌<◌, ◌≤◌, ◌*◌, ◌+◌, IfSome, IsTrue, length, slice_index};
ghost use Rattle.ct_base.specs.Settled.{HasPages, HaveTargets, IsRecord, settled as settled_words};
ghost use Rattle.ct_pm.specs.Device.{MakesOnly, NothingPending, SameOff};
ghost use Rattle.ct_record.specs.Record.{InRecord, StaysInLine};
ghost use Rattle.ct_record.specs.Seen.{IsShort, count_of, told_under};

use ct_base::{
    LONG_GATE, LONG_PAIRS, MOST_LONG_PAIRS, MOST_PAGES, MOST_SHORT_PAIRS, PAGE_WORDS, ROOT_WORD,
    SHORT_GATE, SHORT_PAIRS,
};
use ct_pm::Pm;
use ct_record::{Broken, Draft, Idle, complete};
use ct_recover::settle;

mod crash;

pub use crash::{IMAGES, Image, Steps, choices, steps_since};

/// The least number of pages of a device that may be settled, and that of the device of the tests.
pub const PAGES: u64 = 36;

// Whether each of so many pairs from a word on names one that it may name.
fn has_targets<D: Pm>(dev: &D, from: u64, count: u64, pages: u64) -> bool
    requires inside { from + 2 * count ≤ ROOT_WORD }
    requires pages { slice_index (D.words dev.now) 2 ≡ pages }
    requires few { pages ≤ MOST_PAGES }
    requires has { HasPages (D.words dev.now) }
    ensures { IsTrue result → HaveTargets from count (D.words dev.now) }
{
    for i in 0..count {
        let word = dev.load(from + 2 * i);
        if word < ROOT_WORD || word >= PAGE_WORDS * pages {
            return false;
        }
    }
    true
}

/// Whether the superblock tells the pages of the device, from `PAGES` to `MOST_PAGES`, and the open record, if any, is one
/// that may be applied.
pub fn has_record<D: Pm>(dev: &D) -> bool
    ensures record { IsTrue result → HasPages (D.words dev.now) × IsRecord (D.words dev.now) }
    ensures pages { IsTrue result → PAGES * PAGE_WORDS ≤ length (D.words dev.now) }
{
    let pages = dev.pages();
    if pages < PAGES || pages > MOST_PAGES {
        return false;
    }
    if dev.load(2) != pages {
        return false;
    }
    let count = dev.load(LONG_GATE);
    let short = dev.load(SHORT_GATE);
    if count > MOST_LONG_PAIRS || short > MOST_SHORT_PAIRS || (count > 0 && short > 0) {
        return false;
    }
    if !has_targets(dev, LONG_PAIRS, count, pages) {
        return false;
    }
    has_targets(dev, SHORT_PAIRS, short, pages)
}

/// The device settled, or none where it has no record that may be, or failed.
pub fn settled<D: Pm + Drop>(dev: D) -> Option<D>
    requires { NothingPending (D.told dev) }
    ensures { IfSome result (λ rested. SameOff InRecord (D.words rested) (settled_words (D.words dev))) }
{
    if !has_record(&dev) {
        return None;
    }
    match settle(dev) {
        Ok(dev) => Some(dev),
        Err(Broken { dev: _ }) => None,
    }
}

// Adds so many pairs, or those before the first that cannot be added.
fn add_pairs<D: Pm>(draft: &mut Draft<D>, pairs: u64)
    requires none { count_of draft.old ≡ 0 }
    requires few { pairs ≤ 5 }
    ensures short { pairs ≤ MOST_SHORT_PAIRS → IsShort draft.old → IsShort draft.new }
    ensures in_line { pairs ≤ MOST_SHORT_PAIRS → IsShort draft.old → MakesOnly StaysInLine (told_under draft.old) (told_under draft.new) }
{
    for i in 0..pairs {
        match draft.add(16910 + 100 * i, 7 + i) {
            Ok(()) => {}
            Err(_) => return,
        }
    }
}

/// Runs a record of so many pairs, or of those before the first that cannot be added, and tells whether all calls from then
/// on passed. One of up to three pairs stores no word of pages 1 to 32 but those of its line.
pub fn put_pairs<D: Pm>(dev: D, pairs: u64) -> (D, bool)
    requires settled { NothingPending (D.told dev) }
    requires few { pairs ≤ 5 }
    ensures in_line { pairs ≤ MOST_SHORT_PAIRS → MakesOnly StaysInLine (D.told dev) (D.told result.0) }
{
    if !has_record(&dev) || dev.load(LONG_GATE) != 0 || dev.load(SHORT_GATE) != 0 {
        return (dev, false);
    }
    let mut draft = Draft::begin(Idle::of(dev));
    add_pairs(&mut draft, pairs);
    if draft.count() == 0 {
        return (draft.abandon(), false);
    }
    match complete(draft) {
        Ok(idle) => (idle.into_dev(), true),
        Err(Broken { dev }) => (dev, false),
    }
}
